// What the walk over an instance looks up.
ghost use Rattle.std.specs.Prelude.{◌≡◌, ℕ, true, get_or, option_map};
ghost use Rattle.fip_trees.specs.fip_language.Table.{is_scalar};
ghost use Rattle.fip_trees.specs.TreeView as V;
ghost use Rattle.credit_check.specs.Needs.{takes};

use fip_base::core_form::MatchKind;
use fip_trees::program::Program;
use fip_trees::scalars::Scalars;

/// The program, which of its types are scalar, the instance's number, and whether it is fip.
#[derive(Drop)]
pub struct Context<'a> {
    pub program: &'a Program,
    pub scalars: &'a Scalars,
    pub instance: usize,
    pub is_fip: bool,
    pub ghost exact: { (t : ℕ) → get_or scalars.now t true ≡ is_scalar program.now.types t },
}

impl Context<'_> {
    /// Whether a match takes the cells of its scrutinee, of this type.
    pub fn takes(&self, kind: MatchKind, ty: u32) -> bool
        ensures taken { result ≡ takes (V.program self.now.program.now) (V.is_destructive kind) ty }
    {
        match kind {
            MatchKind::Borrowing => false,
            MatchKind::Destructive => !self.scalars.is_scalar(ty),
        }
    }
}
