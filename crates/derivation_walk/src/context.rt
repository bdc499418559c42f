// What the walks over an instance look up.
ghost use Rattle.std.specs.Prelude.{◌≡◌, ℕ, true, get_or};
ghost use Rattle.fip_language.specs.Table.{is_scalar};

use fip_base::plain::FunKind;
use fip_trees::program::Program;
use fip_trees::scalars::Scalars;

/// The program, which of its types are scalar, and the instance's kind.
#[derive(Drop)]
pub struct Context<'a> {
    pub program: &'a Program,
    pub scalars: &'a Scalars,
    pub kind: FunKind,
    pub ghost exact: { (t : ℕ) → get_or scalars.now t true ≡ is_scalar program.now.types t },
}
