// What a walk requires of types and of the instances that are called.
ghost use Rattle.std.specs.Prelude.{◌≡◌};
ghost use Rattle.fip_trees.specs.TreeView as V;
ghost use Rattle.fip_rules.specs.Shapes.{takes};
ghost use Rattle.fip_rules.specs.World as W;
ghost use Rattle.derivation_walk.specs.Seen.{world_of};

use crate::context::Context;
use fip_base::core_form::MatchKind;

impl Context<'_> {
    /// Whether a type is scalar.
    pub fn is_scalar(&self, ty: u32) -> bool
        ensures scalar { result ≡ (world_of self.now).scalar ty }
    {
        self.scalars.is_scalar(ty)
    }

    /// Whether a match takes its scrutinee, of this type, apart.
    pub fn takes(&self, kind: MatchKind, ty: u32) -> bool
        ensures taken { result ≡ takes (world_of self.now) (V.is_destructive kind) ty }
    {
        match kind {
            MatchKind::Borrowing => false,
            MatchKind::Destructive => !self.is_scalar(ty),
        }
    }

    /// Whether the argument in this place of a call, from 0, is in a borrowed position: the parameter is borrowed, and
    /// of a type that isn't scalar.
    pub fn lends(&self, callee: u32, place: usize) -> bool
        ensures lends { result ≡ W.lends (world_of self.now) callee place }
    {
        match self.program.instances.get(callee as usize) {
            None => false,
            Some(instance) => match instance.params.as_slice().get(place) {
                None => false,
                Some(param) => param.lent && !self.is_scalar(param.ty),
            },
        }
    }
}
