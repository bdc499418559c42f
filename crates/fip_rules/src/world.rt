// What the rules require of types and of the instances that are called.
ghost use Rattle.std.specs.Prelude.{◌≡◌};
ghost use Rattle.fip_trees.specs.TreeView as V;
ghost use Rattle.fip_rules.specs.Shapes.{takes};
ghost use Rattle.fip_rules.specs.World as W;
ghost use Rattle.fip_rules.specs.Views.{world_of};

use crate::scope::Ownership;
use fip_base::core_form::MatchKind;
use fip_base::plain::FunKind;
use fip_trees::program::Instance;
use fip_trees::scalars::Scalars;

/// What the rules look up while they walk through an instance: the instances, which types are scalar, and the kind of
/// the instance.
#[derive(Clone, Copy)]
pub struct World<'a> {
    pub instances: &'a [Instance],
    pub scalars: &'a Scalars,
    pub kind: FunKind,
}

impl World<'_> {
    /// Whether a type is scalar.
    pub fn is_scalar(&self, ty: u32) -> bool
        ensures scalar { result ≡ (world_of self.now).scalar ty }
    {
        self.scalars.is_scalar(ty)
    }

    /// Whether a match uses up its scrutinee, of this type.
    pub fn takes(&self, kind: MatchKind, ty: u32) -> bool
        ensures taken { result ≡ takes (world_of self.now) (V.is_destructive kind) ty }
    {
        match kind {
            MatchKind::Borrowing => false,
            MatchKind::Destructive => !self.is_scalar(ty),
        }
    }

    /// Whether the argument in this place of a call, from 0, is in a borrowed position: the parameter is borrowed, and
    /// of a type that isn't scalar.
    pub fn lends(&self, callee: u32, place: usize) -> bool
        ensures lends { result ≡ W.lends (world_of self.now) callee place }
    {
        match self.instances.get(callee as usize) {
            None => false,
            Some(instance) => match instance.params.as_slice().get(place) {
                None => false,
                Some(param) => param.lent && !self.is_scalar(param.ty),
            },
        }
    }

    /// Whether the callee's kind is weaker than the instance's.
    pub fn is_weaker(&self, callee: u32) -> bool
        ensures weaker { result ≡ W.weaker (world_of self.now) callee }
    {
        match self.instances.get(callee as usize) {
            None => false,
            Some(instance) => is_weaker_kind(self.kind, instance.kind),
        }
    }

    /// How a variable of a type is bound where its value is taken, or only borrowed.
    pub fn ownership(&self, is_taken: bool, ty: u32) -> Ownership
        ensures bound { result ≡ W.ownership (world_of self.now) is_taken ty }
    {
        if self.is_scalar(ty) {
            Ownership::Scalar
        } else if is_taken {
            Ownership::Owned
        } else {
            Ownership::Borrowed
        }
    }
}

// Whether the other kind is weaker. The strongest is fip, then come fbip and plain.
fn is_weaker_kind(own: FunKind, other: FunKind) -> bool
    ensures { result ≡ W.is_weaker own other }
{
    match (own, other) {
        (FunKind::Fip, FunKind::Fip) => false,
        (FunKind::Fip, FunKind::Fbip) => true,
        (FunKind::Fip, FunKind::Fun) => true,
        (FunKind::Fbip, FunKind::Fip) => false,
        (FunKind::Fbip, FunKind::Fbip) => false,
        (FunKind::Fbip, FunKind::Fun) => true,
        (FunKind::Fun, _) => false,
    }
}
