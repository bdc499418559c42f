// Calls and operators, and their nodes.
ghost use Rattle.std.specs.Prelude.{◌≡◌, ◌+◌, ◌∷◌, ℕ, List, IsTrue, IfSome, IfNone, IsSomeAnd, Some, None, slice_get};
ghost use Rattle.fip_base.specs.declared.plain.Param as B;
ghost use Rattle.fip_trees.specs.Tree as T;
ghost use Rattle.fip_trees.specs.TreeView as V;
ghost use Rattle.fip_rules.specs.World.{world, is_fip, is_weaker};
ghost use Rattle.derivation_trees.specs.declared.derivation.RuleName.TheVariants as R;
ghost use Rattle.derivation_trees.specs.Trees.{Tree, Trees, MoreTrees};
ghost use Rattle.derivation_check.specs.Owned.{IsOwned, AreOwned, Leaf, Splits};
ghost use Rattle.derivation_check.specs.Places.{at, parts};
ghost use Rattle.derivation_check.specs.Scopes.{meant};
ghost use Rattle.derivation_check.specs.ScopeView.{frames, scope_of, Fits};
ghost use Rattle.derivation_check.specs.Calculus.{IsScalar, Operand, Plain, MayLend, Lends, DerivesValue, DerivesValues};
ghost use Rattle.derivation_check.specs.Calculus.{DerivesPassed, Calls};

use crate::nodes::following;
use crate::scope::{Scope, get_param, lends};
use crate::values::{Walk, meant, splits_all, splits_charged};
use crate::walk::{is_leaf, ruled};
use derivation_trees::RuleName;
use fip_base::plain::{FunKind, Param};
use fip_trees::program::{Argument, Instance};

// Where the nodes of the arguments that are left begin, and how many there are.
#[derive(Clone, Copy)]
struct Rest {
    place: usize,
    left: usize,
}

// Whether the other kind is weaker. The strongest is fip, then come fbip and plain.
fn is_weaker(own: FunKind, other: FunKind) -> bool
    ensures weaker { result ≡ is_weaker own other }
{
    match own {
        FunKind::Fip => match other {
            FunKind::Fip => false,
            FunKind::Fbip => true,
            FunKind::Fun => true,
        },
        FunKind::Fbip => match other {
            FunKind::Fip => false,
            FunKind::Fbip => false,
            FunKind::Fun => true,
        },
        FunKind::Fun => false,
    }
}

impl<'a> Walk<'a> {
    // Whether an occurrence means a scalar variable.
    fn is_scalar_variable(&self, scope: &Scope<'_>, binder: Option<usize>) -> bool
        requires { Fits (frames scope.now) }
        ensures sound { IsTrue result → IsScalar (world (V.program self.now.program.now) self.now.kind)
            (meant (scope_of (frames scope.now)).variables binder) }
        ensures complete { IsScalar (world (V.program self.now.program.now) self.now.kind)
            (meant (scope_of (frames scope.now)).variables binder) → IsTrue result }
    {
        match meant(scope, binder) {
            None => false,
            Some(variable) => self.is_scalar(variable.ty),
        }
    }

    // Whether an occurrence means a variable that is scalar or borrowed.
    fn may_lend(&self, scope: &Scope<'_>, binder: Option<usize>) -> bool
        requires { Fits (frames scope.now) }
        ensures sound { IsTrue result → MayLend (world (V.program self.now.program.now) self.now.kind)
            (scope_of (frames scope.now)).lent (meant (scope_of (frames scope.now)).variables binder) }
        ensures complete { MayLend (world (V.program self.now.program.now) self.now.kind)
            (scope_of (frames scope.now)).lent (meant (scope_of (frames scope.now)).variables binder) → IsTrue result }
    {
        match meant(scope, binder) {
            None => false,
            Some(variable) => {
                self.is_scalar(variable.ty) || (!variable.is_owned || lends(scope, variable.number))
            }
        }
    }

    // An operand: a literal or a scalar variable.
    fn operand(&self, scope: &Scope<'_>, argument: &Argument) -> bool
        requires { Fits (frames scope.now) }
        ensures sound { IsTrue result → Operand (world (V.program self.now.program.now) self.now.kind)
            (scope_of (frames scope.now)).variables (V.argument argument.now) }
        ensures complete { Operand (world (V.program self.now.program.now) self.now.kind)
            (scope_of (frames scope.now)).variables (V.argument argument.now) → IsTrue result }
    {
        match argument {
            Argument::Variable { binder, .. } => self.is_scalar_variable(scope, *binder),
            Argument::Literal { .. } => true,
            Argument::Constructor { .. } => false,
        }
    }

    // An argument of a scalar type: an operand, or a constructor without fields.
    #[tactic(auto, using(crate::proofs::Passing::plain))]
    fn is_plain(&self, scope: &Scope<'_>, argument: &Argument) -> bool
        requires { Fits (frames scope.now) }
        ensures sound { IsTrue result → Plain (world (V.program self.now.program.now) self.now.kind)
            (scope_of (frames scope.now)).variables (V.argument argument.now) }
        ensures complete { Plain (world (V.program self.now.program.now) self.now.kind)
            (scope_of (frames scope.now)).variables (V.argument argument.now) → IsTrue result }
    {
        match argument {
            Argument::Variable { binder, .. } => self.is_scalar_variable(scope, *binder),
            Argument::Literal { .. } => true,
            Argument::Constructor { arguments, .. } => arguments.len() == 0,
        }
    }

    /// Whether an argument in a borrowed position is borrowed.
    pub fn is_lent(&self, scope: &Scope<'_>, argument: &Argument) -> bool
        requires { Fits (frames scope.now) }
        ensures sound { IsTrue result → Lends (world (V.program self.now.program.now) self.now.kind)
            (scope_of (frames scope.now)) (V.argument argument.now) }
        ensures complete { Lends (world (V.program self.now.program.now) self.now.kind)
            (scope_of (frames scope.now)) (V.argument argument.now) → IsTrue result }
    {
        match argument {
            Argument::Variable { binder, .. } => self.may_lend(scope, *binder),
            Argument::Literal { .. } => false,
            Argument::Constructor { .. } => false,
        }
    }

    /// Whether an operation of two operands has a node that has nothing.
    pub fn operation(
        &self,
        scope: &Scope<'_>,
        next: usize,
        place: usize,
        left: &Argument,
        right: &Argument,
    ) -> bool
        requires scope { Fits (frames scope.now) }
        requires owned { IsOwned next (at self.now.nodes.now place) }
        ensures leaf { IsTrue result → Leaf (is_fip self.now.kind) next R.Scalar (at self.now.nodes.now place) }
        ensures operands { IsTrue result → Operand (world (V.program self.now.program.now) self.now.kind)
            (scope_of (frames scope.now)).variables (V.argument left.now)
            × Operand (world (V.program self.now.program.now) self.now.kind)
            (scope_of (frames scope.now)).variables (V.argument right.now) }
        ensures complete { Leaf (is_fip self.now.kind) next R.Scalar (at self.now.nodes.now place) →
            Operand (world (V.program self.now.program.now) self.now.kind)
            (scope_of (frames scope.now)).variables (V.argument left.now) →
            Operand (world (V.program self.now.program.now) self.now.kind)
            (scope_of (frames scope.now)).variables (V.argument right.now) → IsTrue result }
    {
        if !self.operand(scope, left) || !self.operand(scope, right) {
            return false;
        }
        is_leaf(self.nodes, place, self.kind, next, RuleName::Scalar)
    }

    /// Whether a tuple splits over its components.
    pub fn tuple(
        &self,
        scope: &Scope<'_>,
        next: usize,
        place: usize,
        arguments: &[Argument],
    ) -> bool
        requires scope { Fits (frames scope.now) }
        requires owned { IsOwned next (at self.now.nodes.now place) }
        ensures sound { IsTrue result → Splits (is_fip self.now.kind) next R.Tuple (λ i. 0)
            (λ ts. DerivesValues (world (V.program self.now.program.now) self.now.kind)
            (scope_of (frames scope.now)).variables next ts (V.arguments arguments.now)) (at self.now.nodes.now place) }
        ensures complete { Splits (is_fip self.now.kind) next R.Tuple (λ i. 0)
            (λ ts. DerivesValues (world (V.program self.now.program.now) self.now.kind)
            (scope_of (frames scope.now)).variables next ts (V.arguments arguments.now)) (at self.now.nodes.now place) →
            IsTrue result }
    {
        match ruled(self.nodes, place, self.kind, next, RuleName::Tuple) {
            None => false,
            Some(found) => {
                if !splits_all(self.nodes, &found, next) {
                    return false;
                }
                self.arguments(scope, next, found.first, found.node.parts, arguments)
            }
        }
    }

    // An argument in an owned position that isn't scalar.
    #[tactic(auto, using(crate::proofs::Rows::rows))]
    fn given(&self, scope: &Scope<'_>, next: usize, rest: Rest, argument: &Argument) -> Option<Rest>
        requires scope { Fits (frames scope.now) }
        requires owned { AreOwned next (parts self.now.nodes.now rest.place rest.left) }
        ensures some { IfSome result (λ r. (parts self.now.nodes.now rest.place rest.left
            ≡ MoreTrees (at self.now.nodes.now rest.place) (parts self.now.nodes.now r.place r.left))
            × AreOwned next (parts self.now.nodes.now r.place r.left)
            × DerivesValue (world (V.program self.now.program.now) self.now.kind)
            (scope_of (frames scope.now)).variables next (at self.now.nodes.now rest.place) (V.argument argument.now)) }
        ensures complete { (t : Tree) (us : Trees) → parts self.now.nodes.now rest.place rest.left ≡ MoreTrees t us →
            DerivesValue (world (V.program self.now.program.now) self.now.kind)
            (scope_of (frames scope.now)).variables next t (V.argument argument.now) →
            IsSomeAnd result (λ r. us ≡ parts self.now.nodes.now r.place r.left) }
    {
        if rest.left == 0 {
            return None;
        }
        if !self.argument(scope, next, rest.place, argument) {
            return None;
        }
        Some(Rest {
            place: following(self.nodes, rest.place),
            left: rest.left - 1,
        })
    }

    // An argument of a call.
    #[tactic(auto, using(crate::proofs::Passing::passing))]
    fn passed(
        &self,
        scope: &Scope<'_>,
        next: usize,
        rest: Rest,
        param: Param,
        argument: &Argument,
    ) -> Option<Rest>
        requires scope { Fits (frames scope.now) }
        requires owned { AreOwned next (parts self.now.nodes.now rest.place rest.left) }
        ensures owned { IfSome result (λ r. AreOwned next (parts self.now.nodes.now r.place r.left)) }
        ensures sound { IfSome result (λ r. (ps : List B.Param) (as' : T.Arguments) →
            DerivesPassed (world (V.program self.now.program.now) self.now.kind) (scope_of (frames scope.now)) next ps
            as' (parts self.now.nodes.now r.place r.left) →
            DerivesPassed (world (V.program self.now.program.now) self.now.kind) (scope_of (frames scope.now)) next
            (param ∷ ps) (T.MoreArguments (V.argument argument.now) as')
            (parts self.now.nodes.now rest.place rest.left)) }
        ensures complete { (ps : List B.Param) (as' : T.Arguments) →
            DerivesPassed (world (V.program self.now.program.now) self.now.kind) (scope_of (frames scope.now)) next
            (param ∷ ps) (T.MoreArguments (V.argument argument.now) as')
            (parts self.now.nodes.now rest.place rest.left) →
            IsSomeAnd result (λ r. DerivesPassed (world (V.program self.now.program.now) self.now.kind)
            (scope_of (frames scope.now)) next ps as' (parts self.now.nodes.now r.place r.left)) }
    {
        if self.is_scalar(param.ty) {
            if self.is_plain(scope, argument) {
                return Some(rest);
            }
            return None;
        }
        if param.lent {
            if self.is_lent(scope, argument) {
                return Some(rest);
            }
            return None;
        }
        match self.given(scope, next, rest, argument) {
            None => None,
            Some(following) => Some(following),
        }
    }

    // The arguments of a call, and the nodes of those in owned positions that aren't scalar.
    fn all_passed(
        &self,
        scope: &Scope<'_>,
        next: usize,
        nodes: Rest,
        params: &[Param],
        arguments: &[Argument],
    ) -> bool
        requires scope { Fits (frames scope.now) }
        requires owned { AreOwned next (parts self.now.nodes.now nodes.place nodes.left) }
        ensures sound { IsTrue result → DerivesPassed (world (V.program self.now.program.now) self.now.kind)
            (scope_of (frames scope.now)) next params.now (V.arguments arguments.now)
            (parts self.now.nodes.now nodes.place nodes.left) }
        ensures complete { DerivesPassed (world (V.program self.now.program.now) self.now.kind)
            (scope_of (frames scope.now)) next params.now (V.arguments arguments.now)
            (parts self.now.nodes.now nodes.place nodes.left) → IsTrue result }
    {
        let mut rest = nodes;
        let mut place: usize = 0;
        for argument in arguments {
            match get_param(params, place) {
                None => {
                    return false;
                }
                Some(param) => match self.passed(scope, next, rest, param, argument) {
                    None => {
                        return false;
                    }
                    Some(following) => {
                        rest = following;
                    }
                },
            }
            place += 1;
        }
        place == params.len() && rest.left == 0
    }

    fn callee(&self, callee: u32) -> Option<&'a Instance>
        ensures some { IfSome result (λ d. slice_get (V.program self.now.program.now).instances callee
            ≡ Some (V.instance_of d.now)) }
        ensures none { IfNone result (slice_get (V.program self.now.program.now).instances callee ≡ None) }
    {
        self.program.instances.get(callee as usize)
    }

    /// Whether a call of an instance, which isn't weaker, uses up what its node has.
    pub fn call(
        &self,
        scope: &Scope<'_>,
        next: usize,
        place: usize,
        callee: u32,
        arguments: &[Argument],
    ) -> bool
        requires scope { Fits (frames scope.now) }
        requires owned { IsOwned next (at self.now.nodes.now place) }
        ensures sound { IsTrue result → Calls (world (V.program self.now.program.now) self.now.kind)
            (scope_of (frames scope.now)) next (slice_get (V.program self.now.program.now).instances callee)
            (V.arguments arguments.now) (at self.now.nodes.now place) }
        ensures complete { Calls (world (V.program self.now.program.now) self.now.kind)
            (scope_of (frames scope.now)) next (slice_get (V.program self.now.program.now).instances callee)
            (V.arguments arguments.now) (at self.now.nodes.now place) → IsTrue result }
    {
        match self.callee(callee) {
            None => false,
            Some(instance) => self.call_of(scope, next, place, instance, arguments),
        }
    }

    fn call_of(
        &self,
        scope: &Scope<'_>,
        next: usize,
        place: usize,
        instance: &Instance,
        arguments: &[Argument],
    ) -> bool
        requires scope { Fits (frames scope.now) }
        requires owned { IsOwned next (at self.now.nodes.now place) }
        ensures sound { IsTrue result → Calls (world (V.program self.now.program.now) self.now.kind)
            (scope_of (frames scope.now)) next (Some (V.instance_of instance.now)) (V.arguments arguments.now)
            (at self.now.nodes.now place) }
        ensures complete { Calls (world (V.program self.now.program.now) self.now.kind)
            (scope_of (frames scope.now)) next (Some (V.instance_of instance.now)) (V.arguments arguments.now)
            (at self.now.nodes.now place) → IsTrue result }
    {
        if is_weaker(self.kind, instance.kind) {
            return false;
        }
        match ruled(self.nodes, place, self.kind, next, RuleName::Call) {
            None => false,
            Some(found) => {
                if !splits_charged(self.nodes, &found, next, &instance.credits) {
                    return false;
                }
                let nodes = Rest {
                    place: found.first,
                    left: found.node.parts,
                };
                self.all_passed(scope, next, nodes, instance.params.as_slice(), arguments)
            }
        }
    }
}
