// Arguments and their nodes, side by side.
ghost use Rattle.std.specs.Prelude.{◌≡◌, ◌+◌, ℕ, List, IsTrue, IfSome, IfNone, Some, None};
ghost use Rattle.fip_trees.specs.fip_language.Table.{is_scalar};
ghost use Rattle.fip_base.specs.declared.plain.Param.{Param};
ghost use Rattle.fip_trees.specs.Tree as T;
ghost use Rattle.fip_trees.specs.TreeView as V;
ghost use Rattle.fip_rules.specs.World.{world, is_fip};
ghost use Rattle.ownership_calculus.specs.Terms.{Item, paid, charge};
ghost use Rattle.derivation_trees.specs.Trees.{Trees};
ghost use Rattle.derivation_check.specs.Owned.{IsOwned, AreOwned};
ghost use Rattle.derivation_check.specs.Places.{at, parts, node_with, Split};
ghost use Rattle.derivation_check.specs.Scopes.{meant};
ghost use Rattle.derivation_check.specs.ScopeView.{frames, scope_of, Fits, known_as};
ghost use Rattle.derivation_check.specs.Calculus.{UsesVariable, Builds, DerivesValue};
ghost use Rattle.derivation_check.specs.Calculus.{DerivesValues, Operand, Plain, MayLend};
ghost use Rattle.derivation_check.specs.Calculus.{Lends, DerivesPassed};

use crate::counts::Counts;
use crate::nodes::following;
use crate::scalar_types::ScalarTypes;
use crate::scope::{Scope, Variable, find, lends};
use crate::walk::{Found, is_leaf, is_variable, ruled, splits};
use derivation_trees::{Node, RuleName};
use fip_base::plain::{FunKind, Param};
use fip_trees::program::{Argument, Program};

/// What a walk goes through.
#[derive(Drop)]
pub struct Walk<'a> {
    pub program: &'a Program,
    pub scalars: &'a ScalarTypes<'a>,
    pub kind: FunKind,
    pub nodes: &'a [Node],
    pub ghost same: { scalars.now.program.now ≡ program.now },
}

/// The variable that an occurrence means.
pub fn meant(scope: &Scope<'_>, binder: Option<usize>) -> Option<Variable>
    requires { Fits (frames scope.now) }
    ensures some { IfSome result (λ v. (x : ℕ) × (meant (scope_of (frames scope.now)).variables binder
        ≡ Some (known_as x v))) }
    ensures none { IfNone result (meant (scope_of (frames scope.now)).variables binder ≡ None) }
{
    match binder {
        None => None,
        Some(binder) => find(scope, binder),
    }
}

/// Whether what a node has splits over its parts.
#[tactic(auto, using(crate::proofs::Splitting::splits_over))]
pub fn splits_all(nodes: &[Node], found: &Found<'_>, next: usize) -> bool
    requires { IsOwned next (node_with nodes.now found.now.first found.now.node.now) }
    ensures sound { IsTrue result → Split next (node_with nodes.now found.now.first found.now.node.now) (λ i. 0) }
    ensures complete { Split next (node_with nodes.now found.now.first found.now.node.now) (λ i. 0) → IsTrue result }
{
    splits(nodes, found, next, Counts::of(&found.node.credits))
}

// Whether it splits over its parts and the credit of a constructor with so many fields.
#[tactic(auto, using(crate::proofs::Splitting::splits_over))]
fn splits_paid(nodes: &[Node], found: &Found<'_>, next: usize, fields: usize) -> bool
    requires { IsOwned next (node_with nodes.now found.now.first found.now.node.now) }
    ensures sound { IsTrue result → Split next (node_with nodes.now found.now.first found.now.node.now) (paid fields) }
    ensures complete { Split next (node_with nodes.now found.now.first found.now.node.now) (paid fields) →
        IsTrue result }
{
    let mut counts = Counts::of(&found.node.credits);
    if !counts.take_paid(fields) {
        return false;
    }
    splits(nodes, found, next, counts)
}

/// Whether it splits over its parts and the credits that a header marks.
#[tactic(auto, using(crate::proofs::Splitting::splits_over))]
pub fn splits_charged(nodes: &[Node], found: &Found<'_>, next: usize, sizes: &[u8]) -> bool
    requires { IsOwned next (node_with nodes.now found.now.first found.now.node.now) }
    ensures sound { IsTrue result → Split next (node_with nodes.now found.now.first found.now.node.now) (charge
        sizes.now) }
    ensures complete { Split next (node_with nodes.now found.now.first found.now.node.now) (charge sizes.now) →
        IsTrue result }
{
    let mut counts = Counts::of(&found.node.credits);
    if !counts.take_marked(sizes) {
        return false;
    }
    splits(nodes, found, next, counts)
}

impl<'a> Walk<'a> {
    /// Whether a type is scalar.
    pub fn is_scalar(&self, ty: u32) -> bool
        ensures scalar { result ≡ is_scalar self.now.program.now.types ty }
    {
        self.scalars.is_scalar(ty)
    }

    /// Whether an argument in an owned position is derived by the node at a place.
    #[cycle(argument)]
    pub fn argument(
        &self,
        scope: &Scope<'_>,
        next: usize,
        place: usize,
        argument: &Argument,
    ) -> bool
        requires scope { Fits (frames scope.now) }
        requires owned { IsOwned next (at self.now.nodes.now place) }
        ensures sound { IsTrue result → DerivesValue (world (V.program self.now.program.now) self.now.kind)
            (scope_of (frames scope.now)).variables next (at self.now.nodes.now place) (V.argument argument.now) }
        ensures complete { DerivesValue (world (V.program self.now.program.now) self.now.kind)
            (scope_of (frames scope.now)).variables next (at self.now.nodes.now place) (V.argument argument.now) →
            IsTrue result }
    {
        match argument {
            Argument::Variable { binder, .. } => self.variable(scope, next, place, *binder),
            Argument::Literal { .. } => {
                is_leaf(self.nodes, place, self.kind, next, RuleName::Scalar)
            }
            Argument::Constructor { arguments, .. } => self.constructor(
                scope, next, place, arguments,
            ),
        }
    }

    // A variable: an owned one is used up alone, a scalar one uses nothing up.
    fn variable(&self, scope: &Scope<'_>, next: usize, place: usize, binder: Option<usize>) -> bool
        requires scope { Fits (frames scope.now) }
        requires owned { IsOwned next (at self.now.nodes.now place) }
        ensures sound { IsTrue result → UsesVariable (world (V.program self.now.program.now) self.now.kind) next
            (meant (scope_of (frames scope.now)).variables binder) (at self.now.nodes.now place) }
        ensures complete { UsesVariable (world (V.program self.now.program.now) self.now.kind) next
            (meant (scope_of (frames scope.now)).variables binder) (at self.now.nodes.now place) → IsTrue result }
    {
        match meant(scope, binder) {
            None => false,
            Some(variable) => {
                if self.is_scalar(variable.ty) {
                    return is_leaf(self.nodes, place, self.kind, next, RuleName::Scalar);
                }
                is_variable(self.nodes, place, self.kind, next, variable.number)
            }
        }
    }

    // A constructor with these fields.
    #[cycle(argument)]
    fn constructor(
        &self,
        scope: &Scope<'_>,
        next: usize,
        place: usize,
        arguments: &[Argument],
    ) -> bool
        requires scope { Fits (frames scope.now) }
        requires owned { IsOwned next (at self.now.nodes.now place) }
        ensures sound { IsTrue result → Builds (world (V.program self.now.program.now) self.now.kind) next
            (T.count (V.arguments arguments.now)) (λ ts. DerivesValues (world (V.program self.now.program.now)
            self.now.kind) (scope_of (frames scope.now)).variables next ts (V.arguments arguments.now))
            (at self.now.nodes.now place) }
        ensures complete { Builds (world (V.program self.now.program.now) self.now.kind) next
            (T.count (V.arguments arguments.now)) (λ ts. DerivesValues (world (V.program self.now.program.now)
            self.now.kind) (scope_of (frames scope.now)).variables next ts (V.arguments arguments.now))
            (at self.now.nodes.now place) → IsTrue result }
    {
        if arguments.len() == 0 {
            return is_leaf(self.nodes, place, self.kind, next, RuleName::Atom);
        }
        match ruled(self.nodes, place, self.kind, next, RuleName::Reuse) {
            None => false,
            Some(found) => {
                if !splits_paid(self.nodes, &found, next, arguments.len()) {
                    return false;
                }
                self.arguments(scope, next, found.first, found.node.parts, arguments)
            }
        }
    }

    /// Whether some arguments are derived by as many nodes from a place on.
    #[cycle(argument)]
    pub fn arguments(
        &self,
        scope: &Scope<'_>,
        next: usize,
        first: usize,
        count: usize,
        arguments: &[Argument],
    ) -> bool
        requires scope { Fits (frames scope.now) }
        requires owned { AreOwned next (parts self.now.nodes.now first count) }
        ensures sound { IsTrue result → DerivesValues (world (V.program self.now.program.now) self.now.kind)
            (scope_of (frames scope.now)).variables next (parts self.now.nodes.now first count)
            (V.arguments arguments.now) }
        ensures complete { DerivesValues (world (V.program self.now.program.now) self.now.kind)
            (scope_of (frames scope.now)).variables next (parts self.now.nodes.now first count)
            (V.arguments arguments.now) → IsTrue result }
    {
        let mut place = first;
        let mut left = count;
        for argument in arguments {
            if left == 0 {
                return false;
            }
            if !self.argument(scope, next, place, argument) {
                return false;
            }
            place = following(self.nodes, place);
            left -= 1;
        }
        left == 0
    }
}
