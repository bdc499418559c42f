// Bodies and their derivations, side by side.
ghost use Rattle.std.specs.Prelude.{◌≡◌, ◌<◌, ◌≤◌, ◌+◌, ◌∷◌, ℕ, Bool};
ghost use Rattle.std.specs.Prelude.{List, Option, Some, None, IsTrue, IfSome, IfNone, map, length};
ghost use Rattle.std.specs.Prelude.{true, false, IsSomeAnd};
ghost use Rattle.fip_trees.specs.Tree as T;
ghost use Rattle.fip_trees.specs.TreeView as V;
ghost use Rattle.fip_rules.specs.World as W;
ghost use Rattle.fip_rules.specs.World.{world, is_fip};
ghost use Rattle.fip_rules.specs.Shapes as P;
ghost use Rattle.fip_rules.specs.Shapes.{binders};
ghost use Rattle.ownership_calculus.specs.Terms.{Item, given};
ghost use Rattle.derivation_trees.specs.declared.derivation.RuleName.TheVariants as R;
ghost use Rattle.derivation_trees.specs.declared.derivation.Credit as D;
ghost use Rattle.derivation_trees.specs.Trees.{Branch, Trees};
ghost use Rattle.derivation_check.specs.Owned.{amount, owned, root, IsOwned, Rising, RisingSizes};
ghost use Rattle.derivation_check.specs.Patterns.{nodes};
ghost use Rattle.derivation_check.specs.Places.{at, parts, node_with, IsRising};
ghost use Rattle.derivation_check.specs.Heads.{IsTaking, IsLending, TakenNode, AllClauses};
ghost use Rattle.derivation_check.specs.Scopes as S;
ghost use Rattle.derivation_check.specs.Scopes.{AreNumbered, lending, within, within_block, within_clauses};
ghost use Rattle.derivation_check.specs.ScopeView.{frames, scope_of, bindings, Fits, AreBindings};
ghost use Rattle.derivation_check.specs.Calculus.{bound, is_taken, IsClause, GoesOn, Derives, DerivesBlock, DerivesClauses};

use crate::binders::numbered;
use crate::counts::Counts;
use crate::heads::Head;
use crate::lists::is_split;
use crate::nodes::{credits_at, following, is_owned, variables_at};
use crate::numbering::are_numbered;
use crate::parts::place_of;
use crate::scope::Scope;
use crate::values::{Walk, meant};
use crate::walk::{Found, ruled};
use derivation_trees::{Credit, RuleName};
use fip_base::core_form::MatchKind;
use fip_trees::program::{Argument, Binder, Binding, Block, Clause, Expression, Pattern};

/// Within a clause of a match.
#[tactic(auto, using(crate::proofs::Inside::in_clauses))]
pub fn in_clause<'a>(
    outer: &'a Scope<'a>,
    pattern: &'a Pattern,
    is_taken: bool,
    core: usize,
    next: usize,
) -> Scope<'a>
    requires numbered { AreNumbered core next (binders (V.pattern pattern.now)) }
    requires order { core ≤ next }
    requires outer { Fits (frames outer.now) }
    ensures fits { Fits (frames result) }
    ensures scope { scope_of (frames result)
        ≡ S.binding next is_taken (binders (V.pattern pattern.now)) (scope_of (frames outer.now)) }
{
    Scope::Clause {
        outer,
        pattern,
        is_taken,
        core,
        next,
    }
}

/// After some bindings of a block.
#[tactic(auto, using(crate::proofs::Inside::in_block))]
pub fn in_bindings<'a>(
    outer: &'a Scope<'a>,
    before: &'a [Binding],
    core: usize,
    next: usize,
) -> Scope<'a>
    requires numbered { AreBindings core next (map V.binding before.now) }
    requires order { core ≤ next }
    requires outer { Fits (frames outer.now) }
    ensures fits { Fits (frames result) }
    ensures scope { scope_of (frames result) ≡ bindings next (map V.binding before.now) (scope_of (frames outer.now)) }
{
    Scope::Bindings {
        outer,
        bindings: before,
        core,
        next,
    }
}

/// Inside what a let binds.
#[tactic(auto, using(crate::proofs::Inside::in_let))]
pub fn in_bound<'a>(outer: &'a Scope<'a>, whole: &'a [usize], used: &'a [usize]) -> Scope<'a>
    requires whole { IsRising whole.now }
    requires used { IsRising used.now }
    requires outer { Fits (frames outer.now) }
    ensures fits { Fits (frames result) }
    ensures scope { scope_of (frames result) ≡ lending whole.now used.now (scope_of (frames outer.now)) }
{
    Scope::Bound { outer, whole, used }
}

// Whether the credits of a whole are those of two parts.
fn are_shared(whole: &[Credit], one: &[Credit], other: &[Credit]) -> bool
    requires { RisingSizes 1 whole.now }
    ensures sound { IsTrue result → (k : ℕ) → amount k whole.now ≡ amount k one.now + amount k other.now }
    ensures complete { ((k : ℕ) → amount k whole.now ≡ amount k one.now + amount k other.now) → IsTrue result }
{
    let mut counts = Counts::of(whole);
    if !counts.take_all(one) {
        return false;
    }
    if !counts.take_all(other) {
        return false;
    }
    counts.is_empty()
}

// Whether the credits of a clause are those of the match and, where it takes its scrutinee apart, the pattern's.
fn are_given(whole: &[Credit], have: &[Credit], pattern: &Pattern) -> bool
    requires { RisingSizes 1 whole.now }
    ensures sound { IsTrue result → (k : ℕ) → amount k whole.now ≡ amount k have.now + nodes k (V.pattern pattern.now) }
    ensures complete { ((k : ℕ) → amount k whole.now ≡ amount k have.now + nodes k (V.pattern pattern.now)) →
        IsTrue result }
{
    let mut counts = Counts::of(whole);
    if !counts.take_all(have) {
        return false;
    }
    if !counts.take_given(pattern) {
        return false;
    }
    counts.is_empty()
}

// Whether two nodes have the same credits.
fn are_same(whole: &[Credit], have: &[Credit]) -> bool
    requires { RisingSizes 1 whole.now }
    ensures sound { IsTrue result → (k : ℕ) → amount k whole.now ≡ amount k have.now }
    ensures complete { ((k : ℕ) → amount k whole.now ≡ amount k have.now) → IsTrue result }
{
    let mut counts = Counts::of(whole);
    if !counts.take_all(have) {
        return false;
    }
    counts.is_empty()
}

/// Whether a match takes its scrutinee apart.
pub fn is_taken(taken: Option<usize>) -> bool
    ensures taken { result ≡ is_taken taken }
{
    match taken {
        None => false,
        Some(_) => true,
    }
}

/// The binders of a let.
#[tactic(auto, using(crate::proofs::Inside::own_binders_are))]
pub fn own_binders<'a>(binding: &'a Binding) -> &'a [Binder]
    ensures binders { (V.binding binding.now).binders ≡ result.now }
{
    binding.binders.as_slice()
}

/// That many binders, none, where it holds.
pub fn none_within(holds: bool) -> Option<usize>
    ensures none { IfSome result (λ n. (holds ≡ true) × (n ≡ 0)) }
    ensures other { IfNone result (holds ≡ false) }
{
    if holds { Some(0) } else { None }
}

impl<'a> Walk<'a> {
    /// Whether what a let has splits over what is bound by it and its rest, which has the binders too.
    #[tactic(auto, using(crate::proofs::Blocks::letting))]
    pub fn lets(&self, found: &Found<'_>, next: usize, rest: usize, binders: &[Binder]) -> bool
        requires owned { IsOwned next (node_with self.now.nodes.now found.now.first found.now.node.now) }
        requires room { next + length binders.now ≤ 4294967296 }
        ensures bound { IsTrue result → IsOwned next (at self.now.nodes.now found.now.first) }
        ensures inside { IsTrue result →
            IsOwned (next + length binders.now) (at self.now.nodes.now found.now.first) }
        ensures rest { IsTrue result → IsOwned (next + length binders.now) (at self.now.nodes.now rest) }
        ensures within { IsTrue result → (i : Item) → root (at self.now.nodes.now found.now.first) i
            ≤ owned found.now.node.now.variables.items found.now.node.now.credits.items i }
        ensures split { IsTrue result → (i : Item) →
            owned found.now.node.now.variables.items found.now.node.now.credits.items i
            + bound (world (V.program self.now.program.now) self.now.kind) next binders.now i
            ≡ root (at self.now.nodes.now found.now.first) i + root (at self.now.nodes.now rest) i }
        ensures complete { IsOwned next (at self.now.nodes.now found.now.first) →
            IsOwned (next + length binders.now) (at self.now.nodes.now rest) → ((i : Item) →
            owned found.now.node.now.variables.items found.now.node.now.credits.items i
            + bound (world (V.program self.now.program.now) self.now.kind) next binders.now i
            ≡ root (at self.now.nodes.now found.now.first) i + root (at self.now.nodes.now rest) i) → IsTrue result }
    {
        let bound = found.first;
        if !is_owned(self.nodes, bound, next) || !is_owned(self.nodes, rest, next + binders.len()) {
            return false;
        }
        let whole = &found.node.variables;
        let used = variables_at(self.nodes, bound);
        let left = variables_at(self.nodes, rest);
        if !self.lets_variables(whole, used, left, next, binders) {
            return false;
        }
        let one = credits_at(self.nodes, bound);
        are_shared(&found.node.credits, one, credits_at(self.nodes, rest))
    }

    /// Whether a clause of a match that borrows its scrutinee has what the match has.
    #[tactic(auto, using(crate::proofs::Inside::goes_none))]
    fn stays(&self, head: &Head<'_>, next: usize, place: usize, pattern: &Pattern) -> bool
        requires owned { IsOwned (next + length (binders (V.pattern pattern.now))) (at self.now.nodes.now place) }
        ensures sound { IsTrue result → GoesOn (world (V.program self.now.program.now) self.now.kind) next None
            (owned head.now.found.node.now.variables.items head.now.found.node.now.credits.items)
            (V.pattern pattern.now) (at self.now.nodes.now place) }
        ensures complete { Rising 0 next head.now.found.node.now.variables.items →
            GoesOn (world (V.program self.now.program.now) self.now.kind) next None
            (owned head.now.found.node.now.variables.items head.now.found.node.now.credits.items)
            (V.pattern pattern.now) (at self.now.nodes.now place) → IsTrue result }
    {
        let node = head.found.node;
        if !is_split(&node.variables, &[], variables_at(self.nodes, place)) {
            return false;
        }
        are_same(credits_at(self.nodes, place), &node.credits)
    }

    /// Whether a clause of a match that takes its scrutinee apart has what the pattern gives in its place.
    #[tactic(auto, using(crate::proofs::Inside::goes_some))]
    fn takes_apart(
        &self,
        head: &Head<'_>,
        taken: usize,
        next: usize,
        place: usize,
        pattern: &Pattern,
    ) -> bool
        requires room { next + length (binders (V.pattern pattern.now)) ≤ 4294967296 }
        requires owned { IsOwned (next + length (binders (V.pattern pattern.now))) (at self.now.nodes.now place) }
        ensures sound { IsTrue result → GoesOn (world (V.program self.now.program.now) self.now.kind) next (Some taken)
            (owned head.now.found.node.now.variables.items head.now.found.node.now.credits.items)
            (V.pattern pattern.now) (at self.now.nodes.now place) }
        ensures complete { Rising 0 next head.now.found.node.now.variables.items → taken < next →
            GoesOn (world (V.program self.now.program.now) self.now.kind) next (Some taken)
            (owned head.now.found.node.now.variables.items head.now.found.node.now.credits.items)
            (V.pattern pattern.now) (at self.now.nodes.now place) → IsTrue result }
    {
        let node = head.found.node;
        let left = variables_at(self.nodes, place);
        if !self.takes_variables(&node.variables, taken, left, next, pattern) {
            return false;
        }
        are_given(credits_at(self.nodes, place), &node.credits, pattern)
    }

    /// Whether a clause has what it is to have.
    pub fn goes_on(&self, head: &Head<'_>, next: usize, place: usize, pattern: &Pattern) -> bool
        requires room { next + length (binders (V.pattern pattern.now)) ≤ 4294967296 }
        requires owned { IsOwned (next + length (binders (V.pattern pattern.now))) (at self.now.nodes.now place) }
        ensures sound { IsTrue result → GoesOn (world (V.program self.now.program.now) self.now.kind)
            next head.now.taken
            (owned head.now.found.node.now.variables.items head.now.found.node.now.credits.items)
            (V.pattern pattern.now) (at self.now.nodes.now place) }
        ensures complete { Rising 0 next head.now.found.node.now.variables.items →
            IfSome head.now.taken (λ k. k < next) →
            GoesOn (world (V.program self.now.program.now) self.now.kind) next head.now.taken
            (owned head.now.found.node.now.variables.items head.now.found.node.now.credits.items)
            (V.pattern pattern.now) (at self.now.nodes.now place) → IsTrue result }
    {
        match head.taken {
            None => self.stays(head, next, place, pattern),
            Some(taken) => self.takes_apart(head, taken, next, place, pattern),
        }
    }

    // Whether a match takes its scrutinee apart.
    pub fn takes(&self, kind: MatchKind, ty: u32) -> bool
        ensures takes { result ≡ P.takes (world (V.program self.now.program.now) self.now.kind)
            (V.is_destructive kind) ty }
    {
        match kind {
            MatchKind::Borrowing => false,
            MatchKind::Destructive => !self.is_scalar(ty),
        }
    }

    /// The node of a match that borrows its scrutinee.
    pub fn lending(
        &self,
        scope: &Scope<'_>,
        next: usize,
        place: usize,
        scrutinee: &Argument,
    ) -> Option<Head<'a>>
        requires scope { Fits (frames scope.now) }
        requires owned { IsOwned next (at self.now.nodes.now place) }
        ensures owned { IfSome result (λ h. IsOwned next (node_with self.now.nodes.now h.found.first
            h.found.node.now)) }
        ensures sound { IfSome result (λ h. (h.taken ≡ None)
            × IsLending (world (V.program self.now.program.now) self.now.kind) (scope_of (frames scope.now)) next
            (V.argument scrutinee.now) (at self.now.nodes.now place) h.found.node.now.variables.items
            h.found.node.now.credits.items (parts self.now.nodes.now h.found.first h.found.node.now.parts)) }
        ensures below { IfSome result (λ h. h.below ≡ next) }
        ensures whole { IfSome result (λ h. Rising 0 h.below h.found.node.now.variables.items) }
        ensures inside { IfSome result (λ h. IfSome h.taken (λ k. k < h.below)) }
        ensures only { IfSome result (λ h. (xs : List ℕ) (cs : List D.Credit) (ts : Trees) →
            IsLending (world (V.program self.now.program.now) self.now.kind) (scope_of (frames scope.now)) next
            (V.argument scrutinee.now) (at self.now.nodes.now place) xs cs ts →
            node_with self.now.nodes.now h.found.first h.found.node.now ≡ Branch R.Match xs cs ts) }
        ensures other { IfNone result ((xs : List ℕ) (cs : List D.Credit) (ts : Trees) →
            IsLending (world (V.program self.now.program.now) self.now.kind) (scope_of (frames scope.now)) next
            (V.argument scrutinee.now) (at self.now.nodes.now place) xs cs ts → ⊥) }
    {
        if !self.is_lent(scope, scrutinee) {
            return None;
        }
        match ruled(self.nodes, place, self.kind, next, RuleName::Match) {
            None => None,
            Some(found) => Some(Head {
                found,
                taken: None,
                below: next,
            }),
        }
    }

    /// The node of a match that takes its scrutinee apart.
    pub fn taking(
        &self,
        scope: &Scope<'_>,
        next: usize,
        place: usize,
        scrutinee: &Argument,
    ) -> Option<Head<'a>>
        requires scope { Fits (frames scope.now) }
        requires owned { IsOwned next (at self.now.nodes.now place) }
        requires room { next ≤ 4294967296 }
        ensures owned { IfSome result (λ h. IsOwned next (node_with self.now.nodes.now h.found.first
            h.found.node.now)) }
        ensures sound { IfSome result (λ h. IsSomeAnd h.taken
            (λ k. IsTaking (world (V.program self.now.program.now) self.now.kind) (scope_of (frames scope.now)) next
            (V.argument scrutinee.now) (at self.now.nodes.now place) k h.found.node.now.variables.items
            h.found.node.now.credits.items (parts self.now.nodes.now h.found.first h.found.node.now.parts))) }
        ensures below { IfSome result (λ h. h.below ≡ next) }
        ensures whole { IfSome result (λ h. Rising 0 h.below h.found.node.now.variables.items) }
        ensures inside { IfSome result (λ h. IfSome h.taken (λ k. k < h.below)) }
        ensures only { IfSome result (λ h. (k : ℕ) (xs : List ℕ) (cs : List D.Credit) (ts : Trees) →
            IsTaking (world (V.program self.now.program.now) self.now.kind) (scope_of (frames scope.now)) next
            (V.argument scrutinee.now) (at self.now.nodes.now place) k xs cs ts →
            (h.taken ≡ Some k) × (node_with self.now.nodes.now h.found.first h.found.node.now
            ≡ Branch R.TakingMatch xs cs ts)) }
        ensures other { IfNone result ((k : ℕ) (xs : List ℕ) (cs : List D.Credit) (ts : Trees) →
            IsTaking (world (V.program self.now.program.now) self.now.kind) (scope_of (frames scope.now)) next
            (V.argument scrutinee.now) (at self.now.nodes.now place) k xs cs ts → ⊥) }
    {
        match scrutinee {
            Argument::Variable { binder, .. } => self.taking_variable(scope, next, place, *binder),
            Argument::Literal { .. } => None,
            Argument::Constructor { .. } => None,
        }
    }

    /// The node of a match.
    pub fn head(
        &self,
        scope: &Scope<'_>,
        next: usize,
        place: usize,
        takes: bool,
        scrutinee: &Argument,
    ) -> Option<Head<'a>>
        requires scope { Fits (frames scope.now) }
        requires owned { IsOwned next (at self.now.nodes.now place) }
        requires room { next ≤ 4294967296 }
        ensures taking { takes ≡ true → IfSome result (λ h. IsSomeAnd h.taken
            (λ k. IsTaking (world (V.program self.now.program.now) self.now.kind) (scope_of (frames scope.now)) next
            (V.argument scrutinee.now) (at self.now.nodes.now place) k h.found.node.now.variables.items
            h.found.node.now.credits.items (parts self.now.nodes.now h.found.first h.found.node.now.parts))) }
        ensures lending { takes ≡ false → IfSome result (λ h. (h.taken ≡ None)
            × IsLending (world (V.program self.now.program.now) self.now.kind) (scope_of (frames scope.now)) next
            (V.argument scrutinee.now) (at self.now.nodes.now place) h.found.node.now.variables.items
            h.found.node.now.credits.items (parts self.now.nodes.now h.found.first h.found.node.now.parts)) }
        ensures below { IfSome result (λ h. h.below ≡ next) }
        ensures whole { IfSome result (λ h. Rising 0 h.below h.found.node.now.variables.items) }
        ensures inside { IfSome result (λ h. IfSome h.taken (λ k. k < h.below)) }
        ensures only_taking { takes ≡ true → IfSome result (λ h. (k : ℕ) (xs : List ℕ) (cs : List D.Credit)
            (ts : Trees) →
            IsTaking (world (V.program self.now.program.now) self.now.kind) (scope_of (frames scope.now)) next
            (V.argument scrutinee.now) (at self.now.nodes.now place) k xs cs ts →
            (h.taken ≡ Some k) × (node_with self.now.nodes.now h.found.first h.found.node.now
            ≡ Branch R.TakingMatch xs cs ts)) }
        ensures only_lending { takes ≡ false → IfSome result (λ h. (xs : List ℕ) (cs : List D.Credit) (ts : Trees) →
            IsLending (world (V.program self.now.program.now) self.now.kind) (scope_of (frames scope.now)) next
            (V.argument scrutinee.now) (at self.now.nodes.now place) xs cs ts →
            node_with self.now.nodes.now h.found.first h.found.node.now ≡ Branch R.Match xs cs ts) }
        ensures other_taking { takes ≡ true → IfNone result ((k : ℕ) (xs : List ℕ) (cs : List D.Credit) (ts : Trees) →
            IsTaking (world (V.program self.now.program.now) self.now.kind) (scope_of (frames scope.now)) next
            (V.argument scrutinee.now) (at self.now.nodes.now place) k xs cs ts → ⊥) }
        ensures other_lending { takes ≡ false → IfNone result ((xs : List ℕ) (cs : List D.Credit) (ts : Trees) →
            IsLending (world (V.program self.now.program.now) self.now.kind) (scope_of (frames scope.now)) next
            (V.argument scrutinee.now) (at self.now.nodes.now place) xs cs ts → ⊥) }
    {
        if takes {
            self.taking(scope, next, place, scrutinee)
        } else {
            self.lending(scope, next, place, scrutinee)
        }
    }

    fn taking_variable(
        &self,
        scope: &Scope<'_>,
        next: usize,
        place: usize,
        binder: Option<usize>,
    ) -> Option<Head<'a>>
        requires scope { Fits (frames scope.now) }
        requires owned { IsOwned next (at self.now.nodes.now place) }
        requires room { next ≤ 4294967296 }
        ensures owned { IfSome result (λ h. IsOwned next (node_with self.now.nodes.now h.found.first
            h.found.node.now)) }
        ensures sound { IfSome result (λ h. IsSomeAnd h.taken
            (λ k. TakenNode (world (V.program self.now.program.now) self.now.kind) next
            (S.meant (scope_of (frames scope.now)).variables binder) (at self.now.nodes.now place) k
            h.found.node.now.variables.items h.found.node.now.credits.items
            (parts self.now.nodes.now h.found.first h.found.node.now.parts))) }
        ensures below { IfSome result (λ h. h.below ≡ next) }
        ensures whole { IfSome result (λ h. Rising 0 h.below h.found.node.now.variables.items) }
        ensures inside { IfSome result (λ h. IfSome h.taken (λ k. k < h.below)) }
        ensures only { IfSome result (λ h. (k : ℕ) (xs : List ℕ) (cs : List D.Credit) (ts : Trees) →
            TakenNode (world (V.program self.now.program.now) self.now.kind) next
            (S.meant (scope_of (frames scope.now)).variables binder) (at self.now.nodes.now place) k xs cs ts →
            (h.taken ≡ Some k) × (node_with self.now.nodes.now h.found.first h.found.node.now
            ≡ Branch R.TakingMatch xs cs ts)) }
        ensures other { IfNone result ((k : ℕ) (xs : List ℕ) (cs : List D.Credit) (ts : Trees) →
            TakenNode (world (V.program self.now.program.now) self.now.kind) next
            (S.meant (scope_of (frames scope.now)).variables binder) (at self.now.nodes.now place) k xs cs ts → ⊥) }
    {
        let Some(variable) = meant(scope, binder) else {
            return None;
        };
        if self.is_scalar(variable.ty) {
            return None;
        }
        match ruled(self.nodes, place, self.kind, next, RuleName::TakingMatch) {
            None => None,
            Some(found) => {
                let number = variable.number;
                if !has_once(&found.node.variables, number) {
                    return None;
                }
                Some(Head {
                    found,
                    taken: Some(number),
                    below: next,
                })
            }
        }
    }
}

// Whether a variable is in a list that rises.
#[tactic(auto, using(crate::proofs::Windows::once))]
fn has_once(variables: &[usize], number: usize) -> bool
    requires { IsRising variables.now }
    ensures sound { IsTrue result → given number variables.now ≡ 1 }
    ensures complete { given number variables.now ≡ 1 → IsTrue result }
{
    match place_of(variables, number) {
        None => false,
        Some(_) => true,
    }
}
