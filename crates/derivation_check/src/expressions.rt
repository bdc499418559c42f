// Expressions and their derivations, side by side.
ghost use Rattle.std.specs.Prelude.{◌≡◌, ◌<◌, ◌≤◌, ◌+◌, true, IfSome, IfNone, length};
ghost use Rattle.fip_trees.specs.Tree as T;
ghost use Rattle.fip_trees.specs.TreeView as V;
ghost use Rattle.fip_rules.specs.World.{world};
ghost use Rattle.fip_rules.specs.Shapes.{binders};
ghost use Rattle.derivation_check.specs.Owned.{owned, IsOwned, Rising};
ghost use Rattle.derivation_check.specs.Places.{at, parts};
ghost use Rattle.derivation_check.specs.Scopes as S;
ghost use Rattle.derivation_check.specs.Scopes.{AreNumbered, within, within_block, within_clauses};
ghost use Rattle.derivation_check.specs.ScopeView.{frames, scope_of, Fits};
ghost use Rattle.derivation_check.specs.Calculus.{is_taken, IsClause, Derives, DerivesBlock, DerivesClauses};

use crate::binders::numbered;
use crate::bodies::{in_bindings, in_bound, in_clause, is_taken, none_within, own_binders};
use crate::heads::Head;
use crate::nodes::{following, is_owned, variables_at};
use crate::numbering::are_numbered;
use crate::scope::Scope;
use crate::values::Walk;
use crate::walk::ruled;
use derivation_trees::RuleName;
use fip_base::core_form::MatchKind;
use fip_trees::program::{Argument, Binding, Block, Clause, Expression};

// Where a block goes on after a let: the place of the node of the rest, and how many binders the let has.
#[derive(Clone, Copy)]
struct Went {
    place: usize,
    count: usize,
}

impl<'a> Walk<'a> {
    /// How many binders a block has, where the node at a place derives it.
    #[cycle(block)]
    pub fn block(
        &self,
        scope: &Scope<'_>,
        core: usize,
        next: usize,
        place: usize,
        block: &Block,
    ) -> Option<usize>
        requires scope { Fits (frames scope.now) }
        requires owned { IsOwned next (at self.now.nodes.now place) }
        requires order { core ≤ next }
        requires room { next ≤ 4294967296 }
        ensures count { IfSome result (λ n. (n ≡ within_block (V.block block.now)) × (next + n ≤ 4294967296)) }
        ensures sound { IfSome result (λ n. DerivesBlock (world (V.program self.now.program.now) self.now.kind)
            (scope_of (frames scope.now)) core next (at self.now.nodes.now place) (V.block block.now)) }
        ensures other { IfNone result (DerivesBlock (world (V.program self.now.program.now) self.now.kind)
            (scope_of (frames scope.now)) core next (at self.now.nodes.now place) (V.block block.now) → ⊥) }
    {
        let mut count: usize = 0;
        let mut here = place;
        let mut done: usize = 0;
        for binding in &block.bindings {
            let before = in_bindings(&*scope, &block.bindings[..done], core, next);
            match self.binding(&before, core + count, next + count, here, binding) {
                None => {
                    return None;
                }
                Some(went) => {
                    here = went.place;
                    count += went.count;
                }
            }
            done += 1;
        }
        let all = in_bindings(&*scope, &block.bindings, core, next);
        match self.expression(&all, core + count, next + count, here, &block.last) {
            None => None,
            Some(more) => Some(count + more),
        }
    }

    // A let: what it binds, and where the block goes on.
    #[cycle(block)]
    fn binding(
        &self,
        scope: &Scope<'_>,
        core: usize,
        next: usize,
        place: usize,
        binding: &Binding,
    ) -> Option<Went>
        requires scope { Fits (frames scope.now) }
        requires owned { IsOwned next (at self.now.nodes.now place) }
        requires order { core ≤ next }
        requires room { next ≤ 4294967296 }
        ensures count { IfSome result (λ r. (r.count ≡ within (V.binding binding.now).bound
            + length (V.binding binding.now).binders) × (next + r.count ≤ 4294967296)) }
        ensures numbered { IfSome result (λ r. (0 < length (V.binding binding.now).binders)
            × AreNumbered (core + within (V.binding binding.now).bound) next (V.binding binding.now).binders) }
        ensures owned { IfSome result (λ r. IsOwned (next + r.count) (at self.now.nodes.now r.place)) }
        ensures sound { IfSome result (λ r. (rest : T.Block) →
            DerivesBlock (world (V.program self.now.program.now) self.now.kind)
            (S.binding next true (V.binding binding.now).binders (scope_of (frames scope.now))) (core + r.count)
            (next + r.count) (at self.now.nodes.now r.place) rest →
            DerivesBlock (world (V.program self.now.program.now) self.now.kind) (scope_of (frames scope.now)) core next
            (at self.now.nodes.now place)
            (T.Let (V.binding binding.now).binders (V.binding binding.now).bound rest)) }
        ensures down { IfSome result (λ r. (rest : T.Block) →
            DerivesBlock (world (V.program self.now.program.now) self.now.kind) (scope_of (frames scope.now)) core next
            (at self.now.nodes.now place)
            (T.Let (V.binding binding.now).binders (V.binding binding.now).bound rest) →
            DerivesBlock (world (V.program self.now.program.now) self.now.kind)
            (S.binding next true (V.binding binding.now).binders (scope_of (frames scope.now))) (core + r.count)
            (next + r.count) (at self.now.nodes.now r.place) rest) }
        ensures other { IfNone result ((rest : T.Block) →
            DerivesBlock (world (V.program self.now.program.now) self.now.kind) (scope_of (frames scope.now)) core next
            (at self.now.nodes.now place)
            (T.Let (V.binding binding.now).binders (V.binding binding.now).bound rest) → ⊥) }
    {
        let found = match ruled(self.nodes, place, self.kind, next, RuleName::Let) {
            None => {
                return None;
            }
            Some(found) => found,
        };
        let binders = own_binders(binding);
        let own = binders.len();
        if found.node.parts != 2 || own == 0 || own > 4_294_967_296 - next {
            return None;
        }
        let rest = following(self.nodes, found.first);
        if !self.lets(&found, next, rest, binders) {
            return None;
        }
        let used = variables_at(self.nodes, found.first);
        let inside = in_bound(&*scope, &found.node.variables, used);
        match self.expression(&inside, core, next + own, found.first, &binding.bound) {
            None => None,
            Some(count) => {
                if !are_numbered(binders, core + count, next) {
                    return None;
                }
                Some(Went {
                    place: rest,
                    count: count + own,
                })
            }
        }
    }

    #[cycle(block)]
    fn expression(
        &self,
        scope: &Scope<'_>,
        core: usize,
        next: usize,
        place: usize,
        expression: &Expression,
    ) -> Option<usize>
        requires scope { Fits (frames scope.now) }
        requires owned { IsOwned next (at self.now.nodes.now place) }
        requires order { core ≤ next }
        requires room { next ≤ 4294967296 }
        ensures count { IfSome result (λ n. (n ≡ within (V.expression expression.now)) × (next + n ≤ 4294967296)) }
        ensures sound { IfSome result (λ n. Derives (world (V.program self.now.program.now) self.now.kind)
            (scope_of (frames scope.now)) core next (at self.now.nodes.now place) (V.expression expression.now)) }
        ensures other { IfNone result (Derives (world (V.program self.now.program.now) self.now.kind)
            (scope_of (frames scope.now)) core next (at self.now.nodes.now place) (V.expression expression.now) → ⊥) }
    {
        match expression {
            Expression::Give(argument) => none_within(self.argument(scope, next, place, argument)),
            Expression::Tuple { arguments, .. } => {
                none_within(self.tuple(scope, next, place, arguments))
            }
            Expression::Operation { left, right, .. } => {
                none_within(self.operation(scope, next, place, left, right))
            }
            Expression::Call {
                callee,
                arguments,
                ..
            } => none_within(self.call(scope, next, place, *callee, arguments)),
            Expression::Match {
                kind,
                ty,
                scrutinee,
                first,
                others,
                ..
            } => {
                let takes = self.takes(*kind, *ty);
                match self.head(scope, next, place, takes, scrutinee) {
                    None => None,
                    Some(head) => {
                        let all = head.found.node.parts;
                        if all == 0 {
                            return None;
                        }
                        match self.clause(scope, core, next, &head, head.found.first, first) {
                            None => None,
                            Some(one) => {
                                let rest = following(self.nodes, head.found.first);
                                let core = core + one;
                                let next = next + one;
                                match self.clauses(
                                    scope,
                                    core,
                                    next,
                                    &head,
                                    rest,
                                    all - 1,
                                    others,
                                ) {
                                    None => None,
                                    Some(more) => Some(one + more),
                                }
                            }
                        }
                    }
                }
            }
            Expression::Nested(block) => self.block(scope, core, next, place, block),
        }
    }

    #[cycle(block)]
    fn clauses(
        &self,
        scope: &Scope<'_>,
        core: usize,
        next: usize,
        head: &Head<'_>,
        first: usize,
        all: usize,
        clauses: &[Clause],
    ) -> Option<usize>
        requires scope { Fits (frames scope.now) }
        requires order { core ≤ next }
        requires room { next ≤ 4294967296 }
        requires below { head.now.below ≤ next }
        requires whole { Rising 0 head.now.below head.now.found.node.now.variables.items }
        requires inside { IfSome head.now.taken (λ k. k < head.now.below) }
        ensures count { IfSome result (λ n. (n ≡ within_clauses (V.clauses clauses.now)) × (next + n ≤ 4294967296)) }
        ensures sound { IfSome result (λ n. DerivesClauses (world (V.program self.now.program.now) self.now.kind)
            (scope_of (frames scope.now)) core next head.now.taken (owned head.now.found.node.now.variables.items
            head.now.found.node.now.credits.items) (parts self.now.nodes.now first all) (V.clauses clauses.now)) }
        ensures other { IfNone result (DerivesClauses (world (V.program self.now.program.now) self.now.kind)
            (scope_of (frames scope.now)) core next head.now.taken (owned head.now.found.node.now.variables.items
            head.now.found.node.now.credits.items) (parts self.now.nodes.now first all) (V.clauses clauses.now) → ⊥) }
    {
        let mut count: usize = 0;
        let mut place = first;
        let mut left = all;
        for clause in clauses {
            if left == 0 {
                return None;
            }
            match self.clause(scope, core + count, next + count, head, place, clause) {
                None => {
                    return None;
                }
                Some(more) => {
                    count += more;
                }
            }
            place = following(self.nodes, place);
            left -= 1;
        }
        if left > 0 {
            return None;
        }
        Some(count)
    }

    #[cycle(block)]
    fn clause(
        &self,
        scope: &Scope<'_>,
        core: usize,
        next: usize,
        head: &Head<'_>,
        place: usize,
        clause: &Clause,
    ) -> Option<usize>
        requires scope { Fits (frames scope.now) }
        requires order { core ≤ next }
        requires room { next ≤ 4294967296 }
        requires below { head.now.below ≤ next }
        requires whole { Rising 0 head.now.below head.now.found.node.now.variables.items }
        requires inside { IfSome head.now.taken (λ k. k < head.now.below) }
        ensures count { IfSome result (λ n. (n ≡ length (binders (V.clause clause.now).pattern)
            + within_block (V.clause clause.now).body) × (next + n ≤ 4294967296)) }
        ensures sound { IfSome result (λ n. IsClause (world (V.program self.now.program.now) self.now.kind) core next
            head.now.taken (owned head.now.found.node.now.variables.items head.now.found.node.now.credits.items)
            (at self.now.nodes.now place) (V.clause clause.now).pattern
            (DerivesBlock (world (V.program self.now.program.now) self.now.kind)
            (S.binding next (is_taken head.now.taken) (binders (V.clause clause.now).pattern) (scope_of (frames
            scope.now)))
            (core + length (binders (V.clause clause.now).pattern))
            (next + length (binders (V.clause clause.now).pattern)) (at self.now.nodes.now place)
            (V.clause clause.now).body)) }
        ensures other { IfNone result (IsClause (world (V.program self.now.program.now) self.now.kind) core next
            head.now.taken (owned head.now.found.node.now.variables.items head.now.found.node.now.credits.items)
            (at self.now.nodes.now place) (V.clause clause.now).pattern
            (DerivesBlock (world (V.program self.now.program.now) self.now.kind)
            (S.binding next (is_taken head.now.taken) (binders (V.clause clause.now).pattern) (scope_of (frames
            scope.now)))
            (core + length (binders (V.clause clause.now).pattern))
            (next + length (binders (V.clause clause.now).pattern)) (at self.now.nodes.now place)
            (V.clause clause.now).body) → ⊥) }
    {
        match numbered(&clause.pattern, core, next) {
            None => None,
            Some(count) => {
                if !is_owned(self.nodes, place, next + count) {
                    return None;
                }
                if !self.goes_on(head, next, place, &clause.pattern) {
                    return None;
                }
                let taken = is_taken(head.taken);
                let inside = in_clause(&*scope, &clause.pattern, taken, core, next);
                match self.block(&inside, core + count, next + count, place, &clause.body) {
                    None => None,
                    Some(more) => Some(count + more),
                }
            }
        }
    }
}
