// Binders: their numbers, and which of them a node owns.
ghost use Rattle.std.specs.Prelude.{◌≡◌, ◌<◌, ◌≤◌, ◌+◌, ◌++◌, ◌∷◌, [], ℕ, List, IsTrue, IfSome, IfNone, drop, length};
ghost use Rattle.fip_trees.specs.declared.program.Binder as B;
ghost use Rattle.fip_trees.specs.TreeView as V;
ghost use Rattle.fip_rules.specs.World.{world};
ghost use Rattle.fip_rules.specs.Shapes.{binders, binders_all};
ghost use Rattle.ownership_calculus.specs.Terms.{given};
ghost use Rattle.derivation_check.specs.Owned.{Rising};
ghost use Rattle.derivation_check.specs.Scopes.{AreNumbered};
ghost use Rattle.derivation_check.specs.Calculus.{numbers};

use crate::lists::{front_below, is_split, stands_at};
use crate::values::Walk;
use fip_trees::program::{Binder, Pattern};

// The number of the next binder, and how many of the owned variables are before its own.
#[derive(Clone, Copy)]
struct Owning {
    next: usize,
    place: usize,
}

/// How many binders a pattern has, where they have the program's numbers from one on and the derivation's from another.
#[cycle(numbered)]
#[tactic(auto, using(crate::proofs::Owning::constructor_binders))]
pub fn numbered(pattern: &Pattern, core: usize, next: usize) -> Option<usize>
    requires order { core ≤ next }
    requires room { next ≤ 4294967296 }
    ensures count { IfSome result (λ n. (n ≡ length (binders (V.pattern pattern.now))) × (next + n ≤ 4294967296)) }
    ensures numbered { IfSome result (λ n. AreNumbered core next (binders (V.pattern pattern.now))) }
    ensures other { IfNone result (AreNumbered core next (binders (V.pattern pattern.now)) → ⊥) }
{
    match pattern {
        Pattern::Binder(binder) => {
            if binder.number != core || next >= 4_294_967_296 {
                return None;
            }
            Some(1)
        }
        Pattern::Literal { .. } => Some(0),
        Pattern::Constructor { patterns, .. } => all_numbered(patterns, core, next),
    }
}

#[cycle(numbered)]
#[tactic(auto, using(crate::proofs::Owning::numbering))]
fn all_numbered(patterns: &[Pattern], core: usize, next: usize) -> Option<usize>
    requires order { core ≤ next }
    requires room { next ≤ 4294967296 }
    ensures count { IfSome result (λ n. (n ≡ length (binders_all (V.patterns patterns.now)))
        × (next + n ≤ 4294967296)) }
    ensures numbered { IfSome result (λ n. AreNumbered core next (binders_all (V.patterns patterns.now))) }
    ensures other { IfNone result (AreNumbered core next (binders_all (V.patterns patterns.now)) → ⊥) }
{
    let mut count: usize = 0;
    for pattern in patterns {
        match numbered(pattern, core + count, next + count) {
            None => {
                return None;
            }
            Some(more) => {
                count += more;
            }
        }
    }
    Some(count)
}

impl<'a> Walk<'a> {
    // A binder that isn't scalar is the next of the owned variables.
    #[tactic(auto, using(crate::proofs::Owning::owning_one))]
    fn owns(&self, binder: &Binder, owned: &[usize], at: Owning) -> Option<Owning>
        requires { at.next < 4294967296 }
        ensures next { IfSome result (λ r. r.next ≡ at.next + 1) }
        ensures sound { IfSome result (λ r. (bs : List B.Binder) → drop r.place owned.now
            ≡ numbers (world (V.program self.now.program.now) self.now.kind) r.next bs → drop at.place owned.now
            ≡ numbers (world (V.program self.now.program.now) self.now.kind) at.next (binder.now ∷ bs)) }
        ensures down { IfSome result (λ r. (bs : List B.Binder) → drop at.place owned.now
            ≡ numbers (world (V.program self.now.program.now) self.now.kind) at.next (binder.now ∷ bs) →
            drop r.place owned.now ≡ numbers (world (V.program self.now.program.now) self.now.kind) r.next bs) }
        ensures within { IfSome result (λ r. at.place ≤ length owned.now → r.place ≤ length owned.now) }
        ensures other { IfNone result ((bs : List B.Binder) → drop at.place owned.now
            ≡ numbers (world (V.program self.now.program.now) self.now.kind) at.next (binder.now ∷ bs) → ⊥) }
    {
        let next = at.next + 1;
        if self.is_scalar(binder.ty) {
            return Some(Owning {
                next,
                place: at.place,
            });
        }
        if !stands_at(owned, at.place, at.next) {
            return None;
        }
        Some(Owning {
            next,
            place: at.place + 1,
        })
    }

    // The binders of a pattern that aren't scalar are the next of the owned variables.
    #[cycle(owning)]
    #[tactic(auto, using(crate::proofs::Owning::constructor_binders))]
    fn owns_pattern(&self, pattern: &Pattern, owned: &[usize], at: Owning) -> Option<Owning>
        requires { at.next + length (binders (V.pattern pattern.now)) ≤ 4294967296 }
        ensures next { IfSome result (λ r. r.next ≡ at.next + length (binders (V.pattern pattern.now))) }
        ensures sound { IfSome result (λ r. (bs : List B.Binder) → drop r.place owned.now
            ≡ numbers (world (V.program self.now.program.now) self.now.kind) r.next bs → drop at.place owned.now
            ≡ numbers (world (V.program self.now.program.now) self.now.kind) at.next
            (binders (V.pattern pattern.now) ++ bs)) }
        ensures down { IfSome result (λ r. (bs : List B.Binder) → drop at.place owned.now
            ≡ numbers (world (V.program self.now.program.now) self.now.kind)
            at.next (binders (V.pattern pattern.now) ++ bs) →
            drop r.place owned.now ≡ numbers (world (V.program self.now.program.now) self.now.kind) r.next bs) }
        ensures within { IfSome result (λ r. at.place ≤ length owned.now → r.place ≤ length owned.now) }
        ensures other { IfNone result ((bs : List B.Binder) → drop at.place owned.now
            ≡ numbers (world (V.program self.now.program.now) self.now.kind)
            at.next (binders (V.pattern pattern.now) ++ bs) → ⊥) }
    {
        match pattern {
            Pattern::Binder(binder) => match self.owns(binder, owned, at) {
                None => None,
                Some(following) => Some(following),
            },
            Pattern::Literal { .. } => Some(at),
            Pattern::Constructor { patterns, .. } => self.owns_patterns(patterns, owned, at),
        }
    }

    #[cycle(owning)]
    #[tactic(auto, using(crate::proofs::Owning::owning))]
    fn owns_patterns(&self, patterns: &[Pattern], owned: &[usize], at: Owning) -> Option<Owning>
        requires { at.next + length (binders_all (V.patterns patterns.now)) ≤ 4294967296 }
        ensures next { IfSome result (λ r. r.next ≡ at.next + length (binders_all (V.patterns patterns.now))) }
        ensures sound { IfSome result (λ r. (bs : List B.Binder) → drop r.place owned.now
            ≡ numbers (world (V.program self.now.program.now) self.now.kind) r.next bs → drop at.place owned.now
            ≡ numbers (world (V.program self.now.program.now) self.now.kind) at.next
            (binders_all (V.patterns patterns.now) ++ bs)) }
        ensures down { IfSome result (λ r. (bs : List B.Binder) → drop at.place owned.now
            ≡ numbers (world (V.program self.now.program.now) self.now.kind)
            at.next (binders_all (V.patterns patterns.now) ++ bs) →
            drop r.place owned.now ≡ numbers (world (V.program self.now.program.now) self.now.kind) r.next bs) }
        ensures within { IfSome result (λ r. at.place ≤ length owned.now → r.place ≤ length owned.now) }
        ensures other { IfNone result ((bs : List B.Binder) → drop at.place owned.now
            ≡ numbers (world (V.program self.now.program.now) self.now.kind)
            at.next (binders_all (V.patterns patterns.now) ++ bs) → ⊥) }
    {
        let mut here = at;
        for pattern in patterns {
            match self.owns_pattern(pattern, owned, here) {
                None => {
                    return None;
                }
                Some(following) => {
                    here = following;
                }
            }
        }
        Some(here)
    }

    // Whether the owned variables are just the binders that aren't scalar, numbered from one on.
    fn owns_all(&self, binders: &[Binder], owned: &[usize], next: usize) -> bool
        requires { next + length binders.now ≤ 4294967296 }
        ensures sound { IsTrue result → owned.now
            ≡ numbers (world (V.program self.now.program.now) self.now.kind) next binders.now }
        ensures complete { owned.now
            ≡ numbers (world (V.program self.now.program.now) self.now.kind) next binders.now → IsTrue result }
    {
        let mut here = Owning { next, place: 0 };
        for binder in binders {
            match self.owns(binder, owned, here) {
                None => {
                    return false;
                }
                Some(following) => {
                    here = following;
                }
            }
        }
        here.place == owned.len()
    }

    /// Whether the variables of a let are what is bound by it uses up and what is left for its rest, but for the
    /// binders.
    #[tactic(auto, using(crate::proofs::Owning::lets))]
    pub fn lets_variables(
        &self,
        whole: &[usize],
        used: &[usize],
        left: &[usize],
        next: usize,
        binders: &[Binder],
    ) -> bool
        requires { next + length binders.now ≤ 4294967296 }
        ensures used { IsTrue result → (x : ℕ) → given x used.now ≤ given x whole.now }
        ensures left { IsTrue result → (x : ℕ) → given x whole.now
            + given x (numbers (world (V.program self.now.program.now) self.now.kind) next binders.now)
            ≡ given x used.now + given x left.now }
        ensures complete { Rising 0 next whole.now → Rising 0 next used.now →
            Rising 0 (next + length binders.now) left.now → ((x : ℕ) → given x whole.now
            + given x (numbers (world (V.program self.now.program.now) self.now.kind) next binders.now)
            ≡ given x used.now + given x left.now) → IsTrue result }
    {
        let low = front_below(left, next);
        if !is_split(whole, used, &left[..low]) {
            return false;
        }
        self.owns_all(binders, &left[low..], next)
    }

    /// Whether the variables of a clause are those of the match without the one that it takes apart, and the pattern's.
    #[tactic(auto, using(crate::proofs::Owning::takes_left))]
    pub fn takes_variables(
        &self,
        whole: &[usize],
        taken: usize,
        left: &[usize],
        next: usize,
        pattern: &Pattern,
    ) -> bool
        requires { next + length (binders (V.pattern pattern.now)) ≤ 4294967296 }
        ensures sound { IsTrue result → (x : ℕ) → given x left.now + given x (taken ∷ [])
            ≡ given x whole.now + given x (numbers (world (V.program self.now.program.now) self.now.kind) next
            (binders (V.pattern pattern.now))) }
        ensures complete { Rising 0 next whole.now → taken < next →
            Rising 0 (next + length (binders (V.pattern pattern.now))) left.now →
            ((x : ℕ) → given x left.now + given x (taken ∷ [])
            ≡ given x whole.now + given x (numbers (world (V.program self.now.program.now) self.now.kind) next
            (binders (V.pattern pattern.now)))) → IsTrue result }
    {
        let low = front_below(left, next);
        if !is_split(whole, &[taken], &left[..low]) {
            return false;
        }
        let high = &left[low..];
        match self.owns_pattern(pattern, high, Owning { next, place: 0 }) {
            None => false,
            Some(following) => following.place == high.len(),
        }
    }
}
