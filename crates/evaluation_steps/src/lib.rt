// The steps of an evaluation, for who proves what the functions of a program give. A step whose case is known computes
// by itself; here are those that don't: a call out of tail position, a call that is counted, and a sum. Calls are
// counted by what is left of them at least. Each theorem is the contract of a function that does nothing.
#![tactic(auto)]

ghost use Rattle.std.specs.Prelude.{◌≡◌, ℕ, suc, ℤ, ◌≤◌, true, false};
ghost use Rattle.fip_language.specs.declared.Place.{Place};
ghost use Rattle.fip_language.specs.declared.TrapKind.TheVariants.{Overflow};
ghost use Rattle.fip_language.specs.Arithmetic.{fits, int_or_overflow};
ghost use Rattle.fip_language.specs.Theorems.{AtMost};
ghost use Rattle.fip_language.specs.Meaning.{Answer, Trap, Run, go_on, counted, operated};
ghost use Rattle.fip_language.specs.Values.{Int, Values};
ghost use Rattle.evaluation_steps.specs.Gives.{GivesLeaving, one};

/// What follows a call that gave values goes on with them, with the calls that it left.
#[tactic(auto, using(crate::proofs::Steps::after_call))]
pub fn a_call_returns()
    ensures values { (a : Answer) (go : Values → ℕ → Run) (r k least : ℕ) (given results : Values) →
        GivesLeaving r given a → AtMost k a →
        ((left : ℕ) → r ≤ left → left ≤ k → GivesLeaving least results (go given left).answer) →
        GivesLeaving least results (go_on a go).answer }
{}

/// A call that is counted goes on with one call fewer, where one is left.
#[tactic(auto, using(crate::proofs::Steps::counted_on))]
pub fn a_call_is_counted()
    ensures values { (k least : ℕ) (results : Values) (go : ℕ → Run) → 1 ≤ k →
        ((j : ℕ) → suc j ≡ k → GivesLeaving least results (go j).answer) →
        GivesLeaving least results (counted k go).answer }
{}

/// What follows a sum that has 64 bits goes on with it; a sum that hasn't is a trap at its operator.
#[tactic(auto, using(crate::proofs::Steps::summed, crate::proofs::Steps::overflowed))]
pub fn a_sum_fits_or_overflows()
    ensures values { (i : ℤ) (p : Place) (k least : ℕ) (results : Values) (go : Values → ℕ → Run) → fits i ≡ true →
        GivesLeaving least results (go (one (Int i)) k).answer →
        GivesLeaving least results (go_on (operated (int_or_overflow i) p k).answer go).answer }
    ensures trap { (i : ℤ) (p : Place) (k : ℕ) (go : Values → ℕ → Run) → fits i ≡ false →
        (go_on (operated (int_or_overflow i) p k).answer go).answer ≡ Trap Overflow p.line p.col }
{}
