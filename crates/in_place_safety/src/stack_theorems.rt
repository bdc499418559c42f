// The theorems on the stack. Each is the contract of a function that does nothing.
ghost use Rattle.std.specs.Prelude.{◌≡◌, ℕ, ◌+◌, ◌≤◌, List, Some, slice_get};
ghost use Rattle.tail_groups.specs.fip_base.declared.plain.Stack.{Stack};
ghost use Rattle.tail_groups.specs.fip_language.Values.{Values};
ghost use Rattle.tail_groups.specs.fip_trees.declared.groups.Member.{Member};
ghost use Rattle.tail_groups.specs.fip_trees.Tree.{Program};
ghost use Rattle.type_safety.specs.instance_semantics.Meaning.{flat_meaning};
ghost use Rattle.in_place_safety.specs.Bounds.{IsWithin, AreBounded};

/// A run of an instance that has a stack number never holds more frames and words than it says, and with so many free
/// frames it doesn't end for lack of one. For who reserves a stack.
#[tactic(auto, using(crate::proofs::Within::meaning_within))]
pub fn runs_stay_within_their_stack()
    ensures theorem { (program : Program) (members : List Member) (i : ℕ) (m : Member) (s : Stack) (arguments : Values)
        (calls frames : ℕ) → AreBounded program.instances members → slice_get members i ≡ Some m →
        m.stack ≡ Some s → IsWithin s frames (flat_meaning program i arguments calls frames) }
{}

/// With so many free frames, more of them change nothing. For who gives a run more stack than it needs.
#[tactic(auto, using(crate::proofs::Within::meaning_same))]
pub fn more_stack_keeps_the_run()
    ensures theorem { (program : Program) (members : List Member) (i : ℕ) (m : Member) (s : Stack) (arguments : Values)
        (calls frames more : ℕ) → AreBounded program.instances members → slice_get members i ≡ Some m →
        m.stack ≡ Some s → s.frames ≤ frames →
        flat_meaning program i arguments calls (frames + more) ≡ flat_meaning program i arguments calls frames }
{}
