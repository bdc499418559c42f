// The theorems of the meaning of programs without static parameters. Each is the contract of a function that does nothing.
ghost use Rattle.std.specs.Prelude.{◌≡◌, ◌≢◌, ℕ, suc, ◌+◌, ◌≤◌, pos, Some, slice_get};
ghost use Rattle.fip_trees.specs.fip_language.declared.TrapKind.TheVariants.{Overflow};
ghost use Rattle.fip_trees.specs.fip_language.Values.{Int, Node, Values, End, More};
ghost use Rattle.fip_trees.specs.fip_language.Meaning.{Gives, Trap, Out, Deep, ends};
ghost use Rattle.fip_trees.specs.fip_language.Theorems.{AtMost};
ghost use Rattle.fip_trees.specs.fip_language.Example.{empty, item, pair, three, three_reversed};
ghost use Rattle.fip_trees.specs.Tree.{Instance, Program};
ghost use Rattle.instance_semantics.specs.Registers.{frame_words};
ghost use Rattle.instance_semantics.specs.Meaning.{flat_meaning};
ghost use Rattle.instance_semantics.specs.Example.{lists};

/// An evaluation never leaves more calls than it was given. For who reads the meaning: no call is made up.
#[tactic(auto, using(crate::proofs::Left::meaning_left))]
pub fn calls_never_rise()
    ensures theorem { (program : Program) (i : ℕ) (arguments : Values) (calls frames : ℕ) →
        AtMost calls (flat_meaning program i arguments calls frames).answer }
{}

/// The entry costs a call: with none an evaluation is out of calls, and else it leaves fewer than it was given. For who
/// gives the number of calls.
#[tactic(auto, using(crate::proofs::Equations::meaning_out, crate::proofs::Left::entry_left))]
pub fn an_entry_costs_a_call()
    ensures none { (program : Program) (i : ℕ) (arguments : Values) (frames : ℕ) →
        flat_meaning program i arguments 0 frames ≡ ends Out }
    ensures one { (program : Program) (i : ℕ) (arguments : Values) (calls frames : ℕ) →
        AtMost calls (flat_meaning program i arguments (suc calls) frames).answer }
{}

/// With more calls an evaluation that gives values gives the same, has the same peak, and leaves that many more. For
/// who was out of calls and gives more of them.
#[tactic(auto, using(crate::proofs::More::more_calls))]
pub fn more_calls_keep_the_values()
    ensures theorem { (program : Program) (i : ℕ) (arguments : Values) (calls frames more : ℕ) (results : Values)
        (left : ℕ) → (flat_meaning program i arguments calls frames).answer ≡ Gives results left →
        flat_meaning program i arguments (calls + more) frames ≡ record {
          answer = Gives results (left + more);
          peak =
              (flat_meaning program i arguments calls frames).peak;
        } }
{}

/// With more free frames an evaluation stays the same, unless there were too few. For who builds a stack: its room
/// changes no value.
#[tactic(auto, using(crate::proofs::Frames::more_frames))]
pub fn more_frames_keep_the_run()
    ensures theorem { (program : Program) (i : ℕ) (arguments : Values) (calls frames more : ℕ) →
        (flat_meaning program i arguments calls frames).answer ≢ Deep →
        flat_meaning program i arguments calls (frames + more) ≡ flat_meaning program i arguments calls frames }
{}

/// No evaluation holds more frames than were free. For who builds a stack.
#[tactic(auto, using(crate::proofs::Peak::peak_within))]
pub fn held_frames_were_free()
    ensures theorem { (program : Program) (i : ℕ) (arguments : Values) (calls frames : ℕ) →
        (flat_meaning program i arguments calls frames).peak.frames ≤ frames }
{}

/// An instance that is entered has its own frame on the stack. For who reads the peak.
#[tactic(auto, using(crate::proofs::Peak::peak_of_entry))]
pub fn an_entry_has_its_frame()
    ensures theorem { (program : Program) (i : ℕ) (arguments : Values) (calls frames : ℕ) (f : Instance) →
        slice_get program.instances i ≡ Some f →
        frame_words f ≤ (flat_meaning program i arguments (suc calls) frames).peak.words }
{}

/// The numbers of small runs. `rev` of three items with 10 calls leaves 6 and holds no frame; `inc` of them waits
/// in three frames, and with two it is too deep, unless it is out of calls before; a sum that is too great is a trap at
/// its `+`; of two constructors without fields the one that the value has is chosen. For who wants to see the numbers.
#[tactic(auto, using(crate::proofs::EvaluationExamples::runs))]
pub fn examples_run()
    ensures reversed { flat_meaning lists 0 (pair three empty) 10 0
        ≡ record { answer = Gives (More three_reversed End) 6; peak = record { frames = 0; words = 9 } } }
    ensures waits { flat_meaning lists 1 (More three End) 10 3
        ≡ record {
          answer = Gives (More (item (pos 2) (item (pos 3) (item (pos 4) empty))) End) 6;
          peak = record { frames = 3; words = 48 };
        } }
    ensures deep { flat_meaning lists 1 (More three End) 10 2
        ≡ record { answer = Deep; peak = record { frames = 2; words = 36 } } }
    ensures out { flat_meaning lists 1 (More three End) 3 2
        ≡ record { answer = Out; peak = record { frames = 2; words = 36 } } }
    ensures traps { flat_meaning lists 1 (More (item (pos 9223372036854775807) empty) End) 10 3
        ≡ record { answer = Trap Overflow 3 77; peak = record { frames = 0; words = 12 } } }
    ensures chosen { flat_meaning lists 2 (More (Node 1 End) End) 1 0
        ≡ record { answer = Gives (More (Int (pos 1)) End) 0; peak = record { frames = 0; words = 7 } } }
{}
