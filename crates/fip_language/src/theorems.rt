// The theorems of the definitions. Each is the contract of a function that does nothing.
ghost use Rattle.std.specs.Prelude.{◌≡◌, ◌≢◌, ℕ, suc, ◌+◌, ◌≤◌, List, Some};
ghost use Rattle.fip_language.specs.Values.{Values, End, More};
ghost use Rattle.fip_language.specs.Core.{Name, Function, Core};
ghost use Rattle.fip_language.specs.Declarations.{function_of};
ghost use Rattle.fip_language.specs.Registers.{frame_words};
ghost use Rattle.fip_language.specs.Statics.{Closed, Closeds, NoClosed};
ghost use Rattle.fip_language.specs.Meaning.{Gives, Out, Deep, ends, meaning};
ghost use Rattle.fip_language.specs.Stack.{AreFrames, AreWords};
ghost use Rattle.fip_language.specs.Prefix.{IsPlace};
ghost use Rattle.fip_language.specs.Example.{rev, reversing, empty, pair, three, three_reversed};
ghost use Rattle.fip_language.specs.Theorems.{AtMost};

/// An evaluation never leaves more calls than it was given. For who reads the meaning: no call is made up.
#[tactic(auto, using(crate::proofs::Left::meaning_left))]
pub fn calls_never_rise()
    ensures theorem { (core : Core) (name : Name) (given : Closeds) (arguments : Values) (calls frames : ℕ) →
        AtMost calls (meaning core name given arguments calls frames).answer }
{}

/// The entry costs a call: with none an evaluation is out of calls, and else it leaves fewer than it was given. For who
/// gives the number of calls.
#[tactic(auto, using(crate::proofs::Left::meaning_out, crate::proofs::Left::entry_left))]
pub fn an_entry_costs_a_call()
    ensures none { (core : Core) (name : Name) (given : Closeds) (arguments : Values) (frames : ℕ) →
        meaning core name given arguments 0 frames ≡ ends Out }
    ensures one { (core : Core) (name : Name) (given : Closeds) (arguments : Values) (calls frames : ℕ) →
        AtMost calls (meaning core name given arguments (suc calls) frames).answer }
{}

/// With more calls an evaluation that gives values gives the same, has the same peak, and leaves that many more. For
/// who was out of calls and gives more of them.
#[tactic(auto, using(crate::proofs::More::more_calls))]
pub fn more_calls_keep_the_values()
    ensures theorem { (core : Core) (name : Name) (given : Closeds) (arguments : Values) (calls frames more : ℕ)
        (results : Values) (left : ℕ) → (meaning core name given arguments calls frames).answer ≡ Gives results left →
        meaning core name given arguments (calls + more) frames ≡ record {
          answer = Gives results (left + more);
          peak =
              (meaning core name given arguments calls frames).peak;
        } }
{}

/// With more free frames an evaluation stays the same, unless there were too few. For who builds a stack: its room
/// changes no value.
#[tactic(auto, using(crate::proofs::Frames::more_frames))]
pub fn more_frames_keep_the_run()
    ensures theorem { (core : Core) (name : Name) (given : Closeds) (arguments : Values) (calls frames more : ℕ) →
        (meaning core name given arguments calls frames).answer ≢ Deep →
        meaning core name given arguments calls (frames + more) ≡ meaning core name given arguments calls frames }
{}

/// No evaluation holds more frames than were free. For who builds a stack.
#[tactic(auto, using(crate::proofs::Peak::peak_within))]
pub fn held_frames_were_free()
    ensures theorem { (core : Core) (name : Name) (given : Closeds) (arguments : Values) (calls frames : ℕ) →
        (meaning core name given arguments calls frames).peak.frames ≤ frames }
{}

/// A function that is entered has its own frame on the stack. For who reads the peak.
#[tactic(auto, using(crate::proofs::Peak::peak_of_entry))]
pub fn an_entry_has_its_frame()
    ensures theorem { (core : Core) (name : Name) (given : Closeds) (arguments : Values) (calls frames : ℕ) (f : Function) →
        function_of core name ≡ Some f → frame_words
        f ≤ (meaning core name given arguments (suc calls) frames).peak.words }
{}

/// A function has one number of frames and one number of words at most. For who reads the bound.
pub fn a_bound_is_one_number()
    ensures frames { (core : Core) (f : Closed) (m n : ℕ) → AreFrames core f m → AreFrames core f n → m ≡ n }
    ensures words { (core : Core) (f : Closed) (m n : ℕ) → AreWords core f m → AreWords core f n → m ≡ n }
{}

/// With 10 calls `rev` of three items and none gives the three items in the other order and leaves 6 calls; it holds no
/// frame and its stack has 9 words. For who wants to see the numbers.
#[tactic(auto, using(crate::proofs::Examples::rev_of_three))]
pub fn an_example_runs()
    ensures theorem { meaning reversing rev.name NoClosed (pair three empty) 10 0
        ≡ record { answer = Gives (More three_reversed End) 6; peak = record { frames = 0; words = 9 } } }
{}

/// A grammar: which lists of items are the texts of what.
pub trait Grammar {
    ghost Item: { Type 0 };

    ghost Meant: { Type 0 };

    ghost spells: { List Item → Meant → Type 0 };
}

/// In every grammar a text goes wrong at one place at most, and not at all where it is the text of something. For who
/// is reported the place.
pub fn a_text_goes_wrong_at_one_place<G: Grammar>()
    ensures one { (text : List G.Item) (t u : ℕ) → IsPlace G.spells text t → IsPlace G.spells text u → t ≡ u }
    ensures none { (text : List G.Item) (t : ℕ) (x : G.Meant) → IsPlace G.spells text t → G.spells text x → ⊥ }
{}
