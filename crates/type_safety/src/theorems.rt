// The theorems of typed programs without static parameters. Each is the contract of a function that does nothing.
ghost use Rattle.std.specs.Prelude.{◌≡◌, ℕ, Some, slice_get};
ghost use Rattle.match_cover.specs.fip_language.Values.{Values};
ghost use Rattle.match_cover.specs.fip_language.Table.{HaveTypes};
ghost use Rattle.match_cover.specs.fip_trees.Tree.{Instance, Program};
ghost use Rattle.match_cover.specs.fip_trees.TreeView as V;
ghost use Rattle.match_cover.specs.fip_trees.declared.program.Program.{Program as CodeProgram};
ghost use Rattle.type_check.specs.Faults.{filled};
ghost use Rattle.type_check.specs.Typing.{IsFilled};
ghost use Rattle.match_cover.specs.Coverage.{AllCovered, IsReady};
ghost use Rattle.match_cover.specs.Answers.{Accepts};
ghost use Rattle.instance_semantics.specs.Meaning.{flat_meaning};
ghost use Rattle.instance_semantics.specs.Example.{lists};
ghost use Rattle.type_safety.specs.Formed.{IsFormed};
ghost use Rattle.type_safety.specs.Exhaustive.{AreExhaustive};
ghost use Rattle.type_safety.specs.Soundness.{IsSoundAnswer, IsTypedAnswer, parameter_types, IsWellTyped};

/// A program with its types filled in means what it meant before. For who types a program and then runs it.
#[tactic(auto, using(crate::proofs::FilledSlots::filled_means))]
pub fn typing_keeps_the_meaning()
    ensures theorem { (program : Program) (i : ℕ) (arguments : Values) (calls frames : ℕ) →
        flat_meaning (filled program) i arguments calls frames ≡ flat_meaning program i arguments calls frames }
{}

/// An instance of a well typed program, on values of its parameters' types, gives values of its results' types, or ends
/// in a trap, out of calls or of frames: it never gets stuck. For who runs a program that was accepted.
#[tactic(auto, using(crate::proofs::WellTyped::meaning_sound))]
pub fn well_typed_programs_do_not_get_stuck()
    ensures theorem { (program : Program) (i : ℕ) (f : Instance) (arguments : Values) (calls frames : ℕ) →
        IsWellTyped program → slice_get program.instances i ≡ Some f →
        HaveTypes program.types (parameter_types f) arguments →
        IsSoundAnswer program.types f.results (flat_meaning program i arguments calls frames).answer }
{}

/// What an instance of a typed program gives, on values of its parameters' types, is of its results' types, whatever
/// its matches cover. For who reads a value.
#[tactic(auto, using(crate::proofs::Gains::meaning_gained))]
pub fn typed_programs_give_typed_values()
    ensures theorem { (program : Program) (i : ℕ) (f : Instance) (arguments : Values) (calls frames : ℕ) →
        IsFormed program → IsFilled program → slice_get program.instances i ≡ Some f →
        HaveTypes program.types (parameter_types f) arguments →
        IsTypedAnswer program.types f.results (flat_meaning program i arguments calls frames).answer }
{}

/// Where all matches are covered, each has a clause for each value of its scrutinee's type. For who evaluates a match.
#[tactic(auto, using(crate::proofs::Covering::covered_exhaustive))]
pub fn covered_matches_are_exhaustive()
    ensures theorem { (program : CodeProgram) → AllCovered program.types program.instances.items →
        AreExhaustive program.types (V.program program).instances }
{}

/// A program that typing and coverage have accepted is well typed, where its numbers are in range. For who joins the
/// checks.
#[tactic(auto, using(crate::proofs::Covering::accepted_well_typed))]
pub fn accepted_programs_are_well_typed()
    ensures theorem { (program : CodeProgram) → IsFormed (V.program program) → IsFilled (V.program program) →
        IsReady program.types program.instances.items → Accepts program.types program.instances.items →
        IsWellTyped (V.program program) }
{}

/// There are well typed programs: that of the examples is one. For who doubts that the theorems speak of any.
#[tactic(auto, using(crate::proofs::Examples::lists_well_typed))]
pub fn an_example_is_well_typed()
    ensures theorem { IsWellTyped lists }
{}
