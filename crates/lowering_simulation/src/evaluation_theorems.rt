// The theorems on lowered code of typed programs. Each is the contract of a function that does nothing.
ghost use Rattle.std.specs.Prelude.{◌≡◌, ◌≢◌, ℕ, Some};
ghost use Rattle.tree_refinement.specs.fip_language.Meaning.{Answer, Stuck};
ghost use Rattle.tree_refinement.specs.fip_language.Values.{Values};
ghost use Rattle.lowering_relation.specs.fip_trees.Tree.{Program};
ghost use Rattle.type_safety.specs.type_check.Typing.{IsFilled};
ghost use Rattle.type_safety.specs.Formed.{IsFormed};
ghost use Rattle.tree_refinement.specs.cell_code.Plain.{PlainCode, all_instrs};
ghost use Rattle.lowering_relation.specs.instance_semantics.Meaning.{flat_meaning};
ghost use Rattle.lowering_relation.specs.tree_semantics.Runs.{begun, entry};
ghost use Rattle.lowering_relation.specs.LoweredBodies.{function_of};
ghost use Rattle.lowering_relation.specs.LoweredFunctions.{AreLowered};
ghost use Rattle.lowering_simulation.specs.Distinct.{AreDistinct};
ghost use Rattle.lowering_simulation.specs.RunEnds.{EndsIn};
ghost use Rattle.lowering_simulation.specs.Guarded.{IsGuarded, Takes};
ghost use Rattle.lowering_relation.specs.WellMatched.{ArePatternsFormed, IsWellMatched};

/// In a typed program each match that an evaluation reaches has a value of the match's type, and each call has
/// arguments of its parameters' types. For who leaves out a test that no value of the type fails.
pub fn typed_programs_keep_their_types()
    ensures theorem { (program : Program) → IsFormed program → IsFilled program → IsGuarded program }
{}

/// In a typed program the patterns of each match are of the match's type, where their literals have 64 bits and their
/// constructors are there. For who writes the tests of a match.
pub fn typed_patterns_are_of_their_types()
    ensures theorem { (program : Program) → IsFilled program → ArePatternsFormed program → IsWellMatched program }
{}

/// A run on trees of the lowered code of a typed program, on arguments of their types, ends as the instance means: with
/// the same values and calls left, in the same trap, or out of calls or frames. For who runs code in place of its
/// program.
pub fn typed_code_means_its_program()
    ensures theorem { (code : PlainCode) (program : Program) → AreLowered program (all_instrs code) →
        IsFormed program → IsFilled program → AreDistinct program → (g f : ℕ) (arguments : Values)
        (calls frames : ℕ) (answer : Answer) → function_of program.instances g ≡ Some f →
        Takes program g arguments → (flat_meaning program g arguments calls frames).answer ≡ answer →
        answer ≢ Stuck → EndsIn code (begun (entry f arguments frames) calls) answer }
{}
