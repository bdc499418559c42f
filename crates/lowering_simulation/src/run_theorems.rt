// The theorems on runs of lowered code. Each is the contract of a function that does nothing.
ghost use Rattle.std.specs.Prelude.{◌≡◌, ◌≢◌, ℕ, suc, Some};
ghost use Rattle.tree_refinement.specs.fip_language.Meaning.{Answer, Stuck};
ghost use Rattle.tree_refinement.specs.fip_language.Values.{Values};
ghost use Rattle.lowering_relation.specs.fip_trees.Tree.{Program};
ghost use Rattle.tree_refinement.specs.cell_code.Plain.{PlainCode, all_instrs};
ghost use Rattle.lowering_relation.specs.instance_semantics.Meaning.{flat_meaning};
ghost use Rattle.lowering_relation.specs.tree_semantics.Runs.{Run, begun, entry};
ghost use Rattle.lowering_relation.specs.LoweredBodies.{function_of};
ghost use Rattle.lowering_relation.specs.LoweredFunctions.{AreLowered};
ghost use Rattle.lowering_simulation.specs.Distinct.{AreDistinct};
ghost use Rattle.lowering_simulation.specs.RunEnds.{EndsIn, RunsTo};
ghost use Rattle.lowering_simulation.specs.Guarded.{IsGuarded, Takes};
ghost use Rattle.lowering_simulation.specs.Wide.{AreWide};

/// A run on trees of lowered code, from the function of an instance, ends as the instance means: with the same values
/// and calls left, in the same trap, or out of calls or frames. For who runs code in place of its program. It is said
/// of programs that keep their types.
pub fn lowered_code_means_its_program()
    ensures theorem { (code : PlainCode) (program : Program) → AreLowered program (all_instrs code) →
        IsGuarded program → AreDistinct program → (g f : ℕ) (arguments : Values) (calls frames : ℕ)
        (answer : Answer) → function_of program.instances g ≡ Some f → Takes program g arguments →
        (flat_meaning program g arguments calls frames).answer ≡ answer → answer ≢ Stuck →
        EndsIn code (begun (entry f arguments frames) calls) answer }
{}

/// A run on trees of lowered code, with one call at least, has the peak of its evaluation: over all its states the most
/// frames beside the entry's, and the most words of all frames, where the frame of each function has the words of its
/// instance's. For who reports how high the stack of a run was, or asks whether two codes of one program differ in this.
pub fn lowered_code_has_the_peak_of_its_program()
    ensures theorem { (code : PlainCode) (width : ℕ → ℕ) (program : Program) → AreLowered program (all_instrs code) →
        IsGuarded program → AreDistinct program → AreWide program width → (g f : ℕ) (arguments : Values)
        (calls frames : ℕ) → function_of program.instances g ≡ Some f → Takes program g arguments →
        (flat_meaning program g arguments (suc calls) frames).answer ≢ Stuck →
        RunsTo code width (begun (entry f arguments frames) (suc calls))
        (flat_meaning program g arguments (suc calls) frames) }
{}

/// A run ends in one answer at most. For who asks whether it can end otherwise than its program means.
pub fn a_tree_run_has_one_end()
    ensures theorem { (code : PlainCode) (r : Run) (a b : Answer) → EndsIn code r a → EndsIn code r b → a ≡ b }
{}
