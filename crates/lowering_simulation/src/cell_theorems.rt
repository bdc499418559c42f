// The theorem on what lowered code does to cells. It is the contract of a function that does nothing.
ghost use Rattle.std.specs.Prelude.{◌≡◌, ◌≢◌, ℕ, List};
ghost use Rattle.tree_refinement.specs.fip_language.Meaning.{Answer, Stuck};
ghost use Rattle.tree_refinement.specs.fip_language.Values.{Values};
ghost use Rattle.lowering_relation.specs.fip_trees.Tree.{Program};
ghost use Rattle.type_safety.specs.type_check.Typing.{IsFilled};
ghost use Rattle.type_safety.specs.Formed.{IsFormed};
ghost use Rattle.lowering_relation.specs.instance_semantics.Meaning.{flat_meaning};
ghost use Rattle.lowering_relation.specs.machine_semantics.Steps.{Kinds};
ghost use Rattle.lowering_relation.specs.machine_semantics.States.{State};
ghost use Rattle.tree_refinement.specs.cell_code.Plain.{PlainCode, all_instrs};
ghost use Rattle.lowering_relation.specs.LoweredFunctions.{AreLowered};
ghost use Rattle.lowering_simulation.specs.Distinct.{AreDistinct};
ghost use Rattle.tree_refinement.specs.separation.Starts.{IsStart};
ghost use Rattle.tree_refinement.specs.Runs.{BeginsWith};
ghost use Rattle.lowering_simulation.specs.CellEnds.{EndsAs, IsFunctionOf};

/// A run on cells of the lowered code of a typed program, where this is sound, ends as the instance means, from cells
/// that stand for the arguments: with words that stand for the same values and the same calls left, in the same trap,
/// or out of calls or frames. For who runs code in place of its program.
pub fn code_on_cells_means_its_program()
    ensures theorem { (c : PlainCode) (before waits : Kinds) (program : Program) →
        AreLowered program (all_instrs c) → IsFormed program → IsFilled program → AreDistinct program →
        (g f : ℕ) (arguments : Values) (kept : List ℕ) (s : State) (calls : ℕ) (answer : Answer) →
        IsFunctionOf program g c f → IsStart c before waits f kept s → BeginsWith c f s arguments →
        (flat_meaning program g arguments calls s.free).answer ≡ answer →
        answer ≢ Stuck → EndsAs c before f s calls answer }
{}
