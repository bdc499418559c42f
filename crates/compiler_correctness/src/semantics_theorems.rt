// The theorems on lowered code of accepted sources. Each is the contract of a function that does nothing.
ghost use Rattle.std.specs.Prelude.{◌≡◌, ◌<◌, ◌≤◌, ℕ, List, length, true, Some, slice_get};
ghost use Rattle.lowering_soundness.specs.fip_language.Core.{Core};
ghost use Rattle.lowering_soundness.specs.fip_language.Meaning.{meaning};
ghost use Rattle.lowering_soundness.specs.fip_language.Table.{constructors};
ghost use Rattle.lowering_soundness.specs.fip_language.Statics.{Closeds, NoClosed};
ghost use Rattle.lowering_soundness.specs.fip_language.Values.{Values};
ghost use Rattle.lowering_soundness.specs.fip_trees.Tree.{Instance, Program};
ghost use Rattle.lowering_soundness.specs.instance_semantics.Meaning.{flat_meaning};
ghost use Rattle.lowering_soundness.specs.cell_code.Plain.{PlainFunction, PlainCode, function_at, all_instrs};
ghost use Rattle.lowering_soundness.specs.machine_semantics.States.{State};
ghost use Rattle.lowering_soundness.specs.machine_semantics.Steps.{Kinds};
ghost use Rattle.lowering_soundness.specs.code_rules.Limits.{most_functions};
ghost use Rattle.lowering_soundness.specs.code_rules.Tables.{bool_shapes, AreSoundTables};
ghost use Rattle.lowering_soundness.specs.tree_semantics.Runs.{begun, entry};
ghost use Rattle.lowering_soundness.specs.separation.Starts.{IsStart};
ghost use Rattle.derivation_correctness.specs.tree_refinement.Runs.{BeginsWith};
ghost use Rattle.lowering_soundness.specs.lowering_relation.LoweredBodies.{function_of};
ghost use Rattle.lowering_soundness.specs.lowering_relation.LoweredFunctions.{AreLowered};
ghost use Rattle.derivation_correctness.specs.lowering_simulation.RunEnds.{EndsIn};
ghost use Rattle.derivation_correctness.specs.lowering_simulation.Guarded.{Takes};
ghost use Rattle.derivation_correctness.specs.lowering_simulation.CellEnds.{EndsAs, IsFunctionOf};
ghost use Rattle.derivation_correctness.specs.source_report.Report.{IsParsed, IsTyped, IsAccepted};

/// Where code is lowered from the program of an accepted source, its runs on arguments of the parameters' types end as
/// the program means: with the same values and calls left, in the same trap, or out of calls or frames. So it is of
/// runs on trees; and where the code is sound, of runs on cells that stand for the arguments. For who runs code in
/// place of its program.
pub fn accepted_code_means_its_program()
    ensures trees { (source : List ℕ) (program : Program) (code : PlainCode) → IsAccepted source program →
        AreLowered program (all_instrs code) → (i f : ℕ) (arguments : Values) (calls frames : ℕ) →
        function_of program.instances i ≡ Some f → Takes program i arguments →
        EndsIn code (begun (entry f arguments frames) calls)
        (flat_meaning program i arguments calls frames).answer }
    ensures cells { (source : List ℕ) (program : Program) (code : PlainCode) → IsAccepted source program →
        AreLowered program (all_instrs code) → (before waits : Kinds) (i f : ℕ) (arguments : Values)
        (kept : List ℕ) (s : State) (calls : ℕ) →
        IsFunctionOf program i code f → IsStart code before waits f kept s → BeginsWith code f s arguments →
        EndsAs code before f s calls (flat_meaning program i arguments calls s.free).answer }
{}

/// The same by what the source means: the code of a function without static parameters ends as the source means by the
/// function of its name, and that of any instance as the source means by its function with what is given for its static
/// parameters. For who reads the source alone.
pub fn accepted_code_means_its_source()
    ensures trees { (source : List ℕ) (core : Core) (program : Program) (code : PlainCode) → IsParsed source core →
        IsAccepted source program → AreLowered program (all_instrs code) → (i f : ℕ) (instance : Instance)
        (arguments : Values) (calls frames : ℕ) →
        slice_get program.instances i ≡ Some instance → instance.root ≡ true →
        function_of program.instances i ≡ Some f → Takes program i arguments →
        EndsIn code (begun (entry f arguments frames) calls)
        (meaning core instance.name NoClosed arguments calls frames).answer }
    ensures cells { (source : List ℕ) (core : Core) (program : Program) (code : PlainCode) → IsParsed source core →
        IsAccepted source program → AreLowered program (all_instrs code) → (before waits : Kinds)
        (i f : ℕ) (instance : Instance) (arguments : Values) (kept : List ℕ) (s : State) (calls : ℕ) →
        slice_get program.instances i ≡ Some instance → instance.root ≡ true →
        IsFunctionOf program i code f → IsStart code before waits f kept s → BeginsWith code f s arguments →
        EndsAs code before f s calls (meaning core instance.name NoClosed arguments calls s.free).answer }
    ensures instances { (source : List ℕ) (core : Core) (program : Program) (code : PlainCode) →
        IsParsed source core → IsAccepted source program → AreLowered program (all_instrs code) →
        (i f : ℕ) (instance : Instance) →
        slice_get program.instances i ≡ Some instance → function_of program.instances i ≡ Some f →
        (given : Closeds) × ((arguments : Values) (calls frames : ℕ) → Takes program i arguments →
        EndsIn code (begun (entry f arguments frames) calls)
        (meaning core instance.name given arguments calls frames).answer) }
{}

/// The types of the typed program of a source begin with bool, and code over them has sound tables (S0), as long as its
/// functions are few and have names of their own. For who asks which rules lowered code may break.
pub fn the_types_of_a_source_are_sound()
    ensures bool { (source : List ℕ) (program : Program) → IsTyped source program →
        constructors program.types 1 ≡ bool_shapes }
    ensures tables { (source : List ℕ) (program : Program) (code : PlainCode) → IsTyped source program →
        code.types ≡ program.types → length code.functions ≤ most_functions →
        ((m n : ℕ) (f g : PlainFunction) → function_at code m ≡ Some f → function_at code n ≡ Some g →
        0 < length f.name → f.name ≡ g.name → m ≡ n) → AreSoundTables code }
{}
