// The theorems on soundness of the code of accepted sources. Each is the contract of a function that does nothing.
ghost use Rattle.std.specs.Prelude.{◌≡◌, ℕ, List, Bool, Some, map, slice_get};
ghost use Rattle.lowering_soundness.specs.cell_code.declared.code.Code.{Code};
ghost use Rattle.derivation_correctness.specs.cell_lower.LaidProgram.{IsAsked, IsLaidOut};
ghost use Rattle.derivation_correctness.specs.cell_lower.Shape.{header, headers};
ghost use Rattle.lowering_soundness.specs.credit_check.Tallies.{all_needs};
ghost use Rattle.lowering_soundness.specs.fip_language.declared.FunKind.{FunKind};
ghost use Rattle.lowering_soundness.specs.fip_language.declared.FunKind.TheVariants.{Fun};
ghost use Rattle.lowering_soundness.specs.fip_rules.World as R;
ghost use Rattle.lowering_soundness.specs.fip_trees.declared.groups.Member.{Member};
ghost use Rattle.lowering_soundness.specs.fip_trees.SoundProgram.{IsSoundProgram};
ghost use Rattle.lowering_soundness.specs.fip_trees.Tree.{Instance, Program};
ghost use Rattle.lowering_soundness.specs.lowering_relation.LoweredBodies.{function_of, has_function};
ghost use Rattle.lowering_soundness.specs.lowering_relation.LoweredFunctions.{IsSettingOf};
ghost use Rattle.lowering_soundness.specs.lowering_relation.Values.{Setting};
ghost use Rattle.lowering_soundness.specs.Accepted.{IsDerived, IsWithinLimits};
ghost use Rattle.lowering_soundness.specs.Laid.{Shares};
ghost use Rattle.lowering_soundness.specs.lowering_relation.LaidFunctions.{AreLaid};
ghost use Rattle.lowering_soundness.specs.Placed.{Callees};
ghost use Rattle.lowering_soundness.specs.lowering_relation.Standing.{MapsStand};
ghost use Rattle.lowering_soundness.specs.code_rules.Breaks.{IsSound};
ghost use Rattle.lowering_soundness.specs.cell_code.Plain.{PlainFunction, PlainCode, plain, function_at};
ghost use Rattle.lowering_soundness.specs.code_rules.StackNumbers.{HasStack};
ghost use Rattle.lowering_soundness.specs.code_rules.Tables.{AreSoundTables};
ghost use Rattle.derivation_correctness.specs.source_report.Report.{IsTyped, IsAccepted};
ghost use Rattle.lowering_soundness.specs.tail_groups.Members.{AreMembers};
ghost use Rattle.lowering_soundness.specs.type_check.World as W;
ghost use Rattle.compiler_correctness.specs.Headed.{IsHeaded};

/// A code in memory whose types are a program's, and whose functions have the headers of its instances, is headed as
/// the program reports. For who has a code of `front`.
pub fn code_with_these_headers_is_headed()
    ensures theorem { (program : Program) (members : List Member) (code : Code) →
        AreMembers program.instances members → code.types ≡ program.types →
        map header code.functions.items ≡ headers members program.instances → IsHeaded program (plain code) }
{}

/// Code that is headed as the typed program of a source reports shares with it what lowering takes for granted: the types
/// and which of them are scalar, the headers of the functions, the types of results and of constructors' fields. For
/// who asks whether lowered code is sound.
pub fn accepted_code_shares_with_its_program()
    ensures shares { (source : List ℕ) (program : Program) (code : PlainCode) (setting : Setting) →
        IsTyped source program → IsHeaded program code → IsSettingOf program setting →
        Shares code setting (W.world program) }
    ensures callees { (source : List ℕ) (program : Program) (code : PlainCode) (setting : Setting) (kind : FunKind) →
        IsTyped source program → IsHeaded program code → IsSettingOf program setting →
        Callees code setting (W.world program) (R.world program kind) }
{}

/// Each instance with a function in the program of an accepted source is typed by its slots, its binders are numbered
/// in the order of the text, its ownership and credits have a derivation, and the constructors that it builds are of
/// their types. For who asks whether lowered code is sound.
pub fn accepted_instances_are_derived()
    ensures theorem { (source : List ℕ) (program : Program) (code : PlainCode) (i : ℕ) (instance : Instance) →
        IsAccepted source program → IsHeaded program code →
        slice_get program.instances i ≡ Some instance → has_function instance.kind ≡ Bool.true →
        IsDerived code (W.world program) (R.world program Fun) instance }
{}

/// The function of an instance of an accepted source keeps the limits of sound code: at most 4,096 registers, 1 to 8
/// results, and at most 16 credits of sizes 1 to 16; as long as its label maps are in order. For who asks whether
/// lowered code is sound.
pub fn accepted_functions_keep_the_limits()
    ensures theorem { (source : List ℕ) (program : Program) (code : PlainCode) (i n : ℕ) (instance : Instance)
        (f : PlainFunction) → IsAccepted source program → IsHeaded program code →
        slice_get program.instances i ≡ Some instance → function_of program.instances i ≡ Some n →
        function_at code n ≡ Some f → MapsStand f → IsWithinLimits code f instance }
{}

/// Code that is headed as the typed program of a source reports has sound tables (S0): its types are sound, its functions
/// are few, and have names of their own. For who asks whether lowered code is sound.
pub fn accepted_code_has_sound_tables()
    ensures theorem { (source : List ℕ) (program : Program) (code : PlainCode) → IsTyped source program →
        IsHeaded program code → AreSoundTables code }
{}

/// Code of an accepted source breaks no rule of sound code, where it is headed as the source's program says and laid
/// out as its instances require, and its label maps are in order and report some constructor of each tree. Nothing is
/// left to require of the source. For who shows that what is lowered is sound.
pub fn laid_accepted_code_is_sound()
    ensures theorem { (source : List ℕ) (program : Program) (code : PlainCode) (setting : Setting) →
        IsAccepted source program → IsHeaded program code → AreLaid code setting program →
        ((n : ℕ) (f : PlainFunction) → function_at code n ≡ Some f → MapsStand f) → IsSound code }
{}

/// The program of an accepted source is as lowering requires, with the needs that the rules on credits are given,
/// so that its code is laid out; and its types, names, fields and credits are sound. For who lowers it.
pub fn accepted_programs_are_as_asked()
    ensures theorem { (source : List ℕ) (program : Program) → IsAccepted source program →
        IsAsked program (all_needs program program.instances) }
    ensures sound { (source : List ℕ) (program : Program) → IsTyped source program → IsSoundProgram program }
{}

/// The code that lowering makes of an accepted source breaks no rule of sound code: it is headed as the source's
/// program reports, and laid out where the program is as required. For who verifies such code.
pub fn lowered_accepted_code_is_sound()
    ensures theorem { (source : List ℕ) (program : Program) (code : PlainCode) → IsAccepted source program →
        IsHeaded program code → (IsAsked program (all_needs program program.instances) → IsLaidOut program code) →
        IsSound code }
{}

/// The functions of the code that lowering makes of an accepted source hold of the stack at the most what the groups of
/// its program report of their instances: they call each other just as these do, and their frames have as many words.
/// So what `check` prints is what the code says. For who gives a run its stack.
pub fn lowered_accepted_code_has_its_stack_numbers()
    ensures theorem { (source : List ℕ) (program : Program) (code : PlainCode) (members : List Member) (i n : ℕ)
        (m : Member) → IsAccepted source program → IsHeaded program code →
        (IsAsked program (all_needs program program.instances) → IsLaidOut program code) →
        AreMembers program.instances members → function_of program.instances i ≡ Some n →
        slice_get members i ≡ Some m → HasStack code n m.stack }
{}
