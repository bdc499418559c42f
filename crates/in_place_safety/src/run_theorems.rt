// The theorems on programs that pass all checks. Each is the contract of a function that does nothing.
ghost use Rattle.std.specs.Prelude.{◌≡◌, ◌≤◌, ℕ, List, Some, slice_get};
ghost use Rattle.tail_groups.specs.fip_base.declared.plain.Stack.{Stack};
ghost use Rattle.tail_groups.specs.fip_language.declared.FunKind.TheVariants.{Fip};
ghost use Rattle.tail_groups.specs.fip_language.Core.{Name, Core};
ghost use Rattle.tail_groups.specs.fip_language.Meaning.{meaning};
ghost use Rattle.tail_groups.specs.fip_language.Statics.{Closed, Closeds, ClosedName};
ghost use Rattle.tail_groups.specs.fip_language.Table.{HaveTypes};
ghost use Rattle.tail_groups.specs.fip_language.Values.{Values};
ghost use Rattle.tail_groups.specs.fip_trees.declared.groups.Member.{Member};
ghost use Rattle.tail_groups.specs.fip_trees.Tree.{Instance, Program};
ghost use Rattle.type_safety.specs.instance_semantics.Meaning.{flat_meaning};
ghost use Rattle.tail_groups.specs.Members.{FipCallsFip};
ghost use Rattle.type_safety.specs.type_check.Faults.{filled};
ghost use Rattle.type_safety.specs.Formed.{IsFormed};
ghost use Rattle.type_safety.specs.instance_semantics.Specialised.{IsSpecialised};
ghost use Rattle.type_safety.specs.Soundness.{parameter_types};
ghost use Rattle.in_place_safety.specs.Conservation.{AreFipDerived};
ghost use Rattle.in_place_safety.specs.InPlace.{RunsInPlace, IsChecked};

/// In a program that passes all checks, a fip instance on arguments of its parameters' types, with as many free frames
/// as its stack number says, runs in place: it gives values of its results' types with just the cells that it was
/// given, or ends in a trap or out of calls; it is never stuck, and its stack stays within its number. For who runs it
/// where there is no allocator.
#[tactic(auto, using(crate::proofs::Checked::runs_in_place))]
pub fn checked_programs_run_in_place()
    ensures theorem { (program : Program) (members : List Member) (i : ℕ) (f : Instance) (m : Member) (s : Stack)
        (arguments : Values) (calls frames : ℕ) → IsChecked program members →
        slice_get program.instances i ≡ Some f → f.kind ≡ Fip → slice_get members i ≡ Some m → m.stack ≡ Some s →
        HaveTypes program.types (parameter_types f) arguments → s.frames ≤ frames →
        RunsInPlace program.types f arguments s frames (flat_meaning program i arguments calls frames) }
{}

/// The same said of the source: where the program without static parameters is that of a source, and passes all checks
/// with its types filled in, the function that an instance stands for runs in place, as the source means it. For who
/// reads the source alone.
#[tactic(auto, using(crate::proofs::Sources::source_in_place))]
pub fn checked_sources_run_in_place()
    ensures theorem { (core : Core) (program : Program) (numbered : List Closed) (members : List Member) (i : ℕ)
        (name : Name) (given : Closeds) (f : Instance) (m : Member) (s : Stack) (arguments : Values)
        (calls frames : ℕ) → IsSpecialised core program numbered →
        slice_get numbered i ≡ Some (ClosedName name given) → IsChecked (filled program) members →
        slice_get (filled program).instances i ≡ Some f → f.kind ≡ Fip → slice_get members i ≡ Some m →
        m.stack ≡ Some s → HaveTypes program.types (parameter_types f) arguments → s.frames ≤ frames →
        RunsInPlace program.types f arguments s frames (meaning core name given arguments calls frames) }
{}

/// In a program that passes all checks each fip instance has a stack number. For who reserves its stack.
#[tactic(auto, using(crate::proofs::Checked::has_stack))]
pub fn fip_instances_have_a_stack()
    ensures theorem { (program : Program) (members : List Member) (i : ℕ) (f : Instance) → IsChecked program members →
        slice_get program.instances i ≡ Some f → f.kind ≡ Fip →
        (m : Member) × (s : Stack) × (slice_get members i ≡ Some m) × (m.stack ≡ Some s) }
{}

/// Fip instances that are derived call fip ones alone, so their stack numbers are what they are found to be. For who
/// asks what groups and numbers require.
#[tactic(auto, using(crate::proofs::Strong::fip_calls_fip))]
pub fn derived_instances_call_fip_ones()
    ensures theorem { (program : Program) → IsFormed program → AreFipDerived program program.instances →
        FipCallsFip program.instances }
{}
