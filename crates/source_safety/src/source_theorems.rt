// The theorems on the functions of an accepted source. Each is the contract of a function that does nothing.
ghost use Rattle.std.specs.Prelude.{◌≡◌, ℕ, List, [], Some, slice_get};
ghost use Rattle.in_place_safety.specs.fip_language.declared.FunKind.TheVariants.{Fip};
ghost use Rattle.in_place_safety.specs.fip_language.Core.{Function, Core};
ghost use Rattle.in_place_safety.specs.fip_trees.declared.groups.Member.{Member};
ghost use Rattle.in_place_safety.specs.fip_trees.Tree.{Instance, Program};
ghost use Rattle.in_place_safety.specs.tail_groups.Members.{AreMembers};
ghost use Rattle.specialisation_correctness.specs.source_report.Report.{IsParsed, IsAccepted};
ghost use Rattle.source_safety.specs.Runs.{InstanceRunsAsMeant, RunsAsMeant};

/// Each fip function without static parameters of an accepted source runs in place, by what the source means: called
/// with arguments of its parameters' types and with as many free frames as its stack number says, it gives values of
/// its results' types with just the cells that it was given, or ends in a trap or out of calls; it is never stuck, and
/// its stack stays within its number. With any more frames it means the same. For who reads the source alone.
pub fn accepted_functions_run_in_place()
    ensures theorem { (source : List ℕ) (core : Core) (program : Program) (members : List Member) (place : ℕ)
        (f : Function) → IsParsed source core → IsAccepted source program →
        AreMembers program.instances members →
        slice_get core.functions place ≡ Some f → f.statics ≡ [] →
        f.kind ≡ Fip →
        RunsAsMeant core program members f }
{}

/// Each fip instance of an accepted source runs in place, by what the source means by its function with what is given
/// for its static parameters; and with any more frames it means the same. For who reads a source with static parameters.
pub fn accepted_instances_run_in_place()
    ensures theorem { (source : List ℕ) (core : Core) (program : Program) (members : List Member) (i : ℕ)
        (f : Instance) → IsParsed source core → IsAccepted source program →
        AreMembers program.instances members → slice_get program.instances i ≡ Some f → f.kind ≡ Fip →
        InstanceRunsAsMeant core program members i f }
{}
