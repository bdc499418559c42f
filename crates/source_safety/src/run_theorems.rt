// The theorems of sources that are accepted. Each is the contract of a function that does nothing.
ghost use Rattle.std.specs.Prelude.{◌≡◌, ◌≤◌, ℕ, List, Some, slice_get};
ghost use Rattle.in_place_safety.specs.fip_base.declared.plain.Stack.{Stack};
ghost use Rattle.in_place_safety.specs.fip_language.declared.FunKind.TheVariants.{Fip};
ghost use Rattle.in_place_safety.specs.fip_language.Table.{HaveTypes};
ghost use Rattle.in_place_safety.specs.fip_language.Values.{Values};
ghost use Rattle.in_place_safety.specs.fip_trees.declared.groups.Member.{Member};
ghost use Rattle.in_place_safety.specs.fip_trees.Tree.{Instance, Program};
ghost use Rattle.in_place_safety.specs.instance_semantics.Meaning.{flat_meaning};
ghost use Rattle.in_place_safety.specs.tail_groups.Members.{AreMembers};
ghost use Rattle.in_place_safety.specs.type_safety.Formed.{IsFormed};
ghost use Rattle.in_place_safety.specs.type_safety.Soundness.{IsSoundAnswer, parameter_types, IsWellTyped};
ghost use Rattle.in_place_safety.specs.InPlace.{RunsInPlace, IsChecked};
ghost use Rattle.specialisation_correctness.specs.source_report.Report.{IsTyped, IsMatched, IsCredited, IsAccepted};

/// The numbers of a typed program mean something: its literals have 64 bits, each constructor is one of its type's, and
/// each call is of an instance. For who evaluates it.
pub fn typed_programs_are_formed()
    ensures theorem { (source : List ℕ) (program : Program) → IsTyped source program → IsFormed program }
{}

/// A program that typing and coverage accept is well typed: each of its matches has a clause for each value. For who
/// joins the checks.
pub fn matched_programs_are_well_typed()
    ensures theorem { (source : List ℕ) (program : Program) → IsMatched source program → IsWellTyped program }
{}

/// An instance of a program that typing and coverage accept, on values of its parameters' types, gives values of its
/// results' types, or ends in a trap, out of calls or of frames: it never gets stuck. For who runs any instance.
pub fn matched_programs_do_not_get_stuck()
    ensures theorem { (source : List ℕ) (program : Program) (i : ℕ) (f : Instance) (arguments : Values) (calls frames : ℕ) →
        IsMatched source program → slice_get program.instances i ≡ Some f →
        HaveTypes program.types (parameter_types f) arguments →
        IsSoundAnswer program.types f.results (flat_meaning program i arguments calls frames).answer }
{}

/// A program that breaks no rule on types, coverage, ownership and credits passes all checks. For who joins the checks.
pub fn credited_programs_are_checked()
    ensures theorem { (source : List ℕ) (program : Program) (members : List Member) → IsCredited source program →
        AreMembers program.instances members → IsChecked program members }
{}

/// In the program of an accepted source, a fip instance on arguments of its parameters' types, with as many free frames
/// as its stack number says, runs in place: it gives values of its results' types with just the cells that it was
/// given, or ends in a trap or out of calls; it is never stuck, and its stack stays within its number. For who runs it
/// where there is no allocator.
pub fn accepted_sources_run_in_place()
    ensures theorem { (source : List ℕ) (program : Program) (members : List Member) (i : ℕ) (f : Instance) (m : Member)
        (s : Stack) (arguments : Values) (calls frames : ℕ) →
        IsAccepted source program →
        AreMembers program.instances members → slice_get program.instances i ≡ Some f →
        f.kind ≡ Fip →
        slice_get members i ≡ Some m → m.stack ≡ Some s →
        HaveTypes program.types (parameter_types f) arguments →
        s.frames ≤ frames →
        RunsInPlace program.types f arguments s frames (flat_meaning program i arguments calls frames) }
{}

/// In the program of an accepted source each fip instance has a stack number. For who reserves its stack.
pub fn fip_instances_have_a_stack()
    ensures theorem { (source : List ℕ) (program : Program) (members : List Member) (i : ℕ) (f : Instance) →
        IsAccepted source program → AreMembers program.instances members →
        slice_get program.instances i ≡ Some f → f.kind ≡ Fip →
        (m : Member) × (s : Stack) × (slice_get members i ≡ Some m) × (m.stack ≡ Some s) }
{}
