// The theorems on what specialising gives. Each is the contract of a function that does nothing.
ghost use Rattle.std.specs.Prelude.{◌≡◌, ℕ, List, [], map, Some, slice_get, true};
ghost use Rattle.source_report.specs.fip_language.Core.{Function, Core};
ghost use Rattle.source_report.specs.fip_language.Meaning.{meaning};
ghost use Rattle.source_report.specs.fip_language.Statics.{NoClosed};
ghost use Rattle.source_report.specs.fip_language.Values.{Values};
ghost use Rattle.source_report.specs.fip_trees.Tree.{Instance};
ghost use Rattle.source_report.specs.fip_trees.TreeView.{program as view};
ghost use Rattle.source_report.specs.fip_trees.declared.program.Program.{Program};
ghost use Rattle.source_report.specs.reached_instances.closed_types.declared.closed.Head.TheVariants as H;
ghost use Rattle.source_report.specs.static_params.Answers.{IsAccepted};
ghost use Rattle.source_report.specs.reached_instances.closed_types.Closed.{Closeds, Applied};
ghost use Rattle.source_report.specs.reached_instances.closed_types.Source.{Source};
ghost use Rattle.source_report.specs.instance_semantics.Meaning.{flat_meaning};
ghost use Rattle.source_report.specs.instance_semantics.Specialised.{IsSpecialised};
ghost use Rattle.specialisation_correctness.specs.Declared.{IsDeclared, IsSourceOf};
ghost use Rattle.specialisation_correctness.specs.Means.{IsRun};
ghost use Rattle.specialisation_correctness.specs.Named.{head_name, named, all_named};

/// What specialising gives means what the source means. Where a program breaks no rule on declarations and its
/// specialisation is accepted, each instance has the parameters, the binders and the body of its function, with the
/// numbers of what is called; and it means what its function means with its static arguments looked up: for all
/// arguments, calls and frames the same answer, the same calls left and the same peak of the stack. For who runs a
/// program without static parameters.
pub fn what_is_specialised_means_its_source()
    ensures specialised { (core : Core) (s : Source) (program : Program) (accepted : IsAccepted s program) →
        IsDeclared core → IsSourceOf core s →
        IsSpecialised core (view program) (map (named core) accepted.numbers.instances) }
    ensures means { (core : Core) (s : Source) (program : Program) (accepted : IsAccepted s program) (i f : ℕ)
        (given : Closeds) (arguments : Values) (calls frames : ℕ) → IsDeclared core → IsSourceOf core s →
        slice_get accepted.numbers.instances i ≡ Some (Applied (H.Function f) given) →
        flat_meaning (view program) i arguments calls frames ≡
        meaning core (head_name core (H.Function f)) (all_named core given) arguments calls frames }
{}

/// Each function without static parameters is an instance of that name, and each such instance means what the function
/// of its name means. For who calls a function by its name.
pub fn functions_mean_themselves()
    ensures roots { (core : Core) (s : Source) (program : Program) (i : ℕ) (instance : Instance) (arguments : Values)
        (calls frames : ℕ) → IsDeclared core → IsSourceOf core s → IsAccepted s program →
        slice_get (view program).instances i ≡ Some instance → instance.root ≡ true →
        flat_meaning (view program) i arguments calls frames ≡
        meaning core instance.name NoClosed arguments calls frames }
    ensures all { (core : Core) (s : Source) (program : Program) (place : ℕ) (f : Function) → IsDeclared core →
        IsSourceOf core s → IsAccepted s program →
        slice_get core.functions place ≡ Some f → f.statics ≡ [] → IsRun core (view program) f }
{}
