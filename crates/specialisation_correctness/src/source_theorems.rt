// The theorems on what a typed program means. Each is the contract of a function that does nothing.
ghost use Rattle.std.specs.Prelude.{◌≡◌, ℕ, List, [], Some, slice_get, true};
ghost use Rattle.source_report.specs.fip_language.Core.{Function, Core};
ghost use Rattle.source_report.specs.fip_language.Meaning.{meaning};
ghost use Rattle.source_report.specs.fip_language.Statics.{NoClosed};
ghost use Rattle.source_report.specs.fip_language.Values.{Values};
ghost use Rattle.source_report.specs.fip_trees.Tree.{Instance, Program};
ghost use Rattle.source_report.specs.instance_semantics.Meaning.{flat_meaning};
ghost use Rattle.source_report.specs.Report.{IsParsed, IsTyped};
ghost use Rattle.specialisation_correctness.specs.Means.{IsRun};

/// The typed program of a source means what the source means. Each function of the source's core form that has no
/// static parameters is an instance of its name, and each such instance means what the function of its name means, with
/// its static arguments looked up: for all arguments, calls and frames the same answer, the same calls left and the
/// same peak of the stack. For who runs the program of a source in place of the source.
pub fn typed_programs_mean_their_sources()
    ensures roots { (source : List ℕ) (core : Core) (program : Program) (i : ℕ) (instance : Instance)
        (arguments : Values) (calls frames : ℕ) → IsParsed source core → IsTyped source program →
        slice_get program.instances i ≡ Some instance → instance.root ≡ true →
        flat_meaning program i arguments calls frames ≡
        meaning core instance.name NoClosed arguments calls frames }
    ensures all { (source : List ℕ) (core : Core) (program : Program) (place : ℕ) (f : Function) →
        IsParsed source core → IsTyped source program →
        slice_get core.functions place ≡ Some f → f.statics ≡ [] → IsRun core program f }
{}
