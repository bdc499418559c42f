// The theorems on instances. Each is the contract of a function that does nothing.
ghost use Rattle.std.specs.Prelude.{◌≡◌, ℕ, List, [], ◌∷◌, Some, slice_get};
ghost use Rattle.fip_trees.specs.fip_language.Core.{Name, Core};
ghost use Rattle.fip_trees.specs.fip_language.Example.{rev, reversing};
ghost use Rattle.fip_trees.specs.fip_language.Meaning.{meaning};
ghost use Rattle.fip_trees.specs.fip_language.Statics.{Closed, Closeds, ClosedName, NoClosed};
ghost use Rattle.fip_trees.specs.fip_language.Values.{Values};
ghost use Rattle.fip_trees.specs.Tree.{Program};
ghost use Rattle.instance_semantics.specs.Example.{lists};
ghost use Rattle.instance_semantics.specs.Meaning.{flat_meaning};
ghost use Rattle.instance_semantics.specs.Specialised.{IsSpecialised};

/// Each instance means what its function means, with its static arguments looked up at each call: the same answer, with
/// the same calls left, and the same peak of the stack. For who runs a program without static parameters.
#[tactic(auto, using(crate::proofs::Means::means))]
pub fn instances_mean_what_their_functions_mean()
    ensures theorem { (core : Core) (program : Program) (numbered : List Closed) (i : ℕ) (name : Name) (given : Closeds)
        (arguments : Values) (calls frames : ℕ) → IsSpecialised core program numbered →
        slice_get numbered i ≡ Some (ClosedName name given) →
        flat_meaning program i arguments calls frames ≡ meaning core name given arguments calls frames }
{}

/// There are such programs: that of the examples is one, for the instance of `rev`. For who doubts that the theorem speaks
/// of any.
#[tactic(auto, using(crate::proofs::InstanceExamples::lists_specialised))]
pub fn an_example_is_specialised()
    ensures theorem { IsSpecialised reversing lists (ClosedName rev.name NoClosed ∷ []) }
{}
