// The theorems on cells. Each is the contract of a function that does nothing.
ghost use Rattle.std.specs.Prelude.{◌≡◌, ℕ, Some, slice_get};
ghost use Rattle.tail_groups.specs.fip_language.declared.FunKind.TheVariants.{Fip};
ghost use Rattle.tail_groups.specs.fip_language.Values.{Values};
ghost use Rattle.tail_groups.specs.fip_language.Table.{HaveTypes};
ghost use Rattle.tail_groups.specs.fip_trees.Tree.{Instance, Program};
ghost use Rattle.type_safety.specs.instance_semantics.Example.{lists};
ghost use Rattle.type_safety.specs.instance_semantics.Meaning.{flat_meaning};
ghost use Rattle.type_safety.specs.type_check.Typing.{IsFilled};
ghost use Rattle.type_safety.specs.Formed.{IsFormed};
ghost use Rattle.type_safety.specs.Soundness.{parameter_types};
ghost use Rattle.ownership_agreement.specs.Agreement.{AreSized, IsAccepted};
ghost use Rattle.in_place_safety.specs.Conservation.{KeepsCells, AreFipDerived};

/// In a typed program whose fip instances are derived: where a fip instance gives values, on arguments of its
/// parameters' types, these have as many cells of each size as its owned arguments and its header's credits together.
/// So it needs no allocator, and leaves nothing after. For who runs it where there is none.
#[tactic(auto, using(crate::proofs::Keeping::meaning_keeps))]
pub fn derived_instances_keep_their_cells()
    ensures theorem { (program : Program) (i : ℕ) (f : Instance) (arguments : Values) (calls frames : ℕ) →
        IsFormed program → IsFilled program → AreFipDerived program program.instances →
        slice_get program.instances i ≡ Some f → f.kind ≡ Fip → HaveTypes program.types (parameter_types f) arguments →
        KeepsCells f arguments (flat_meaning program i arguments calls frames).answer }
{}

/// The same of a typed program that breaks none of the rules on ownership and on credits. For who checked it by
/// these rules.
#[tactic(auto, using(crate::proofs::Keeping::accepted_keeps))]
pub fn accepted_instances_keep_their_cells()
    ensures theorem { (program : Program) (i : ℕ) (f : Instance) (arguments : Values) (calls frames : ℕ) →
        IsFormed program → IsFilled program → AreSized program program.instances → IsAccepted program →
        slice_get program.instances i ≡ Some f → f.kind ≡ Fip →
        HaveTypes program.types (parameter_types f) arguments →
        KeepsCells f arguments (flat_meaning program i arguments calls frames).answer }
{}

/// There are such programs: in that of the examples each fip instance is derived. For who doubts that the theorems speak of
/// any.
#[tactic(auto, using(crate::proofs::Examples::lists_derived))]
pub fn an_example_is_derived()
    ensures theorem { AreFipDerived lists lists.instances }
{}
