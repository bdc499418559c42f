// The theorems on `tree`.
ghost use Rattle.std.specs.Prelude.{◌≡◌, ℕ, FitsSigned};
ghost use Rattle.std.specs.Int.{w64};
ghost use Rattle.fip_language.specs.declared.TrapKind.TheVariants.{Overflow};
ghost use Rattle.fip_language.specs.Every.{Every, Among};
ghost use Rattle.fip_language.specs.Meaning.{Trap};
ghost use Rattle.fip_language.specs.Table.{HasType};
ghost use Rattle.fip_language.specs.Values.{Value};
ghost use Rattle.instance_semantics.specs.Meaning.{flat_meaning};
ghost use Rattle.evaluation_steps.specs.Gives.{GivesValue, one};
ghost use Rattle.library_correctness.specs.Bounds.{Suffice};
ghost use Rattle.evaluation_steps.specs.Sums.{greatest};
ghost use Rattle.library_programs.specs.TreeProgram.{tree_program};
ghost use Rattle.library_correctness.specs.Trees.{Tree, tree_value, items, incremented_tree, IsTree};

/// Each value of the type `tree[int]` is that of a tree of ints. So the theorem below is on all arguments.
#[tactic(auto, using(crate::proofs::TreeTypes::tree_of))]
pub fn arguments_are_trees()
    ensures trees { (v : Value) → HasType tree_program.types 2 v → IsTree v }
{}

/// `increment` gives a tree of the same shape with each item plus 1, where none is the greatest int; else it overflows.
#[tactic(auto, using(crate::proofs::Trees::increment_gives, crate::proofs::Trees::increment_trap))]
pub fn increment_increments()
    ensures value { (t : Tree) (calls frames : ℕ) → Every (FitsSigned w64) (items t) → (Among greatest (items t) → ⊥) →
        Suffice (one (tree_value t)) calls frames → GivesValue (tree_value (incremented_tree t))
        (flat_meaning tree_program 0 (one (tree_value t)) calls frames).answer }
    ensures trap { (t : Tree) (calls frames : ℕ) → Every (FitsSigned w64) (items t) → Among greatest (items t) →
        Suffice (one (tree_value t)) calls frames →
        (flat_meaning tree_program 0 (one (tree_value t)) calls frames).answer ≡ Trap Overflow 29 32 }
{}
