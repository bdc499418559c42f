// The theorems on `list`.
ghost use Rattle.std.specs.Prelude.{◌≡◌, ℕ, ℤ, List, ◌++◌, map, reverse, FitsSigned};
ghost use Rattle.std.specs.Int.{w64};
ghost use Rattle.fip_language.specs.declared.TrapKind.TheVariants.{Overflow};
ghost use Rattle.fip_language.specs.Every.{Every, Among};
ghost use Rattle.fip_language.specs.Meaning.{Trap};
ghost use Rattle.fip_language.specs.Table.{HasType};
ghost use Rattle.fip_language.specs.Values.{Value};
ghost use Rattle.instance_semantics.specs.Meaning.{flat_meaning};
ghost use Rattle.evaluation_steps.specs.Gives.{GivesValue, one, two};
ghost use Rattle.library_correctness.specs.Bounds.{Suffice};
ghost use Rattle.evaluation_steps.specs.Sums.{greatest, incremented};
ghost use Rattle.library_programs.specs.ListProgram.{list_program};
ghost use Rattle.library_correctness.specs.Lists.{list_value, zip_value, right_of, IsList, IsZipper};

/// Each value of the type `list[int]` is that of a list of ints, and each of the type `zipper` that of two. So the
/// theorems below are on all arguments.
#[tactic(auto, using(crate::proofs::ListTypes::list_of, crate::proofs::ListTypes::zipper_of))]
pub fn arguments_are_lists()
    ensures lists { (v : Value) → HasType list_program.types 2 v → IsList v }
    ensures zippers { (v : Value) → HasType list_program.types 3 v → IsZipper v }
{}

/// `reverse` gives the items in reverse order.
#[tactic(auto, using(crate::proofs::ListResults::reverse_gives))]
pub fn reverse_reverses()
    ensures value { (xs : List ℤ) (calls frames : ℕ) → Suffice (one (list_value xs)) calls frames →
        GivesValue (list_value (reverse xs))
        (flat_meaning list_program 1 (one (list_value xs)) calls frames).answer }
{}

/// `append` gives the items of the first list, then those of the second.
#[tactic(auto, using(crate::proofs::ListResults::append_gives))]
pub fn append_appends()
    ensures value { (xs ys : List ℤ) (calls frames : ℕ) →
        Suffice (two (list_value xs) (list_value ys)) calls frames → GivesValue (list_value (xs ++ ys))
        (flat_meaning list_program 2 (two (list_value xs) (list_value ys)) calls frames).answer }
{}

/// `increment` gives each item plus 1, in the same order, where none is the greatest int; else it overflows.
#[tactic(auto, using(crate::proofs::ListResults::increment_gives, crate::proofs::ListResults::increment_trap))]
pub fn increment_increments()
    ensures value { (xs : List ℤ) (calls frames : ℕ) → Every (FitsSigned w64) xs → (Among greatest xs → ⊥) →
        Suffice (one (list_value xs)) calls frames → GivesValue (list_value (map incremented xs))
        (flat_meaning list_program 3 (one (list_value xs)) calls frames).answer }
    ensures trap { (xs : List ℤ) (calls frames : ℕ) → Every (FitsSigned w64) xs → Among greatest xs →
        Suffice (one (list_value xs)) calls frames →
        (flat_meaning list_program 3 (one (list_value xs)) calls frames).answer ≡ Trap Overflow 30 29 }
{}

/// `right` moves the first item of the second list to the front of the first, or gives the zipper where there is none.
#[tactic(auto, using(crate::proofs::ListResults::right_gives))]
pub fn right_moves_an_item()
    ensures value { (xs ys : List ℤ) (calls frames : ℕ) → Suffice (one (zip_value xs ys)) calls frames →
        GivesValue (right_of xs ys) (flat_meaning list_program 5 (one (zip_value xs ys)) calls frames).answer }
{}

/// `plug` gives the first list's items in reverse order, then the second's.
#[tactic(auto, using(crate::proofs::ListResults::plug_gives))]
pub fn plug_joins_the_lists()
    ensures value { (xs ys : List ℤ) (calls frames : ℕ) → Suffice (one (zip_value xs ys)) calls frames →
        GivesValue (list_value (reverse xs ++ ys))
        (flat_meaning list_program 6 (one (zip_value xs ys)) calls frames).answer }
{}
