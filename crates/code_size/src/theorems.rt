// The theorems of the bounds on code. Each is the contract of a function that does nothing.
ghost use Rattle.std.specs.Prelude.{◌≡◌, ◌<◌, ℕ};
ghost use Rattle.match_cover.specs.fip_language.Table.{Table};
ghost use Rattle.match_cover.specs.fip_trees.Tree.{Instance};
ghost use Rattle.instance_semantics.specs.Example.{lists, rev, number};
ghost use Rattle.code_size.specs.Places.{places};
ghost use Rattle.code_size.specs.Bounds.{most_instructions, most_labels};

/// An instance has a place of its own, so its code may have an instruction. For who bounds a code file.
#[tactic(auto, using(crate::proofs::Room::some_instruction))]
pub fn an_instance_has_room()
    ensures theorem { (types : Table) (d : Instance) → 0 < most_instructions types d }
{}

/// The reversal of a list has 17 places, so its code has at most 6,256 instructions and 136 label maps; two clauses on
/// a bool have 11.
#[tactic(auto, using(crate::proofs::Examples::computed))]
pub fn an_example_has_its_places()
    ensures rev { places lists.types rev ≡ 17 }
    ensures number { places lists.types number ≡ 11 }
    ensures instructions { most_instructions lists.types rev ≡ 6256 }
    ensures labels { most_labels lists.types rev ≡ 136 }
{}
