// The theorems on `rbtree`.
ghost use Rattle.std.specs.Prelude.{ℕ, ◌≤◌, ℤ, true, false, List, length};
ghost use Rattle.fip_language.specs.Every.{Every, Among};
ghost use Rattle.fip_language.specs.Table.{HasType};
ghost use Rattle.fip_language.specs.Values.{Value, Int};
ghost use Rattle.instance_semantics.specs.Meaning.{flat_meaning};
ghost use Rattle.evaluation_steps.specs.Gives.{GivesValue, two, three};
ghost use Rattle.library_correctness.specs.Bounds.{Suffice, SufficeSquared};
ghost use Rattle.library_programs.specs.RedBlackProgram.{rbtree_program};
ghost use Rattle.library_correctness.specs.Lists.{list_value, IsList};
ghost use Rattle.library_correctness.specs.KeySets.{IsSpare, SufficeForKeys, GivesKeys};
ghost use Rattle.library_correctness.specs.RedBlack.{Tree, Leaf, Pad, keys, tree_value, pad_value, pads_value, truth_value};
ghost use Rattle.library_correctness.specs.RedBlack.{IsRedBlack, GivesInsertion, GivesBuild, IsTree, IsPad, ArePads};

/// Each value of the type `rb` is that of a tree, and each of the type `pad` that of a pad. So the theorems below are
/// on all arguments.
#[tactic(auto, using(crate::proofs::RedBlackTypes::tree_of, crate::proofs::RedBlackTypes::pad_of))]
pub fn arguments_are_trees_and_pads()
    ensures trees { (v : Value) → HasType rbtree_program.types 2 v → IsTree v }
    ensures pads { (v : Value) → HasType rbtree_program.types 3 v → IsPad v }
{}

/// Each value of the type of lists of ints is that of such a list, and each of the type of lists of pads that of such a
/// one. So the theorem on `build` is on all arguments.
#[tactic(auto, using(crate::proofs::RedBlackTypes::keys_of, crate::proofs::RedBlackTypes::pads_of))]
pub fn arguments_are_lists()
    ensures lists { (v : Value) → HasType rbtree_program.types 6 v → IsList v }
    ensures lists_of_pads { (v : Value) → HasType rbtree_program.types 7 v → ArePads v }
{}

/// `member` is True exactly where a red-black search tree has the key.
#[tactic(auto, using(crate::proofs::RedBlackResults::member_yes, crate::proofs::RedBlackResults::member_no))]
pub fn member_finds_the_keys()
    ensures there { (t : Tree) (key : ℤ) (calls frames : ℕ) → IsRedBlack t → Among key (keys t) →
        Suffice (two (tree_value t) (Int key)) calls frames → GivesValue (truth_value true)
        (flat_meaning rbtree_program 4 (two (tree_value t) (Int key)) calls frames).answer }
    ensures absent { (t : Tree) (key : ℤ) (calls frames : ℕ) → IsRedBlack t → (Among key (keys t) → ⊥) →
        Suffice (two (tree_value t) (Int key)) calls frames → GivesValue (truth_value false)
        (flat_meaning rbtree_program 4 (two (tree_value t) (Int key)) calls frames).answer }
{}

/// `insert` of a key into a red-black search tree gives a red-black search tree: the same one, the pad and True where it
/// has the key; one with the key, no pad and True where there is a pad; else the same one, no pad and False.
#[tactic(auto, using(crate::proofs::RedBlackResults::insert_gives))]
pub fn insert_inserts()
    ensures values { (t : Tree) (key : ℤ) (pad : Pad) (calls frames : ℕ) → IsRedBlack t →
        Suffice (three (tree_value t) (Int key) (pad_value pad)) calls frames → GivesInsertion t key pad
        (flat_meaning rbtree_program 0 (three (tree_value t) (Int key) (pad_value pad)) calls frames).answer }
{}

/// `build` from a red-black search tree gives the tree after insertions in order, each key with its pad.
#[tactic(auto, using(crate::proofs::RedBlackResults::build_gives))]
pub fn build_inserts_in_order()
    ensures value { (new : List ℤ) (pads : List Pad) (t : Tree) (calls frames : ℕ) → IsRedBlack t →
        SufficeSquared (three (list_value new) (pads_value pads) (tree_value t)) calls frames → GivesBuild new pads t
        (flat_meaning rbtree_program 5 (three (list_value new) (pads_value pads) (tree_value t)) calls frames).answer }
{}

/// `build` of fewer than 2^20 keys from no node, with a spare pad for each, gives a red-black search tree of just these
/// keys, with 100 calls for each.
#[tactic(auto, using(crate::proofs::KeySets::build_collects))]
pub fn build_collects_the_keys()
    ensures value { (new : List ℤ) (pads : List Pad) (calls frames : ℕ) → Every IsSpare pads →
        length new ≤ length pads → SufficeForKeys new calls frames → GivesKeys new
        (flat_meaning rbtree_program 5 (three (list_value new) (pads_value pads) (tree_value Leaf)) calls frames).answer }
{}
