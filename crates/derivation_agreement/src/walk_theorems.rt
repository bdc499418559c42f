// The derivation that is made in one walk is the one that is defined.

ghost use Rattle.std.specs.Prelude.{◌≡◌, List};
ghost use Rattle.tail_groups.specs.fip_trees.declared.needs.Need.{Need};
ghost use Rattle.tail_groups.specs.fip_trees.Tree.{Program};
ghost use Rattle.derivation_walk.specs.credit_check.Tallies.{all_needs};
ghost use Rattle.derivation_making.specs.ownership_agreement.Agreement.{AreSized};
ghost use Rattle.derivation_walk.specs.derivation_trees.Trees.{Entry};
ghost use Rattle.derivation_making.specs.derivation_check.Accepted.{IsDerivation};
ghost use Rattle.derivation_making.specs.Made.{made_entries};
ghost use Rattle.derivation_making.specs.Numbered.{AllNumbered};
ghost use Rattle.derivation_walk.specs.Walks.{AreWalked};

/// What the walk gives for a program, of what its expressions need, is what is made for it, where this is a derivation
/// of the program: the same trees, for the same instances.
pub fn walked_derivations_are_the_defined_ones()
    ensures made { (p : Program) (needs : List (List Need)) (es : List Entry) → needs ≡ all_needs p p.instances →
        AllNumbered p p.instances → AreSized p p.instances → IsDerivation p (made_entries p 0 p.instances) →
        AreWalked p needs 0 p.instances es → es ≡ made_entries p 0 p.instances }
{}
