// Derivations as they are checked, and the calculus of ownership.

ghost use Rattle.std.specs.Prelude.{List};
ghost use Rattle.tail_groups.specs.fip_trees.Tree.{Program};
ghost use Rattle.derivation_walk.specs.derivation_trees.Trees.{Entry};
ghost use Rattle.derivation_making.specs.ownership_agreement.Agreement.{AreDerived, AreSized, IsAccepted};
ghost use Rattle.derivation_making.specs.derivation_check.Accepted.{IsDerivation};

/// Where a program has a derivation, the calculus of ownership derives each of its fip and fbip instances. So none of
/// them breaks a rule on ownership (E50 to E55) or on credits (E56 to E58, E62).
pub fn derivations_follow_the_calculus()
    ensures calculus { (p : Program) (es : List Entry) → IsDerivation p es → AreDerived p p.instances }
    ensures rules { (p : Program) (es : List Entry) → AreSized p p.instances → IsDerivation p es → IsAccepted p }
{}
