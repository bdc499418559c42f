// The derivation that is made for a program: it is one of the program.
#![tactic(auto)]

ghost use Rattle.derivation_check.specs.fip_trees.Tree.{Program};
ghost use Rattle.type_check.specs.Typing.{IsFilled};
ghost use Rattle.ownership_agreement.specs.Agreement.{AreSized, IsAccepted};
ghost use Rattle.derivation_check.specs.Accepted.{IsDerivation};
ghost use Rattle.derivation_making.specs.Made.{made_entries};
ghost use Rattle.derivation_making.specs.Numbered.{AllNumbered};
ghost use Rattle.derivation_making.specs.Weakening.{AllLean};

/// Where a typed program breaks no rule on ownership (E50 to E55) and on credits (E56 to E58, E62), what is made for it
/// is a derivation of the program. It weakens no more than it must: each node that weakens leaves out a variable or a
/// credit, and has no node that weakens as its part.
pub fn making()
    ensures derived { (p : Program) → IsFilled p → AllNumbered p p.instances → AreSized p p.instances →
        IsAccepted p → IsDerivation p (made_entries p 0 p.instances) }
    ensures lean { (p : Program) → AreSized p p.instances → IsAccepted p → AllLean (made_entries p 0 p.instances) }
{}
