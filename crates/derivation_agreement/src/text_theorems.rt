// The text of derivations: each derivation that isn't too deep has one, and so has what is made for a program that
// keeps the limits.

ghost use Rattle.std.specs.Prelude.{List};
ghost use Rattle.tail_groups.specs.fip_trees.Tree.{Program};
ghost use Rattle.derivation_making.specs.type_check.Typing.{IsFilled};
ghost use Rattle.derivation_making.specs.ownership_agreement.Agreement.{AreSized, IsAccepted};
ghost use Rattle.derivation_walk.specs.derivation_trees.Trees.{Entry};
ghost use Rattle.derivation_making.specs.derivation_check.Accepted.{IsDerivation};
ghost use Rattle.derivation_text.specs.ProofText.{lines_text, IsProofText};
ghost use Rattle.derivation_making.specs.Made.{made_entries};
ghost use Rattle.derivation_making.specs.Numbered.{AllNumbered};
ghost use Rattle.derivation_agreement.specs.Within.{AreWithin};
ghost use Rattle.derivation_agreement.specs.Limits.{KeepsLimits};

/// A derivation of a program is read again from its text, where its nodes nest at most 10,000 deep and its numbers are
/// below 2^32. What is made for a program that is numbered in the order of the text and breaks no rule on ownership and
/// credits is so where the program keeps the limits on registers and instances: then its derivation has a text. For who
/// stores derivations.
pub fn derivations_are_read_from_their_text()
    ensures read { (p : Program) (es : List Entry) → IsDerivation p es → AreWithin es →
        IsProofText (lines_text es) es }
    ensures within { (p : Program) → AllNumbered p p.instances → IsDerivation p (made_entries p 0 p.instances) →
        KeepsLimits p → AreWithin (made_entries p 0 p.instances) }
    ensures made { (p : Program) → IsFilled p → AllNumbered p p.instances → AreSized p p.instances → IsAccepted p →
        KeepsLimits p → IsProofText (lines_text (made_entries p 0 p.instances)) (made_entries p 0 p.instances) }
{}
