// The theorems of derivations' texts. Each is the contract of a function that does nothing.
ghost use Rattle.std.specs.Prelude.{◌≡◌, ℕ, List};
ghost use Rattle.derivation_trees.specs.Trees.{Entry};
ghost use Rattle.derivation_text.specs.ProofText.{IsProofText};

/// A derivation has one text at most that can be read, and a text is that of one derivation. For who compares files of
/// derivations.
#[tactic(auto, using(crate::proofs::Whole::one_text, crate::proofs::Whole::one_derivation))]
pub fn a_derivation_has_one_text()
    ensures text { (es : List Entry) (text other : List ℕ) → IsProofText text es → IsProofText other es →
        text ≡ other }
    ensures derivation { (text : List ℕ) (es fs : List Entry) → IsProofText text es → IsProofText text fs → es ≡ fs }
{}
