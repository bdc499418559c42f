// The theorems on the derivations of accepted programs. Each is the contract of a function that does nothing.
ghost use Rattle.std.specs.Prelude.{◌≡◌, ℕ, List};
ghost use Rattle.source_report.specs.fip_trees.declared.needs.Need.{Need};
ghost use Rattle.source_report.specs.fip_trees.Tree.{Program};
ghost use Rattle.source_report.specs.type_check.Typing.{IsFilled};
ghost use Rattle.source_report.specs.ownership_agreement.Agreement.{AreSized, IsAccepted as BreaksNoRule};
ghost use Rattle.fip_proof.specs.derivation_check.Accepted.{IsDerivation};
ghost use Rattle.derivation_text.specs.ProofText.{lines_text, IsProofText};
ghost use Rattle.fip_proof.specs.derivation_making.Made.{made_entries};
ghost use Rattle.fip_proof.specs.derivation_making.Numbered.{AllNumbered};
ghost use Rattle.fip_proof.specs.derivation_making.Weakening.{AllLean};
ghost use Rattle.fip_proof.specs.credit_check.Tallies.{all_needs};
ghost use Rattle.fip_proof.specs.derivation_agreement.Limits.{KeepsLimits};
ghost use Rattle.fip_proof.specs.Ready.{IsReady};
ghost use Rattle.source_report.specs.Report.{IsAccepted};

/// What the making of derivations requires of a program, an accepted source's has: its slots are filled, its binders
/// are numbered in order, below 2^32, it is what the calculus of ownership speaks of, and it breaks no rule on
/// ownership and on credits. For who joins the theorems.
pub fn accepted_programs_are_numbered()
    ensures numbered { (source : List ℕ) (program : Program) → IsAccepted source program →
        AllNumbered program program.instances }
    ensures filled { (source : List ℕ) (program : Program) → IsAccepted source program → IsFilled program }
    ensures sized { (source : List ℕ) (program : Program) → IsAccepted source program →
        AreSized program program.instances }
    ensures unbroken { (source : List ℕ) (program : Program) → IsAccepted source program → BreaksNoRule program }
{}

/// The program of an accepted source is what `fip_proof::derive` requires, with what its expressions need: so the
/// clauses of `derive` say of an accepted source that its derivation is what is made for it, a derivation of it, and
/// weakens no more than it must. For who derives a source.
pub fn accepted_programs_are_ready()
    ensures ready { (source : List ℕ) (program : Program) (needs : List (List Need)) → IsAccepted source program →
        needs ≡ all_needs program program.instances → IsReady program needs }
{}

/// The program of an accepted source keeps the limits that its derivation's text requires, so the clauses of
/// `fip_proof::derivation_text` say of an accepted source that its text is read again as what is made for it: no node
/// lies too deep, and no number is too great. For who derives a source.
pub fn accepted_derivations_are_read()
    ensures limits { (source : List ℕ) (program : Program) → IsAccepted source program → KeepsLimits program }
    ensures read { (source : List ℕ) (program : Program) → IsAccepted source program →
        IsProofText (lines_text (made_entries program 0 program.instances))
        (made_entries program 0 program.instances) }
{}

/// What is made for the program of an accepted source is a derivation of it, and weakens no more than it must. For who
/// asks whether each accepted source has a derivation.
pub fn accepted_programs_have_derivations()
    ensures derived { (source : List ℕ) (program : Program) → IsAccepted source program →
        IsDerivation program (made_entries program 0 program.instances) }
    ensures lean { (source : List ℕ) (program : Program) → IsAccepted source program →
        AllLean (made_entries program 0 program.instances) }
{}
