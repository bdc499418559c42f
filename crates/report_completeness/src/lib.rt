// The report is complete: a source is accepted or has a report. Theorems, no code.
#![tactic(auto)]

ghost use Rattle.std.specs.Prelude.{ℕ, List};
ghost use Rattle.source_report.specs.fip_base.declared.refusal.Refusal.{Refusal as a_refusal};
ghost use Rattle.source_report.specs.fip_trees.Tree.{Program};
ghost use Rattle.source_report.specs.Report.{IsAccepted, Reports};

/// No source has neither a report nor a program: one that isn't accepted is reported, and one that isn't reported is
/// accepted. (With `source_report::accepted_is_not_reported` it is just one of both.) For who asks whether some source is
/// left without a verdict.
pub fn each_source_is_reported_or_accepted()
    ensures theorem { (source : List ℕ) → ((r : a_refusal) → Reports source r → ⊥) →
        ((p : Program) → IsAccepted source p → ⊥) → ⊥ }
{}
