// The theorems on the binders of typed programs. Each is the contract of a function that does nothing.
ghost use Rattle.std.specs.Prelude.{ℕ, List};
ghost use Rattle.cell_lower.specs.fip_language.Every.{Every};
ghost use Rattle.cell_lower.specs.fip_trees.Tree.{Program};
ghost use Rattle.lowering_simulation.specs.Distinct.{AreDistinct};
ghost use Rattle.source_report.specs.Report.{IsTyped};
ghost use Rattle.source_report.specs.Order.{IsOrdered};

/// In the typed program of a source the binders of each instance are numbered in order from 0: its parameters first,
/// then those of the body, the binders within a let's bound expression before the let's own; and each let binds
/// something. For who counts binders.
pub fn typed_programs_number_their_binders()
    ensures theorem { (source : List ℕ) (program : Program) → IsTyped source program → Every IsOrdered program.instances }
{}

/// In the typed program of a source, and so in that of an accepted one, no binder has the number of one in whose scope
/// it is. For who finds a variable by the number of its binder.
pub fn typed_programs_have_distinct_binders()
    ensures theorem { (source : List ℕ) (program : Program) → IsTyped source program → AreDistinct program }
{}
