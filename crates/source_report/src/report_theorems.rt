// Theorems of the report.
ghost use Rattle.std.specs.Prelude.{◌≡◌, ◌↔◌, ℕ, List};
ghost use Rattle.cell_lower.specs.fip_base.declared.refusal.Refusal.{Refusal};
ghost use Rattle.cell_lower.specs.fip_trees.Tree.{Program};
ghost use Rattle.cell_lower.specs.fip_trees.declared.program.Instance.{Instance};
ghost use Rattle.cell_lower.specs.fip_language.Table.{Table};
ghost use Rattle.cell_lower.specs.fip_trees.TreeView.{instances};
ghost use Rattle.cell_lower.specs.fip_trees.declared.least.Violation.{Violation};
ghost use Rattle.cell_lower.specs.match_cover.Answers.{IsRight};
ghost use Rattle.cell_lower.specs.match_cover.Coverage.{CoverFault, IsReady};
ghost use Rattle.cell_lower.specs.match_cover.Shapes.{shape_faults};
ghost use Rattle.ownership_agreement.specs.Agreement.{AreSized, AreDerived};
ghost use Rattle.source_report.specs.Literals.{LiteralsFit};
ghost use Rattle.source_report.specs.InMemory.{AreOf};
ghost use Rattle.source_report.specs.MatchRules as R;
ghost use Rattle.source_report.specs.Report.{IsTyped, IsOwned, IsCredited, IsAccepted, Reports};
ghost use Rattle.source_report.specs.Same.{AreSame};
ghost use Rattle.source_report.specs.WellFormed.{IsWellFormed};
ghost use Rattle.cell_lower.specs.tail_groups.Members.{FipCallsFip};
ghost use Rattle.lowering_simulation.specs.type_check.Typing.{IsFilled};

/// A source that is accepted has no report.
pub fn accepted_is_not_reported()
    ensures { (source : List ℕ) (p : Program) (r : Refusal) → IsAccepted source p → Reports source r → ⊥ }
{}

/// A source has one report at most.
pub fn reported_once()
    ensures { (source : List ℕ) (q r : Refusal) → Reports source q → Reports source r → AreSame q r }
{}

/// A source that is accepted has one program.
pub fn accepted_once()
    ensures { (source : List ℕ) (p q : Program) → IsAccepted source p → IsAccepted source q → p ≡ q }
{}

/// The typed program of a source is well formed, the literals of its patterns have 64 bits, and so it is what coverage
/// speaks of.
pub fn typed_programs_are_sound()
    ensures well_formed { (source : List ℕ) (p : Program) → IsTyped source p → IsWellFormed p }
    ensures literals { (source : List ℕ) (p : Program) → IsTyped source p → LiteralsFit p }
    ensures ready { (source : List ℕ) (p : Program) (ds : List Instance) → IsTyped source p → IsFilled p → AreOf p ds →
        IsReady p.types ds }
{}

/// Where no rule on ownership is broken, fip instances call fip ones alone. So what the groups of the program report of
/// the stack are the least numbers.
pub fn fip_calls_fip()
    ensures { (source : List ℕ) (p : Program) → IsOwned source p → FipCallsFip p.instances }
{}

/// The typed program of a source is what the calculus of ownership speaks of. Where no rule on ownership and on credits
/// is broken, each of its fip and fbip instances has a derivation.
pub fn accepted_programs_are_derived()
    ensures sized { (source : List ℕ) (p : Program) → IsTyped source p → AreSized p p.instances }
    ensures derived { (source : List ℕ) (p : Program) → IsCredited source p → AreDerived p p.instances }
{}

/// The rules on matches, which the report checks on trees, are those that are looked for where the trees lie in memory.
pub fn matches_are_judged_as_in_memory()
    ensures shapes { (ds : List Instance) → shape_faults 0 ds ≡ R.shape_faults 0 (instances ds) }
    ensures faults { (tb : Table) (ds : List Instance) (v : Violation) →
        (CoverFault tb 0 ds v ↔ R.CoverFault tb 0 (instances ds) v) }
    ensures right { (tb : Table) (ds : List Instance) → (IsRight tb ds ↔ R.IsRight tb (instances ds)) }
{}
