// The theorems of sessions of a source. Each is the contract of a function that does nothing.
ghost use Rattle.std.specs.Prelude.{◌≤◌, List, ℕ};
ghost use Rattle.command_run.specs.cell_lower.cell_code.Plain.{plain};
ghost use Rattle.command_run.specs.code_rules.Breaks.{IsSound};
ghost use Rattle.command_run.specs.command_source.ProgramCode.{IsLoweredFrom};
ghost use Rattle.command_run.specs.separation.Codes.{HasLiterals};
ghost use Rattle.command_run.specs.session_semantics.Talk.{Setting};
ghost use Rattle.command_run.specs.source_report.Report.{IsAccepted};
ghost use Rattle.command_run.specs.tail_groups.Members.{AreMembers};
ghost use Rattle.session_code.specs.Served.{IsServed};
ghost use Rattle.session_code.specs.session_correctness.tree_refinement.cell_code.declared.code.Code.{Code};
ghost use Rattle.session_code.specs.session_correctness.tree_refinement.fip_language.declared.limits.TheConstants.{MOST_FRAMES};

/// The code that is made of a source which breaks no rule serves its program's sessions: each function that has a name
/// is that of an instance, with its parameters, results, credits and frames, and wherever it begins on values, beside
/// the cells of what else is held, it ends in what the instance means. For who keeps a store alive between calls.
pub fn what_is_made_of_a_source_serves_its_sessions()
    ensures theorem { (source : List ℕ) (o : Setting) (code : Code) → IsAccepted source o.program →
        AreMembers (o.program).instances o.members → IsSound (plain code) → HasLiterals (plain code) →
        IsLoweredFrom o.program (plain code) → o.frames ≤ MOST_FRAMES → IsServed o code }
{}
