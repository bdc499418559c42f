// The theorems on files that `compile` and `upgrade` store. Each is the contract of a function that does nothing.
ghost use Rattle.std.specs.Prelude.{◌≡◌, ◌<◌, ◌≤◌, ℕ, List, Bool, Result, length};
ghost use Rattle.command_words.specs.Words.{Room};
ghost use Rattle.command_run.specs.session_semantics.command_outcome.declared.failure.Failure.{Failure};
ghost use Rattle.code_bytes.specs.Bytes.{most_bytes};
ghost use Rattle.command_run.specs.code_file.CodeText.{CodeText};
ghost use Rattle.command_run.specs.cell_lower.cell_code.Plain.{PlainCode};
ghost use Rattle.command_run.specs.code_file.declared.tags.Version.TheVariants.{Second};
ghost use Rattle.compile_correctness.specs.Ends.{ExecEnds, RunEnds, AreAlike};
ghost use Rattle.command_run.specs.cell_lower.fip_language.declared.limits.TheConstants.{MOST_FILE_BYTES};
ghost use Rattle.command_run.specs.fip_trees.Tree.{Program};
ghost use Rattle.command_run.specs.CodeRun.{RunsCode};
ghost use Rattle.command_run.specs.ExecAnswer.{Execs};
ghost use Rattle.command_run.specs.command_source.Codes.{IsUpgraded};
ghost use Rattle.command_run.specs.command_source.ProgramCode.{IsCodeOfSource, IsCompiledFile, IsUncompiled};
ghost use Rattle.command_run.specs.source_report.Report.{IsAccepted};

/// The file that `compile` stores of a source is run as the source is executed, with the same input and options: both
/// print the same values and the same lines of the gauge, or report the same bad input, the same words that are
/// missing, the same trap, or that calls or frames ran out. Whatever code was stored, and whatever code is executed.
/// For who ships a code file in place of its source.
pub fn a_compiled_file_runs_as_its_source()
    ensures theorem { (source file name input : List ℕ) (room : Room) (gauge : Bool) (d e : Result (List ℕ) Failure) →
        IsCompiledFile source file → Execs source name input room gauge d → RunsCode file name input room gauge e →
        d ≡ e }
{}

/// `run` on the file that `compile` stores of a source ends as `exec` on the source, with the same entry, input and
/// options, also where there is no run: but that E70 is reported in place of E71, since a plain function has no code. For who
/// reads what both commands print.
pub fn run_ends_as_exec()
    ensures theorem { (source file name input : List ℕ) (room : Room) (gauge : Bool) (d e : Result (List ℕ) Failure) →
        IsCompiledFile source file → ExecEnds source name input room gauge d →
        RunEnds file name input room gauge e → AreAlike name d e }
{}

/// `run` on the file that `upgrade` stores ends as on the file that was upgraded, with the same entry, input and options.
/// For who upgrades a file that is in use.
pub fn an_upgraded_file_runs_as_before()
    ensures theorem { (bytes file name input : List ℕ) (room : Room) (gauge : Bool) (d e : Result (List ℕ) Failure) →
        IsUpgraded bytes file → RunEnds bytes name input room gauge d → RunEnds file name input room gauge e → d ≡ e }
    ensures ends { (bytes file name input : List ℕ) (room : Room) (gauge : Bool) (e : Result (List ℕ) Failure) →
        IsUpgraded bytes file → RunEnds bytes name input room gauge e → RunEnds file name input room gauge e }
{}

/// The file of a code that is made of a source has no more bytes than the source's program allows, whatever of the code
/// is never reached. For who keeps room for a file.
pub fn a_code_is_no_longer_than_its_source_allows()
    ensures theorem { (source file : List ℕ) (code : PlainCode) (p : Program) → IsCodeOfSource source code →
        CodeText file Second code → IsAccepted source p → length file ≤ most_bytes p }
{}

/// `compile` answers E61 of a source only where the source's program allows a file of more than 16,777,216 bytes. For who
/// asks whether a source can be compiled.
pub fn a_small_source_is_compiled()
    ensures theorem { (source : List ℕ) (p : Program) → IsUncompiled source → IsAccepted source p →
        MOST_FILE_BYTES < most_bytes p }
{}
