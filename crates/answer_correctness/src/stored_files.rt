// The theorems on what `compile` and `upgrade` store. Each is the contract of a function that does nothing.
ghost use Rattle.std.specs.Prelude.{◌≡◌, ℕ, List, Some};
ghost use Rattle.command_answers.specs.command_library.command_source.Codes.{IsUpgraded};
ghost use Rattle.command_answers.specs.command_library.command_words.Words.{Request, Exec, Run};
ghost use Rattle.command_answers.specs.fip_outside.Files.{File, file_of};
ghost use Rattle.command_answers.specs.Answer.{ComesTo};
ghost use Rattle.command_answers.specs.CodeOf.{IsSourceFile};
ghost use Rattle.command_answers.specs.Exec.{End as an_end};
ghost use Rattle.compile_correctness.specs.Ends.{AreAlike};
ghost use Rattle.answer_correctness.specs.Joined.{at_file};

/// `compile`, then `run` with the same entry, input and options, answers as `exec` on the source, the lines of the gauge
/// included, whatever code was stored: but that E70 is reported in place of E71, since a plain function has no code. For who
/// ships a code file in place of its source.
pub fn compile_then_run_is_exec()
    ensures theorem { (files later : List File) (source stored name input : List ℕ) (r : Request) (d e : an_end) →
        IsSourceFile source stored → file_of r.file files ≡ Some source → file_of name later ≡ Some stored →
        ComesTo files input (Exec r) d → ComesTo later input (Run (at_file name r)) e → AreAlike r.entry d e }
{}

/// `upgrade`, then `run` with the same entry, input and options, answers as `run` on the file that was upgraded. For who
/// upgrades a file that is in use.
pub fn upgrade_then_run_is_run()
    ensures theorem { (files later : List File) (bytes stored name input : List ℕ) (r : Request) (d e : an_end) →
        IsUpgraded bytes stored → file_of r.file files ≡ Some bytes → file_of name later ≡ Some stored →
        ComesTo files input (Run r) d → ComesTo later input (Run (at_file name r)) e → d ≡ e }
{}
