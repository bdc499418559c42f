// The theorems that runs, and commands on the files of codes and of traces, have one answer. Each is the contract of a
// function that does nothing.
ghost use Rattle.std.specs.Prelude.{◌≡◌, ℕ, Bool, List};
ghost use Rattle.command_answers.specs.fip_outside.Files.{File};
ghost use Rattle.command_answers.specs.command_library.command_words.Words.{Request, Run, Room, Verify, Upgrade, Replay};
ghost use Rattle.command_answers.specs.command_library.command_source.Codes.{HasFunction};
ghost use Rattle.command_answers.specs.command_library.command_run.CodeRun.{RunsCode};
ghost use Rattle.command_answers.specs.command_library.command_run.ExecAnswer as E;
ghost use Rattle.command_answers.specs.Answer.{ComesTo};
ghost use Rattle.command_answers.specs.Exec.{End as an_end, Execs};

/// The file of a sound code that has a function of the entry's name: whatever the input is, the run of it is reported as one
/// thing, and never as nothing. For who prints what a machine answers.
pub fn what_is_reported_of_a_run_is_one()
    ensures some { (bytes name input : List ℕ) (room : Room) (gauge : Bool) → HasFunction bytes name →
        ((e : an_end) → RunsCode bytes name input room gauge e → ⊥) → ⊥ }
    ensures one { (bytes name input : List ℕ) (room : Room) (gauge : Bool) (e d : an_end) →
        RunsCode bytes name input room gauge e → RunsCode bytes name input room gauge d → e ≡ d }
{}

/// A run of a source's entry is reported as one thing, with the gauge as without, whichever code of the source is run, and
/// wherever its cells lie; and it is what is reported by trees. For who replaces a compiler.
pub fn what_is_reported_of_an_entry_is_one()
    ensures one { (source name input : List ℕ) (room : Room) (gauge : Bool) (e d : an_end) →
        E.Execs source name input room gauge e → E.Execs source name input room gauge d → e ≡ d }
    ensures is { (source name input : List ℕ) (room : Room) (gauge : Bool) (d e : an_end) →
        Execs source name input room gauge d → E.Execs source name input room gauge e → e ≡ d }
{}

/// `run` is never without an answer, whatever files and input there are, and it has one. For who asks whether it has
/// an answer.
pub fn run_has_one_answer()
    ensures some { (files : List File) (input : List ℕ) (r : Request) →
        ((e : an_end) → ComesTo files input (Run r) e → ⊥) → ⊥ }
    ensures one { (files : List File) (input : List ℕ) (r : Request) (d e : an_end) →
        ComesTo files input (Run r) d → ComesTo files input (Run r) e → d ≡ e }
{}

/// `verify` and `upgrade` are never without an answer, whatever files there are, and have one. For who keeps code
/// files.
pub fn codes_have_one_answer()
    ensures verified { (files : List File) (input file : List ℕ) →
        ((e : an_end) → ComesTo files input (Verify file) e → ⊥) → ⊥ }
    ensures one { (files : List File) (input file : List ℕ) (d e : an_end) → ComesTo files input (Verify file) d →
        ComesTo files input (Verify file) e → d ≡ e }
    ensures upgraded { (files : List File) (input file out : List ℕ) →
        ((e : an_end) → ComesTo files input (Upgrade file out) e → ⊥) → ⊥ }
    ensures one_upgrade { (files : List File) (input file out : List ℕ) (d e : an_end) →
        ComesTo files input (Upgrade file out) d → ComesTo files input (Upgrade file out) e → d ≡ e }
{}

/// `replay` has an answer, whatever files there are, and one alone. For who keeps files of traces.
pub fn replay_has_one_answer()
    ensures some { (files : List File) (input trace : List ℕ) (step : ℕ) →
        (e : an_end) × ComesTo files input (Replay trace step) e }
    ensures one { (files : List File) (input trace : List ℕ) (step : ℕ) (d e : an_end) →
        ComesTo files input (Replay trace step) d → ComesTo files input (Replay trace step) e → d ≡ e }
{}
