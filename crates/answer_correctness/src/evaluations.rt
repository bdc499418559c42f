// What `eval` and `exec` end in by what the evaluation of an instance gives, so that what is proved of an evaluation
// holds of both commands; and what `gen` ends in. Theorems on what the words of a call end in, each the contract of a
// function that does nothing.
ghost use Rattle.std.specs.Prelude.{◌≡◌, ◌≤◌, ℕ, List, Ok};
ghost use Rattle.command_answers.specs.fip_outside.Files.{File};
ghost use Rattle.command_answers.specs.command_library.fip_language.declared.TrapKind.{TrapKind as a_trap};
ghost use Rattle.command_answers.specs.command_library.fip_language.Values.{Values};
ghost use Rattle.command_answers.specs.command_library.command_words.Words.{Request, Eval, Exec, Gen, most_count};
ghost use Rattle.command_answers.specs.Answer.{ComesTo};
ghost use Rattle.command_answers.specs.Asked.{Asked, GivesWith, TrapsWith, Prints, ReportsTrap, Suffices};
ghost use Rattle.command_answers.specs.Drawn.{drawn_text};
ghost use Rattle.command_answers.specs.Exec.{End as an_end};
ghost use Rattle.answer_correctness.specs.Evaluations.{IsEvaluated, IsExecuted};

/// `eval` prints the values that the evaluation gives with its calls and frames, and reports the trap where it is one. For
/// who has proved what a function gives.
pub fn eval_reports_what_the_evaluation_gives()
    ensures values { (a : Asked) (files : List File) (file : List ℕ) (calls least frames : ℕ) (vs : Values)
        (e : an_end) → IsEvaluated a files file → GivesWith a calls least vs → least ≤ frames →
        ComesTo files a.input (Eval file a.name calls frames) e → Prints a vs e }
    ensures trap { (a : Asked) (files : List File) (file : List ℕ) (calls least frames : ℕ) (kind : a_trap)
        (line col : ℕ) (e : an_end) → IsEvaluated a files file → TrapsWith a calls least kind line col →
        least ≤ frames → ComesTo files a.input (Eval file a.name calls frames) e → ReportsTrap kind line col e }
{}

/// `exec` without the gauge prints the values that the evaluation gives with its calls, and reports the trap where it is
/// one, in a room that has the words, and frames with which the evaluation gives them. A fip entry is run with fewer. For
/// who has proved what a function gives.
pub fn exec_reports_what_the_evaluation_gives()
    ensures values { (a : Asked) (files : List File) (r : Request) (least : ℕ) (vs : Values) (e : an_end) →
        IsExecuted a files r → GivesWith a r.room.calls least vs → Suffices a least r.room →
        ComesTo files a.input (Exec r) e → Prints a vs e }
    ensures trap { (a : Asked) (files : List File) (r : Request) (least : ℕ) (kind : a_trap) (line col : ℕ)
        (e : an_end) → IsExecuted a files r → TrapsWith a r.room.calls least kind line col →
        Suffices a least r.room → ComesTo files a.input (Exec r) e → ReportsTrap kind line col e }
{}

/// `gen` of as many keys as words may ask for reports of the keys that its seed draws, and of nothing else. For who reads
/// its four lines.
pub fn gen_reports_of_the_drawn_keys()
    ensures text { (files : List File) (input : List ℕ) (seed count : ℕ) (e : an_end) → count ≤ most_count →
        ComesTo files input (Gen seed count) e → e ≡ Ok (drawn_text seed count) }
{}
