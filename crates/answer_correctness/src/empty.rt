// What commands end in on a source without any text, and on the file of its code: nothing is asked for them. Each
// theorem is the contract of a function that does nothing.
ghost use Rattle.std.specs.Prelude.{◌≡◌, ℕ, List, [], ◌∷◌, Some, Ok, Err, codes};
ghost use Rattle.command_answers.specs.command_library.fip_language.declared.rule.Rule.TheVariants.{E70};
ghost use Rattle.command_answers.specs.fip_outside.Files.{File, file_of};
ghost use Rattle.command_answers.specs.command_library.command_words.Words.{Request, Check, Compile, Verify, Upgrade, Exec, Run, Eval, Trace, Tasks};
ghost use Rattle.command_answers.specs.command_library.command_words.Words.{Derive, Audit, Room};
ghost use Rattle.command_answers.specs.command_library.command_outcome.Successes.{derived_text};
ghost use Rattle.command_answers.specs.command_library.command_outcome.declared.failure.Failure.TheVariants as F;
ghost use Rattle.command_answers.specs.command_library.command_source.Codes.{IsSoundFile};
ghost use Rattle.command_answers.specs.command_library.command_source.Wanted.{of_entry};
ghost use Rattle.command_answers.specs.command_library.session_semantics.Lines.{lines_of};
ghost use Rattle.command_answers.specs.command_library.session_semantics.Talk.{Setting, Talks, at_first};
ghost use Rattle.command_answers.specs.command_tasks.TasksAnswer.{IsSetting};
ghost use Rattle.command_answers.specs.Answer.{Answered, ComesTo, host};
ghost use Rattle.command_answers.specs.CodeOf.{IsCodeOf};
ghost use Rattle.worked_examples.specs.Empty.{empty_program};
ghost use Rattle.answer_correctness.specs.Empty.{empty_code, empty_file, a_file};

/// The program of the empty source has a code, which has a file. For who asks whether any code is one of a program.
pub fn an_empty_program_has_a_code()
    ensures code { IsCodeOf empty_program empty_code }
    ensures file { IsSoundFile empty_file empty_code }
{}

/// The empty source has no lines and no entry. A session on it replies to nothing, and to an empty line as to a bad
/// one; no task is a list of tasks, and an empty line is a bad task. For who wants to see an answer of each command.
pub fn an_empty_source_is_answered()
    ensures check { (files : List File) (input name : List ℕ) → file_of name files ≡ Some [] →
        ComesTo files input (Check name) (Ok []) }
    ensures compile { (files : List File) (input name out : List ℕ) → file_of name files ≡ Some [] →
        ComesTo files input (Compile name out) (Ok []) }
    ensures exec { (files : List File) (input : List ℕ) (r : Request) → file_of r.file files ≡ Some [] →
        ComesTo files input (Exec r) (Err (F.Refused (of_entry E70 r.entry))) }
    ensures eval { (files : List File) (input name entry : List ℕ) (calls frames : ℕ) →
        file_of name files ≡ Some [] →
        ComesTo files input (Eval name entry calls frames) (Err (F.Refused (of_entry E70 entry))) }
    ensures trace { (files : List File) (input name entry out : List ℕ) (room : Room) →
        file_of name files ≡ Some [] →
        ComesTo files input (Trace name entry out room) (Err (F.Refused (of_entry E70 entry))) }
    ensures session { (room : Room) → (o : Setting) × IsSetting [] room o × Talks o at_first (lines_of []) [] }
    ensures bad_line { (room : Room) → (o : Setting) × IsSetting [] room o
        × Talks o at_first (lines_of (10 ∷ [])) (codes "bad line\n") }
    ensures tasks { (files : List File) (name : List ℕ) (seed turns : ℕ) (room : Room) →
        file_of name files ≡ Some [] → ComesTo files [] (Tasks name seed turns room) (Ok []) }
    ensures bad_task { (files : List File) (name : List ℕ) (seed turns : ℕ) (room : Room) →
        file_of name files ≡ Some [] → ComesTo files (10 ∷ []) (Tasks name seed turns room) (Err (F.BadTask 1)) }
    ensures derive { (files : List File) (input name out : List ℕ) → file_of name files ≡ Some [] →
        ComesTo files input (Derive name out) (Ok derived_text) }
    ensures audit { (files : List File) (input name proof : List ℕ) → file_of name files ≡ Some [] →
        file_of proof files ≡ Some [] → ComesTo files input (Audit name proof) (Ok derived_text) }
{}

/// The file of its code has no named functions, is stored again as it is, and has no entry to run. For who wants to see
/// an answer of each command on code.
pub fn an_empty_code_is_answered()
    ensures verify { (files : List File) (input name : List ℕ) → file_of name files ≡ Some empty_file →
        ComesTo files input (Verify name) (Ok []) }
    ensures upgrade { (files : List File) (input name out : List ℕ) → file_of name files ≡ Some empty_file →
        ComesTo files input (Upgrade name out) (Ok []) }
    ensures run { (files : List File) (input : List ℕ) (r : Request) → file_of r.file files ≡ Some empty_file →
        ComesTo files input (Run r) (Err (F.Refused (of_entry E70 r.entry))) }
{}

/// Where the file a is empty, `fp2 check a` prints nothing, and `fp2 compile a b` stores the file of its code under b. For
/// who wants to see a whole answer, from words to files.
pub fn an_example_of_answers()
    ensures check { (input : List ℕ) →
        Answered (codes "fp2" ∷ codes "check" ∷ codes "a" ∷ []) (a_file (codes "a") [] ∷ []) input
        (host (Some []) (Some []) (Some []) (Some []) (Some (a_file (codes "a") [] ∷ [])) 0) }
    ensures compile { (input : List ℕ) →
        Answered (codes "fp2" ∷ codes "compile" ∷ codes "a" ∷ codes "b" ∷ []) (a_file (codes "a") [] ∷ []) input
        (host (Some []) (Some []) (Some []) (Some [])
        (Some (a_file (codes "a") [] ∷ a_file (codes "b") empty_file ∷ [])) 0) }
{}
