// The theorems that a command has an answer. Each is the contract of a function that does nothing.
ghost use Rattle.std.specs.Prelude.{◌≡◌, ◌⊎◌, ℕ, List, Some, Ok, Err, slice_get};
ghost use Rattle.command_answers.specs.command_library.fip_language.declared.FunKind.TheVariants.{Fun};
ghost use Rattle.command_answers.specs.command_library.fip_language.declared.rule.Rule.TheVariants.{E61};
ghost use Rattle.command_answers.specs.command_library.fip_base.declared.refusal.Refusal.{Refusal as a_refusal};
ghost use Rattle.command_answers.specs.command_library.command_outcome.declared.failure.Failure.TheVariants.{Refused};
ghost use Rattle.command_answers.specs.command_library.command_source.Wanted.{Wanted, Compiled, Refuses, IsReady};
ghost use Rattle.command_answers.specs.command_library.command_words.Words.{Command, Room, Library, Gen, IsCommand, IsTextName};
ghost use Rattle.command_answers.specs.fip_outside.Files.{File, file_of};
ghost use Rattle.command_answers.specs.Answer.{ComesTo, Host, IsAnswer};
ghost use Rattle.command_answers.specs.Asks.{fetched_name, wanted};
ghost use Rattle.command_answers.specs.CodeOf.{IsSourceCode, IsSourceFile};
ghost use Rattle.command_answers.specs.Ends.{Compiles, TracesTo};
ghost use Rattle.command_answers.specs.Exec.{End as an_end};
ghost use Rattle.command_answers.specs.Stored.{IsMadeBy};
ghost use Rattle.answer_correctness.specs.Alike.{Finds};
ghost use Rattle.worked_examples.specs.cell_code.Plain.{PlainCode};
ghost use Rattle.worked_examples.specs.fip_trees.Tree.{Instance, Program};
ghost use Rattle.worked_examples.specs.source_report.Report.{bare, IsAccepted};
ghost use Rattle.answer_correctness.specs.Certain.{IsCertain, IsCoded};

/// `check`, `exec`, `eval` and `derive` have an answer on a source that is refused, or has what the command requires,
/// whatever the input is. For who asks whether a command may be without one.
pub fn a_source_has_an_answer()
    ensures theorem { (files : List File) (source input name : List ℕ) (c : Command) (w : Wanted) →
        fetched_name c ≡ Some name → wanted c ≡ Some w → file_of name files ≡ Some source → IsCertain c →
        ((r : a_refusal) × Refuses source w r) ⊎ IsReady source w → (e : an_end) × ComesTo files input c e }
{}

/// `trace` has an end on a source that has the entry, and of which there is a code, once the input is read. For who asks
/// whether a command may be without one.
pub fn a_source_with_a_code_is_traced()
    ensures theorem { (source name input : List ℕ) (room : Room) (code : PlainCode) → IsReady source (Compiled name) →
        IsSourceCode source code → (e : an_end) × TracesTo source name input room e }
{}

/// `compile` has an end on a source of which there is a code: the lines of `check`, and a file that can be stored; or E61. For
/// who asks whether a command may be without one.
pub fn a_source_with_a_code_is_compiled()
    ensures theorem { (source : List ℕ) (code : PlainCode) → IsSourceCode source code →
        ((text file : List ℕ) × Compiles source (Ok text) × IsSourceFile source file)
        ⊎ Compiles source (Err (Refused (bare E61))) }
{}

/// An accepted source whose functions are all plain has a code, which has no functions. So `compile` has an end on it (of a
/// source with fip or fbip functions it isn't said that there is a code). For who asks whether a source can be compiled.
pub fn a_plain_source_has_a_code()
    ensures theorem { (source : List ℕ) (p : Program) → IsAccepted source p →
        ((i : ℕ) (d : Instance) → slice_get p.instances i ≡ Some d → d.kind ≡ Fun) →
        (code : PlainCode) × IsSourceCode source code }
{}

/// Each source is refused or has what is required, for whatever is required: no source is without both (`some`) or has
/// both (`apart`), and it has one refusal at most (`one`). For who asks whether some source is left without a verdict.
pub fn each_source_is_refused_or_ready()
    ensures some { (source : List ℕ) (w : Wanted) → ((r : a_refusal) → Refuses source w r → ⊥) →
        (IsReady source w → ⊥) → ⊥ }
    ensures apart { (source : List ℕ) (w : Wanted) (r : a_refusal) → Refuses source w r → IsReady source w → ⊥ }
    ensures one { (source : List ℕ) (w : Wanted) (q r : a_refusal) → Refuses source w q → Refuses source w r → q ≡ r }
{}

/// No command is without an answer, whatever the files and the input are. Of `compile` and `trace` it is so where an accepted
/// source has a code (`IsCoded`). For who asks whether a call may end in nothing.
pub fn each_command_has_an_answer()
    ensures theorem { (words : List (List ℕ)) (files : List File) (input : List ℕ) (c : Command) → IsCommand words c →
        IsCoded files c → ((e : an_end) → ComesTo files input c e → ⊥) → ⊥ }
{}

/// An end has a whole answer, whatever was on out and err before: it is shown, and where it is a text what the command
/// makes is put under its name. So what was said of ends holds of status, texts and files. For who asks whether a
/// command may be without an answer.
pub fn an_end_has_a_whole_answer()
    ensures theorem { (c : Command) (files : List File) (input out err : List ℕ) (e : an_end) → ComesTo files input c e →
        ((text : List ℕ) → e ≡ Ok text → (bytes : List ℕ) × IsMadeBy c (Some input) (Some files) bytes) →
        (h : Host) × Finds h out err × IsAnswer c files input h }
{}

/// `library` has an answer, and so has `gen`. For who asks whether a command may be without one.
pub fn the_library_has_an_answer()
    ensures text { (files : List File) (input name : List ℕ) → IsTextName name →
        (e : an_end) × ComesTo files input (Library name) e }
    ensures tree { (files : List File) (input : List ℕ) (seed count : ℕ) →
        (e : an_end) × ComesTo files input (Gen seed count) e }
{}
