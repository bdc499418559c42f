// The theorems that say of what a command ends with. Each is the contract of a function that does nothing.
ghost use Rattle.std.specs.Prelude.{◌≡◌, ◌<◌, ◌≤◌, ℕ, false, List, [], codes, length, Some, None, Ok, Err};
ghost use Rattle.std.specs.Fmt.{decimal};
ghost use Rattle.command_answers.specs.command_library.fip_language.declared.limits.TheConstants.{MOST_FILE_BYTES, MOST_SOURCE_BYTES};
ghost use Rattle.command_answers.specs.command_library.fip_language.declared.rule.Rule.TheVariants.{E05, E61, E72, E73, E74, E75};
ghost use Rattle.command_answers.specs.command_library.fip_language.Meaning.{Gives};
ghost use Rattle.command_answers.specs.command_library.fip_language.Prefix.{IsPlace};
ghost use Rattle.command_answers.specs.command_library.fip_language.Values.{Value, Values, End, More};
ghost use Rattle.command_answers.specs.fip_outside.Files.{File, file_of};
ghost use Rattle.command_answers.specs.command_library.fip_base.declared.refusal.Refusal.{Refusal as a_refusal};
ghost use Rattle.command_answers.specs.command_library.library_sources.declared.list.TheConstants as list;
ghost use Rattle.worked_examples.specs.fip_trees.Tree.{Program};
ghost use Rattle.command_answers.specs.command_library.derivation_trees.Trees.{Entry};
ghost use Rattle.command_answers.specs.command_library.derivation_text.ProofText.{IsProofText};
ghost use Rattle.command_answers.specs.command_library.derivation_check.Accepted.{IsDerivation};
ghost use Rattle.command_answers.specs.command_library.command_words.Words.{Command, Request, Room, Check, Compile, Verify, Upgrade, Exec, Run, Eval};
ghost use Rattle.command_answers.specs.command_library.command_words.Words.{Trace, Tasks, Derive, Audit, Replay, Library, Gen};
ghost use Rattle.command_answers.specs.command_library.command_outcome.Successes.{derived_text};
ghost use Rattle.command_answers.specs.command_library.command_outcome.declared.failure.Failure.{Failure};
ghost use Rattle.command_answers.specs.command_library.command_outcome.declared.failure.Failure.TheVariants as F;
ghost use Rattle.command_answers.specs.command_library.command_outcome.declared.failure.Object.TheVariants as O;
ghost use Rattle.worked_examples.specs.cell_code.Plain.{PlainCode};
ghost use Rattle.worked_examples.specs.source_report.Report.{bare, IsMatched};
ghost use Rattle.command_answers.specs.command_library.command_source.Codes.{IsSoundFile, IsCodeListing, IsUpgraded, IsUnspelt, RefusesCode};
ghost use Rattle.command_answers.specs.command_library.command_source.Derived.{IsDerivedFile, IsUnderived};
ghost use Rattle.command_answers.specs.command_library.command_source.Judged.{IsBadAt};
ghost use Rattle.command_answers.specs.command_library.command_source.Roots.{IsListing};
ghost use Rattle.command_answers.specs.command_library.command_source.Wanted.{Wanted, Refuses, IsReady, IsReport, of_entry};
ghost use Rattle.command_answers.specs.command_library.command_eval.EvalAnswer.{Entry as an_entry, Spells, Evaluates};
ghost use Rattle.command_answers.specs.command_library.command_run.CodeRun.{Chosen, RunOf, SpellsFor, ReportsOf, words_of as words_of_code};
ghost use Rattle.command_answers.specs.command_library.run_loading.Example.{rewriting, file_with};
ghost use Rattle.command_answers.specs.command_library.run_loading.Replaying.{replayed};
ghost use Rattle.command_answers.specs.command_library.run_loading.TraceText.{Trace as a_trace};
ghost use Rattle.command_answers.specs.command_tasks.TasksAnswer.{TakesTurns};
ghost use Rattle.command_answers.specs.command_trace.TraceAnswer.{IsLong};
ghost use Rattle.command_answers.specs.command_library.GenAnswer.{tree_source, build, gen_room};
ghost use Rattle.command_answers.specs.command_library.MadeTree.{gen_input, lines_of_tree};
ghost use Rattle.command_answers.specs.Answer.{ComesTo};
ghost use Rattle.command_answers.specs.Asks.{ReadsInput, fetched_name, wanted};
ghost use Rattle.command_answers.specs.CodeOf.{HasLongCode, IsSourceTrace};
ghost use Rattle.command_answers.specs.Ends.{Does, IsTaken};
ghost use Rattle.command_answers.specs.Exec.{End as an_end, Start, ReportsAll, frames_for, run_of, running, words_of};

/// A file that is missing is reported, whatever fetches it. For who reads a fault.
pub fn a_missing_file_is_reported()
    ensures theorem { (files : List File) (input : List ℕ) (c : Command) (name : List ℕ) → fetched_name c ≡ Some name →
        file_of name files ≡ None → ComesTo files input c (Err (F.Fault O.Folder)) }
{}

/// Of a source that is there: its refusal is reported, as that it is too long; then that the input is; and else what the
/// command does. For who reads a report.
pub fn a_source_is_answered()
    ensures refused { (files : List File) (source input name : List ℕ) (c : Command) (w : Wanted) (r : a_refusal) →
        fetched_name c ≡ Some name → wanted c ≡ Some w → file_of name files ≡ Some source → Refuses source w r →
        ComesTo files input c (Err (F.Refused r)) }
    ensures long { (files : List File) (source input name : List ℕ) → file_of name files ≡ Some source →
        MOST_SOURCE_BYTES < length source → ComesTo files input (Check name) (Err (F.Refused (bare E05))) }
    ensures long_input { (files : List File) (source input name : List ℕ) (c : Command) (w : Wanted) →
        fetched_name c ≡ Some name → wanted c ≡ Some w → file_of name files ≡ Some source → IsReady source w →
        ReadsInput c → MOST_FILE_BYTES < length input → ComesTo files input c (Err (F.BadInput MOST_FILE_BYTES)) }
    ensures ready { (files : List File) (source input name : List ℕ) (c : Command) (w : Wanted) (e : an_end) →
        fetched_name c ≡ Some name → wanted c ≡ Some w → file_of name files ≡ Some source → IsReady source w →
        IsTaken c input → Does source input c e → ComesTo files input c e }
{}

/// What is required of a listing, of a code, of an evaluation and of a derivation is enough. For who asks whether a
/// command can be done.
pub fn a_ready_source_is_used()
    ensures check { (source input text file : List ℕ) → IsListing source text → Does source input (Check file) (Ok text) }
    ensures compile { (source input text name out : List ℕ) → IsListing source text →
        Does source input (Compile name out) (Ok text) }
    ensures unspelt { (source input name out : List ℕ) → HasLongCode source →
        Does source input (Compile name out) (Err (F.Refused (bare E61))) }
    ensures eval { (source input name entry : List ℕ) (calls frames : ℕ) (e : an_end) →
        Evaluates source entry input calls frames e → Does source input (Eval name entry calls frames) e }
    ensures derive { (source input file name out : List ℕ) → IsDerivedFile source file →
        Does source input (Derive name out) (Ok derived_text) }
    ensures underivable { (source input name out : List ℕ) → IsUnderived source →
        Does source input (Derive name out) (Err (F.Refused (bare E74))) }
{}

/// What is required of a run, of a trace and of tasks is enough; what keeps a run from its values keeps a trace from
/// them. For who asks whether an entry can be run.
pub fn a_ready_entry_is_run()
    ensures misspelt { (source input : List ℕ) (r : Request) (y : an_entry source r.entry) (at : ℕ) →
        IsPlace (Spells y) input at → Does source input (Exec r) (Err (F.BadInput at)) }
    ensures small { (source input : List ℕ) (r : Request) (y : an_entry source r.entry) (vs : Values) →
        Spells y input vs → r.room.words < words_of y vs →
        Does source input (Exec r) (Err (F.TooSmall (words_of y vs) r.room.words)) }
    ensures exec { (source input : List ℕ) (r : Request) (s : Start source r.entry) (vs : Values) (e : an_end) →
        Spells s.entry input vs → words_of s.entry vs ≤ r.room.words →
        ReportsAll (running s) vs r.room.calls (frames_for s r.room) r.gauge (run_of s vs r.room) e →
        Does source input (Exec r) e }
    ensures kept { (source input name entry out : List ℕ) (room : Room) (s : Start source entry) (vs : Values)
        (f : Failure) → Spells s.entry input vs → words_of s.entry vs ≤ room.words →
        ReportsAll (running s) vs room.calls (frames_for s room) false (run_of s vs room) (Err f) →
        Does source input (Trace name entry out room) (Err f) }
    ensures traced { (source input name entry out text : List ℕ) (room : Room) (s : Start source entry) (vs : Values)
        (t : a_trace) → Spells s.entry input vs → words_of s.entry vs ≤ room.words →
        ReportsAll (running s) vs room.calls (frames_for s room) false (run_of s vs room) (Ok text) →
        IsSourceTrace source entry input room t → (IsLong t → ⊥) →
        Does source input (Trace name entry out room) (Ok text) }
    ensures untraced { (source input name entry out : List ℕ) (room : Room) (t : a_trace) →
        IsSourceTrace source entry input room t → IsLong t →
        Does source input (Trace name entry out room) (Err (F.Refused (bare E75))) }
    ensures tasks { (source input name : List ℕ) (seed turns : ℕ) (room : Room) (e : an_end) →
        TakesTurns source input room e → Does source input (Tasks name seed turns room) e }
{}

/// Of a code's file that is there: that it is too long, or no sound code's, is reported; and else what the command does.
/// For who keeps code files.
pub fn a_code_file_is_answered()
    ensures long { (files : List File) (bytes input name : List ℕ) → file_of name files ≡ Some bytes →
        MOST_FILE_BYTES < length bytes → ComesTo files input (Verify name) (Err (F.BadCode MOST_FILE_BYTES)) }
    ensures refused { (files : List File) (bytes input : List ℕ) (r : Request) (f : Failure) →
        file_of r.file files ≡ Some bytes → RefusesCode bytes f → ComesTo files input (Run r) (Err f) }
    ensures verify { (files : List File) (bytes input text name : List ℕ) → file_of name files ≡ Some bytes →
        IsCodeListing bytes text → ComesTo files input (Verify name) (Ok text) }
    ensures upgrade { (files : List File) (bytes input text file name out : List ℕ) →
        file_of name files ≡ Some bytes → IsCodeListing bytes text → IsUpgraded bytes file →
        ComesTo files input (Upgrade name out) (Ok text) }
    ensures unspelt { (files : List File) (bytes input name out : List ℕ) (code : PlainCode) →
        file_of name files ≡ Some bytes → IsSoundFile bytes code → IsUnspelt code →
        ComesTo files input (Upgrade name out) (Err (F.Refused (bare E61))) }
    ensures small { (files : List File) (bytes input : List ℕ) (r : Request) (c : Chosen bytes r.entry)
        (vs : Values) → file_of r.file files ≡ Some bytes → length input ≤ MOST_FILE_BYTES → SpellsFor c input vs →
        r.room.words < words_of_code c vs →
        ComesTo files input (Run r) (Err (F.TooSmall (words_of_code c vs) r.room.words)) }
    ensures run { (files : List File) (bytes input : List ℕ) (r : Request) (c : Chosen bytes r.entry) (vs : Values)
        (q : RunOf c vs r.room) (e : an_end) → file_of r.file files ≡ Some bytes → length input ≤ MOST_FILE_BYTES →
        SpellsFor c input vs → words_of_code c vs ≤ r.room.words → ReportsOf c vs r.room q r.gauge e →
        ComesTo files input (Run r) e }
{}

/// What `audit` reports of a source and of a proof's file, that is there or missing. For who checks derivations of
/// strangers.
pub fn a_derivation_is_judged()
    ensures reported { (files : List File) (source input name proof : List ℕ) (r : a_refusal) →
        file_of name files ≡ Some source → ((p : Program) → IsMatched source p → ⊥) → IsReport source r →
        ComesTo files input (Audit name proof) (Err (F.Refused r)) }
    ensures missing { (files : List File) (source input name proof : List ℕ) (p : Program) →
        file_of name files ≡ Some source → file_of proof files ≡ None → IsMatched source p →
        ComesTo files input (Audit name proof) (Err (F.Fault O.Folder)) }
    ensures accepted { (files : List File) (source bytes input name proof : List ℕ) (p : Program) (es : List Entry) →
        file_of name files ≡ Some source → file_of proof files ≡ Some bytes → IsMatched source p →
        length bytes ≤ MOST_FILE_BYTES → IsProofText bytes es → IsDerivation p es →
        ComesTo files input (Audit name proof) (Ok derived_text) }
    ensures other { (files : List File) (source bytes input name proof : List ℕ) (p : Program) (es : List Entry) →
        file_of name files ≡ Some source → file_of proof files ≡ Some bytes → IsMatched source p →
        length bytes ≤ MOST_FILE_BYTES → IsProofText bytes es → (IsDerivation p es → ⊥) →
        ComesTo files input (Audit name proof) (Err (F.Refused (bare E73))) }
    ensures bad { (files : List File) (source bytes input name proof : List ℕ) (p : Program) (at : ℕ) →
        file_of name files ≡ Some source → file_of proof files ≡ Some bytes → IsMatched source p →
        IsBadAt bytes at → ComesTo files input (Audit name proof) (Err (F.Refused (of_entry E72 (decimal at)))) }
{}

/// The file of no bytes is a bad trace at 0, and the example's is replayed. For who wants to see `replay`.
pub fn an_example_of_replay()
    ensures nothing { (files : List File) (input name : List ℕ) (step : ℕ) → file_of name files ≡ Some [] →
        ComesTo files input (Replay name step) (Err (F.BadTrace 0)) }
    ensures other { (files : List File) (input name : List ℕ) (step : ℕ) → file_of name files ≡ Some (file_with 2) →
        ComesTo files input (Replay name step) (Err (F.BadTrace 47)) }
    ensures shown { (files : List File) (input name : List ℕ) (step : ℕ) →
        file_of name files ≡ Some (file_with 0) →
        ComesTo files input (Replay name step) (Ok (replayed rewriting step)) }
{}

/// The text list is printed, and a tree is reported by its keys: the run that makes it fails at nothing. For who wants to see
/// texts and trees.
pub fn texts_and_trees_are_printed()
    ensures library { (files : List File) (input : List ℕ) →
        ComesTo files input (Library (codes "list")) (Ok list.TEXT.now) }
    ensures made { (files : List File) (input : List ℕ) (seed count : ℕ) (s : Start tree_source build)
        (vs : Values) (tree : Value) (left : ℕ) → length (gen_input seed count) ≤ MOST_FILE_BYTES →
        Spells s.entry (gen_input seed count) vs →
        words_of s.entry vs ≤ gen_room.words → (run_of s vs gen_room).answer ≡ Gives (More tree End) left →
        ComesTo files input (Gen seed count) (Ok (lines_of_tree count tree)) }
    ensures never { (seed count : ℕ) (s : Start tree_source build) (vs : Values) (f : Failure) →
        length (gen_input seed count) ≤ MOST_FILE_BYTES → Spells s.entry (gen_input seed count) vs →
        words_of s.entry vs ≤ gen_room.words →
        ReportsAll (running s) vs gen_room.calls (frames_for s gen_room) false (run_of s vs gen_room) (Err f) → ⊥ }
{}
