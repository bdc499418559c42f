// The theorems of answers. Each is the contract of a function that does nothing.
ghost use Rattle.std.specs.Prelude.{◌≡◌, ◌≢◌, ◌<◌, ◌≤◌, ◌⊎◌, ℕ, Bool, pos, true, List, [], ◌∷◌, ◌++◌, Some, None, Ok, Err, codes};
ghost use Rattle.std.specs.Prelude.{length, slice_get};
ghost use Rattle.std.specs.Fmt.{decimal};
ghost use Rattle.command_answers.specs.fip_outside.Files.{File};
ghost use Rattle.command_answers.specs.command_library.fip_base.declared.refusal.Refusal.{Refusal as a_refusal};
ghost use Rattle.command_answers.specs.command_library.fip_language.Values.{Values, End, More};
ghost use Rattle.worked_examples.specs.instance_semantics.Meaning.{flat_meaning};
ghost use Rattle.worked_examples.specs.instance_semantics.Example.{lists, an_owned};
ghost use Rattle.command_answers.specs.command_library.fip_language.Gauge.{highest_frames};
ghost use Rattle.command_answers.specs.command_library.fip_language.declared.limits.TheConstants.{MOST_FILE_BYTES};
ghost use Rattle.worked_examples.specs.fip_trees.Tree.{Program};
ghost use Rattle.worked_examples.specs.fip_trees.declared.groups.Member.{Member};
ghost use Rattle.worked_examples.specs.code_file.CodeText.{CodeText};
ghost use Rattle.worked_examples.specs.cell_code.Plain.{PlainCode};
ghost use Rattle.worked_examples.specs.code_file.declared.tags.Version.TheVariants.{Second};
ghost use Rattle.command_answers.specs.command_library.machine_semantics.Gauges.{seen};
ghost use Rattle.command_answers.specs.command_library.machine_semantics.Runs.{Value, Ends, begun};
ghost use Rattle.command_answers.specs.command_library.machine_semantics.States.{State};
ghost use Rattle.command_answers.specs.command_library.machine_semantics.Steps.{Kinds};
ghost use Rattle.command_answers.specs.command_library.separation.Codes.{AreKinds};
ghost use Rattle.worked_examples.specs.lowering_relation.LoweredBodies.{function_of};
ghost use Rattle.command_answers.specs.command_library.code_rules.StackNumbers.{HasStack};
ghost use Rattle.command_answers.specs.command_library.command_source.Codes.{IsSoundFile, IsUnspelt};
ghost use Rattle.command_answers.specs.command_library.command_source.ProgramCode.{IsCodeOfSource};
ghost use Rattle.command_answers.specs.command_library.command_words.Words.{Command, Room, IsCommand};
ghost use Rattle.command_answers.specs.command_library.command_run.CodeRun.{RunsCode};
ghost use Rattle.worked_examples.specs.source_report.Report.{IsAccepted};
ghost use Rattle.command_answers.specs.command_library.command_outcome.Successes.{tree_text};
ghost use Rattle.command_answers.specs.command_library.command_outcome.declared.failure.Failure.TheVariants as F;
ghost use Rattle.command_answers.specs.command_library.command_source.Wanted.{Wanted, Refuses};
ghost use Rattle.command_answers.specs.command_source.derivation_making.Weakening.{IsLean};
ghost use Rattle.command_answers.specs.command_library.MadeTree.{keys_line, pads_line, lines_of_tree};
ghost use Rattle.command_answers.specs.Answer.{Answered, Host, IsAnswer, IsNoCommand};
ghost use Rattle.command_answers.specs.CodeOf.{HasLongCode, IsCodeOf, IsLoaded, IsSourceFile};
ghost use Rattle.compile_correctness.specs.code_bytes.Bytes.{most_bytes};
ghost use Rattle.command_answers.specs.Ends.{OnSource};
ghost use Rattle.command_answers.specs.Exec.{End as an_end, Execs, ReportsAll};
ghost use Rattle.command_answers.specs.GaugeText.{highest_of, lowest_of};
ghost use Rattle.command_answers.specs.Open.{IsOpen};
ghost use Rattle.answer_correctness.specs.Alike.{Finds, AreAlike};
ghost use Rattle.answer_correctness.specs.Example.{three_items, reversing, four_lines, increasing, increased_lines};
ghost use Rattle.answer_correctness.specs.Example.{cons, nil, three_keys, weakened, weakened_in_vain, weakened_twice};

/// Words that are no command are answered with status 2, or 10 where memory ran out. For who calls the program with any
/// words.
pub fn no_command_has_one_answer()
    ensures theorem { (words : List (List ℕ)) (files : List File) (input : List ℕ) (h : Host) → IsNoCommand words →
        Answered words files input h → (h.status ≡ 10) ⊎ (h.status ≡ 2) }
{}

/// Two answers of the same words, on the same files and input and after the same on out and err, have the same status,
/// and leave the same on out and err, unless memory ran out. But two codes of an accepted source may differ in whether
/// they have a file or a trace that can be stored: then of two answers of `compile` one is E61, and of two of `trace` one is
/// E75. So codes differ in what is left, stored and traced alone. For who compares two calls.
pub fn an_answer_is_one()
    ensures theorem { (words : List (List ℕ)) (files : List File) (input out err : List ℕ) (h k : Host) →
        Finds h out err → Finds k out err → Answered words files input h → Answered words files input k →
        h.status ≢ 10 → k.status ≢ 10 → AreAlike h k
        ⊎ ((c : Command) × IsCommand words c × ((a : IsAnswer c files input h) × (b : IsAnswer c files input k)
        × IsOpen files input c a.end b.end)) }
{}

/// Where the status isn't 0, out and all files are as they were; where it is 0, err is. For who goes on after a failure.
pub fn a_failure_leaves_out_and_files()
    ensures kept { (words : List (List ℕ)) (files : List File) (input : List ℕ) (h : Host) →
        Answered words files input h → h.status ≢ 0 → (h.out' ≡ h.out) × (h.files ≡ Some files) }
    ensures err { (words : List (List ℕ)) (files : List File) (input : List ℕ) (h : Host) →
        Answered words files input h → h.status ≡ 0 → h.err' ≡ h.err }
{}

/// A source that is refused ends in nothing else, whatever the command does with accepted ones: the causes exclude
/// each other. For who reads a report.
pub fn a_refused_source_is_reported()
    ensures theorem { (source input : List ℕ) (c : Command) (w : Wanted) (r : a_refusal) (e : an_end) →
        Refuses source w r → OnSource source input c w e → e ≡ Err (F.Refused r) }
{}

/// The reversal of three items, with the gauge, ends in its four lines; with 3 calls it is out of calls, and with 4 it
/// is not. An fbip function has no bound, and a call of it that waits holds a frame. For who wants to see the numbers.
#[tactic(auto, using(crate::proofs::Examples::computed))]
pub fn an_example_of_exec()
    ensures lines { ReportsAll reversing three_items 1000 0 true (flat_meaning lists 0 three_items 1000 0)
        (Ok four_lines) }
    ensures enough { ReportsAll reversing three_items 4 0 true (flat_meaning lists 0 three_items 4 0) (Ok four_lines) }
    ensures out { ReportsAll reversing three_items 3 0 true (flat_meaning lists 0 three_items 3 0)
        (Err (F.OutOfCalls 3)) }
    ensures fbip { ReportsAll increasing (More (cons 1 nil) End) 1000 10 true
        (flat_meaning lists 1 (More (cons 1 nil) End) 1000 10) (Ok increased_lines) }
    ensures deep { ReportsAll increasing (More (cons 1 nil) End) 1000 0 true
        (flat_meaning lists 1 (More (cons 1 nil) End) 1000 0) (Err (F.OutOfFrames 0)) }
    ensures credits { highest_of (2 ∷ []) (More (cons 5 nil) End) 2 ≡ 2 }
    ensures lent { lowest_of (record { ty = 2; lent = true } ∷ an_owned ∷ []) (More (cons 5 nil) (More nil End))
        (More (cons 6 nil) End) 2 ≡ 2 }
{}

/// A list of one key and one of one pad are written so, and three nodes have three keys, the least at the left. For who
/// wants to see what `gen` runs on.
#[tactic(auto, using(crate::proofs::Examples::computed))]
pub fn an_example_of_gen()
    ensures keys { keys_line (7 ∷ []) 0 ≡ codes "Cons(" ++ (decimal 7 ++ codes ", Nil)\n") }
    ensures pads { pads_line 2 0 ≡ codes "Cons(Pad4(0, 0, 0, 0), Cons(Pad4(0, 0, 0, 0), Nil))\n" }
    ensures lines { lines_of_tree 3 three_keys
        ≡ tree_text 3 3 (Some (record { least = pos 377401575; greatest = pos 1103527590 })) }
    ensures none { lines_of_tree 1 nil ≡ tree_text 1 0 None }
{}

/// A node of a derivation that leaves something out may occur, but not in vain, and not below another. For who reads
/// derivations that were made.
#[tactic(auto, using(crate::proofs::Examples::computed))]
pub fn an_example_of_weakening()
    ensures once { IsLean weakened }
    ensures vain { IsLean weakened_in_vain → ⊥ }
    ensures twice { IsLean weakened_twice → ⊥ }
{}

/// A code of a program has a file, so it is unspelt only where that is too long. For who is reported E61.
pub fn only_a_long_code_is_unspelt()
    ensures theorem { (p : Program) (code : PlainCode) → IsCodeOf p code → IsUnspelt code →
        (file : List ℕ) × CodeText file Second code × (MOST_FILE_BYTES < length file) }
{}

/// The file of a code of a program, whatever made it, has no more bytes than the program's places, names and types allow. So
/// a code has no file that isn't too long only where the source's program allows more than 16,777,216 bytes, whatever the
/// code is padded with. For who asks which sources may be reported E61.
pub fn a_code_is_no_longer_than_its_program_allows()
    ensures theorem { (p : Program) (code : PlainCode) (file : List ℕ) → IsCodeOf p code → CodeText file Second code →
        length file ≤ most_bytes p }
    ensures refused { (source : List ℕ) (p : Program) → HasLongCode source → IsAccepted source p →
        MOST_FILE_BYTES < most_bytes p }
{}

/// What runs of a function of a program's code hold of the stack at the most is what the groups report of its instance,
/// and a run that gives words held as many frames as the instance means. For who compares the gauge of `exec` with that
/// of `run`.
pub fn a_code_holds_what_its_program_does()
    ensures stacks { (p : Program) (code : PlainCode) (c : IsCodeOf p code) (i n : ℕ) (m : Member) →
        function_of p.instances i ≡ Some n → slice_get c.members i ≡ Some m →
        HasStack code n m.stack }
    ensures peak { (p : Program) (code : PlainCode) (before waits : Kinds) (i n : ℕ) (vs : Values)
        (calls frames : ℕ) (first last : State) (words : List ℕ) (left steps : ℕ) → IsCodeOf p code →
        AreKinds code before waits → IsLoaded p code i n vs frames first →
        Ends before code first calls (Value words) last left steps →
        highest_frames (seen before code steps (begun first calls))
        ≡ (flat_meaning p i vs calls frames).peak.frames }
{}

/// The code that is made of a source, and each that is made so, is a code of its program, whatever the compiler does: it
/// has a file, which may be too long, and its runs end as the program means, with its peak. For who replaces a compiler.
pub fn a_code_of_a_source_is_one_of_its_program()
    ensures theorem { (source : List ℕ) (code : PlainCode) → (h : IsCodeOfSource source code) → IsCodeOf h.program code }
{}

/// `run` on the file of a code of a source's program reports what `exec` reports of the source, with the same entry,
/// input and options, gauge lines included, whatever code it is. It rests on what is required of a code alone. For who
/// ships a code file in place of its source, or writes another compiler.
pub fn a_file_of_a_code_runs_as_its_source()
    ensures theorem { (source file name input : List ℕ) (room : Room) (gauge : Bool) (p : Program) (code : PlainCode)
        (d e : an_end) → IsAccepted source p → IsCodeOf p code → IsSoundFile file code →
        Execs source name input room gauge d → RunsCode file name input room gauge e → d ≡ e }
{}
