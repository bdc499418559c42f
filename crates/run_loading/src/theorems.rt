// The theorems of the definitions. Each is the contract of a function that does nothing.
ghost use Rattle.std.specs.Prelude.{◌≡◌, ◌⊎◌, ℕ, ◌+◌, ◌^◌, ◌<◌, ◌≤◌, List, [], ◌∷◌, length, map, Option, Some};
ghost use Rattle.tree_refinement.specs.fip_language.Table.{Table, HaveTypes};
ghost use Rattle.tree_refinement.specs.fip_language.Values.{Values, words_needed_by_all};
ghost use Rattle.tree_refinement.specs.fip_language.Store.{Cell};
ghost use Rattle.tree_refinement.specs.cell_code.Plain.{PlainFunction, PlainCode, function_at};
ghost use Rattle.tree_refinement.specs.machine_semantics.Example.{flat};
ghost use Rattle.tree_refinement.specs.machine_semantics.Runs.{loaded, begun, after, state_of};
ghost use Rattle.tree_refinement.specs.machine_semantics.States.{State};
ghost use Rattle.tree_refinement.specs.machine_semantics.Steps.{Kinds};
ghost use Rattle.tree_refinement.specs.machine_semantics.Traces.{events};
ghost use Rattle.tree_refinement.specs.code_rules.Breaks.{IsSound};
ghost use Rattle.tree_refinement.specs.separation.Codes.{HasLiterals, AreKinds};
ghost use Rattle.tree_refinement.specs.separation.Starts.{IsStart};
ghost use Rattle.tree_refinement.specs.Runs.{BeginsWith};
ghost use Rattle.run_loading.specs.Loading.{first_store, first_words, words_of_credits, unreleased};
ghost use Rattle.run_loading.specs.TraceText.{Trace, IsTrace, trace_text};
ghost use Rattle.run_loading.specs.TraceReading.{Got, Bad, read_trace, AreBytes, IsTraceFile, IsBadTrace};
ghost use Rattle.run_loading.specs.Writable.{HaveFewConstructors, IsWritable};
ghost use Rattle.run_loading.specs.Replaying.{replayed, store_text, trace_of, live_line, free_line};
ghost use Rattle.run_loading.specs.Example.{arguments, cell, rewriting, releasing, file_with};

/// A store has just as many words as the cells of the arguments and of the credits need. For who asks whether an input
/// fits.
#[tactic(auto, using(crate::proofs::Lengths::store_length))]
pub fn a_store_has_the_words_that_it_needs()
    ensures theorem { (vs : Values) (credits : List ℕ) →
        length (first_store vs credits).cells ≡ words_needed_by_all vs + words_of_credits credits }
{}

/// Cons(1, Cons(2, Nil)) and Nil lie in a new store as the example of runs has them, and their words are 7 and 0. The
/// cell of a credit of size 2 is after them, and its word is 13. For who wants to see the numbers.
#[tactic(auto, using(crate::proofs::Examples::computed))]
pub fn an_example_is_loaded()
    ensures store { first_store arguments [] ≡ flat }
    ensures words { first_words arguments [] ≡ 7 ∷ 0 ∷ [] }
    ensures credit { first_words arguments (2 ∷ []) ≡ 7 ∷ 0 ∷ 13 ∷ [] }
{}

/// What is written of a trace is read as that trace, to the end of the file. For who keeps traces in files.
#[tactic(auto, using(crate::proofs::Reading::file_is_read))]
pub fn a_trace_is_read_as_it_was_written()
    ensures theorem { (t : Trace) → IsTrace t → (end : ℕ) × (read_trace (trace_text t) ≡ Got t end []) }
{}

/// What is read to the end of a file is a trace, and the file's bytes are what is written of it: a trace has one file.
/// For who reads traces of strangers.
pub fn what_is_read_is_a_trace()
    ensures trace { (bytes : List ℕ) (t : Trace) (end : ℕ) → AreBytes bytes → read_trace bytes ≡ Got t end [] →
        IsTrace t }
    ensures text { (bytes : List ℕ) (t : Trace) (end : ℕ) → AreBytes bytes → read_trace bytes ≡ Got t end [] →
        bytes ≡ trace_text t }
{}

/// A file is that of one trace, or it is bad at one place, and never both. For who asks whether `replay` has an answer.
pub fn a_file_is_a_traces_or_bad()
    ensures some { (bytes : List ℕ) → ((t : Trace) × IsTraceFile bytes t) ⊎ ((at : ℕ) × IsBadTrace bytes at) }
    ensures one { (bytes : List ℕ) (t u : Trace) → IsTraceFile bytes t → IsTraceFile bytes u → t ≡ u }
    ensures apart { (bytes : List ℕ) (t : Trace) (at : ℕ) → IsTraceFile bytes t → IsBadTrace bytes at → ⊥ }
    ensures place { (bytes : List ℕ) (at to : ℕ) → IsBadTrace bytes at → IsBadTrace bytes to → at ≡ to }
{}

/// The file of the example is written and read as it is said to be, and is bad at its event's byte where that is
/// another. For who writes a reader of traces.
#[tactic(auto, using(crate::proofs::Examples::computed))]
pub fn an_example_of_a_file()
    ensures written { trace_text rewriting ≡ file_with 0 }
    ensures read { read_trace (file_with 0) ≡ Got rewriting 80 [] }
    ensures another { read_trace (file_with 2) ≡ Bad 47 }
    ensures nothing { read_trace [] ≡ Bad 0 }
{}

/// A function of sound code is loaded with any arguments of its parameters' types, and a run begins in this state: the
/// cells of these and of its credits are all cells, and its first registers stand for the arguments. For who runs a
/// function on the text of its arguments.
pub fn a_loaded_run_begins()
    ensures there { (c : PlainCode) (n : ℕ) (f : PlainFunction) (vs : Values) (frames : ℕ) →
        function_at c n ≡ Some f → (s : State)
        × (loaded c n (first_store vs f.credits) (first_words vs f.credits) frames ≡ Some s) }
    ensures starts { (c : PlainCode) (before waits : Kinds) (n : ℕ) (f : PlainFunction) (vs : Values)
        (frames : ℕ) (s : State) → IsSound c → HasLiterals c → AreKinds c before waits → function_at c n ≡ Some f →
        HaveTypes c.types (map (λ p. p.ty) f.params) vs →
        loaded c n (first_store vs f.credits) (first_words vs f.credits) frames ≡ Some s →
        IsStart c before waits n [] s }
    ensures stands { (c : PlainCode) (before waits : Kinds) (n : ℕ) (f : PlainFunction) (vs : Values)
        (frames : ℕ) (s : State) → IsSound c → HasLiterals c → AreKinds c before waits → function_at c n ≡ Some f →
        HaveTypes c.types (map (λ p. p.ty) f.params) vs →
        loaded c n (first_store vs f.credits) (first_words vs f.credits) frames ≡ Some s →
        BeginsWith c n s vs }
{}

/// What a run of sound code did to its cells is a trace, which can be written down, unless there are too many events or
/// steps to count; for a run begins in a store that can be written down. For who asks why a trace is refused.
pub fn what_a_run_did_is_a_trace()
    ensures run { (c : PlainCode) (before waits : Kinds) (n : ℕ) (kept : List ℕ) (s : State)
        (calls steps : ℕ) → IsStart c before waits n kept s → HaveFewConstructors c.types → IsWritable s.store →
        length (events before c steps (begun s calls)) < 2 ^ 32 → steps < 2 ^ 64 →
        IsTrace (trace_of before c s calls steps) }
    ensures loaded { (types : Table) (ts : List ℕ) (vs : Values) (credits : List ℕ) → HaveFewConstructors types →
        HaveTypes types ts vs → length (first_store vs credits).cells < 2 ^ 32 →
        IsWritable (first_store vs credits) }
{}

/// The lines of a replay up to a step are those of the cells of the state after that step, where nothing is released
/// before the first. For who reads `replay` in place of a run.
#[tactic(auto, using(crate::proofs::Printing::replay_prints))]
pub fn a_replay_shows_the_cells_of_the_run()
    ensures theorem { (kinds : Kinds) (code : PlainCode) (s : State) (cells : List (Option Cell)) (calls steps i : ℕ) →
        s.store ≡ unreleased cells → i ≤ steps →
        replayed (trace_of kinds code s calls steps) i
        ≡ store_text (state_of (after kinds code i (begun s calls))).store }
{}

/// The cell of the example has its first fields before its one step, and its last ones after it and after any later
/// one; and a released cell is reported as free. For who reads the lines of `replay`.
pub fn an_example_is_replayed()
    ensures before { replayed rewriting 0 ≡ live_line 0 (cell 1 0) }
    ensures after { replayed rewriting 1 ≡ live_line 0 (cell 2 0) }
    ensures beyond { replayed rewriting 1000000 ≡ live_line 0 (cell 2 0) }
    ensures live { replayed releasing 1 ≡ live_line 0 (cell 1 0) }
    ensures free { replayed releasing 2 ≡ free_line 0 }
{}
