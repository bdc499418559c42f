// The theorems on runs of an accepted source's code. Each is the contract of a function that does nothing.
ghost use Rattle.std.specs.Prelude.{◌≡◌, ◌≢◌, ◌<◌, ◌≤◌, ◌+◌, ℕ, List, [], true, length, map, Some};
ghost use Rattle.fip_machine.specs.fip_language.Core.{Core};
ghost use Rattle.fip_machine.specs.fip_language.Meaning.{Deep, Gives, meaning};
ghost use Rattle.fip_machine.specs.fip_language.Statics.{NoClosed};
ghost use Rattle.fip_machine.specs.fip_language.Store.{count, values_of};
ghost use Rattle.fip_machine.specs.fip_language.Table.{Table, HaveTypes};
ghost use Rattle.fip_machine.specs.fip_language.Values.{Values, cells_of_all};
ghost use Rattle.value_text.specs.fip_base.declared.plain.Stack.{Stack};
ghost use Rattle.fip_machine.specs.cell_code.declared.code.Code.{Code};
ghost use Rattle.fip_machine.specs.cell_store.Made.{Loading};
ghost use Rattle.compiler_correctness.specs.machine_semantics.Cells.{IsStore, count_held};
ghost use Rattle.fip_machine.specs.cell_code.Plain.{PlainFunction, plain, function_at};
ghost use Rattle.compiler_correctness.specs.machine_semantics.Gauges.{seen};
ghost use Rattle.compiler_correctness.specs.machine_semantics.Runs.{End, Ends, loaded, state_of, begun, after};
ghost use Rattle.compiler_correctness.specs.machine_semantics.States.{State, frames_held, words_held};
ghost use Rattle.compiler_correctness.specs.machine_semantics.Steps.{Kinds};
ghost use Rattle.compiler_correctness.specs.tail_groups.Members.{AreMembers};
ghost use Rattle.run_loading.specs.code_rules.Codes.{is_fip};
ghost use Rattle.run_loading.specs.code_rules.StackNumbers.{IsStack};
ghost use Rattle.run_loading.specs.separation.Codes.{AreKinds};
ghost use Rattle.run_loading.specs.tree_refinement.Agreement.{AreWordsOf};
ghost use Rattle.fip_machine.specs.code_verify.Checked.{Checked};
ghost use Rattle.fip_machine.specs.declared.gauge.Gauge.{Gauge};
ghost use Rattle.fip_machine.specs.declared.machine.Ended.{Ended};
ghost use Rattle.fip_machine.specs.Ending.{KnowsRun, RunsTo};
ghost use Rattle.fip_machine.specs.GaugeView.{ReportsRun};
ghost use Rattle.run_loading.specs.Loading.{first_store, first_words};
ghost use Rattle.fip_machine.specs.machine_cells.Small.{store_of};
ghost use Rattle.value_text.specs.Loaded.{types_of, IsLoaded};
ghost use Rattle.machine_correctness.specs.Gauges.{IsAsHigh, IsFlat, IsMeasured};
ghost use Rattle.machine_correctness.specs.Meant.{IsMeant, ArePrintable};
ghost use Rattle.machine_correctness.specs.Starts.{IsSoundCode, IsCodeOf, Begins};

/// A function of sound code begins on any arguments of its parameters' types, where they lie in a new store. For who
/// doubts that a run can begin.
pub fn a_loaded_function_begins()
    ensures theorem { (code : Code) (n : ℕ) (f : PlainFunction) (vs : Values) (frames : ℕ) (s : State) →
        IsSoundCode code → function_at (plain code) n ≡ Some f →
        HaveTypes code.types (map (λ p. p.ty) f.params) vs →
        loaded (plain code) n (first_store vs f.credits) (first_words vs f.credits) frames ≡ Some s →
        Begins code n f vs frames s }
{}

/// A function begins on the values that a text encodes, where they were loaded from it into an empty store, with the
/// cells of its credits. For who runs a function on the text of its arguments.
pub fn what_is_loaded_from_a_text_begins()
    ensures theorem { (code : Code) (n : ℕ) (f : PlainFunction) (bytes : List ℕ) (old new : Loading) (words : List ℕ)
        (frames : ℕ) (s : State) → function_at (plain code) n ≡ Some f → old.cells ≡ [] →
        IsStore (store_of new.cells new.released) →
        (l : IsLoaded code.types (types_of f.params) f.credits bytes old new words) →
        loaded (plain code) n (store_of new.cells new.released) words frames ≡ Some s →
        Begins code n f (values_of l.trees) frames s }
{}

/// Where a function of an accepted source's code begins on arguments, the machine's run ends as the source means by the
/// function of that name: with words that stand for its values, in the same trap, or out of calls or of frames; for
/// lack of frames no fip entry ends that has as many as its stack number says. What the machine requires of such a run
/// is so of sound code. For who prints what a machine answers.
pub fn a_machine_ends_as_the_source_means()
    ensures knows { (v : Checked) (before waits : Kinds) (n : ℕ) (f : PlainFunction) (vs : Values) (frames : ℕ)
        (s : State) (calls : ℕ) → IsSoundCode v.code → AreKinds (plain v.code) before waits →
        Begins v.code n f vs frames s → KnowsRun v before s calls }
    ensures ends { (source : List ℕ) (core : Core) (v : Checked) (before waits : Kinds) (n : ℕ) (f : PlainFunction)
        (vs : Values) (frames : ℕ) (s : State) (calls : ℕ) (e : Ended) (last : State) (given : List ℕ) →
        IsCodeOf source core v.code → AreKinds (plain v.code) before waits → Begins v.code n f vs frames s →
        0 < length f.name → RunsTo before (plain v.code) s calls e last given →
        IsMeant v.code.types f.results e last given (meaning core f.name NoClosed vs calls frames).answer }
    ensures deep { (source : List ℕ) (core : Core) (code : Code) (n : ℕ) (f : PlainFunction) (vs : Values)
        (frames : ℕ) (s : State) (calls : ℕ) (stack : Stack) → IsCodeOf source core code →
        Begins code n f vs frames s → 0 < length f.name → is_fip f.kind ≡ true → IsStack (plain code) n stack →
        stack.frames ≤ frames → (meaning core f.name NoClosed vs calls frames).answer ≢ Deep }
{}

/// Words that stand for values in a state can be printed from its cells. For who prints results.
pub fn meant_words_can_be_printed()
    ensures theorem { (tb : Table) (s : State) (types words : List ℕ) (vs : Values) →
        AreWordsOf tb s.store types words vs → ArePrintable tb s.store.cells types words vs }
{}

/// In each state of the run of a fip function that begins on arguments, as many cells of each size are held as the
/// arguments and the header's credits have, and the frames beside the entry's and the words of all frames are at most
/// those of its stack number. It is said of sound code, whoever made it. For who gives a run its memory.
pub fn a_fip_entry_runs_in_place()
    ensures cells { (code : Code) (before waits : Kinds) (n : ℕ) (f : PlainFunction) (vs : Values) (frames : ℕ)
        (s : State) (calls steps size : ℕ) → IsSoundCode code → AreKinds (plain code) before waits →
        Begins code n f vs frames s → is_fip f.kind ≡ true →
        count_held size (state_of (after before (plain code) steps (begun s calls))).store
        ≡ cells_of_all size vs + count size f.credits }
    ensures frames { (code : Code) (before waits : Kinds) (n : ℕ) (f : PlainFunction) (vs : Values) (frames : ℕ)
        (s : State) (calls steps : ℕ) (stack : Stack) → IsSoundCode code → AreKinds (plain code) before waits →
        Begins code n f vs frames s → is_fip f.kind ≡ true → IsStack (plain code) n stack →
        frames_held (state_of (after before (plain code) steps (begun s calls))) ≤ stack.frames }
    ensures words { (code : Code) (before waits : Kinds) (n : ℕ) (f : PlainFunction) (vs : Values) (frames : ℕ)
        (s : State) (calls steps : ℕ) (stack : Stack) → IsSoundCode code → AreKinds (plain code) before waits →
        Begins code n f vs frames s → is_fip f.kind ≡ true → IsStack (plain code) n stack →
        words_held (state_of (after before (plain code) steps (begun s calls))) ≤ stack.words }
{}

/// What the gauge reports of such a run: for each size the lowest and the highest number of held cells are both those of
/// the arguments and of the header's credits, and its stack is within the stack number. For who prints the gauge.
pub fn a_gauge_of_a_fip_entry_is_flat()
    ensures theorem { (v : Checked) (before waits : Kinds) (n : ℕ) (f : PlainFunction) (vs : Values) (frames : ℕ)
        (s : State) (calls : ℕ) (stack : Stack) (g : Gauge) → IsSoundCode v.code →
        AreKinds (plain v.code) before waits → Begins v.code n f vs frames s → is_fip f.kind ≡ true →
        IsStack (plain v.code) n stack → ReportsRun before (plain v.code) s calls g → IsFlat g vs f.credits stack }
{}

/// What is seen of the states of a run that gives values, by the evaluation that the source means: as the lowest number
/// of cells of each size that of the results' and the borrowed arguments' cells, as the highest that of the arguments'
/// cells and of the header's credits; and the most frames beside the entry's and the most words of all frames are its
/// peak. It is said of code whose functions have as many registers as the groups of its program report. For who
/// computes a gauge without a run, or asks whether two codes of a source differ in it.
pub fn a_run_is_measured_by_its_evaluation()
    ensures theorem { (source : List ℕ) (core : Core) (code : Code) (before waits : Kinds) (n : ℕ) (f : PlainFunction)
        (vs results : Values) (frames : ℕ) (s : State) (calls rest : ℕ) (end : End) (last : State) (left steps : ℕ) →
        (h : IsCodeOf source core code) → AreMembers h.program.instances h.members →
        AreKinds (plain code) before waits → Begins code n f vs frames s → 0 < length f.name →
        (meaning core f.name NoClosed vs calls frames).answer ≡ Gives results rest →
        (e : Ends before (plain code) s calls end last left steps) →
        IsMeasured vs results f.params f.credits (meaning core f.name NoClosed vs calls frames).peak
        (seen before (plain code) e.enough (begun s calls)) }
{}

/// The most frames beside the entry's and the most words of all frames over the states of a run are the peak of the
/// evaluation that the source means, also where that traps or lacks calls or frames: of each run that has a call. For
/// who asks how much stack a run took that gave no value.
pub fn a_run_is_as_high_as_its_evaluation()
    ensures theorem { (source : List ℕ) (core : Core) (code : Code) (before waits : Kinds) (n : ℕ) (f : PlainFunction)
        (vs : Values) (frames : ℕ) (s : State) (calls : ℕ) (end : End) (last : State) (left steps : ℕ) →
        (h : IsCodeOf source core code) → AreMembers h.program.instances h.members →
        AreKinds (plain code) before waits → Begins code n f vs frames s → 0 < length f.name → 0 < calls →
        (e : Ends before (plain code) s calls end last left steps) →
        IsAsHigh (meaning core f.name NoClosed vs calls frames).peak
        (seen before (plain code) e.enough (begun s calls)) }
{}
