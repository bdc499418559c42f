// A call of a session runs, and its results get names.
ghost use Rattle.std.specs.Prelude.{◌≡◌, ◌↔◌, ◌<◌, ◌≤◌, ◌+◌, ◌-◌, ◌*◌, ◌^◌, ◌++◌, ◌∷◌, [], List, Some, None, ℕ, true, length, slice_get};
ghost use Rattle.std.specs.Prelude.{IfOk, IfSome, OnOk};
ghost use Rattle.fip_language.specs.Every.{Every};
ghost use Rattle.fip_language.specs.Store.{Placed, Parts, count, uses, word_of, words_of};
ghost use Rattle.fip_language.specs.declared.limits.TheConstants.{MOST_FILE_BYTES, MOST_FRAMES, MOST_STORE_WORDS};
ghost use Rattle.session_lines.specs.Said.{names_of};
ghost use Rattle.session_correctness.specs.Called.{IsGivenUp};
ghost use Rattle.session_correctness.specs.Lodging.{Lodged, AreDistinct, lodged_as, lodge_all, but_all};
ghost use Rattle.session_correctness.specs.tree_refinement.machine_semantics.Cells.{IsStore, there};
ghost use Rattle.store_trees.specs.Added.{places_of};
ghost use Rattle.store_trees.specs.GivenUp.{all_given_up, given_up};
ghost use Rattle.cell_store.specs.Cells.{cell_at};
ghost use Rattle.value_text.specs.Loaded.{cell_words};
ghost use Rattle.value_text.specs.Standing.{Stands};
ghost use Rattle.fip_session.specs.Gone.{AreStanding, IsAny, IsLent, all_uses, lent_of, uses_in, named_uses};
ghost use Rattle.fip_session.specs.Planned.{Finds, AreHeld, names_used};
ghost use Rattle.cell_code.specs.declared.code.Function.{Function as a_function};
ghost use Rattle.fip_machine.specs.machine_cells.Small.{store_of};
ghost use Rattle.cell_code.specs.Plain.{plain};
ghost use Rattle.session_correctness.specs.tree_refinement.machine_semantics.Runs.{loaded};
ghost use Rattle.session_correctness.specs.tree_refinement.machine_semantics.States.{State};
ghost use Rattle.session_correctness.specs.tree_refinement.machine_semantics.Steps.{Kinds};
ghost use Rattle.session_correctness.specs.tree_refinement.separation.Starts.{IsStart};
ghost use Rattle.cell_store.specs.Made.{Loading};
ghost use Rattle.fip_language.specs.Core.{Name};
ghost use Rattle.fip_language.specs.Values.{Values};
ghost use Rattle.session_lines.specs.Said.{IsCall};
ghost use Rattle.session_lines.specs.instance_semantics.fip_trees.Tree.{Instance};
ghost use Rattle.session_lines.specs.session_semantics.Lines.{Given as a_given, SpellsLine, Calls};
ghost use Rattle.session_lines.specs.session_semantics.Talk.{Setting, State as a_state};
ghost use Rattle.session_values.specs.Readable.{IsLine};
ghost use Rattle.fip_session.specs.Answered.{CanCall, CanRun, IsAnswered, CallAnswered, CanRelease, IsReleased};
ghost use Rattle.fip_session.specs.Opened.{IsSession};
ghost use Rattle.fip_session.specs.Came.{Came};

use crate::book::{Book, Held};
use crate::plan::{Arguments, Given, Plan, plan_of};
use crate::ready::{Fresh, Ready, make_ready};
use crate::reply::{Reply, Stop};
use crate::sweep::keep_only;
use cell_store::{Loader, Sealed, seal};
use fip_base::plain::NoMemory;
use fip_language::limits::MOST_STORE_WORDS;
use fip_machine::{Ended, Gauge, Machine};
use session_lines::CallLine;
use store_trees::{Trees, release};

// Cells of names that a call uses up are noted before it runs, as long as there are no more than so many. Where a run
// ends without a value and not all of them were noted, the whole store is looked through.
const MOST_NOTED: usize = 2048;

/// The store of a session: its cells, and the words that are left for more.
#[derive(Drop)]
pub struct Store {
    pub cells: Sealed,
    pub left: usize,
}

// How a run ended, the words of its results, and its cells at the end.
#[derive(Drop)]
struct CallRun {
    ended: Ended,
    results: Vec<u64>,
    cells: Sealed,
}

// Adds the trees of a line's values to these.
fn note_values(
    book: &Book,
    cells: &Sealed,
    values: &[Fresh],
    trees: &mut Trees,
) -> Result<(), NoMemory>
    ensures noted { length cells.now.cells ≤ MOST_STORE_WORDS → (xs : List Placed) →
        AreStanding IsAny book.now.table.now cells.now.cells values.now xs → ((q : ℕ) →
        count q (places_of trees.old.list.items) + all_uses xs q ≤
        there (store_of cells.now.cells cells.now.released) q) → OnOk result ((q : ℕ) →
        count q (places_of trees.new.list.items) ≡ count q (places_of trees.old.list.items) + all_uses xs q) }
{
    for value in values {
        let Held { ty, word } = value.held;
        trees.add(book.table, cells, ty, word, MOST_STORE_WORDS)?;
    }
    Ok(())
}

// Adds the trees of what a name holds. False where there are more than so many then.
fn note_name(
    book: &Book,
    cells: &Sealed,
    name: &[u8],
    most: usize,
    trees: &mut Trees,
) -> Result<bool, NoMemory>
    ensures noted { length cells.now.cells ≤ MOST_STORE_WORDS → (ls : List Lodged) → Finds book.now.held ls →
        Every (λ l. Stands book.now.table.now cells.now.cells l.type l.tree) ls → IfOk result (λ whole.
        whole ≡ true → (q : ℕ) → count q (places_of trees.new.list.items) ≡
        count q (places_of trees.old.list.items) + uses_in (lodged_as name.now ls) q) }
{
    match book.find(name) {
        None => Ok(true),
        Some(held) => trees.add(book.table, cells, held.ty, held.word, most),
    }
}

// The same of a name that a call is given, where it uses it up.
fn note_given(
    book: &Book,
    cells: &Sealed,
    given: &Given,
    most: usize,
    trees: &mut Trees,
) -> Result<bool, NoMemory>
    ensures noted { length cells.now.cells ≤ MOST_STORE_WORDS → (ls : List Lodged) → Finds book.now.held ls →
        Every (λ l. Stands book.now.table.now cells.now.cells l.type l.tree) ls → IfOk result (λ whole.
        whole ≡ true → (q : ℕ) → count q (places_of trees.new.list.items) ≡
        count q (places_of trees.old.list.items) + named_uses ls (names_used (given.now ∷ [])) q) }
{
    if given.is_used_up {
        note_name(book, cells, given.name, most, trees)
    } else {
        Ok(true)
    }
}

// Adds the trees of the names that a call uses up. False where there are more than so many then.
fn note_used(
    book: &Book,
    cells: &Sealed,
    arguments: &Arguments,
    most: usize,
    trees: &mut Trees,
) -> Result<bool, NoMemory>
    ensures noted { length cells.now.cells ≤ MOST_STORE_WORDS → (ls : List Lodged) → Finds book.now.held ls →
        Every (λ l. Stands book.now.table.now cells.now.cells l.type l.tree) ls → IfOk result (λ whole.
        whole ≡ true → (q : ℕ) → count q (places_of trees.new.list.items) ≡
        count q (places_of trees.old.list.items) + named_uses ls (names_used arguments.now.given.items) q) }
{
    for given in &arguments.given {
        if !note_given(book, cells, given, most, trees)? {
            return Ok(false);
        }
    }
    Ok(true)
}

// The cells that are to be released where a run ends without a value: those of the line's values and of the names
// that it uses up. None where these are too many to be noted.
fn noted(
    book: &Book,
    cells: &Sealed,
    arguments: &Arguments,
    values: &[Fresh],
) -> Result<Option<Trees>, NoMemory>
    ensures noted { length cells.now.cells ≤ MOST_STORE_WORDS → (ls : List Lodged) → Finds book.now.held ls →
        Every (λ l. Stands book.now.table.now cells.now.cells l.type l.tree) ls → (xs : List Placed) →
        AreStanding IsAny book.now.table.now cells.now.cells values.now xs → ((q : ℕ) → all_uses xs q ≤
        there (store_of cells.now.cells cells.now.released) q) → IfOk result (λ o. IfSome o (λ trees. (q : ℕ) →
        count q (places_of trees.list.items) ≡
        all_uses xs q + named_uses ls (names_used arguments.now.given.items) q)) }
{
    let mut trees = Trees::none(book.alloc);
    note_values(book, cells, values, &mut trees)?;
    let most = trees.len().saturating_add(MOST_NOTED);
    if note_used(book, cells, arguments, most, &mut trees)? {
        Ok(Some(trees))
    } else {
        Ok(None)
    }
}

// A name that a call is given holds nothing from now on, where the call uses it up.
fn forget_given(book: &mut Book, given: &Given)
    ensures others { book.new ≡ record book.old { held = book.new.held } }
    ensures forgets { (ls : List Lodged) → Finds book.old.held ls →
        Finds book.new.held (but_all (names_used (given.now ∷ [])) ls) }
{
    if given.is_used_up {
        book.forget(given.name);
    }
}

// The names that a call uses up hold nothing from now on.
fn forget_used(book: &mut Book, arguments: &Arguments)
    ensures others { book.new ≡ record book.old { held = book.new.held } }
    ensures forgets { (ls : List Lodged) → Finds book.old.held ls →
        Finds book.new.held (but_all (names_used arguments.now.given.items) ls) }
{
    for given in &arguments.given {
        forget_given(book, given);
    }
}

// A result's name.
fn name_at<'l>(names: &[&'l [u8]], i: usize) -> Option<&'l [u8]>
    ensures { result ≡ slice_get names.now i }
{
    names.get(i).copied()
}

// A result, as its type and its word.
fn held_at(types: &[u32], words: &[u64], i: usize) -> Option<Held>
    ensures some { IfSome result (λ h. (slice_get types.now i ≡ Some h.ty) × (slice_get words.now i ≡ Some h.word)) }
    ensures none { result ≡ None → i < length types.now → length words.now ≤ i }
{
    if i < types.len() && i < words.len() {
        Some(Held {
            ty: types[i],
            word: words[i],
        })
    } else {
        None
    }
}

// The results get their names.
fn hold_results(
    book: &mut Book,
    names: &[&[u8]],
    types: &[u32],
    words: &[u64],
) -> Result<(), NoMemory>
    ensures others { book.new ≡ record book.old { held = book.new.held } }
    ensures holds { (ls : List Lodged) (xs : Parts) → Finds book.old.held ls → words.now ≡ words_of xs →
        length (names_of names.now) ≡ length types.now → length types.now ≡ length words.now →
        AreDistinct (ls ++ lodge_all (names_of names.now) types.now xs) →
        OnOk result (Finds book.new.held (ls ++ lodge_all (names_of names.now) types.now xs)) }
{
    for i in 0..names.len() {
        let Some(name) = name_at(names, i) else {
            return Ok(());
        };
        let Some(held) = held_at(types, words, i) else {
            return Ok(());
        };
        book.hold(name, held)?;
    }
    Ok(())
}

/// The cells of a value are given up.
pub fn release_held(book: &Book, cells: &mut Sealed, held: Held) -> Result<(), NoMemory>
    ensures cells { cells.new.cells ≡ cells.old.cells }
    ensures gone { length cells.old.cells ≤ MOST_STORE_WORDS → IsStore (store_of cells.old.cells cells.old.released) →
        (x : Placed) → Stands book.now.table.now cells.old.cells held.ty x → word_of x ≡ held.word →
        ((q : ℕ) → uses q x ≤ there (store_of cells.old.cells cells.old.released) q) →
        OnOk result (IsGivenUp (λ q. uses q x) (store_of cells.old.cells cells.old.released)
        (store_of cells.new.cells cells.new.released)) }
{
    let trees = book.trees_of(cells, held)?;
    trees.release(cells);
    Ok(())
}

// A value of the line is given up, where it was lent.
fn release_value(book: &Book, cells: &mut Sealed, value: &Fresh) -> Result<(), NoMemory>
    ensures cells { cells.new.cells ≡ cells.old.cells }
    ensures gone { length cells.old.cells ≤ MOST_STORE_WORDS → IsStore (store_of cells.old.cells cells.old.released) →
        (x : Placed) → (value.now.is_lent ≡ true → Stands book.now.table.now cells.old.cells value.now.held.ty x) →
        word_of x ≡ value.now.held.word → ((q : ℕ) → lent_of (value.now ∷ []) (x ∷ []) q ≤
        there (store_of cells.old.cells cells.old.released) q) → OnOk result (IsGivenUp
        (lent_of (value.now ∷ []) (x ∷ [])) (store_of cells.old.cells cells.old.released)
        (store_of cells.new.cells cells.new.released)) }
{
    if value.is_lent {
        release_held(book, cells, value.held)
    } else {
        Ok(())
    }
}

// The values of the line that were lent are given up.
fn release_lent(book: &Book, cells: &mut Sealed, values: &[Fresh]) -> Result<(), NoMemory>
    ensures cells { cells.new.cells ≡ cells.old.cells }
    ensures gone { length cells.old.cells ≤ MOST_STORE_WORDS → IsStore (store_of cells.old.cells cells.old.released) →
        (xs : List Placed) → AreStanding IsLent book.now.table.now cells.old.cells values.now xs →
        ((q : ℕ) → lent_of values.now xs q ≤ there (store_of cells.old.cells cells.old.released) q) →
        OnOk result (IsGivenUp (lent_of values.now xs) (store_of cells.old.cells cells.old.released)
        (store_of cells.new.cells cells.new.released)) }
{
    for value in values {
        release_value(book, cells, value)?;
    }
    Ok(())
}

// The cell that a word names is released.
fn release_credit(cells: &mut Sealed, word: u64)
    ensures cells { cells.new.cells ≡ cells.old.cells }
    ensures released { (p : ℕ) → word ≡ 2 * p + 1 → p ≤ 2 ^ 32 - 1 →
        cells.new.released ≡ given_up (cell_at cells.old.cells p) p cells.old.released }
{
    let place = word / 2;
    if place <= u64::from(u32::MAX) {
        release(cells, place as u32);
    }
}

// The cells that these words name are released.
fn release_credits(cells: &mut Sealed, credits: &[u64])
    ensures cells { cells.new.cells ≡ cells.old.cells }
    ensures released { (ps : List ℕ) → credits.now ≡ cell_words ps → Every (λ p. p ≤ 2 ^ 32 - 1) ps →
        cells.new.released ≡ all_given_up cells.old.cells ps cells.old.released }
{
    for word in credits {
        release_credit(cells, *word);
    }
}

// All cells of a run that ended without a value are released.
fn release_all(
    book: &Book,
    cells: &mut Sealed,
    noted: Option<Trees>,
    credits: &[u64],
) -> Result<(), NoMemory>
    ensures gone { length cells.old.cells ≤ MOST_STORE_WORDS → IsStore (store_of cells.old.cells cells.old.released) →
        (ls : List Lodged) (used : ℕ → ℕ) (ps : List ℕ) →
        CanRelease book.now ls (store_of cells.old.cells cells.old.released) noted used credits.now ps →
        OnOk result (IsReleased ls used ps (store_of cells.old.cells cells.old.released)
        (store_of cells.new.cells cells.new.released)) }
{
    match noted {
        Some(trees) => {
            trees.release(cells);
            release_credits(cells, credits);
            Ok(())
        }
        None => {
            let kept = book.all_trees(cells)?;
            keep_only(book.alloc, cells, &kept)
        }
    }
}

// Whether a run ended with a value.
fn is_value(ended: Ended) -> bool
    ensures { result ≡ true ↔ (ended ≡ Ended.Value) }
{
    match ended {
        Ended::Value => true,
        _ => false,
    }
}

// Runs an entry on words, over cells that were made.
fn run_call(
    book: &Book,
    entry: usize,
    frames: usize,
    words: Vec<u64>,
    cells: Sealed,
) -> Result<CallRun, NoMemory>
    requires there { entry < length book.now.verified.now.code.functions.items }
    requires frames { frames ≤ MOST_FRAMES }
    ensures came { (before waits : Kinds) (kept : List ℕ) (s : State) →
        IsStart (plain book.now.verified.now.code) before waits entry kept s → (f : a_function) →
        slice_get book.now.verified.now.code.functions.items entry ≡ Some f → length words.items ≤ f.registers →
        loaded (plain book.now.verified.now.code) entry (store_of cells.cells cells.released) words.items frames
        ≡ Some s → IfOk result (λ r. Came (plain book.now.verified.now.code) before s book.now.room.calls r.ended
        r.results.items (store_of r.cells.cells r.cells.released)) }
{
    let loader = cells.reopen();
    let mut machine = Machine::start(book.alloc, book.verified, entry, loader, words, frames)?;
    let ended = machine.run(book.room.calls, &mut Gauge::new());
    let results = Vec::from_slice(book.alloc, machine.results())?;
    Ok(CallRun {
        ended,
        results,
        cells: machine.into_sealed(),
    })
}

// Runs a call whose cells were made.
fn run<'l>(
    book: &mut Book,
    plan: &Plan,
    line: &CallLine,
    ready: Ready,
    loader: Loader,
) -> Result<(Sealed, Reply<'l>), NoMemory>
    requires there { plan.now.entry < length book.old.verified.now.code.functions.items }
    ensures same { book.new ≡ record book.old { held = book.new.held } }
    ensures answers { (o : Setting) (s : a_state) (ls : List Lodged) (i : ℕ) (d : Instance) (gs : List a_given)
        (vs : Values) (first : Loading) → CanRun o s book.old plan.now ls (names_of line.now.results.items) i d gs vs
        first loader ready → IfOk result (λ r. IsAnswered o s book.old.verified.now.code.types
        (names_of line.now.results.items) i d gs vs book.new.held r.0 r.1) }
{
    let Ready {
        words,
        values,
        credits,
    } = ready;
    let cells = seal(loader);
    let noted = noted(book, &cells, &plan.arguments, values.as_slice())?;
    let frames = book.frames_for(plan.entry);
    let CallRun {
        ended,
        results,
        cells,
    } = run_call(book, plan.entry, frames, words, cells)?;
    let mut cells = cells;
    forget_used(book, &plan.arguments);
    if is_value(ended) {
        let types = plan.function.results.as_slice();
        hold_results(book, line.results.as_slice(), types, results.as_slice())?;
        release_lent(book, &mut cells, values.as_slice())?;
        return Ok((cells, Reply::Done));
    }
    release_all(book, &mut cells, noted, credits.as_slice())?;
    let calls = book.room.calls;
    Ok((
        cells,
        Reply::NoValue {
            ended,
            calls,
            frames,
        },
    ))
}

// Does a call that was planned.
fn call_planned<'l>(
    book: &mut Book,
    bytes: &[u8],
    plan: &Plan,
    line: &CallLine<'l>,
    store: Store,
) -> Result<(Store, Reply<'l>), NoMemory>
    requires held { AreHeld book.old.held line.now.arguments.items }
    requires there { plan.now.entry < length book.old.verified.now.code.functions.items }
    ensures answers { (o : Setting) (s : a_state) → IsSession o (record { book = book.old; store = store }) s →
        IsLine bytes.now → (name : Name) (names : List Name) (gs : List a_given) →
        CanCall o s book.old bytes.now line.now name names gs plan.now →
        IfOk result (λ r. CallAnswered o s (name ∷ names) line.now.entry.now gs book.new r.0 r.1) }
{
    let Store { cells, left } = store;
    let loader = cells.reopen();
    let needed = plan.needed(&loader);
    if needed > left {
        let store = Store {
            cells: seal(loader),
            left,
        };
        return Ok((store, Reply::StoreTooSmall { needed, left }));
    }
    let (loader, ready) = make_ready(book, bytes, plan, line, loader)?;
    let _room = loader.left();
    let (cells, reply) = run(book, plan, line, ready, loader)?;
    let left = left - needed;
    Ok((Store { cells, left }, reply))
}

/// Does a call, and answers what is replied. Where it is refused, nothing changes.
pub fn call<'l>(
    book: &mut Book,
    bytes: &[u8],
    line: &CallLine<'l>,
    store: Store,
) -> Result<(Store, Reply<'l>), NoMemory>
    ensures answers { (o : Setting) (s : a_state) → IsSession o (record { book = book.old; store = store }) s →
        IsLine bytes.now → length bytes.now ≤ MOST_FILE_BYTES → (name : Name) (names : List Name)
        (gs : List a_given) → SpellsLine bytes.now (Calls name names line.now.entry.now gs) →
        IsCall bytes.now line.now name names line.now.entry.now gs →
        IfOk result (λ r. CallAnswered o s (name ∷ names) line.now.entry.now gs book.new r.0 r.1) }
{
    match plan_of(book, bytes, line) {
        Ok(plan) => call_planned(book, bytes, &plan, line, store),
        Err(Stop::Reply(reply)) => Ok((store, reply)),
        Err(Stop::NoMemory) => Err(NoMemory),
    }
}
