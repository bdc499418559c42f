// Values are loaded from text. Into a loader without a cell they are read once, and their cells made. Where they don't
// fit, and where the loader has cells, a first pass tests the text and counts its cells, and a second one makes them.
ghost use Rattle.std.specs.Prelude.{◌≡◌, ◌⊎◌, ℕ, ◌+◌, ◌*◌, ◌-◌, ◌<◌, ◌≤◌, ◌^◌, List, [], length, Ok, Err, IfOk};
ghost use Rattle.std.specs.Prelude.{OnOk, MatchResult};
ghost use Rattle.fip_language.specs.declared.limits.TheConstants.{MOST_FIELDS, MOST_STORE_WORDS};
ghost use Rattle.fip_language.specs.Prefix.{IsPlace};
ghost use Rattle.fip_language.specs.SoundTable.{IsSoundTable, AreTypes};
ghost use Rattle.fip_language.specs.ValueText.{SpellsValues};
ghost use Rattle.fip_language.specs.Values.{Values};
ghost use Rattle.cell_store.specs.Made.{Loading};
ghost use Rattle.fip_language.specs.Store.{count as cells_in};
ghost use Rattle.fip_language.specs.Table.{Table};
ghost use Rattle.value_text.specs.FirstStore.{IsInOrder};
ghost use Rattle.value_text.specs.Loaded.{types_of, AreSizes, AreCredits, IsGiven, IsLoaded, needed, wanted};
ghost use Rattle.value_text.specs.Loaded.{words_up_to, free_in, HasNoFree};
ghost use Rattle.value_text.specs.Building.{IsBuilt};
ghost use Rattle.value_text.specs.Counting.{IsCounted, count_at};
ghost use Rattle.value_text.specs.Answered.{CanLoad, Credited, WholeBuilt, AllBuilt, IsAnswer, IsTried};

use crate::build::{Stopped, add_credits, build};
use crate::counts::Counts;
use crate::read::{self, Refused};
use cell_store::Loader;
use fip_base::plain::Param;
use fip_base::table::TypeTable;
use fip_language::limits::MOST_FIELDS;
use std::alloc::Global;

/// Why values weren't loaded. A loader that is handed back is as it was.
#[derive(Drop)]
pub enum LoadError {
    /// The bytes are no text of the types: the least offset with which none goes on, the end counting as a byte.
    BadValue {
        at: usize,
        loader: Loader,
    },
    /// The cells that no released cell serves need more words than the loader has left.
    Full {
        needed: usize,
        words: usize,
        loader: Loader,
    },
    /// No memory is left.
    NoMemory,
}

// How many cells of each size the values of a text have.
fn count(
    alloc: Global,
    table: &TypeTable,
    params: &[Param],
    bytes: &[u8],
) -> Result<Counts, Refused>
    ensures { IsSoundTable table.now → AreTypes table.now (types_of params.now) → length bytes.now ≤ 2 ^ 63 →
        IsCounted table.now (types_of params.now) bytes.now result }
{
    let mut cursor = read::begin(alloc, params);
    let mut counts = Counts::none();
    loop {
        match read::step(table, bytes, &mut cursor) {
            Ok(Some(event)) => counts.add_closed(event),
            Ok(None) => return Ok(counts),
            Err(e) => return Err(e),
        }
    }
}

// The credits' cells are counted too.
fn add_sizes(counts: &mut Counts, credits: &[u8])
    ensures { AreSizes credits.now → ((k : ℕ) → k ≤ MOST_FIELDS → count_at counts.old k + length credits.now < 2 ^ 64) →
        (k : ℕ) → k ≤ MOST_FIELDS → count_at counts.new k ≡ count_at counts.old k + cells_in k credits.now }
{
    for size in credits {
        counts.add_one(*size as usize);
    }
}

// The words of the cells that no released cell serves.
fn words_needed(loader: &Loader, counts: &Counts) -> usize
    ensures { words_up_to MOST_FIELDS (count_at counts.now) (λ _. 0) < 2 ^ 64 →
        result ≡ words_up_to MOST_FIELDS (count_at counts.now) (free_in loader.now) }
{
    let mut needed = 0usize;
    for k in 1..MOST_FIELDS + 1 {
        let fresh = counts.of(k).saturating_sub(loader.spare(k));
        needed = needed.saturating_add((k + 1).saturating_mul(fresh));
    }
    needed
}

// The words of the values, and after them those of the credits' cells. The memory that words took while they waited
// for their cells is given back.
fn with_credits(words: Vec<u64>, credits: &[u8], loader: &mut Loader) -> Result<Vec<u64>, Stopped>
    ensures { AreCredits credits.now → (first : Loading) (vs : Values) →
        IsBuilt (wanted credits.now vs) first loader.old vs words.items →
        Credited credits.now first loader.new vs result }
{
    let mut words = words;
    words.shrink_to_fit();
    match add_credits(credits, loader, &mut words) {
        Ok(()) => Ok(words),
        Err(e) => Err(e),
    }
}

// The words of the values and of the credits' cells, which are made.
fn build_all(
    alloc: Global,
    table: &TypeTable,
    params: &[Param],
    credits: &[u8],
    bytes: &[u8],
    loader: &mut Loader,
) -> Result<Vec<u64>, Stopped>
    ensures { IsGiven table.now (types_of params.now) credits.now bytes.now →
        length loader.old.released ≡ length loader.old.cells →
        WholeBuilt table.now (types_of params.now) credits.now bytes.now loader.old loader.new result }
{
    match build(alloc, table, params, bytes, loader) {
        Ok(words) => with_credits(words, credits, loader),
        Err(e) => Err(e),
    }
}

// Why nothing was built, with the loader.
fn error_of(stopped: Stopped, needed: usize, loader: Loader) -> LoadError
    ensures { ((k : ℕ) → stopped ≡ Stopped.BadValue k → ⊥) → (stopped ≡ Stopped.Full → ⊥) →
        result ≡ LoadError.NoMemory }
{
    match stopped {
        Stopped::BadValue(at) => LoadError::BadValue { at, loader },
        Stopped::Full => {
            let words = loader.left();
            LoadError::Full {
                needed,
                words,
                loader,
            }
        }
        Stopped::NoMemory => LoadError::NoMemory,
    }
}

// What was built, with the loader.
fn answer_of(
    built: Result<Vec<u64>, Stopped>,
    needed: usize,
    loader: Loader,
) -> Result<(Loader, Vec<u64>), LoadError>
    ensures { (tb : Table) (types credits bytes : List ℕ) (first : Loading) (vs : Values) →
        CanLoad tb types credits bytes first vs → AllBuilt credits first loader vs built →
        IsAnswer tb types credits bytes first result }
{
    match built {
        Ok(words) => Ok((loader, words)),
        Err(e) => Err(error_of(e, needed, loader)),
    }
}

// Makes the cells of a text that was tested and that fits.
fn make_all(
    alloc: Global,
    table: &TypeTable,
    params: &[Param],
    credits: &[u8],
    bytes: &[u8],
    loader: Loader,
    needed: usize,
) -> Result<(Loader, Vec<u64>), LoadError>
    requires { needed ≤ MOST_STORE_WORDS }
    ensures { IsGiven table.now (types_of params.now) credits.now bytes.now → (vs : Values) →
        CanLoad table.now (types_of params.now) credits.now bytes.now loader vs →
        IsAnswer table.now (types_of params.now) credits.now bytes.now loader result }
{
    let mut loader = loader;
    match loader.reserve(needed) {
        Ok(()) => {
            let built = build_all(alloc, table, params, credits, bytes, &mut loader);
            answer_of(built, needed, loader)
        }
        Err(_) => Err(LoadError::NoMemory),
    }
}

// The cells of a text that was tested are made, where they fit.
fn load_counted(
    alloc: Global,
    table: &TypeTable,
    params: &[Param],
    credits: &[u8],
    bytes: &[u8],
    counts: Counts,
    loader: Loader,
) -> Result<(Loader, Vec<u64>), LoadError>
    ensures { IsGiven table.now (types_of params.now) credits.now bytes.now →
        IsCounted table.now (types_of params.now) bytes.now (Ok counts) →
        IsAnswer table.now (types_of params.now) credits.now bytes.now loader result }
{
    let mut all = counts;
    add_sizes(&mut all, credits);
    let needed = words_needed(&loader, &all);
    let words = loader.left();
    if needed > words {
        return Err(LoadError::Full {
            needed,
            words,
            loader,
        });
    }
    make_all(alloc, table, params, credits, bytes, loader, needed)
}

// Counted first, then made.
fn load_counting(
    alloc: Global,
    table: &TypeTable,
    params: &[Param],
    credits: &[u8],
    bytes: &[u8],
    loader: Loader,
) -> Result<(Loader, Vec<u64>), LoadError>
    ensures { IsGiven table.now (types_of params.now) credits.now bytes.now →
        IsAnswer table.now (types_of params.now) credits.now bytes.now loader result }
{
    match count(alloc, table, params, bytes) {
        Ok(counts) => load_counted(alloc, table, params, credits, bytes, counts, loader),
        Err(Refused::BadValue(at)) => Err(LoadError::BadValue { at, loader }),
        Err(Refused::NoMemory) => Err(LoadError::NoMemory),
    }
}

// The words that the cells of the values have where the bytes are a text: one for each cell and one for each field,
// and so two for each ( and one for each comma.
fn words_of_text(bytes: &[u8]) -> usize {
    let mut words = 0usize;
    for chunk in bytes.chunks(224) {
        words = words.wrapping_add(words_of_chunk(chunk));
    }
    words
}

// The same of so few bytes that a byte counts either.
fn words_of_chunk(chunk: &[u8]) -> usize {
    let mut opened = 0u8;
    let mut commas = 0u8;
    for b in chunk {
        opened = opened.wrapping_add(if *b == b'(' { 1 } else { 0 });
        commas = commas.wrapping_add(if *b == b',' { 1 } else { 0 });
    }
    2 * opened as usize + commas as usize
}

// Read once, into a loader of its own.
fn load_new(
    alloc: Global,
    table: &TypeTable,
    params: &[Param],
    credits: &[u8],
    bytes: &[u8],
    words: usize,
) -> Result<(Loader, Vec<u64>), Stopped>
    requires { words ≤ MOST_STORE_WORDS }
    ensures { IsGiven table.now (types_of params.now) credits.now bytes.now → (first : Loading) → first.cells ≡ [] →
        first.released ≡ [] → first.left ≡ words →
        IsTried table.now (types_of params.now) credits.now bytes.now first result }
{
    let mut loader = Loader::new(alloc, words);
    match loader.reserve(words_of_text(bytes).min(words)) {
        Ok(()) => match build_all(alloc, table, params, credits, bytes, &mut loader) {
            Ok(words) => Ok((loader, words)),
            Err(e) => Err(e),
        },
        Err(_) => Err(Stopped::NoMemory),
    }
}

// Into a loader without a cell a text is read once; only where it doesn't fit are its cells counted.
fn load_once(
    alloc: Global,
    table: &TypeTable,
    params: &[Param],
    credits: &[u8],
    bytes: &[u8],
    loader: Loader,
) -> Result<(Loader, Vec<u64>), LoadError>
    requires cells { loader.cells ≡ [] }
    requires released { loader.released ≡ [] }
    ensures { IsGiven table.now (types_of params.now) credits.now bytes.now →
        IsAnswer table.now (types_of params.now) credits.now bytes.now loader result }
{
    let words = loader.left();
    match load_new(alloc, table, params, credits, bytes, words) {
        Ok(loaded) => Ok(loaded),
        Err(Stopped::BadValue(at)) => Err(LoadError::BadValue { at, loader }),
        Err(Stopped::Full) => load_counting(alloc, table, params, credits, bytes, loader),
        Err(Stopped::NoMemory) => Err(LoadError::NoMemory),
    }
}

// Once or twice, as the loader has cells or not.
fn load_all(
    alloc: Global,
    table: &TypeTable,
    params: &[Param],
    credits: &[u8],
    bytes: &[u8],
    loader: Loader,
) -> Result<(Loader, Vec<u64>), LoadError>
    ensures { IsGiven table.now (types_of params.now) credits.now bytes.now →
        IsAnswer table.now (types_of params.now) credits.now bytes.now loader result }
{
    if loader.is_new() {
        load_once(alloc, table, params, credits, bytes, loader)
    } else {
        load_counting(alloc, table, params, credits, bytes, loader)
    }
}

/// Reads the values of the parameters, one line each, into the cells of a loader, and then makes a cell for each
/// credit, of that size, its tag and fields 0. Gives the loader, and the words of the values and of the credits' cells.
/// `BadValue` where the bytes are no text of the types; else `Full` where the cells that no released cell serves need
/// more words than are left; both hand back the loader as it was. `NoMemory` where memory runs out. Nesting costs no
/// stack of the program.
///
/// The clauses speak of a sound table, of parameters of its types, and of at most 16 credits of sizes from 1 to 16.
pub fn load_values(
    alloc: Global,
    table: &TypeTable,
    params: &[Param],
    credits: &[u8],
    bytes: &[u8],
    loader: Loader,
) -> Result<(Loader, Vec<u64>), LoadError>
    // The words stand for the values that the text spells, and then name the credits' cells, all apart; the cells that
    // were live stay.
    ensures loads { IsGiven table.now (types_of params.now) credits.now bytes.now → IfOk result (λ r.
        IsLoaded table.now (types_of params.now) credits.now bytes.now loader r.0 r.1.items) }
    // Where no cell is released, their cells are made after all others, in the order of their `)` in the text, and
    // then the credits'.
    ensures order { IsGiven table.now (types_of params.now) credits.now bytes.now → HasNoFree loader →
        IfOk result (λ r.
        IsInOrder table.now (types_of params.now) credits.now bytes.now loader r.0 r.1.items) }
    // What the text spells is loaded, where the words suffice and memory does.
    ensures complete { IsGiven table.now (types_of params.now) credits.now bytes.now → (vs : Values) →
        SpellsValues table.now (types_of params.now) bytes.now vs → needed loader credits.now vs ≤ loader.left →
        MatchResult result (λ r. ℕ) (λ e. e ≡ LoadError.NoMemory) }
    // A store that is too small is reported with both numbers, and handed back,
    ensures full { IsGiven table.now (types_of params.now) credits.now bytes.now → (n words : ℕ) (l : Loading) →
        result ≡ Err (LoadError.Full n words l) → (l ≡ loader) × (words ≡ loader.left) × (words < n) × (vs : Values)
        × SpellsValues table.now (types_of params.now) bytes.now vs × (n ≡ needed loader credits.now vs) }
    // wherever it is too small.
    ensures too_small { IsGiven table.now (types_of params.now) credits.now bytes.now → (vs : Values) →
        SpellsValues table.now (types_of params.now) bytes.now vs → loader.left < needed loader credits.now vs →
        MatchResult result (λ r. ⊥) (λ e. (e ≡ LoadError.Full (needed loader credits.now vs) loader.left loader)
        ⊎ (e ≡ LoadError.NoMemory)) }
    // A bad value is reported at the least offset with which no text of the types begins, and the loader handed back,
    ensures place { IsGiven table.now (types_of params.now) credits.now bytes.now → (at : ℕ) (l : Loading) →
        result ≡ Err (LoadError.BadValue at l) → (l ≡ loader)
        × IsPlace (SpellsValues table.now (types_of params.now)) bytes.now at }
    // wherever the bytes are no text.
    ensures outside { IsGiven table.now (types_of params.now) credits.now bytes.now →
        ((vs : Values) → SpellsValues table.now (types_of params.now) bytes.now vs → ⊥) →
        MatchResult result (λ r. ⊥) (λ e. ((at : ℕ) × (e ≡ LoadError.BadValue at loader)) ⊎ (e ≡ LoadError.NoMemory)) }
{
    load_all(alloc, table, params, credits, bytes, loader)
}
