// One value is read or made at a place of a text, and the cells of credits are made.
ghost use Rattle.std.specs.Prelude.{◌≡◌, ◌⊎◌, ℕ, ◌+◌, ◌<◌, ◌≤◌, length, drop, Err, IfOk, MatchResult};
ghost use Rattle.fip_language.specs.Prefix.{IsPlace};
ghost use Rattle.fip_language.specs.Values.{Value, End};
ghost use Rattle.value_text.specs.Alone.{AloneRead, AloneBuilt, error_by};
ghost use Rattle.value_text.specs.Loaded.{AreCredits, needed};
ghost use Rattle.value_text.specs.Single.{BeginsWith, IsValueAt, IsPlaced, AreCellsOf, needed_by, IsValueMade};
ghost use Rattle.value_text.specs.Single.{AreCreditsMade};

use crate::build::{Stopped, add_credits, advance};
use crate::counts::Counts;
use crate::read::{self, Refused};
use cell_store::Loader;
use fip_base::table::TypeTable;
use std::alloc::Global;

/// Why a value wasn't read.
#[derive(Clone, Copy, PartialEq, Eq)]
pub enum ReadError {
    /// The first offset with which no value of the type goes on.
    BadValue { at: usize },
    /// No memory is left.
    NoMemory,
}

/// Why the cells of a value weren't made.
#[derive(Clone, Copy, PartialEq, Eq)]
pub enum MakeError {
    /// The first offset with which no value of the type goes on.
    BadValue { at: usize },
    /// The store has no released cell for one of the value's, and no room for a further one.
    Full,
    /// No memory is left.
    NoMemory,
}

// Reads one value: the place after it, and its cells by size.
fn read_alone(
    alloc: Global,
    table: &TypeTable,
    ty: u32,
    bytes: &[u8],
    at: usize,
) -> Result<(usize, Counts), Refused>
    ensures within { IfOk result (λ r. r.0 ≤ length bytes.now) }
    ensures reads { IsPlaced table.now ty bytes.now at → AloneRead table.now ty bytes.now at result }
{
    let mut cursor = read::begin_value(alloc, ty, at.min(bytes.len()));
    let mut counts = Counts::none();
    while !read::is_whole(&cursor) {
        match read::step(table, bytes, &mut cursor) {
            Ok(Some(event)) => counts.add_closed(event),
            // A text ends after its last line alone.
            Ok(None) => return Err(Refused::BadValue(read::place_of(&cursor))),
            Err(e) => return Err(e),
        }
    }
    Ok((read::place_of(&cursor), counts))
}

/// Reads one value of a type from a place on: the place after it, and how many cells of each size it has. `BadValue`
/// where none stands there, `NoMemory` where memory runs out.
///
/// The clauses speak of a sound table, of a type of it, and of a place of the text.
pub fn read_value(
    alloc: Global,
    table: &TypeTable,
    ty: u32,
    bytes: &[u8],
    at: usize,
) -> Result<(usize, Counts), ReadError>
    ensures within { IfOk result (λ r. r.0 ≤ length bytes.now) }
    // A value that stands there is read to its end, and its cells are counted,
    ensures reads { IsPlaced table.now ty bytes.now at → IfOk result (λ r. (v : Value)
        × IsValueAt table.now ty bytes.now at v r.0 × AreCellsOf r.1 v) }
    // wherever one stands there.
    ensures complete { IsPlaced table.now ty bytes.now at → (v : Value) →
        BeginsWith table.now ty (drop at bytes.now) v → MatchResult result (λ r. ℕ) (λ e. e ≡ ReadError.NoMemory) }
    // A bad value is reported at the least offset with which no text that begins with a value goes on,
    ensures place { IsPlaced table.now ty bytes.now at → (k : ℕ) → result ≡ Err (ReadError.BadValue k) → (d : ℕ)
        × (k ≡ at + d) × IsPlace (BeginsWith table.now ty) (drop at bytes.now) d }
    // wherever no value stands there.
    ensures outside { IsPlaced table.now ty bytes.now at →
        ((v : Value) → BeginsWith table.now ty (drop at bytes.now) v → ⊥) →
        MatchResult result (λ r. ⊥) (λ e. ((k : ℕ) × (e ≡ ReadError.BadValue k)) ⊎ (e ≡ ReadError.NoMemory)) }
{
    match read_alone(alloc, table, ty, bytes, at) {
        Ok(read) => Ok(read),
        Err(Refused::BadValue(at)) => Err(ReadError::BadValue { at }),
        Err(Refused::NoMemory) => Err(ReadError::NoMemory),
    }
}

// The words that one value leaves, of which there is one; its cells are made.
fn build_value(
    alloc: Global,
    table: &TypeTable,
    ty: u32,
    bytes: &[u8],
    at: usize,
    loader: &mut Loader,
) -> Result<Vec<u64>, Stopped>
    ensures { IsPlaced table.now ty bytes.now at → length loader.old.released ≡ length loader.old.cells →
        AloneBuilt table.now ty bytes.now at loader.old loader.new result }
{
    let mut cursor = read::begin_value(alloc, ty, at.min(bytes.len()));
    let mut words = Vec::new(alloc);
    while !read::is_whole(&cursor) {
        match advance(table, bytes, &mut cursor, loader, &mut words) {
            Ok(true) => {}
            // A text ends after its last line alone.
            Ok(false) => return Err(Stopped::BadValue(read::place_of(&cursor))),
            Err(e) => return Err(e),
        }
    }
    Ok(words)
}

// Why nothing was made, where nothing was built.
fn error_of(stopped: Stopped) -> MakeError
    ensures { result ≡ error_by stopped }
{
    match stopped {
        Stopped::BadValue(at) => MakeError::BadValue { at },
        Stopped::Full => MakeError::Full,
        Stopped::NoMemory => MakeError::NoMemory,
    }
}

/// Makes the cells of the value of a type that stands at a place, and gives the loader and the value's word. `BadValue`
/// where none stands there; `Full` where the loader has no room for the cells of the value, or for those that come
/// before the bad place; `NoMemory` where memory runs out.
///
/// The clauses speak of a sound table, of a type of it, and of a place of the text.
pub fn make_value(
    alloc: Global,
    table: &TypeTable,
    ty: u32,
    bytes: &[u8],
    at: usize,
    loader: Loader,
) -> Result<(Loader, u64), MakeError>
    // The word stands for the value, whose cells are apart from those that were live, which stay.
    ensures makes { IsPlaced table.now ty bytes.now at → IfOk result (λ r.
        IsValueMade table.now ty (drop at bytes.now) loader r.0 r.1) }
    // What stands there is made, where the words suffice and memory does,
    ensures complete { IsPlaced table.now ty bytes.now at → (v : Value) →
        BeginsWith table.now ty (drop at bytes.now) v → needed_by loader v ≤ loader.left →
        MatchResult result (λ r. ℕ) (λ e. e ≡ MakeError.NoMemory) }
    // and is reported to be too large where they don't.
    ensures too_small { IsPlaced table.now ty bytes.now at → (v : Value) →
        BeginsWith table.now ty (drop at bytes.now) v → loader.left < needed_by loader v →
        MatchResult result (λ r. ⊥) (λ e. (e ≡ MakeError.Full) ⊎ (e ≡ MakeError.NoMemory)) }
    // A bad value is reported at the least offset with which no text that begins with a value goes on;
    ensures place { IsPlaced table.now ty bytes.now at → (k : ℕ) → result ≡ Err (MakeError.BadValue k) → (d : ℕ)
        × (k ≡ at + d) × IsPlace (BeginsWith table.now ty) (drop at bytes.now) d }
    // nothing is made where no value stands.
    ensures outside { IsPlaced table.now ty bytes.now at →
        ((v : Value) → BeginsWith table.now ty (drop at bytes.now) v → ⊥) → IfOk result (λ r. ⊥) }
{
    let _left = loader.left();
    let mut loader = loader;
    match build_value(alloc, table, ty, bytes, at, &mut loader) {
        Ok(words) => match words.first() {
            Some(word) => Ok((loader, *word)),
            None => Err(MakeError::BadValue { at }),
        },
        Err(e) => Err(error_of(e)),
    }
}

/// Makes a cell for each of these credits, of that many fields, its constructor and its fields 0, and gives the loader
/// and the words that name the cells, in the order of the credits. `Full` where the loader has no room for one of them,
/// `NoMemory` where memory runs out.
///
/// The clauses speak of at most 16 credits of sizes 1 to 16.
pub fn make_credits(
    alloc: Global,
    credits: &[u8],
    loader: Loader,
) -> Result<(Loader, Vec<u64>), MakeError>
    // The words name the cells, which are apart from those that were live, and these stay.
    ensures makes { AreCredits credits.now → IfOk result (λ r. AreCreditsMade credits.now loader r.0 r.1.items) }
    // They are made where the words suffice and memory does.
    ensures complete { AreCredits credits.now → needed loader credits.now End ≤ loader.left →
        MatchResult result (λ r. ℕ) (λ e. e ≡ MakeError.NoMemory) }
{
    let _left = loader.left();
    let mut loader = loader;
    let mut words = Vec::new(alloc);
    match add_credits(credits, &mut loader, &mut words) {
        Ok(()) => Ok((loader, words)),
        Err(e) => Err(error_of(e)),
    }
}
