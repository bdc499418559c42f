// The cells of values are made while their text is read.
ghost use Rattle.std.specs.Prelude.{◌≡◌, ◌⊎◌, ℕ, ◌+◌, ◌-◌, ◌*◌, ◌<◌, ◌≤◌, List, [], ◌∷◌, ◌++◌, length, drop, IfOk};
ghost use Rattle.std.specs.Prelude.{OnOk, OnErr, Ok, Err, Some, None, true, replicate, slice_index_or, vec_len};
ghost use Rattle.fip_language.specs.declared.limits.TheConstants.{MOST_FIELDS};
ghost use Rattle.fip_language.specs.SoundTable.{IsSoundTable, AreTypes};
ghost use Rattle.fip_language.specs.Store.{int_word};
ghost use Rattle.fip_language.specs.Values.{Values};
ghost use Rattle.value_text.specs.Loaded.{types_of, free_in, wanted, AreCredits};
ghost use Rattle.fip_language.specs.Table.{Table};
ghost use Rattle.value_text.specs.Building.{IsMade, IsPut, Advanced, stopped_by, then_on, Built, IsBuilt, IsCrediting};
ghost use Rattle.value_text.specs.Building.{IsGoing, HasGone};
ghost use Rattle.value_text.specs.Reading.{outline, whole, IsKnown};
ghost use Rattle.value_text.specs.declared.read.Event.{Event};
ghost use Rattle.value_text.specs.Loaded.{words_up_to};
ghost use Rattle.cell_store.specs.Made.{Loading};

use crate::read::{self, Cursor, Refused};
use crate::room::push;
use cell_store::{CellError, Loader};
use fip_base::plain::Param;
use fip_base::table::TypeTable;
use fip_language::limits::MOST_FIELDS;
use std::alloc::{AllocError, Global};

/// Why nothing more was built.
#[derive(Clone, Copy)]
pub enum Stopped {
    BadValue(usize),
    /// The store has no cell of the size, and no room for one.
    Full,
    NoMemory,
}

// The 64 bits of an int.
#[inline(always)]
fn int_bits(i: i64) -> u64
    ensures { result ≡ int_word i }
{
    if i >= 0 {
        i as u64
    } else {
        u64::MAX - -(i + 1) as u64
    }
}

// Makes a cell, and gives its word: twice its place, and 1.
#[inline(always)]
fn push_cell(tag: u32, fields: &[u64], loader: &mut Loader) -> Result<u64, CellError>
    requires some { 0 < length fields.now }
    requires few { length fields.now ≤ MOST_FIELDS }
    ensures made { IfOk result (λ w. (p : ℕ) × (w ≡ 2 * p + 1)
        × IsMade loader.old loader.new p (record { tag = tag; fields = fields.now })) }
    ensures full { result ≡ Err CellError.Full → (free_in loader.old (length fields.now) ≡ 0)
        × (loader.old.left < length fields.now + 1) }
{
    match loader.cell(tag, fields) {
        Ok(place) => Ok(2 * place as u64 + 1),
        Err(e) => Err(e),
    }
}

// The cell of the last words, and its word in their place.
#[inline(always)]
fn close(tag: u32, size: usize, loader: &mut Loader, words: &mut Vec<u64>) -> Result<(), Stopped>
    ensures { IsPut (Event.Closed tag size) words.old.items loader.old words.new.items loader.new result }
{
    if size == 0 || size > MOST_FIELDS || size > words.len() {
        return Err(Stopped::Full);
    }
    let start = words.len() - size;
    match push_cell(tag, &words[start..], loader) {
        Ok(word) => {
            words.truncate(start);
            push_word(words, word)
        }
        Err(CellError::Full) => Err(Stopped::Full),
        Err(CellError::NoMemory) => Err(Stopped::NoMemory),
    }
}

// A word is put after the others.
#[inline(always)]
fn push_word(words: &mut Vec<u64>, word: u64) -> Result<(), Stopped>
    ensures words { OnOk result (words.new.items ≡ words.old.items ++ word ∷ []) }
    ensures memory { OnErr result (result ≡ Err Stopped.NoMemory) }
{
    match push(word, words) {
        Ok(()) => Ok(()),
        Err(_) => Err(Stopped::NoMemory),
    }
}

// Why the builder stops where the reader does.
fn stop_of(refused: Refused) -> Stopped
    ensures { result ≡ stopped_by refused }
{
    match refused {
        Refused::BadValue(at) => Stopped::BadValue(at),
        Refused::NoMemory => Stopped::NoMemory,
    }
}

// The builder goes on after what was put down.
#[inline(always)]
fn goes_on(put: Result<(), Stopped>) -> Result<bool, Stopped>
    ensures { result ≡ then_on put }
{
    match put {
        Ok(()) => Ok(true),
        Err(e) => Err(e),
    }
}

// An int.
#[inline(always)]
fn build_int<'a>(
    bytes: &[u8],
    cursor: &mut Cursor<'a>,
    words: &mut Vec<u64>,
) -> Result<bool, Stopped>
    requires place { cursor.old.at ≤ length bytes.now }
    requires next { cursor.old.next ≡ Some 0 }
    ensures advances { (tb : Table) (l : Loading) → IsKnown tb (outline cursor.old) →
        Advanced tb bytes.now (outline cursor.old) cursor.old.at (outline cursor.new) cursor.new.at words.old.items l
        words.new.items l result }
    ensures place { result ≡ Ok true → (cursor.old.at < cursor.new.at) × (cursor.new.at ≤ length bytes.now) }
{
    match read::read_int(bytes, cursor) {
        Ok(i) => goes_on(push_word(words, int_bits(i))),
        Err(e) => Err(stop_of(e)),
    }
}

// A constructor without fields, or the front of one with fields.
#[inline(always)]
fn build_node<'a>(
    table: &'a TypeTable,
    ty: u32,
    bytes: &[u8],
    cursor: &mut Cursor<'a>,
    words: &mut Vec<u64>,
) -> Result<bool, Stopped>
    requires place { cursor.old.at ≤ length bytes.now }
    requires next { cursor.old.next ≡ Some ty }
    requires data { 0 < ty }
    requires of_table { ty ≤ length table.now }
    ensures advances { IsSoundTable table.now → (l : Loading) → IsKnown table.now (outline cursor.old) →
        Advanced table.now bytes.now (outline cursor.old) cursor.old.at (outline cursor.new) cursor.new.at
        words.old.items l words.new.items l result }
    ensures place { result ≡ Ok true → (cursor.old.at < cursor.new.at) × (cursor.new.at ≤ length bytes.now) }
{
    match read::read_node(table, ty, bytes, cursor) {
        Ok(Some(tag)) => goes_on(push_word(words, 2 * tag as u64)),
        Ok(None) => Ok(true),
        Err(e) => Err(stop_of(e)),
    }
}

// What stands after a field of the innermost open constructor.
#[inline(always)]
fn build_field<'a>(
    bytes: &[u8],
    cursor: &mut Cursor<'a>,
    loader: &mut Loader,
    words: &mut Vec<u64>,
) -> Result<bool, Stopped>
    requires place { cursor.old.at ≤ length bytes.now }
    requires next { cursor.old.next ≡ None }
    requires open { 0 < vec_len cursor.old.frames }
    ensures advances { (tb : Table) → IsKnown tb (outline cursor.old) →
        Advanced tb bytes.now (outline cursor.old) cursor.old.at (outline cursor.new) cursor.new.at
        words.old.items loader.old words.new.items loader.new result }
    ensures place { result ≡ Ok true → (cursor.old.at < cursor.new.at) × (cursor.new.at ≤ length bytes.now) }
{
    match read::read_field(bytes, cursor) {
        Ok(Some((tag, size))) => goes_on(close(tag, size, loader, words)),
        Ok(None) => Ok(true),
        Err(e) => Err(stop_of(e)),
    }
}

// What stands after the value of a line.
#[inline(always)]
fn build_line<'a>(bytes: &[u8], cursor: &mut Cursor<'a>) -> Result<bool, Stopped>
    requires place { cursor.old.at ≤ length bytes.now }
    requires next { cursor.old.next ≡ None }
    requires frames { (outline cursor.old).frames ≡ [] }
    ensures advances { (tb : Table) (l : Loading) (ws : List ℕ) → IsKnown tb (outline cursor.old) →
        Advanced tb bytes.now (outline cursor.old) cursor.old.at (outline cursor.new) cursor.new.at ws l ws l result }
    ensures place { result ≡ Ok true → (cursor.old.at < cursor.new.at) × (cursor.new.at ≤ length bytes.now) }
{
    match read::read_line(bytes, cursor) {
        Ok(more) => Ok(more),
        Err(e) => Err(stop_of(e)),
    }
}

// A value of a type, or the front of one.
#[inline(always)]
fn build_front<'a>(
    table: &'a TypeTable,
    ty: u32,
    bytes: &[u8],
    cursor: &mut Cursor<'a>,
    words: &mut Vec<u64>,
) -> Result<bool, Stopped>
    requires place { cursor.old.at ≤ length bytes.now }
    requires next { cursor.old.next ≡ Some ty }
    ensures advances { IsSoundTable table.now → (l : Loading) → IsKnown table.now (outline cursor.old) →
        Advanced table.now bytes.now (outline cursor.old) cursor.old.at (outline cursor.new) cursor.new.at
        words.old.items l words.new.items l result }
    ensures place { result ≡ Ok true → (cursor.old.at < cursor.new.at) × (cursor.new.at ≤ length bytes.now) }
{
    if ty == 0 {
        build_int(bytes, cursor, words)
    } else if ty as usize <= table.len() {
        build_node(table, ty, bytes, cursor, words)
    } else {
        Err(Stopped::BadValue(cursor.at))
    }
}

// What stands after a value; false after the last one.
#[inline(always)]
fn build_after<'a>(
    bytes: &[u8],
    cursor: &mut Cursor<'a>,
    loader: &mut Loader,
    words: &mut Vec<u64>,
) -> Result<bool, Stopped>
    requires place { cursor.old.at ≤ length bytes.now }
    requires next { cursor.old.next ≡ None }
    ensures advances { (tb : Table) → IsKnown tb (outline cursor.old) →
        Advanced tb bytes.now (outline cursor.old) cursor.old.at (outline cursor.new) cursor.new.at
        words.old.items loader.old words.new.items loader.new result }
    ensures place { result ≡ Ok true → (cursor.old.at < cursor.new.at) × (cursor.new.at ≤ length bytes.now) }
{
    if cursor.frames.is_empty() {
        build_line(bytes, cursor)
    } else {
        build_field(bytes, cursor, loader, words)
    }
}

/// One step, and what it leaves in the store and among the words that wait for their cells; false after the last
/// value.
#[inline(always)]
pub fn advance<'a>(
    table: &'a TypeTable,
    bytes: &[u8],
    cursor: &mut Cursor<'a>,
    loader: &mut Loader,
    words: &mut Vec<u64>,
) -> Result<bool, Stopped>
    requires place { cursor.old.at ≤ length bytes.now }
    ensures advances { IsSoundTable table.now → IsKnown table.now (outline cursor.old) →
        Advanced table.now bytes.now (outline cursor.old) cursor.old.at (outline cursor.new) cursor.new.at
        words.old.items loader.old words.new.items loader.new result }
    ensures place { result ≡ Ok true → (cursor.old.at < cursor.new.at) × (cursor.new.at ≤ length bytes.now) }
{
    match cursor.next {
        Some(ty) => build_front(table, ty, bytes, cursor, words),
        None => build_after(bytes, cursor, loader, words),
    }
}

// What stands after a value, up to where the next one comes; false after the last one.
#[inline(always)]
fn build_ends<'a>(
    table: &'a TypeTable,
    bytes: &[u8],
    cursor: &mut Cursor<'a>,
    loader: &mut Loader,
    words: &mut Vec<u64>,
) -> Result<bool, Stopped>
    requires { cursor.old.at ≤ length bytes.now }
    ensures goes { IsSoundTable table.now → (types : List ℕ) (first : Loading) →
        IsGoing table.now (whole types) bytes.now first (outline cursor.old) cursor.old.at words.old.items loader.old →
        HasGone table.now (whole types) bytes.now first (outline cursor.new) cursor.new.at words.new.items loader.new
        result }
    ensures place { result ≡ Ok true → (cursor.old.at ≤ cursor.new.at) × (cursor.new.at ≤ length bytes.now) }
{
    'ends: loop {
        if cursor.next.is_some() {
            return Ok(true);
        }
        match build_after(bytes, cursor, loader, words) {
            Ok(true) => {}
            Ok(false) => return Ok(false),
            Err(e) => return Err(e),
        }
    }
}

/// The words of the values of a whole text, a line for each parameter; their cells are made.
pub fn build(
    alloc: Global,
    table: &TypeTable,
    params: &[Param],
    bytes: &[u8],
    loader: &mut Loader,
) -> Result<Vec<u64>, Stopped>
    ensures { IsSoundTable table.now → AreTypes table.now (types_of params.now) →
        Built table.now (whole (types_of params.now)) bytes.now loader.old loader.new result }
{
    let mut cursor = read::begin(alloc, params);
    let mut words = Vec::new(alloc);
    'values: loop {
        match advance(table, bytes, &mut cursor, loader, &mut words) {
            Ok(true) => {}
            Ok(false) => return Ok(words),
            Err(e) => return Err(e),
        }
        match build_ends(table, bytes, &mut cursor, loader, &mut words) {
            Ok(true) => {}
            Ok(false) => return Ok(words),
            Err(e) => return Err(e),
        }
    }
}

// A cell of a credit's size, its tag and fields 0.
fn add_credit(size: u8, loader: &mut Loader, words: &mut Vec<u64>) -> Result<(), Stopped>
    ensures made { OnOk result ((p : ℕ) × (words.new.items ≡ words.old.items ++ (2 * p + 1) ∷ [])
        × IsMade loader.old loader.new p (record { tag = 0; fields = replicate size 0 })) }
    ensures full { result ≡ Err Stopped.Full → 0 < size → size ≤ MOST_FIELDS → (free_in loader.old size ≡ 0)
        × (loader.old.left < size + 1) }
    ensures value { (k : ℕ) → result ≡ Err (Stopped.BadValue k) → ⊥ }
{
    let zeros = [0; MOST_FIELDS];
    let k = size as usize;
    if k == 0 || k > MOST_FIELDS {
        return Err(Stopped::Full);
    }
    match push_cell(0, &zeros[..k], loader) {
        Ok(word) => push_word(words, word),
        Err(CellError::Full) => Err(Stopped::Full),
        Err(CellError::NoMemory) => Err(Stopped::NoMemory),
    }
}

/// A cell for each credit, after the words of the values.
pub fn add_credits(credits: &[u8], loader: &mut Loader, words: &mut Vec<u64>) -> Result<(), Stopped>
    ensures made { AreCredits credits.now → OnOk result ((first : Loading) (vs : Values) →
        IsBuilt (wanted credits.now vs) first loader.old vs words.old.items →
        IsCrediting credits.now (wanted credits.now vs) first loader.new vs words.new.items) }
    ensures full { AreCredits credits.now → result ≡ Err Stopped.Full → (first : Loading) (vs : Values) →
        words_up_to MOST_FIELDS (wanted credits.now vs) (free_in first) ≤ first.left →
        IsBuilt (wanted credits.now vs) first loader.old vs words.old.items → ⊥ }
    ensures value { (k : ℕ) → result ≡ Err (Stopped.BadValue k) → ⊥ }
{
    for size in credits {
        match add_credit(*size, loader, words) {
            Ok(()) => {}
            Err(e) => return Err(e),
        }
    }
    Ok(())
}
