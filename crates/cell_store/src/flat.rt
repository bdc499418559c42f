// The store in one list of words. A cell of k fields at place p is the header at p, 64 * tag + 2 * k, and 1 more where
// the cell is released, and the fields after it.
ghost use Rattle.std.specs.Prelude.{◌≡◌, ◌≢◌, ℕ, ◌+◌, ◌*◌, ◌<◌, ◌≤◌, ◌^◌, ◌↔◌, Bool, false, true, [], ◌∷◌, ◌++◌, None};
ghost use Rattle.std.specs.Prelude.{Some, Err, IsTrue, IfOk, OnOk, OnErr, IfSome, IfNone, MatchOption, length, vec_len};
ghost use Rattle.std.specs.Prelude.{replicate, option_map, option_and_then, slice_get, slice_set, slice_index_or, ◌%◌};
ghost use Rattle.std.specs.Vec.{vec_capacity};
ghost use Rattle.fip_language.specs.declared.limits.TheConstants.{MOST_FIELDS, MOST_STORE_WORDS};
ghost use Rattle.fip_language.specs.Store.{Cell};
ghost use Rattle.cell_store.specs.Cells.{IsAfter, cell_at, size_in, size_of, sizes, number, count_live, count_free};
ghost use Rattle.cell_store.specs.Flat.{parse, flags, over_at};
ghost use Rattle.cell_store.specs.Free.{KeepsPlaces, stack_at};
ghost use Rattle.cell_store.specs.Kept.{IsKept};
ghost use Rattle.cell_store.specs.Made.{Stored, IsRetaken, IsAppended, loading};
ghost use Rattle.cell_store.specs.Marks.{is_marked};

use crate::loader::CellError;
use crate::marks::{has_mark, mark, reach};
use crate::places::{Places, count_of, has_places, put, reserve, take};
use fip_language::limits::MOST_FIELDS;
use std::alloc::{AllocError, Global};
use std::marker::Model;

/// A number for each size from 0 to 16.
pub const SIZES: usize = MOST_FIELDS + 1;

/// Words, bits that mark where cells begin, the stack of pushed words, the number of live cells of each size, the
/// places of the released ones of each size, the number of all cells, and the words that are left.
#[derive(Drop)]
pub struct Flat {
    alloc: Global,
    words: Vec<u64>,
    marks: Vec<u64>,
    pushed: Vec<u64>,
    counts: [usize; SIZES],
    free: Vec<Places>,
    made: usize,
    left: usize,
}

impl Model for Flat {
    ghost Value = { Stored };

    ghost view = { λ s. record {
      cells = parse 0 s.words.items;
      released = flags 0 s.words.items;
      pushed =
          s.pushed.items;
      left = s.left;
    } };

    ghost invariant = { λ s. IsKept s.words.items s.marks.items s.counts s.free.items s.made (vec_capacity s.pushed)
        s.left };
}

// Puts words over those from `start` on.
#[inline(always)]
fn write_slice(words: &mut [u64], start: usize, new: &[u64])
    requires room { start + length new.now ≤ length words.old }
    ensures written { words.new ≡ over_at words.old start new.now }
{
    for (i, word) in new.iter().enumerate() {
        words[start + i] = *word;
    }
}

fn write_words(words: &mut Vec<u64>, start: usize, new: &[u64])
    requires room { start + length new.now ≤ length words.old.items }
    ensures written { words.new.items ≡ over_at words.old.items start new.now }
    ensures same { vec_len words.new ≡ vec_len words.old }
{
    write_slice(words.as_mut_slice(), start, new);
}

// The cell at a place gets this constructor and these words, as many as it has, and stays released or not.
#[inline(always)]
fn rewrite(words: &mut Vec<u64>, place: usize, tag: u32, fields: &[u64])
    requires room { place + 1 + length fields.now ≤ length words.old.items }
    ensures written { words.new.items ≡ over_at (slice_set words.old.items place (64 * tag + 2 * length fields.now
        + slice_index_or words.old.items place 0 % 2)) (place + 1) fields.now }
    ensures same { vec_len words.new ≡ vec_len words.old }
{
    let words = words.as_mut_slice();
    words[place] = 64 * tag as u64 + 2 * fields.len() as u64 + words[place] % 2;
    write_slice(words, place + 1, fields);
}

// Puts the words of a cell after the others, which may have to grow.
#[cold]
#[inline(never)]
fn push_growing(words: &mut Vec<u64>, header: u64, fields: &[u64]) -> Result<(), AllocError>
    requires { length fields.now ≤ MOST_FIELDS }
    ensures items { OnOk result (words.new.items ≡ words.old.items ++ header ∷ fields.now) }
    ensures same { OnErr result (words.new.items ≡ words.old.items) }
{
    words.reserve(fields.len() + 1)?;
    words.push(header).unwrap();
    words.extend_from_slice(fields).unwrap();
    Ok(())
}

// Puts words after the others, for which there is room.
#[inline(always)]
fn put_within(words: &mut Vec<u64>, new: &[u64])
    requires { vec_len words.old + length new.now ≤ vec_capacity words.old }
    ensures items { words.new.items ≡ words.old.items ++ new.now }
    ensures more { vec_len words.new ≡ vec_len words.old + length new.now }
    ensures room { vec_capacity words.new ≡ vec_capacity words.old }
{
    for word in new {
        words.push_reserved(*word);
    }
}

// Puts the words of a cell after the others, for which there is room. The usual sizes are distinguished, so that their
// words are moved at once.
#[inline(always)]
fn put_words(words: &mut Vec<u64>, header: u64, fields: &[u64])
    requires { vec_len words.old + length fields.now < vec_capacity words.old }
    ensures { words.new.items ≡ words.old.items ++ header ∷ fields.now }
{
    match fields {
        [a] => put_within(words, &[header, *a]),
        [a, b] => put_within(words, &[header, *a, *b]),
        [a, b, c] => put_within(words, &[header, *a, *b, *c]),
        [a, b, c, d] => put_within(words, &[header, *a, *b, *c, *d]),
        _ => {
            put_within(words, &[header]);
            put_within(words, fields);
        }
    }
}

// Puts the words of a cell after the others.
#[inline(always)]
fn push_words(words: &mut Vec<u64>, header: u64, fields: &[u64]) -> Result<(), AllocError>
    requires { length fields.now ≤ MOST_FIELDS }
    ensures items { OnOk result (words.new.items ≡ words.old.items ++ header ∷ fields.now) }
    ensures same { OnErr result (words.new.items ≡ words.old.items) }
{
    if fields.len() >= words.capacity() - words.len() {
        return push_growing(words, header, fields);
    }
    put_words(words, header, fields);
    Ok(())
}

// Whether the memory that a further cell needs beside its words is there.
#[inline(always)]
fn has_room(
    marks: &[u64],
    pushed: &Vec<u64>,
    free: &[Places],
    places: usize,
    cells: usize,
    size: usize,
    more: usize,
) -> bool
    ensures marks { IsTrue result → places ≤ 64 * length marks.now }
    ensures pushed { IsTrue result → cells ≤ vec_capacity pushed.now }
    ensures free { IsTrue result → length (stack_at free.now size).places + more ≤ (stack_at free.now size).room }
{
    if marks.len() <= places / 64 {
        return false;
    }
    if pushed.capacity() < cells {
        return false;
    }
    has_places(free, size, more)
}

// Takes the memory that a further cell needs beside its words, where it is not there: bits up to a number of places,
// room to push as many words as there will be cells, and room for places of released cells of its size.
#[inline(always)]
fn take_room(
    alloc: Global,
    marks: &mut Vec<u64>,
    pushed: &mut Vec<u64>,
    free: &mut Vec<Places>,
    places: usize,
    cells: usize,
    size: usize,
    more: usize,
) -> Result<(), AllocError>
    requires near { places ≤ 64 * vec_len marks.old + 64 }
    requires small { size < 64 }
    ensures marks { (q : ℕ) → is_marked marks.new.items q ≡ is_marked marks.old.items q }
    ensures marks_more { length marks.old.items ≤ length marks.new.items }
    ensures marks_wide { OnOk result (places ≤ 64 * length marks.new.items) }
    ensures pushed { pushed.new.items ≡ pushed.old.items }
    ensures pushed_room { vec_capacity pushed.old ≤ vec_capacity pushed.new }
    ensures pushed_more { OnOk result (cells ≤ vec_capacity pushed.new) }
    ensures free { KeepsPlaces free.old.items free.new.items }
    ensures free_more { OnOk result (length (stack_at free.new.items size).places + more ≤ (stack_at free.new.items
        size).room) }
{
    if has_room(
        marks.as_slice(),
        pushed,
        free.as_slice(),
        places,
        cells,
        size,
        more,
    ) {
        return Ok(());
    }
    take_more(alloc, marks, pushed, free, places, cells, size, more)
}

// The same, where some of it is missing.
#[cold]
#[inline(never)]
fn take_more(
    alloc: Global,
    marks: &mut Vec<u64>,
    pushed: &mut Vec<u64>,
    free: &mut Vec<Places>,
    places: usize,
    cells: usize,
    size: usize,
    more: usize,
) -> Result<(), AllocError>
    requires near { places ≤ 64 * vec_len marks.old + 64 }
    requires small { size < 64 }
    ensures marks { (q : ℕ) → is_marked marks.new.items q ≡ is_marked marks.old.items q }
    ensures marks_more { length marks.old.items ≤ length marks.new.items }
    ensures marks_wide { OnOk result (places ≤ 64 * length marks.new.items) }
    ensures pushed { pushed.new.items ≡ pushed.old.items }
    ensures pushed_room { vec_capacity pushed.old ≤ vec_capacity pushed.new }
    ensures pushed_more { OnOk result (cells ≤ vec_capacity pushed.new) }
    ensures free { KeepsPlaces free.old.items free.new.items }
    ensures free_more { OnOk result (length (stack_at free.new.items size).places + more ≤ (stack_at free.new.items
        size).room) }
{
    reach(marks, places)?;
    pushed.reserve(cells)?;
    reserve(alloc, free, size, more)
}

impl Flat {
    /// A store without a cell, of so many words. Takes no memory.
    pub fn new(alloc: Global, words: usize) -> Flat
        requires { words ≤ MOST_STORE_WORDS }
        ensures cells { result.cells ≡ [] }
        ensures released { result.released ≡ [] }
        ensures pushed { result.pushed ≡ [] }
        ensures left { result.left ≡ words }
    {
        Flat {
            alloc,
            words: Vec::new(alloc),
            marks: Vec::new(alloc),
            pushed: Vec::new(alloc),
            counts: [0; SIZES],
            free: Vec::new(alloc),
            made: 0,
            left: words,
        }
    }

    /// The words that are left for more cells.
    #[inline(always)]
    pub fn left(&self) -> usize
        ensures left { result ≡ self.now.left }
        ensures few { length self.now.cells + self.now.left ≤ MOST_STORE_WORDS }
        ensures flags { length self.now.released ≡ length self.now.cells }
        ensures sized { (p : ℕ) (c : Cell) → cell_at self.now.cells p ≡ Some c →
            (0 < size_of c) × (size_of c ≤ MOST_FIELDS) }
        ensures of_cells { (p : ℕ) → slice_get self.now.released p ≡ Some true → cell_at self.now.cells p ≢ None }
    {
        self.left
    }

    /// Whether it is as a new store, without a cell.
    #[inline(always)]
    pub fn is_new(&self) -> bool
        ensures cells { IsTrue result → self.now.cells ≡ [] }
        ensures released { IsTrue result → self.now.released ≡ [] }
    {
        self.words.is_empty()
    }

    /// The number of released cells of size k.
    #[inline(always)]
    pub fn spare(&self, k: usize) -> usize
        ensures { result ≡ count_free k self.now.cells self.now.released }
    {
        if k < SIZES {
            count_of(self.free.as_slice(), k)
        } else {
            0
        }
    }

    /// The number of cells of size k that are not released.
    #[inline(always)]
    pub fn count(&self, k: usize) -> usize
        ensures { result ≡ count_live k self.now.cells self.now.released }
    {
        if k < SIZES { self.counts[k] } else { 0 }
    }

    /// Whether a cell begins at place p.
    #[inline(always)]
    pub fn begins(&self, p: u32) -> bool
        ensures { IsTrue result ↔ (cell_at self.now.cells p ≢ None) }
    {
        has_mark(self.marks.as_slice(), p as usize)
    }

    /// Whether the cell at place p is released.
    #[inline(always)]
    pub fn is_released(&self, p: u32) -> bool
        requires { cell_at self.now.cells p ≢ None }
        ensures { slice_get self.now.released p ≡ Some result }
    {
        self.words[p as usize] % 2 == 1
    }

    /// The number of the constructor of the cell at place p.
    #[inline(always)]
    pub fn cell_tag(&self, p: u32) -> u32
        requires { cell_at self.now.cells p ≢ None }
        ensures { option_map (λ c. c.tag) (cell_at self.now.cells p) ≡ Some result }
    {
        (self.words[p as usize] / 64) as u32
    }

    /// The number of fields of the cell at place p.
    #[inline(always)]
    pub fn cell_size(&self, p: u32) -> usize
        requires { cell_at self.now.cells p ≢ None }
        ensures size { option_map size_of (cell_at self.now.cells p) ≡ Some result }
        ensures few { result ≤ MOST_FIELDS }
    {
        (self.words[p as usize] / 2 % 32) as usize
    }

    /// The word of field i of the cell at place p.
    #[inline(always)]
    pub fn field(&self, p: u32, i: usize) -> u64
        requires { i < size_in (cell_at self.now.cells p) }
        ensures { option_and_then (λ c. slice_get c.fields i) (cell_at self.now.cells p) ≡ Some result }
    {
        self.words[p as usize + 1 + i]
    }

    /// Gives the cell at place p this constructor and these words.
    #[inline(always)]
    pub fn overwrite(&mut self, p: u32, tag: u32, fields: &[u64])
        requires there { cell_at self.old.cells p ≢ None }
        requires size { length fields.now ≡ size_in (cell_at self.old.cells p) }
        ensures cells { self.new.cells ≡ slice_set self.old.cells p (Some (record { tag = tag; fields = fields.now })) }
        ensures sizes { sizes self.new.cells ≡ sizes self.old.cells }
        ensures released { self.new.released ≡ self.old.released }
        ensures pushed { self.new.pushed ≡ self.old.pushed }
        ensures left { self.new.left ≡ self.old.left }
    {
        rewrite(&mut self.words, p as usize, tag, fields);
    }

    /// Releases the cell at place p.
    pub fn release(&mut self, p: u32)
        requires there { cell_at self.old.cells p ≢ None }
        requires live { slice_get self.old.released p ≡ Some false }
        ensures cells { self.new.cells ≡ self.old.cells }
        ensures released { self.new.released ≡ slice_set self.old.released p true }
        ensures pushed { self.new.pushed ≡ self.old.pushed }
        ensures left { self.new.left ≡ self.old.left }
    {
        let place = p as usize;
        let size = (self.words[place] / 2 % 32) as usize;
        self.words[place] += 1;
        self.counts[size] -= 1;
        put(&mut self.free, size, p);
    }

    /// Whether fewer words are pushed than cells are there.
    #[inline(always)]
    pub fn has_room(&self) -> bool
        ensures { IsTrue result ↔ (length self.now.pushed < number self.now.cells) }
    {
        self.pushed.len() < self.made
    }

    /// Puts a word on the stack.
    #[inline(always)]
    pub fn push(&mut self, word: u64)
        requires { length self.old.pushed < number self.old.cells }
        ensures cells { self.new.cells ≡ self.old.cells }
        ensures released { self.new.released ≡ self.old.released }
        ensures pushed { self.new.pushed ≡ self.old.pushed ++ word ∷ [] }
        ensures left { self.new.left ≡ self.old.left }
    {
        self.pushed.push(word).unwrap();
    }

    /// Takes the top word off the stack.
    #[inline(always)]
    pub fn pop(&mut self) -> Option<u64>
        ensures cells { self.new.cells ≡ self.old.cells }
        ensures released { self.new.released ≡ self.old.released }
        ensures pushed { MatchOption result ((self.old.pushed ≡ []) × (self.new.pushed ≡ []))
            (λ word. self.old.pushed ≡ self.new.pushed ++ word ∷ []) }
        ensures left { self.new.left ≡ self.old.left }
    {
        self.pushed.pop()
    }

    /// Takes all words off the stack.
    pub fn clear(&mut self)
        ensures cells { self.new.cells ≡ self.old.cells }
        ensures released { self.new.released ≡ self.old.released }
        ensures pushed { self.new.pushed ≡ [] }
        ensures left { self.new.left ≡ self.old.left }
    {
        self.pushed.clear();
    }

    /// The place of the cell after the one at p, or of the first one.
    pub fn after(&self, p: Option<u32>) -> Option<u32>
        requires { (q : ℕ) → p ≡ Some q → cell_at self.now.cells q ≢ None }
        ensures there { IfSome result (λ q. cell_at self.now.cells q ≢ None) }
        ensures following { IfSome result (IsAfter p) }
        ensures first { IfSome result (λ q. (r : ℕ) → IsAfter p r → r < q → cell_at self.now.cells r ≡ None) }
        ensures none { IfNone result ((r : ℕ) → IsAfter p r → cell_at self.now.cells r ≡ None) }
    {
        let _ = &self.words;
        match p {
            Some(p) => self.cell_from(p as usize + 1 + self.cell_size(p)),
            None => self.cell_from(0),
        }
    }

    // The place, where it is not past the words.
    fn cell_from(&self, place: usize) -> Option<u32>
        ensures some { IfSome result (λ q. (q ≡ place) × (place < length self.now.cells)) }
        ensures none { IfNone result (length self.now.cells ≤ place) }
    {
        if place < self.words.len() {
            Some(place as u32)
        } else {
            None
        }
    }

    // Gives a released cell of the size this constructor and these words. `None` where there is no such cell.
    #[inline(always)]
    fn retake(&mut self, tag: u32, fields: &[u64]) -> Option<u32>
        requires few { length fields.now ≤ MOST_FIELDS }
        ensures none { IfNone result ((count_free (length fields.now) self.old.cells self.old.released ≡ 0)
            × (self.new ≡ self.old)) }
        ensures some { IfSome result (λ p. 0 < count_free (length fields.now) self.old.cells self.old.released) }
        ensures made { IfSome result (λ p. IsRetaken (loading self.old) (loading self.new) p
            (record { tag = tag; fields = fields.now })) }
        ensures pushed { self.new.pushed ≡ self.old.pushed }
    {
        let size = fields.len();
        match take(&mut self.free, size) {
            Some(p) => {
                let place = p as usize;
                self.words[place] = 64 * tag as u64 + 2 * size as u64;
                write_words(&mut self.words, place + 1, fields);
                self.counts[size] += 1;
                Some(p)
            }
            None => None,
        }
    }

    // Makes a cell after the others.
    #[inline(always)]
    fn append(&mut self, tag: u32, fields: &[u64]) -> Result<u32, CellError>
        requires some { 0 < length fields.now }
        requires few { length fields.now ≤ MOST_FIELDS }
        ensures full { (result ≡ Err CellError.Full) ↔ (self.old.left < length fields.now + 1) }
        ensures made { IfOk result (λ p. IsAppended (loading self.old) (loading self.new) p
            (record { tag = tag; fields = fields.now })) }
        ensures pushed { self.new.pushed ≡ self.old.pushed }
        ensures same { OnErr result (self.new ≡ self.old) }
    {
        let size = fields.len();
        if self.left < size + 1 {
            return Err(CellError::Full);
        }
        let place = self.words.len();
        take_room(
            self.alloc,
            &mut self.marks,
            &mut self.pushed,
            &mut self.free,
            place + size + 1,
            self.made + 1,
            size,
            self.counts[size] + 1,
        )?;
        push_words(&mut self.words, 64 * tag as u64 + 2 * size as u64, fields)?;
        self.made += 1;
        mark(&mut self.marks, place);
        self.counts[size] += 1;
        self.left -= size + 1;
        Ok(place as u32)
    }

    /// Makes a cell of 1 to 16 fields and answers its place: a released cell of that size, or else one after the
    /// others.
    #[inline(always)]
    pub fn cell(&mut self, tag: u32, fields: &[u64]) -> Result<u32, CellError>
        requires some { 0 < length fields.now }
        requires few { length fields.now ≤ MOST_FIELDS }
        ensures retaken { 0 < count_free (length fields.now) self.old.cells self.old.released →
            IfOk result (λ p. IsRetaken (loading self.old) (loading self.new) p
            (record { tag = tag; fields = fields.now })) }
        ensures appended { count_free (length fields.now) self.old.cells self.old.released ≡ 0 →
            IfOk result (λ p. IsAppended (loading self.old) (loading self.new) p
            (record { tag = tag; fields = fields.now })) }
        ensures full { (result ≡ Err CellError.Full) ↔ ((count_free (length fields.now) self.old.cells self.old.released
            ≡ 0) × (self.old.left < length fields.now + 1)) }
        ensures pushed { self.new.pushed ≡ self.old.pushed }
        ensures same { OnErr result (self.new ≡ self.old) }
    {
        match self.retake(tag, fields) {
            Some(place) => Ok(place),
            None => self.append(tag, fields),
        }
    }

    /// Takes memory for cells of so many more words.
    pub fn reserve(&mut self, words: usize) -> Result<(), AllocError>
        requires { words ≤ MOST_STORE_WORDS }
        ensures same { self.new ≡ self.old }
    {
        self.words.reserve(words)?;
        self.marks.reserve(words / 64 + 1)?;
        self.pushed.reserve(self.made + words / 2)?;
        for size in 1..SIZES {
            reserve(
                self.alloc,
                &mut self.free,
                size,
                self.counts[size] + words / (size + 1),
            )?;
        }
        Ok(())
    }
}
