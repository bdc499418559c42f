// The cells of a machine's store: making, reading and releasing them.
ghost use Rattle.std.specs.Prelude.{◌≡◌, ◌≢◌, ℕ, ◌+◌, ◌*◌, ◌<◌, ◌⊎◌, [], None, Some, Err, OnErr, OnOk, IfErr, IfOk, IfSome};
ghost use Rattle.std.specs.Prelude.{length};
ghost use Rattle.fip_language.specs.declared.limits.TheConstants.{MOST_FIELDS};
ghost use Rattle.cell_store.specs.Cells.{cell_at, count_live};
ghost use Rattle.fip_machine.specs.machine_cells.Small.{IsSmall};
ghost use Rattle.cell_store.specs.Made.{loading};
ghost use Rattle.fip_host.specs.Hosting.{loading_of};
ghost use Rattle.value_text.specs.Loaded.{AreSizes};
ghost use Rattle.fip_host.specs.Making.{HasMade, IsMade};
ghost use Rattle.fip_host.specs.Starting.{AreUnmade, IsUnmade};
ghost use Rattle.fip_host.specs.Telling.{IsNamedBy, IsCell, IsField, IsNext, IsLast, IsReleased};
ghost use Rattle.fip_host.specs.declared.answer.Refusal.{Refusal};
ghost use Rattle.fip_host.specs.declared.answer.Refusal.TheVariants.{OutOfRange, TooSmall};

use super::{Hosted, no_cells, sealed};
use crate::answer::{FipCell, Refusal};
use cell_store::{CellError, Cells, Loader, Sealed};
use fip_language::limits::MOST_FIELDS;
use std::alloc::Global;

// The place that a word of a cell names, where a cell begins there.
fn place_of(cells: &Sealed, word: u64) -> Option<u32>
    ensures there { IfSome result (λ p. cell_at cells.now.cells p ≢ None) }
    ensures is { IfSome result (λ p. word ≡ 2 * p + 1) }
    ensures named { IsNamedBy cells.now.cells word result }
{
    let place = word / 2;
    if word % 2 == 1 && place <= u32::MAX as u64 && cells.begins(place as u32) {
        Some(place as u32)
    } else {
        None
    }
}

// Makes a cell.
fn made(loader: &mut Loader, tag: u32, fields: &[u64]) -> Result<u64, Refusal>
    ensures made { IfOk result (IsMade loader.old loader.new tag fields.now) }
    ensures full { (needed given : ℕ) → result ≡ Err (TooSmall needed given) →
        (needed ≡ length fields.now + 1) × (given ≡ loader.old.left) × (given < needed) }
    ensures range { result ≡ Err OutOfRange → (length fields.now ≡ 0) ⊎ (MOST_FIELDS < length fields.now) }
    ensures same { OnErr result (loader.new ≡ loader.old) }
    ensures refused { IfErr result (IsUnmade fields.now loader.old) }
{
    if fields.is_empty() || fields.len() > MOST_FIELDS {
        return Err(Refusal::OutOfRange);
    }
    let given = loader.left();
    match loader.cell(tag, fields) {
        Ok(place) => Ok(2 * place as u64 + 1),
        Err(CellError::Full) => Err(Refusal::TooSmall {
            needed: fields.len() + 1,
            given,
        }),
        Err(CellError::NoMemory) => Err(Refusal::NoMemory),
    }
}

// Makes a cell for each of these credits, with tag and fields 0, and puts its word after the others; stops where one
// can't be made.
fn made_for(loader: &mut Loader, credits: &[u8], words: &mut Vec<u64>) -> Result<(), Refusal>
    requires sizes { AreSizes credits.now }
    ensures refused { IfErr result (AreUnmade credits.now words.old.items loader.old) }
    ensures made { OnOk result (HasMade credits.now words.old.items words.new.items loader.old loader.new) }
{
    let zeros = [0; MOST_FIELDS];
    for size in credits {
        let size = *size as usize;
        if size > MOST_FIELDS {
            return Err(Refusal::OutOfRange);
        }
        words.push(made(loader, 0, &zeros[..size])?)?;
    }
    Ok(())
}

// Releases the cells of these words that aren't released.
fn give_back(cells: &mut Sealed, words: &[u64])
    ensures cells { cells.new.cells ≡ cells.old.cells }
    ensures pushed { cells.new.pushed ≡ cells.old.pushed }
{
    for word in words {
        if let Some(place) = place_of(cells, *word)
            && !cells.is_released(place)
        {
            cells.release(place);
        }
    }
}

/// Makes a cell for each of these credits, and puts its word after the others: all of them or none.
pub fn add_credits(
    alloc: Global,
    cells: &mut Sealed,
    credits: &[u8],
    words: &mut Vec<u64>,
) -> Result<(), Refusal>
    requires sizes { AreSizes credits.now }
    requires pushed { cells.old.pushed ≡ [] }
    requires small { IsSmall cells.old.cells }
    ensures refused { IfErr result (AreUnmade credits.now words.old.items (loading cells.old)) }
    ensures pushed { cells.new.pushed ≡ [] }
    ensures small { IsSmall cells.new.cells }
    ensures made { OnOk result (HasMade credits.now words.old.items words.new.items (loading cells.old)
        (loading cells.new)) }
{
    if credits.is_empty() {
        return Ok(());
    }
    let before = words.len();
    words.reserve(credits.len())?;
    let mut loader = std::mem::replace(cells, no_cells(alloc)).reopen();
    let outcome = made_for(&mut loader, credits, words);
    *cells = sealed(loader);
    if outcome.is_err() {
        if before <= words.len() {
            give_back(cells, &words[before..]);
        }
        words.truncate(before);
    }
    outcome
}

impl Hosted {
    /// Makes a cell of 1 to 16 fields with this constructor, and answers its word. A released cell of that size serves
    /// first. OutOfRange for another number of fields; TooSmall where the store has no room.
    pub fn cell(&mut self, alloc: Global, tag: u32, fields: &[u64]) -> Result<u64, Refusal>
        ensures code { self.new.code ≡ self.old.code }
        ensures task { self.new.task ≡ self.old.task }
        ensures kept { self.new.kept ≡ self.old.kept }
        ensures made { IfOk result (IsMade (loading_of self.old) (loading_of self.new) tag fields.now) }
        ensures full { (needed given : ℕ) → result ≡ Err (TooSmall needed given) →
            (needed ≡ length fields.now + 1) × (given ≡ self.old.left) × (given < needed) }
        ensures range { result ≡ Err OutOfRange → (length fields.now ≡ 0) ⊎ (MOST_FIELDS < length fields.now) }
        ensures same { OnErr result (loading_of self.new ≡ loading_of self.old) }
    {
        self.is_safe = false;
        let mut loader = std::mem::replace(&mut self.cells, no_cells(alloc)).reopen();
        let outcome = made(&mut loader, tag, fields);
        self.cells = sealed(loader);
        outcome
    }

    /// The cell that a word names; none where it names none.
    pub fn cell_at(&self, word: u64) -> Option<FipCell>
        ensures some { IfSome result (IsCell self.now.store word) }
        ensures none { result ≡ None → IsNamedBy self.now.store.cells word None }
    {
        let Some(place) = place_of(&self.cells, word) else {
            return None;
        };
        Some(FipCell {
            tag: self.cells.cell_tag(place),
            released: self.cells.is_released(place),
            size: self.cells.cell_size(place),
        })
    }

    /// The word of a field, from 0, of the cell that a word names; none where it names none, or has no such field.
    pub fn field(&self, word: u64, i: usize) -> Option<u64>
        ensures some { IfSome result (IsField self.now.store word i) }
    {
        let Some(place) = place_of(&self.cells, word) else {
            return None;
        };
        if i < self.cells.cell_size(place) {
            Some(self.cells.field(place, i))
        } else {
            None
        }
    }

    /// The word of the cell after the one that a word names, or of the first cell where the word names none; none
    /// where no further one is there.
    pub fn next(&self, word: u64) -> Option<u64>
        ensures some { IfSome result (IsNext self.now.store.cells word) }
        ensures none { result ≡ None → IsLast self.now.store.cells word }
    {
        match self.cells.after(place_of(&self.cells, word)) {
            Some(place) => Some(2 * place as u64 + 1),
            None => None,
        }
    }

    /// The number of cells of a size that aren't released.
    pub fn count(&self, size: usize) -> usize
        ensures is { result ≡ count_live size self.now.store.cells self.now.store.released }
    {
        self.cells.count(size)
    }

    /// Releases the cell that a word names. OutOfRange where it names none, or one that is released.
    pub fn release(&mut self, word: u64) -> Result<(), Refusal>
        ensures code { self.new.code ≡ self.old.code }
        ensures task { self.new.task ≡ self.old.task }
        ensures kept { self.new.kept ≡ self.old.kept }
        ensures released { OnOk result (IsReleased self.old.store self.new.store word) }
        ensures refused { (e : Refusal) → result ≡ Err e → e ≡ OutOfRange }
        ensures same { OnErr result (self.new ≡ self.old) }
    {
        match place_of(&self.cells, word) {
            Some(place) if !self.cells.is_released(place) => {
                self.is_safe = false;
                self.cells.release(place);
                Ok(())
            }
            _ => Err(Refusal::OutOfRange),
        }
    }
}
