// A store that takes cells.
ghost use Rattle.std.specs.Prelude.{◌≡◌, ◌≢◌, ℕ, ◌+◌, ◌<◌, ◌≤◌, ◌↔◌, [], true, None, Some, Err, IfOk, IsTrue, OnErr};
ghost use Rattle.std.specs.Prelude.{length, slice_get};
ghost use Rattle.fip_language.specs.declared.limits.TheConstants.{MOST_FIELDS, MOST_STORE_WORDS};
ghost use Rattle.fip_language.specs.Store.{Cell};
ghost use Rattle.cell_store.specs.Cells.{cell_at, size_of, count_free};
ghost use Rattle.cell_store.specs.Made.{Loading, IsRetaken, IsAppended, loading};

use crate::flat::Flat;
use crate::sealed::Sealed;
use fip_base::plain::NoMemory;
use std::alloc::{AllocError, Global};
use std::marker::Model;
use thiserror::Error;

/// Why a cell was not made.
#[derive(Clone, Copy, Debug, PartialEq, Eq, Error)]
pub enum CellError {
    /// No released cell has the size, and fewer words are left than the cell takes.
    #[error("the store is full")]
    Full,
    /// There was no memory for the cell.
    #[error("out of memory")]
    NoMemory,
}

impl From<AllocError> for CellError {
    ghost use Rattle.cell_store.specs.declared.loader.CellError.TheVariants.{NoMemory};

    ghost from_gives = { λ _ e. e ≡ NoMemory };

    fn from(_: AllocError) -> CellError {
        CellError::NoMemory
    }
}

/// A store that takes cells, up to a number of words; a cell of k fields takes k + 1 words.
#[derive(Drop)]
pub struct Loader {
    flat: Flat,
}

impl Model for Loader {
    ghost Value = { Loading };

    ghost view = { λ l. loading l.flat };

    ghost invariant = { λ l. l.flat.pushed ≡ [] };
}

impl Loader {
    /// A loader of so many words. Takes no memory.
    pub fn new(alloc: Global, words: usize) -> Loader
        requires { words ≤ MOST_STORE_WORDS }
        ensures cells { result.cells ≡ [] }
        ensures released { result.released ≡ [] }
        ensures left { result.left ≡ words }
    {
        Loader {
            flat: Flat::new(alloc, words),
        }
    }

    /// The loader of an open store.
    pub(crate) fn of(flat: Flat) -> Loader
        requires { flat.pushed ≡ [] }
        ensures { result ≡ loading flat }
    {
        Loader { flat }
    }

    /// The words that are left for more cells.
    #[inline(always)]
    pub fn left(&self) -> usize
        ensures left { result ≡ self.now.left }
        ensures few { length self.now.cells + self.now.left ≤ MOST_STORE_WORDS }
        ensures flags { length self.now.released ≡ length self.now.cells }
        ensures sized { (p : ℕ) (c : Cell) → cell_at self.now.cells p ≡ Some c →
            (0 < size_of c) × (size_of c ≤ MOST_FIELDS) }
        ensures of_cells { (p : ℕ) → slice_get self.now.released p ≡ Some true → cell_at self.now.cells p ≢ None }
    {
        self.flat.left()
    }

    /// Whether it is as a new loader, without a cell.
    #[inline(always)]
    pub fn is_new(&self) -> bool
        ensures cells { IsTrue result → self.now.cells ≡ [] }
        ensures released { IsTrue result → self.now.released ≡ [] }
    {
        self.flat.is_new()
    }

    /// The number of released cells with `k` fields.
    #[inline(always)]
    pub fn spare(&self, k: usize) -> usize
        ensures { result ≡ count_free k self.now.cells self.now.released }
    {
        self.flat.spare(k)
    }

    /// Takes memory for cells of so many more words, so that `cell` takes none while the cells that it makes need no
    /// more than these. An error where the memory is not there; the cells stay as they are in any case.
    pub fn reserve(&mut self, words: usize) -> Result<(), NoMemory>
        requires { words ≤ MOST_STORE_WORDS }
        ensures same { self.new ≡ self.old }
    {
        self.flat.reserve(words)?;
        Ok(())
    }

    /// Makes a cell of 1 to 16 fields and answers its place: a released cell of that size where there is one, else one
    /// after all others. `Full` exactly where no cell of that size is released and fewer words are left than one more
    /// than the fields; `NoMemory` where no memory is left for a further cell, which a released one never needs.
    #[inline(always)]
    pub fn cell(&mut self, tag: u32, fields: &[u64]) -> Result<u32, CellError>
        requires some { 0 < length fields.now }
        requires few { length fields.now ≤ MOST_FIELDS }
        ensures retaken { 0 < count_free (length fields.now) self.old.cells self.old.released →
            IfOk result (λ p. IsRetaken self.old self.new p (record { tag = tag; fields = fields.now })) }
        ensures appended { count_free (length fields.now) self.old.cells self.old.released ≡ 0 →
            IfOk result (λ p. IsAppended self.old self.new p (record { tag = tag; fields = fields.now })) }
        ensures full { (result ≡ Err CellError.Full) ↔ ((count_free (length fields.now) self.old.cells self.old.released
            ≡ 0) × (self.old.left < length fields.now + 1)) }
        ensures same { OnErr result (self.new ≡ self.old) }
    {
        self.flat.cell(tag, fields)
    }
}

/// The store of a loader's cells, with no word on its stack. It takes no memory.
pub fn seal(loader: Loader) -> Sealed
    ensures cells { result.cells ≡ loader.cells }
    ensures released { result.released ≡ loader.released }
    ensures pushed { result.pushed ≡ [] }
    ensures left { result.left ≡ loader.left }
{
    Sealed::of(loader.flat)
}
