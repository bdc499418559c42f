// A store that keeps each cell by itself: the place of a cell is the number of the cells before it.
ghost use Rattle.std.specs.Prelude.{◌≡◌, ◌≢◌, ℕ, ◌+◌, ◌*◌, ◌<◌, ◌≤◌, ◌↔◌, Bool, false, [], ◌∷◌, ◌++◌, None, Some, Err};
ghost use Rattle.std.specs.Prelude.{All, IfOk, OnOk, OnErr, length, map, vec_len};
ghost use Rattle.std.specs.Vec.{vec_capacity};
ghost use Rattle.fip_language.specs.declared.limits.TheConstants.{MOST_FIELDS, MOST_STORE_WORDS};
ghost use Rattle.fip_language.specs.Store.{Cell};
ghost use Rattle.cell_store.specs.Cells.{size_of, number};
ghost use Rattle.cell_store.specs.Flat.{IsCounted};
ghost use Rattle.cell_store.specs.Made.{Loading, Stored};

use crate::access::Cells;
use crate::flat::SIZES;
use crate::loader::CellError;
use crate::row::Row;
use std::alloc::Global;
use std::marker::Model;

/// A sealed store that keeps each cell by itself.
#[derive(Drop)]
pub struct RowSealed {
    rows: Vec<Row>,
    released: Vec<bool>,
    pushed: Vec<u64>,
    counts: [usize; SIZES],
    left: usize,
}

impl Model for RowSealed {
    ghost Value = { Stored };

    ghost view = { λ s. record {
      cells = map (λ c. Some c) s.rows.items;
      released = s.released.items;
      pushed =
          s.pushed.items;
      left = s.left;
    } };

    ghost invariant = { λ s. record {
      flags : length s.released.items ≡ length s.rows.items;
      small : All (λ c. size_of c ≤ MOST_FIELDS) s.rows.items;
      counted : IsCounted (map (λ c. Some c) s.rows.items) s.released.items s.counts;
      room : number (map (λ c. Some c) s.rows.items) ≤ vec_capacity s.pushed;
    } };
}

impl Cells for RowSealed {
    ghost cells = { λ s. s.cells };

    ghost released = { λ s. s.released };

    ghost pushed = { λ s. s.pushed };

    fn begins(&self, p: u32) -> bool {
        (p as usize) < self.rows.len()
    }

    fn is_released(&self, p: u32) -> bool {
        self.released[p as usize]
    }

    fn cell_tag(&self, p: u32) -> u32 {
        self.rows[p as usize].tag()
    }

    fn cell_size(&self, p: u32) -> usize {
        self.rows[p as usize].size()
    }

    fn field(&self, p: u32, i: usize) -> u64 {
        self.rows[p as usize].field(i)
    }

    fn count(&self, k: usize) -> usize {
        if k < SIZES { self.counts[k] } else { 0 }
    }

    fn overwrite(&mut self, p: u32, tag: u32, fields: &[u64]) {
        self.rows[p as usize].rewrite(tag, fields);
    }

    fn release(&mut self, p: u32) {
        let place = p as usize;
        let size = self.rows[place].size();
        self.released[place] = true;
        self.counts[size] -= 1;
    }

    fn has_room(&self) -> bool {
        self.pushed.len() < self.rows.len()
    }

    fn push(&mut self, word: u64) {
        self.pushed.push(word).unwrap();
    }

    fn pop(&mut self) -> Option<u64> {
        self.pushed.pop()
    }
}

/// A store of cells, each by itself, that takes more of them, up to a number of words; a cell of k fields takes k + 1
/// words.
#[derive(Drop)]
pub struct RowLoader {
    alloc: Global,
    rows: Vec<Row>,
    released: Vec<bool>,
    pushed: Vec<u64>,
    counts: [usize; SIZES],
    left: usize,
}

impl Model for RowLoader {
    ghost Value = { Loading };

    ghost view = { λ l. record { cells = map (λ c. Some c) l.rows.items; released = l.released.items; left = l.left } };

    ghost invariant = { λ l. record {
      unreleased : l.released.items ≡ map (λ c. false) l.rows.items;
      small : All (λ c. size_of c ≤ MOST_FIELDS) l.rows.items;
      counted : IsCounted (map (λ c. Some c) l.rows.items) l.released.items l.counts;
      room : number (map (λ c. Some c) l.rows.items) ≤ vec_capacity l.pushed;
      unpushed : l.pushed.items ≡ [];
      few : 2 * vec_len l.rows + l.left ≤ MOST_STORE_WORDS;
    } };
}

impl RowLoader {
    /// A loader of so many words. Takes no memory.
    pub fn new(alloc: Global, words: usize) -> RowLoader
        requires { words ≤ MOST_STORE_WORDS }
        ensures cells { result.cells ≡ [] }
        ensures released { result.released ≡ [] }
        ensures left { result.left ≡ words }
    {
        RowLoader {
            alloc,
            rows: Vec::new(alloc),
            released: Vec::new(alloc),
            pushed: Vec::new(alloc),
            counts: [0; SIZES],
            left: words,
        }
    }

    /// The words that are left for more cells.
    pub fn left(&self) -> usize
        ensures { result ≡ self.now.left }
    {
        self.left
    }

    /// Makes a cell of 1 to 16 fields and answers its place, the number of cells before it. `Full` exactly where fewer
    /// words are left than one more than the fields; `NoMemory` where no memory is left for the cell.
    pub fn cell(&mut self, tag: u32, fields: &[u64]) -> Result<u32, CellError>
        requires some { 0 < length fields.now }
        requires few { length fields.now ≤ MOST_FIELDS }
        ensures place { IfOk result (λ p. p ≡ length self.old.cells) }
        ensures cells { OnOk result (self.new.cells ≡ self.old.cells ++ Some (record { tag = tag; fields = fields.now })
            ∷ []) }
        ensures released { OnOk result (self.new.released ≡ self.old.released ++ false ∷ []) }
        ensures left { OnOk result (self.new.left + (length fields.now + 1) ≡ self.old.left) }
        ensures full { (result ≡ Err CellError.Full) ↔ (self.old.left < length fields.now + 1) }
        ensures same { OnErr result (self.new ≡ self.old) }
    {
        let size = fields.len();
        if self.left < size + 1 {
            return Err(CellError::Full);
        }
        let place = self.rows.len();
        let row = Row::new(self.alloc, tag, fields)?;
        self.pushed.reserve(place + 1)?;
        self.released.reserve(1)?;
        self.rows.reserve(1)?;
        self.rows.push(row).unwrap();
        self.released.push(false).unwrap();
        self.counts[size] += 1;
        self.left -= size + 1;
        Ok(place as u32)
    }
}

/// The store of a loader's cells, none of them released, with no word on its stack. It takes no memory.
pub fn seal_rows(loader: RowLoader) -> RowSealed
    ensures cells { result.cells ≡ loader.cells }
    ensures released { result.released ≡ loader.released }
    ensures pushed { result.pushed ≡ [] }
{
    let counts = loader.counts;
    RowSealed {
        rows: loader.rows,
        released: loader.released,
        pushed: loader.pushed,
        counts,
        left: loader.left,
    }
}
