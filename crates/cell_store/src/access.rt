// What a sealed store answers and does, whatever it keeps the cells in.
ghost use Rattle.std.specs.Prelude.{◌≡◌, ◌≢◌, ℕ, ◌<◌, ◌≤◌, ◌↔◌, Bool, false, true, List, [], ◌∷◌, ◌++◌, length, None};
ghost use Rattle.std.specs.Prelude.{Some, IsTrue, MatchOption, option_map, option_and_then, slice_get, slice_set, ⊤};
ghost use Rattle.fip_language.specs.declared.limits.TheConstants.{MOST_FIELDS};
ghost use Rattle.fip_language.specs.Store.{Cell};
ghost use Rattle.cell_store.specs.Cells.{cell_at, size_in, size_of, sizes, number, count_live};
ghost use Rattle.cell_store.specs.Cells as S;
ghost use Rattle.cell_store.specs.Reported.{Reported, Overwritten, Released};

/// A sealed store: cells by place, which of them are released, and a stack of words beside the cells. No call makes a
/// cell, and a cell keeps its place and its size, from 1 to 16 fields. No call takes memory, and each takes a time that
/// does not grow with the store.
pub trait Cells {
    /// The cells, by place.
    ghost cells: { Self → S.Cells };

    /// Whether the cell at each place is released.
    ghost released: { Self → List Bool };

    /// The stack of words, its top last.
    ghost pushed: { Self → List ℕ };

    /// From an earlier moment to a later one the store was reported just this, in this order. A store that doesn't keep
    /// what it is reported says nothing.
    ghost was_reported: { Self → List Reported → Self → Type 0 } = { λ _ _ _. ⊤ };

    /// Whether a cell, released or not, begins at place `p`.
    fn begins(&self, p: u32) -> bool
        ensures { IsTrue result ↔ (cell_at (cells self.now) p ≢ None) };

    /// Whether the cell at place `p` is released.
    fn is_released(&self, p: u32) -> bool
        requires { cell_at (cells self.now) p ≢ None }
        ensures { slice_get (released self.now) p ≡ Some result };

    /// The number of the constructor of the cell at place `p`.
    fn cell_tag(&self, p: u32) -> u32
        requires { cell_at (cells self.now) p ≢ None }
        ensures { option_map (λ c. c.tag) (cell_at (cells self.now) p) ≡ Some result };

    /// The number of fields of the cell at place `p`.
    fn cell_size(&self, p: u32) -> usize
        requires { cell_at (cells self.now) p ≢ None }
        ensures size { option_map size_of (cell_at (cells self.now) p) ≡ Some result }
        ensures few { result ≤ MOST_FIELDS };

    /// The word of field `i`, from 0, of the cell at place `p`.
    fn field(&self, p: u32, i: usize) -> u64
        requires { i < size_in (cell_at (cells self.now) p) }
        ensures { option_and_then (λ c. slice_get c.fields i) (cell_at (cells self.now) p) ≡ Some result };

    /// The number of cells with `k` fields that are not released.
    fn count(&self, k: usize) -> usize
        ensures { result ≡ count_live k (cells self.now) (released self.now) };

    /// Gives the cell at place `p` this constructor and these words, as many as it has fields.
    fn overwrite(&mut self, p: u32, tag: u32, fields: &[u64])
        requires there { cell_at (cells self.old) p ≢ None }
        requires size { length fields.now ≡ size_in (cell_at (cells self.old) p) }
        ensures cells { cells self.new ≡ slice_set (cells self.old) p
            (Some (record { tag = tag; fields = fields.now })) }
        ensures sizes { sizes (cells self.new) ≡ sizes (cells self.old) }
        ensures released { released self.new ≡ released self.old }
        ensures pushed { pushed self.new ≡ pushed self.old }
        ensures reported { (first : Self) (ts : List Reported) → was_reported first ts self.old → was_reported first
            (ts ++ Overwritten p tag fields.now ∷ []) self.new };

    /// Releases the cell at place `p`, which is not released yet.
    fn release(&mut self, p: u32)
        requires there { cell_at (cells self.old) p ≢ None }
        requires live { slice_get (released self.old) p ≡ Some false }
        ensures cells { cells self.new ≡ cells self.old }
        ensures released { released self.new ≡ slice_set (released self.old) p true }
        ensures pushed { pushed self.new ≡ pushed self.old }
        ensures reported { (first : Self) (ts : List Reported) → was_reported first ts self.old → was_reported first
            (ts ++ Released p ∷ []) self.new };

    /// Whether the stack has fewer words than the store has cells.
    fn has_room(&self) -> bool
        ensures { IsTrue result ↔ (length (pushed self.now) < number (cells self.now)) };

    /// Puts a word on the stack, which has fewer words than the store has cells.
    fn push(&mut self, word: u64)
        requires { length (pushed self.old) < number (cells self.old) }
        ensures cells { cells self.new ≡ cells self.old }
        ensures released { released self.new ≡ released self.old }
        ensures pushed { pushed self.new ≡ pushed self.old ++ word ∷ [] }
        ensures reported { (first : Self) (ts : List Reported) → was_reported first ts self.old → was_reported first ts self.new };

    /// Takes the top word off the stack. `None` where no word is there.
    fn pop(&mut self) -> Option<u64>
        ensures cells { cells self.new ≡ cells self.old }
        ensures released { released self.new ≡ released self.old }
        ensures pushed { MatchOption result ((pushed self.old ≡ []) × (pushed self.new ≡ []))
            (λ word. pushed self.old ≡ pushed self.new ++ word ∷ []) }
        ensures reported { (first : Self) (ts : List Reported) → was_reported first ts self.old → was_reported first ts self.new };
}
