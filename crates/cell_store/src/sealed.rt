// A sealed store in flat words.
ghost use Rattle.std.specs.Prelude.{◌≡◌, ◌≢◌, ℕ, ◌<◌, Some, None, IfSome, IfNone, slice_get};
ghost use Rattle.cell_store.specs.Cells.{IsAfter, cell_at};
ghost use Rattle.cell_store.specs.Made.{Stored};

use crate::access::Cells;
use crate::flat::Flat;
use crate::loader::Loader;
use std::marker::Model;

/// A store whose cells are all made.
#[derive(Drop)]
pub struct Sealed {
    flat: Flat,
}

impl Model for Sealed {
    ghost Value = { Stored };

    ghost view = { λ s. s.flat };
}

impl Sealed {
    /// The sealed store in these words.
    pub(crate) fn of(flat: Flat) -> Sealed
        ensures { result ≡ flat }
    {
        Sealed { flat }
    }

    /// The loader of these cells, with the same released ones and the same words left; what was pushed is gone. It
    /// takes no memory.
    pub fn reopen(self) -> Loader
        ensures cells { result.cells ≡ self.cells }
        ensures released { result.released ≡ self.released }
        ensures left { result.left ≡ self.left }
    {
        let mut flat = self.flat;
        flat.clear();
        Loader::of(flat)
    }

    /// Whether the cell at place `p` is released.
    pub fn released(&self, p: u32) -> bool
        requires { cell_at self.now.cells p ≢ None }
        ensures { slice_get self.now.released p ≡ Some result }
    {
        self.flat.is_released(p)
    }

    /// The place of the next cell after the one at `p`, or of the first cell; none where no further one is there.
    pub fn after(&self, p: Option<u32>) -> Option<u32>
        requires { (q : ℕ) → p ≡ Some q → cell_at self.now.cells q ≢ None }
        ensures there { IfSome result (λ q. cell_at self.now.cells q ≢ None) }
        ensures following { IfSome result (IsAfter p) }
        ensures first { IfSome result (λ q. (r : ℕ) → IsAfter p r → r < q → cell_at self.now.cells r ≡ None) }
        ensures none { IfNone result ((r : ℕ) → IsAfter p r → cell_at self.now.cells r ≡ None) }
    {
        self.flat.after(p)
    }
}

impl Cells for Sealed {
    ghost cells = { λ s. s.cells };

    ghost released = { λ s. s.released };

    ghost pushed = { λ s. s.pushed };

    #[inline(always)]
    fn begins(&self, p: u32) -> bool {
        self.flat.begins(p)
    }

    #[inline(always)]
    fn is_released(&self, p: u32) -> bool {
        self.flat.is_released(p)
    }

    #[inline(always)]
    fn cell_tag(&self, p: u32) -> u32 {
        self.flat.cell_tag(p)
    }

    #[inline(always)]
    fn cell_size(&self, p: u32) -> usize {
        self.flat.cell_size(p)
    }

    #[inline(always)]
    fn field(&self, p: u32, i: usize) -> u64 {
        self.flat.field(p, i)
    }

    #[inline(always)]
    fn count(&self, k: usize) -> usize {
        self.flat.count(k)
    }

    #[inline(always)]
    fn overwrite(&mut self, p: u32, tag: u32, fields: &[u64]) {
        self.flat.overwrite(p, tag, fields);
    }

    fn release(&mut self, p: u32) {
        self.flat.release(p);
    }

    #[inline(always)]
    fn has_room(&self) -> bool {
        self.flat.has_room()
    }

    #[inline(always)]
    fn push(&mut self, word: u64) {
        self.flat.push(word);
    }

    #[inline(always)]
    fn pop(&mut self) -> Option<u64> {
        self.flat.pop()
    }
}
