// How many cells of each size there are.
ghost use Rattle.std.specs.Prelude.{◌≡◌, ◌≢◌, ℕ, suc, ◌+◌, ◌-◌, ◌<◌, ◌≤◌, ◌^◌, slice_index_or, min};
ghost use Rattle.fip_language.specs.declared.limits.TheConstants.{MOST_FIELDS};
ghost use Rattle.value_text.specs.Counting.{closes};

use crate::read::Event;
use fip_language::limits::MOST_FIELDS;

// The sizes of cells, with 0, which no cell has.
const SIZES: usize = MOST_FIELDS + 1;

/// How many cells of each size from 1 to 16: that of size k is number k of the list. Number 0 stays 0.
#[derive(Clone, Copy, PartialEq, Eq)]
pub struct Counts {
    numbers: [usize; SIZES],
}

impl Counts {
    /// None of any size.
    pub fn none() -> Counts
        ensures { (k : ℕ) → slice_index_or result.numbers k 0 ≡ 0 }
    {
        Counts {
            numbers: [0; SIZES],
        }
    }

    /// The number of size `k`; 0 for a size that no cell has.
    pub fn of(&self, k: usize) -> usize
        ensures { result ≡ slice_index_or self.now.numbers k 0 }
    {
        if k < SIZES { self.numbers[k] } else { 0 }
    }

    /// One more of size `k`; nothing for a size that no cell has. At 2^64 - 1 the number stays.
    pub fn add_one(&mut self, k: usize)
        ensures one { 0 < k → k ≤ MOST_FIELDS → slice_index_or self.old.numbers k 0 < 2 ^ 64 - 1 →
            slice_index_or self.new.numbers k 0 ≡ suc (slice_index_or self.old.numbers k 0) }
        ensures others { (i : ℕ) → i ≢ k → slice_index_or self.new.numbers i 0 ≡ slice_index_or self.old.numbers i 0 }
        ensures most { slice_index_or self.old.numbers k 0 ≡ 2 ^ 64 - 1 →
            slice_index_or self.new.numbers k 0 ≡ slice_index_or self.old.numbers k 0 }
        ensures zero { slice_index_or self.new.numbers 0 0 ≡ slice_index_or self.old.numbers 0 0 }
    {
        if 0 < k && k < SIZES {
            self.numbers[k] = self.numbers[k].saturating_add(1);
        }
    }

    /// As many more of each size as the other has, up to 2^64 - 1.
    pub fn add(&mut self, other: &Counts)
        ensures { (k : ℕ) → slice_index_or self.new.numbers k 0 ≡
            min (slice_index_or self.old.numbers k 0 + slice_index_or other.now.numbers k 0) (2 ^ 64 - 1) }
    {
        for k in 0..SIZES {
            self.numbers[k] = self.numbers[k].saturating_add(other.numbers[k]);
        }
    }

    /// One more of the size of the cell that an event closes.
    pub fn add_closed(&mut self, event: Event)
        ensures { ((k : ℕ) → k ≤ MOST_FIELDS → slice_index_or self.old.numbers k 0 < 2 ^ 64 - 1) →
            (k : ℕ) → k ≤ MOST_FIELDS →
            slice_index_or self.new.numbers k 0 ≡ slice_index_or self.old.numbers k 0 + closes k event }
    {
        match event {
            Event::Closed { tag: _, size } => self.add_one(size),
            _ => {}
        }
    }
}
