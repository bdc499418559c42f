// The gauge of a run.
ghost use Rattle.fip_language.specs.declared.limits.TheConstants.{MOST_FIELDS};
ghost use Rattle.std.specs.Prelude.{◌≡◌, ℕ, ◌+◌, ◌-◌, ◌<◌, ◌≤◌, Bool, true, false, max, slice_index_or};
ghost use Rattle.cell_store.specs.Cells.{count_live};
ghost use Rattle.fip_machine.specs.GaugeView.{lowered};

use cell_store::Cells;
use machine_cells::SIZES;

/// The lowest and the highest number of held cells of each size, and the most frames and words, over the states that
/// were seen. All are 0 before a state was seen.
#[derive(Clone, Copy, PartialEq, Eq)]
pub struct Gauge {
    seen: bool,
    lowest: [u64; SIZES],
    highest: [u64; SIZES],
    frames: usize,
    words: usize,
}

impl Gauge {
    /// A gauge that has seen no state.
    pub fn new() -> Gauge
        ensures unseen { result.seen ≡ false }
        ensures lowest { (k : ℕ) → slice_index_or result.lowest k 0 ≡ 0 }
        ensures highest { (k : ℕ) → slice_index_or result.highest k 0 ≡ 0 }
        ensures frames { result.frames ≡ 0 }
        ensures words { result.words ≡ 0 }
    {
        Gauge {
            seen: false,
            lowest: [0; SIZES],
            highest: [0; SIZES],
            frames: 0,
            words: 0,
        }
    }

    /// The lowest number of held cells of size `k`, from 1 to 16.
    pub fn lowest(&self, k: usize) -> u64
        requires some { 1 ≤ k }
        requires few { k ≤ MOST_FIELDS }
        ensures lowest { result ≡ slice_index_or self.now.lowest (k - 1) 0 }
    {
        self.lowest[k - 1]
    }

    /// The highest number of held cells of size `k`, from 1 to 16.
    pub fn highest(&self, k: usize) -> u64
        requires some { 1 ≤ k }
        requires few { k ≤ MOST_FIELDS }
        ensures highest { result ≡ slice_index_or self.now.highest (k - 1) 0 }
    {
        self.highest[k - 1]
    }

    /// The most frames beside the running one.
    pub fn frames(&self) -> usize
        ensures frames { result ≡ self.now.frames }
    {
        self.frames
    }

    /// The most words of all frames.
    pub fn words(&self) -> usize
        ensures words { result ≡ self.now.words }
    {
        self.words
    }

    /// Takes in a state: the numbers of held cells of the sizes from 1 to 16, the frames beside the running one, and
    /// the words of all frames.
    pub fn see(&mut self, held: &[u64; SIZES], frames: usize, words: usize)
        ensures lowest { (k : ℕ) → k < MOST_FIELDS → slice_index_or self.new.lowest k 0 ≡ lowered self.old.seen
            (slice_index_or self.old.lowest k 0) (slice_index_or held.now k 0) }
        ensures highest { (k : ℕ) → k < MOST_FIELDS → slice_index_or self.new.highest k 0 ≡ max
            (slice_index_or self.old.highest k 0) (slice_index_or held.now k 0) }
        ensures frames { self.new.frames ≡ max self.old.frames frames }
        ensures words { self.new.words ≡ max self.old.words words }
        ensures seen { self.new.seen ≡ true }
    {
        lower_all(self.seen, &mut self.lowest, held);
        raise_all(&mut self.highest, held);
        self.frames = self.frames.max(frames);
        self.words = self.words.max(words);
        self.seen = true;
    }
}

fn lower(seen: bool, old: u64, new: u64) -> u64
    ensures number { result ≡ lowered seen old new }
{
    if seen { old.min(new) } else { new }
}

// Takes the lowest number of each size.
fn lower_all(seen: bool, lowest: &mut [u64; SIZES], held: &[u64; SIZES])
    ensures lowered { (k : ℕ) → k < MOST_FIELDS → slice_index_or lowest.new k 0 ≡ lowered seen
        (slice_index_or lowest.old k 0) (slice_index_or held.now k 0) }
{
    for k in 0..SIZES {
        lowest[k] = lower(seen, lowest[k], held[k]);
    }
}

// Takes the highest number of each size.
fn raise_all(highest: &mut [u64; SIZES], held: &[u64; SIZES])
    ensures raised { (k : ℕ) → k < MOST_FIELDS → slice_index_or highest.new k 0 ≡ max
        (slice_index_or highest.old k 0) (slice_index_or held.now k 0) }
{
    for k in 0..SIZES {
        highest[k] = highest[k].max(held[k]);
    }
}

/// The numbers of cells of the sizes from 1 to 16 that are not released.
pub fn held<C: Cells>(cells: &C) -> [u64; SIZES]
    ensures counts { (k : ℕ) → k < MOST_FIELDS → slice_index_or result k 0 ≡ count_live (k + 1) (C.cells cells.now)
        (C.released cells.now) }
{
    let mut held = [0; SIZES];
    for k in 0..SIZES {
        held[k] = cells.count(k + 1) as u64;
    }
    held
}
