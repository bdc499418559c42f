// The cells that words name. In a run of verified code each word names the cell that its register should. A caller that
// knows it says so by `SURE`, and nothing is tested; for others each thing that is required of a cell is tested, and
// where a test failed, the instruction would do nothing.
ghost use Rattle.std.specs.Prelude.{◌≡◌, ◌≢◌, ℕ, ◌/◌, ◌<◌, ◌≤◌, true, false, None, Some, IfSome, IsTrue, slice_get};
ghost use Rattle.cell_store.specs.Cells.{cell_at, size_in};
ghost use Rattle.machine_cells.specs.Small.{IsSmall};

use cell_store::Cells;

/// The place that a word names. A place has at most 24 bits.
#[inline(always)]
pub fn place_of(word: u64) -> u32
    ensures { word / 2 < 4294967296 → result ≡ word / 2 }
{
    (word / 2 % 4_294_967_296) as u32
}

/// The place of the cell that a word names, where a cell begins there.
#[inline(always)]
pub fn cell_of<C: Cells, const SURE: bool>(cells: &C, word: u64) -> Option<u32>
    requires sure { SURE ≡ true → IsSmall (C.cells cells.now) × (cell_at (C.cells cells.now) (word / 2) ≢ None) }
    ensures there { IfSome result (λ p. cell_at (C.cells cells.now) p ≢ None) }
    ensures found { IsSmall (C.cells cells.now) → cell_at (C.cells cells.now) (word / 2) ≢ None →
        result ≡ Some (word / 2) }
{
    let place = place_of(word);
    if SURE {
        return Some(place);
    }
    if cells.begins(place) {
        Some(place)
    } else {
        None
    }
}

/// Whether the cell at the place has so many fields.
#[inline(always)]
pub fn has_size<C: Cells, const SURE: bool>(cells: &C, place: u32, size: usize) -> bool
    requires there { cell_at (C.cells cells.now) place ≢ None }
    requires sure { SURE ≡ true → 0 < size → size_in (cell_at (C.cells cells.now) place) ≡ size }
    ensures size { IsTrue result → size_in (cell_at (C.cells cells.now) place) ≡ size }
    ensures found { size_in (cell_at (C.cells cells.now) place) ≡ size → IsTrue result }
{
    SURE && size > 0 || cells.cell_size(place) == size
}

/// The place of the cell that a word names, where it has so many fields.
#[inline(always)]
pub fn sized_cell_of<C: Cells, const SURE: bool>(cells: &C, word: u64, size: usize) -> Option<u32>
    requires sure { SURE ≡ true → IsSmall (C.cells cells.now) × (cell_at (C.cells cells.now) (word / 2) ≢ None)
        × (size_in (cell_at (C.cells cells.now) (word / 2)) ≡ size) }
    ensures there { IfSome result (λ p. cell_at (C.cells cells.now) p ≢ None) }
    ensures size { IfSome result (λ p. size_in (cell_at (C.cells cells.now) p) ≡ size) }
    ensures found { IsSmall (C.cells cells.now) → cell_at (C.cells cells.now) (word / 2) ≢ None →
        size_in (cell_at (C.cells cells.now) (word / 2)) ≡ size → result ≡ Some (word / 2) }
{
    if SURE {
        return Some(place_of(word));
    }
    let place = cell_of::<C, false>(cells, word)?;
    if has_size::<C, false>(cells, place, size) {
        Some(place)
    } else {
        None
    }
}

/// The place of the cell that a word names, where it has a field of this number.
#[inline(always)]
pub fn field_cell_of<C: Cells, const SURE: bool>(cells: &C, word: u64, field: usize) -> Option<u32>
    requires sure { SURE ≡ true → IsSmall (C.cells cells.now) × (field < size_in (cell_at (C.cells cells.now)
        (word / 2))) }
    ensures field { IfSome result (λ p. field < size_in (cell_at (C.cells cells.now) p)) }
    ensures found { IsSmall (C.cells cells.now) → field < size_in (cell_at (C.cells cells.now) (word / 2)) →
        result ≡ Some (word / 2) }
{
    if SURE {
        return Some(place_of(word));
    }
    let place = cell_of::<C, false>(cells, word)?;
    if field < cells.cell_size(place) {
        Some(place)
    } else {
        None
    }
}

/// The place, where a cell begins there that isn't released.
#[inline(always)]
pub fn live_cell_at<C: Cells>(cells: &C, place: u32) -> Option<u32>
    ensures there { IfSome result (λ p. cell_at (C.cells cells.now) p ≢ None) }
    ensures live { IfSome result (λ p. slice_get (C.released cells.now) p ≡ Some false) }
    ensures same { IfSome result (λ p. p ≡ place) }
    ensures found { cell_at (C.cells cells.now) place ≢ None → slice_get (C.released cells.now) place ≡ Some false →
        result ≡ Some place }
{
    if cells.begins(place) && !cells.is_released(place) {
        Some(place)
    } else {
        None
    }
}
