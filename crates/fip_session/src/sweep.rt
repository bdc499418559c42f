// Releases all cells that nothing holds.
ghost use Rattle.std.specs.Prelude.{◌≡◌, ◌↔◌, ◌<◌, ◌≤◌, ◌^◌, ℕ, Some, true, slice_get, slice_set, IfOk, OnOk};
ghost use Rattle.cell_store.specs.Cells.{cell_at};
ghost use Rattle.fip_language.specs.Store.{count};
ghost use Rattle.fip_machine.specs.machine_cells.Small.{store_of};
ghost use Rattle.session_correctness.specs.Called.{IsSwept};
ghost use Rattle.session_correctness.specs.tree_refinement.machine_semantics.Cells.{IsStore};
ghost use Rattle.store_trees.specs.Added.{places_of};
ghost use Rattle.store_trees.specs.GivenUp.{given_up};
ghost use Rattle.fip_session.specs.Swept.{IsMarked};

use cell_store::Sealed;
use fip_base::plain::NoMemory;
use std::alloc::Global;
use store_trees::{Trees, release};

// The length of a list that has each of these roots' places.
fn places_to(kept: &Trees) -> usize
    ensures within { (p : ℕ) → 0 < count p (places_of kept.now.list.items) → p < result }
    ensures few { result ≤ 2 ^ 32 }
{
    let mut length = 0usize;
    for tree in kept.as_slice() {
        length = length.max(tree.place as usize + 1);
    }
    length
}

// Marks a place, where it is within.
fn mark(marks: &mut Vec<bool>, place: u32)
    ensures { marks.new.items ≡ slice_set marks.old.items place true }
{
    let place = place as usize;
    if place >= marks.len() {
        return;
    }
    marks[place] = true;
}

// For each place up to the greatest root's, whether it is a root of these trees.
fn marks_of(alloc: Global, kept: &Trees) -> Result<Vec<bool>, NoMemory>
    ensures marks { IfOk result (λ m. IsMarked kept.now.list.items m.items) }
{
    let mut marks = Vec::from_elem(alloc, false, places_to(kept))?;
    for tree in kept.as_slice() {
        mark(&mut marks, tree.place);
    }
    Ok(marks)
}

// Whether a place is marked.
fn is_marked(marks: &[bool], place: u32) -> bool
    ensures { result ≡ true ↔ (slice_get marks.now place ≡ Some true) }
{
    marks.get(place as usize).copied() == Some(true)
}

// Releases the cell at a place, where it isn't marked.
fn release_unmarked(cells: &mut Sealed, marks: &[bool], place: u32)
    ensures cells { cells.new.cells ≡ cells.old.cells }
    ensures marked { slice_get marks.now place ≡ Some true → cells.new.released ≡ cells.old.released }
    ensures unmarked { (slice_get marks.now place ≡ Some true → ⊥) →
        cells.new.released ≡ given_up (cell_at cells.old.cells place) place cells.old.released }
{
    if is_marked(marks, place) {
        return;
    }
    release(cells, place);
}

/// Releases all cells of a store but the roots of these trees. It takes a time that grows with the store.
pub fn keep_only(alloc: Global, cells: &mut Sealed, kept: &Trees) -> Result<(), NoMemory>
    ensures cells { cells.new.cells ≡ cells.old.cells }
    ensures swept { IsStore (store_of cells.old.cells cells.old.released) → OnOk result
        (IsSwept (λ q. count q (places_of kept.now.list.items)) (store_of cells.old.cells cells.old.released)
        (store_of cells.new.cells cells.new.released)) }
{
    let marks = marks_of(alloc, kept)?;
    let mut at = cells.after(None);
    while let Some(place) = at {
        release_unmarked(cells, marks.as_slice(), place);
        at = cells.after(Some(place));
    }
    Ok(())
}
