// Releasing cells: one, or those of a whole tree.
ghost use Rattle.std.specs.Prelude.{◌≡◌, ◌≢◌, ℕ, ◌+◌, ◌*◌, ◌/◌, ◌<◌, ◌≤◌, false, List, [], ◌∷◌, ◌++◌, None, Some};
ghost use Rattle.std.specs.Prelude.{length, map, slice_get};
ghost use Rattle.fip_language.specs.declared.limits.TheConstants.{MOST_FIELDS};
ghost use Rattle.fip_language.specs.Table.{Shape, constructors};
ghost use Rattle.fip_language.specs.Store.{Cell, Placed, places};
ghost use Rattle.cell_store.specs.Cells.{cell_at, size_in, number};
ghost use Rattle.cell_store.specs.Reported.{Reported, Released};
ghost use Rattle.machine_semantics.specs.Cells.{Store, Release, changed, changed_by};
ghost use Rattle.machine_semantics.specs.Trees.{tree_of};
ghost use Rattle.machine_cells.specs.Live.{work};
ghost use Rattle.machine_cells.specs.Counting.{CountsReleased, CountsOne};
ghost use Rattle.machine_cells.specs.Small.{IsSmall, store_of};
ghost use Rattle.machine_cells.specs.Pending.{entry, entries, field_entry, Held, HeldBut};

use crate::named::{live_cell_at, place_of};
use cell_store::Cells;
use fip_base::table::TypeTable;
use fip_language::limits::MOST_FIELDS;

/// The sizes of cells.
pub const SIZES: usize = MOST_FIELDS;

// The word that stands for a tree that is still to be released, on the store's stack, which has room for one word a
// cell: its type and its root's place; none where it has no cell.
#[inline(always)]
fn entry_of(ty: u32, word: u64) -> Option<u64>
    ensures { result ≡ entry ty word }
{
    if ty == 0 || word % 2 == 0 {
        return None;
    }
    Some(u64::from(ty) * 4_294_967_296 + word / 2 % 4_294_967_296)
}

// The types of a constructor's fields; none where there is no such constructor.
fn fields_of(types: &TypeTable, ty: u32, constructor: u32) -> &[u32]
    ensures fields { (k : Shape) → slice_get (constructors types.now ty) constructor ≡ Some k → result.now ≡ k.fields }
{
    if ty as usize <= types.len() && (constructor as usize) < types.constructors_of(ty).len() {
        types.fields_of(ty, constructor)
    } else {
        &[]
    }
}

// Counts one more cell of a size.
fn count_one(freed: &mut [usize; SIZES], size: usize)
    ensures one { CountsOne freed.old size freed.new }
{
    if 1 <= size && size <= SIZES {
        freed[size - 1] = freed[size - 1].saturating_add(1);
    }
}

/// Releases the cell that a word names.
#[inline(never)]
pub fn release_cell<C: Cells>(cells: &mut C, freed: &mut [usize; SIZES], word: u64)
    ensures released { IsSmall (C.cells cells.old) → (s : Store) → changed (Release (word / 2)) (store_of (C.cells
        cells.old) (C.released cells.old)) ≡ Some s → store_of (C.cells cells.new) (C.released cells.new) ≡ s }
    ensures cells { C.cells cells.new ≡ C.cells cells.old }
    ensures pushed { C.pushed cells.new ≡ C.pushed cells.old }
    ensures counted { CountsReleased (C.cells cells.old) (C.released cells.old) freed.old (C.cells cells.new)
        (C.released cells.new) freed.new }
    ensures reported { IsSmall (C.cells cells.old) → (s : Store) → changed (Release (word / 2)) (store_of (C.cells
        cells.old) (C.released cells.old)) ≡ Some s → (first : C) (ts : List Reported) → C.was_reported first ts cells.old →
        C.was_reported first (ts ++ Released (word / 2) ∷ []) cells.new }
{
    if let Some(place) = live_cell_at(cells, place_of(word)) {
        count_one(freed, cells.cell_size(place));
        cells.release(place);
    }
}

// Puts the tree of a field on the stack.
#[inline(always)]
fn push_field<C: Cells>(cells: &mut C, place: u32, types: &[u32], i: usize)
    requires field { i < size_in (cell_at (C.cells cells.old) place) }
    ensures cells { C.cells cells.new ≡ C.cells cells.old }
    ensures released { C.released cells.new ≡ C.released cells.old }
    ensures few { length (C.pushed cells.new) ≤ length (C.pushed cells.old) + 1 }
    ensures pushed { (c : Cell) → cell_at (C.cells cells.old) place ≡ Some c → i < length types.now →
        length (C.pushed cells.old) + length (field_entry types.now c.fields i) ≤ number (C.cells cells.old) →
        C.pushed cells.new ≡ C.pushed cells.old ++ field_entry types.now c.fields i }
    ensures reported { (first : C) (ts : List Reported) → C.was_reported first ts cells.old → C.was_reported first ts cells.new }
{
    if i < types.len()
        && let Some(entry) = entry_of(types[i], cells.field(place, i))
        && cells.has_room()
    {
        cells.push(entry);
    }
}

// Puts the trees of a cell's fields on the stack, the first one on top.
fn push_fields<C: Cells>(cells: &mut C, place: u32, types: &[u32])
    requires there { cell_at (C.cells cells.old) place ≢ None }
    ensures cells { C.cells cells.new ≡ C.cells cells.old }
    ensures released { C.released cells.new ≡ C.released cells.old }
    ensures few { length (C.pushed cells.new) ≤ length (C.pushed cells.old) + MOST_FIELDS }
    ensures pushed { (c : Cell) → cell_at (C.cells cells.old) place ≡ Some c → length types.now ≡ length c.fields →
        length (C.pushed cells.old) + length (entries types.now c.fields) ≤ number (C.cells cells.old) →
        C.pushed cells.new ≡ C.pushed cells.old ++ entries types.now c.fields }
    ensures reported { (first : C) (ts : List Reported) → C.was_reported first ts cells.old → C.was_reported first ts cells.new }
{
    let size = cells.cell_size(place);
    for i in (0..size).rev() {
        push_field(cells, place, types, i);
    }
}

// Releases a tree's root, and puts the trees of its fields on the stack.
fn release_root<C: Cells>(types: &TypeTable, cells: &mut C, freed: &mut [usize; SIZES], entry: u64)
    ensures less { work (C.cells cells.new) (C.released cells.new) (C.pushed cells.new) ≤ work (C.cells cells.old)
        (C.released cells.old) (C.pushed cells.old) }
    ensures cells { C.cells cells.new ≡ C.cells cells.old }
    ensures counted { CountsReleased (C.cells cells.old) (C.released cells.old) freed.old (C.cells cells.new)
        (C.released cells.new) freed.new }
    ensures released { IsSmall (C.cells cells.old) → (first last : Store) (p : ℕ) (ps : List ℕ) → HeldBut types.now
        first (store_of (C.cells cells.old) (C.released cells.old)) last (C.pushed cells.old) entry p ps → Held
        types.now first (store_of (C.cells cells.new) (C.released cells.new)) last (C.pushed cells.new) ps }
    ensures reported { IsSmall (C.cells cells.old) → (first last : Store) (p : ℕ) (ps : List ℕ) → HeldBut types.now
        first (store_of (C.cells cells.old) (C.released cells.old)) last (C.pushed cells.old) entry p ps →
        (origin : C) (ts : List Reported) → C.was_reported origin ts cells.old → C.was_reported origin
        (ts ++ Released p ∷ []) cells.new }
{
    let ty = (entry / 4_294_967_296) as u32;
    if let Some(place) = live_cell_at(cells, (entry % 4_294_967_296) as u32) {
        count_one(freed, cells.cell_size(place));
        cells.release(place);
        push_fields(cells, place, fields_of(types, ty, cells.cell_tag(place)));
    }
}

/// Releases all cells of the tree that a word of this type stands for: the root first, then those of its fields from
/// left to right, each field's whole tree before the next.
pub fn release_tree<C: Cells>(
    types: &TypeTable,
    cells: &mut C,
    freed: &mut [usize; SIZES],
    ty: u32,
    word: u64,
)
    ensures released { IsSmall (C.cells cells.old) → C.pushed cells.old ≡ [] → (x : Placed) (s : Store) →
        tree_of types.now (store_of (C.cells cells.old) (C.released cells.old)) ty word ≡ Some x →
        changed_by (map (λ p. Release p) (places x)) (store_of (C.cells cells.old) (C.released cells.old)) ≡ Some s →
        store_of (C.cells cells.new) (C.released cells.new) ≡ s }
    ensures cells { C.cells cells.new ≡ C.cells cells.old }
    ensures pushed { C.pushed cells.old ≡ [] → C.pushed cells.new ≡ [] }
    ensures counted { CountsReleased (C.cells cells.old) (C.released cells.old) freed.old (C.cells cells.new)
        (C.released cells.new) freed.new }
    ensures reported { IsSmall (C.cells cells.old) → C.pushed cells.old ≡ [] → (x : Placed) (s : Store) →
        tree_of types.now (store_of (C.cells cells.old) (C.released cells.old)) ty word ≡ Some x →
        changed_by (map (λ p. Release p) (places x)) (store_of (C.cells cells.old) (C.released cells.old)) ≡ Some s →
        (first : C) (ts : List Reported) → C.was_reported first ts cells.old → C.was_reported first
        (ts ++ map (λ p. Released p) (places x)) cells.new }
{
    if let Some(root) = entry_of(ty, word) {
        release_root(types, cells, freed, root);
        while let Some(next) = cells.pop() {
            release_root(types, cells, freed, next);
        }
    }
}
