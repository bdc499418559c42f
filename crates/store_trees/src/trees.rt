// The cells of the trees that words stand for.
ghost use Rattle.std.specs.Prelude.{◌≡◌, ◌<◌, ◌≤◌, ◌+◌, ◌++◌, ◌^◌, ℕ, List, [], true, false, Some, IfOk, OnOk};
ghost use Rattle.std.specs.Prelude.{length, map, slice_get};
ghost use Rattle.fip_base.specs.fip_language.Store.{Cell, Placed, places, word_of};
ghost use Rattle.fip_base.specs.fip_language.Table.{Shape, Table, constructors};
ghost use Rattle.cell_store.specs.Cells.{cell_at};
ghost use Rattle.value_text.specs.Standing.{Stands};
ghost use Rattle.store_trees.specs.GivenUp.{given_up, all_given_up};
ghost use Rattle.store_trees.specs.Added.{root_of, Adds};
ghost use Rattle.store_trees.specs.Walked.{with_root, roots_of, Ahead, IsAhead, root, AreAhead, AddsAll, cells_ahead};

use cell_store::{Cells, Sealed};
use fip_base::plain::NoMemory;
use fip_base::table::TypeTable;
use std::alloc::Global;

/// The most cells that a store has: each takes two words at least.
pub const MOST_CELLS: usize = 8_388_608;

/// A tree that has a cell: its type, and its root's place.
#[derive(Clone, Copy, PartialEq, Eq)]
pub struct Tree {
    pub ty: u32,
    pub place: u32,
}

impl Tree {
    /// The tree of a word of a type; none where it has no cell.
    pub fn of<C: Cells>(cells: &C, ty: u32, word: u64) -> Option<Tree>
        // The clause speaks of stores of at most 2^32 places, and of words that stand for a tree of the type.
        ensures { length (C.cells cells.now) ≤ 2 ^ 32 → (tb : Table) (x : Placed) → Stands tb (C.cells cells.now) ty x →
            word_of x ≡ word → result ≡ root_of ty x }
    {
        if ty == 0 {
            return None;
        }
        if word % 2 == 0 {
            return None;
        }
        if word / 2 > u64::from(u32::MAX) {
            return None;
        }
        let place = (word / 2) as u32;
        if cells.begins(place) {
            Some(Tree { ty, place })
        } else {
            None
        }
    }
}

// The types of a constructor's fields; none where there is no such constructor.
fn fields_of(table: &TypeTable, ty: u32, constructor: u32) -> &[u32]
    ensures { (s : Shape) → slice_get (constructors table.now ty) constructor ≡ Some s → result.now ≡ s.fields }
{
    if ty as usize > table.len() {
        return &[];
    }
    let constructors = table.constructors_of(ty);
    if (constructor as usize) < constructors.len() {
        constructors[constructor as usize].fields()
    } else {
        &[]
    }
}

// The word of field `i` of the cell at a place; none past its last field.
fn field_of<C: Cells>(cells: &C, place: u32, i: usize) -> Option<u64>
    ensures { (c : Cell) → cell_at (C.cells cells.now) place ≡ Some c → i < length c.fields →
        result ≡ slice_get c.fields i }
{
    if cells.begins(place) && i < cells.cell_size(place) {
        Some(cells.field(place, i))
    } else {
        None
    }
}

// The number of the constructor of the cell at a place.
fn tag_of<C: Cells>(cells: &C, place: u32) -> u32
    ensures { (c : Cell) → cell_at (C.cells cells.now) place ≡ Some c → result ≡ c.tag }
{
    if cells.begins(place) {
        cells.cell_tag(place)
    } else {
        0
    }
}

// The tree at a place of a list.
fn tree_at(list: &[Tree], i: usize) -> Option<Tree>
    ensures { result ≡ slice_get list.now i }
{
    list.get(i).copied()
}

/// Some trees of a store, those of a cell's fields after the cell's own.
#[derive(Drop)]
pub struct Trees {
    list: Vec<Tree>,
}

impl Trees {
    /// No tree.
    pub fn none(alloc: Global) -> Trees
        ensures empty { result.list.items ≡ [] }
    {
        Trees {
            list: Vec::new(alloc),
        }
    }

    /// How many trees they are: one for each cell.
    pub fn len(&self) -> usize
        ensures count { result ≡ length self.now.list.items }
    {
        self.list.len()
    }

    /// The roots.
    pub fn as_slice(&self) -> &[Tree]
        ensures same { result.now ≡ self.now.list.items }
    {
        self.list.as_slice()
    }

    // The tree of the word of a field, where it has a cell.
    fn add_field<C: Cells>(&mut self, cells: &C, ty: u32, word: Option<u64>) -> Result<(), NoMemory>
        ensures { length (C.cells cells.now) ≤ 2 ^ 32 → (tb : Table) (x : Placed) → Stands tb (C.cells cells.now) ty x →
            word ≡ Some (word_of x) → OnOk result (self.new.list.items ≡ with_root self.old.list.items (root_of ty x)) }
    {
        let Some(word) = word else {
            return Ok(());
        };
        let Some(part) = Tree::of(cells, ty, word) else {
            return Ok(());
        };
        self.list.push(part)?;
        Ok(())
    }

    // The trees of a cell's fields.
    fn add_fields<C: Cells>(
        &mut self,
        table: &TypeTable,
        cells: &C,
        tree: Tree,
    ) -> Result<(), NoMemory>
        ensures { length (C.cells cells.now) ≤ 2 ^ 32 → (a : Ahead) → IsAhead table.now (C.cells cells.now) a →
            root a ≡ tree → OnOk result (self.new.list.items ≡ self.old.list.items ++ roots_of a.fields a.parts) }
    {
        let types = fields_of(table, tree.ty, tag_of(cells, tree.place));
        for (i, ty) in types.iter().enumerate() {
            self.add_field(cells, *ty, field_of(cells, tree.place, i))?;
        }
        Ok(())
    }

    // Adds the trees below those from a place on, and answers whether these are all: it goes on past no more than so
    // many trees in all.
    fn add_below<C: Cells>(
        &mut self,
        table: &TypeTable,
        cells: &C,
        start: usize,
        most: usize,
    ) -> Result<bool, NoMemory>
        ensures all { length (C.cells cells.now) ≤ 2 ^ 32 → (front : List Tree) (ahead : List Ahead) →
            AreAhead table.now (C.cells cells.now) front ahead start self.old.list.items →
            IfOk result (λ whole. whole ≡ true → AddsAll front self.new.list.items ahead) }
        ensures many { length (C.cells cells.now) ≤ 2 ^ 32 → (front : List Tree) (ahead : List Ahead) →
            AreAhead table.now (C.cells cells.now) front ahead start self.old.list.items →
            IfOk result (λ whole. whole ≡ false → most < start + cells_ahead ahead) }
    {
        for next in start..most {
            let Some(tree) = tree_at(self.list.as_slice(), next) else {
                return Ok(true);
            };
            self.add_fields(table, cells, tree)?;
        }
        Ok(self.list.len() <= most.max(start))
    }

    /// Adds a tree for each cell that the word of a type uses, and answers whether these are all: it goes on past no
    /// more than so many trees in all.
    pub fn add<C: Cells>(
        &mut self,
        table: &TypeTable,
        cells: &C,
        ty: u32,
        word: u64,
        most: usize,
    ) -> Result<bool, NoMemory>
        // The clauses speak of stores of at most 2^32 places, and of words that stand for a tree of the type.
        ensures all { length (C.cells cells.now) ≤ 2 ^ 32 → (x : Placed) → Stands table.now (C.cells cells.now) ty x →
            word_of x ≡ word → IfOk result (λ whole. whole ≡ true → Adds self.old.list.items self.new.list.items x) }
        ensures many { length (C.cells cells.now) ≤ 2 ^ 32 → (x : Placed) → Stands table.now (C.cells cells.now) ty x →
            word_of x ≡ word →
            IfOk result (λ whole. whole ≡ false → most < length self.old.list.items + length (places x)) }
    {
        let Some(root) = Tree::of(cells, ty, word) else {
            return Ok(true);
        };
        let start = self.list.len();
        self.list.push(root)?;
        self.add_below(table, cells, start, most)
    }

    /// Releases the cells of their roots, but those that are released.
    pub fn release(&self, cells: &mut Sealed)
        ensures cells { cells.new.cells ≡ cells.old.cells }
        ensures released { cells.new.released
            ≡ all_given_up cells.old.cells (map (λ t. t.place) self.now.list.items) cells.old.released }
        ensures pushed { cells.new.pushed ≡ cells.old.pushed }
    {
        for tree in &self.list {
            release(cells, tree.place);
        }
    }
}

/// Releases the cell at a place, where one begins there that isn't released.
pub fn release(cells: &mut Sealed, place: u32)
    ensures cells { cells.new.cells ≡ cells.old.cells }
    ensures released { cells.new.released ≡ given_up (cell_at cells.old.cells place) place cells.old.released }
    ensures pushed { cells.new.pushed ≡ cells.old.pushed }
{
    if cells.begins(place) && !cells.is_released(place) {
        cells.release(place);
    }
}
