// The rows of what words stand for in a store of cells. What is still to be made is a list, so that no value is too
// deep for the program's own stack.
ghost use Rattle.std.specs.Prelude.{◌≡◌, ◌≢◌, ℕ, ◌+◌, ◌-◌, ◌*◌, ◌<◌, ◌≤◌, ◌^◌, List, [], ◌∷◌, ◌++◌, length, Some, None};
ghost use Rattle.std.specs.Prelude.{IfOk, OnOk, IfSome, IfNone, FitsSigned, slice_get, vec_len};
ghost use Rattle.std.specs.Int.{w64};
ghost use Rattle.std.specs.Borrow.{Bor};
ghost use Rattle.fip_base.specs.fip_language.Values.{Value as Tree};
ghost use Rattle.fip_base.specs.fip_language.Table.{Table, constructors};
ghost use Rattle.fip_base.specs.fip_language.Store.{Cell, Placed, Parts, int_word, value_of, values_of, word_of, words_of};
ghost use Rattle.cell_store.specs.Cells.{cell_at};
ghost use Rattle.value_text.specs.Loaded.{types_of};
ghost use Rattle.value_text.specs.Standing.{Stands as CellStands, StandAll as CellsStand};
ghost use Rattle.plain_rows.specs.Rows.{AreRows};
ghost use Rattle.plain_rows.specs.Loading.{Loads, last_first, made_so_far};

use crate::store::{Store, Value};
use cell_store::{Cells, Sealed};
use fip_base::plain::{NoMemory, Param};
use fip_base::table::{Constructor, TypeTable};
use std::alloc::Global;

/// Values, and the rows that they name.
#[derive(Drop)]
pub struct Rows {
    pub store: Store,
    pub values: Vec<Value>,
}

/// What is still to be made.
#[derive(Clone, Copy)]
pub enum Task<'a> {
    // the value of a type that a word stands for
    Whole(u32, u64),
    // the last fields of the cell at a place, of these types, and then its value
    Fields(&'a [u32], u32),
}

// The int of these 64 bits.
#[inline(always)]
fn int_of_bits(word: u64) -> i64
    ensures bits { int_word result ≡ word }
    ensures fits { FitsSigned w64 result }
{
    if word <= 9223372036854775807 {
        word as i64
    } else {
        -((u64::MAX - word) as i64) - 1
    }
}

/// The constructor of this number, where the type has one.
pub fn constructor_at(table: &TypeTable, ty: u32, tag: u64) -> Option<&Constructor>
    ensures some { IfSome result (λ r. slice_get (constructors table.now ty) tag ≡ Some r.now) }
    ensures none { IfNone result (slice_get (constructors table.now ty) tag ≡ None) }
{
    if ty as usize > table.len() {
        return None;
    }
    let constructors = table.constructors_of(ty);
    if tag < constructors.len() as u64 {
        Some(&constructors[tag as usize])
    } else {
        None
    }
}

/// The first of these types, and the others.
pub fn split(types: &[u32]) -> Option<(u32, &[u32])>
    ensures some { IfSome result (λ r. types.now ≡ r.0 ∷ r.1.now) }
    ensures none { IfNone result (types.now ≡ []) }
{
    match types.split_first() {
        Some((k, ks)) => Some((*k, ks)),
        None => None,
    }
}

// The word of the first of the last `left` fields of a cell.
fn field_from_end(cells: &Sealed, place: u32, left: usize) -> Option<u64>
    requires { cell_at cells.now.cells place ≢ None }
    ensures { (c : Cell) → cell_at cells.now.cells place ≡ Some c → 0 < left → left ≤ length c.fields →
        result ≡ slice_get c.fields (length c.fields - left) }
{
    let size = cells.cell_size(place);
    if left == 0 || left > size {
        return None;
    }
    Some(cells.field(place, size - left))
}

// A value is made.
fn add(rows: &mut Rows, value: Value) -> Result<(), NoMemory>
    ensures store { rows.new.store ≡ rows.old.store }
    ensures values { OnOk result (rows.new.values.items ≡ rows.old.values.items ++ value ∷ []) }
    ensures steps { OnOk result (made_so_far rows.new ≡ made_so_far rows.old + 2) }
{
    rows.values.push(value)?;
    Ok(())
}

// The value of a cell whose fields' values were made last.
fn end(cells: &Sealed, place: u32, rows: &mut Rows) -> Result<(), NoMemory>
    requires { cell_at cells.now.cells place ≢ None }
    ensures loads { OnOk result ((tb : Table) (types : Bor (List ℕ)) (ts : List Task) (whole : List Tree) →
        types.now ≡ [] → Loads tb cells.now.cells (Task.Fields types place ∷ ts) rows.old whole →
        Loads tb cells.now.cells ts rows.new whole) }
    ensures steps { OnOk result (made_so_far rows.old + 2 ≤ made_so_far rows.new) }
{
    let tag = cells.cell_tag(place);
    let size = cells.cell_size(place);
    rows.store.fold(tag, size, &mut rows.values)
}

// The last fields of a cell, the first of them next; then its value.
fn fields<'a>(
    cells: &Sealed,
    types: &'a [u32],
    place: u32,
    rows: &mut Rows,
    tasks: &mut Vec<Task<'a>>,
) -> Result<(), NoMemory>
    requires { cell_at cells.now.cells place ≢ None }
    ensures loads { OnOk result ((tb : Table) (whole : List Tree) →
        Loads tb cells.now.cells (Task.Fields types.entry place ∷ last_first tasks.old.items) rows.old whole →
        Loads tb cells.now.cells (last_first tasks.new.items) rows.new whole) }
    ensures steps { OnOk result (
        vec_len tasks.old + made_so_far rows.old + 2 ≤ vec_len tasks.new + made_so_far rows.new) }
{
    match split(types) {
        None => end(cells, place, rows),
        Some((ty, rest)) => match field_from_end(cells, place, types.len()) {
            None => add(rows, Value::Unbound),
            Some(word) => {
                tasks.push(Task::Fields(rest, place))?;
                tasks.push(Task::Whole(ty, word))?;
                Ok(())
            }
        },
    }
}

// The value of a data type that a word stands for: one without fields is made, one with fields begun.
fn whole<'a>(
    table: &'a TypeTable,
    cells: &Sealed,
    ty: u32,
    word: u64,
    rows: &mut Rows,
    tasks: &mut Vec<Task<'a>>,
) -> Result<(), NoMemory>
    requires { 0 < ty }
    ensures loads { length cells.now.cells ≤ 2 ^ 32 → OnOk result ((whole : List Tree) →
        Loads table.now cells.now.cells (Task.Whole ty word ∷ last_first tasks.old.items) rows.old whole →
        Loads table.now cells.now.cells (last_first tasks.new.items) rows.new whole) }
    ensures steps { OnOk result (
        vec_len tasks.old + made_so_far rows.old + 2 ≤ vec_len tasks.new + made_so_far rows.new) }
{
    if word % 2 == 0 {
        return add(rows, Value::Bare(word / 2));
    }
    if word / 2 > u32::MAX as u64 {
        return add(rows, Value::Unbound);
    }
    let place = (word / 2) as u32;
    if !cells.begins(place) {
        return add(rows, Value::Unbound);
    }
    match constructor_at(table, ty, cells.cell_tag(place) as u64) {
        None => add(rows, Value::Unbound),
        Some(constructor) => fields(cells, constructor.fields(), place, rows, tasks),
    }
}

// One task.
fn step<'a>(
    table: &'a TypeTable,
    cells: &Sealed,
    task: Task<'a>,
    rows: &mut Rows,
    tasks: &mut Vec<Task<'a>>,
) -> Result<(), NoMemory>
    ensures loads { length cells.now.cells ≤ 2 ^ 32 → OnOk result ((whole : List Tree) →
        Loads table.now cells.now.cells (task.entry ∷ last_first tasks.old.items) rows.old whole →
        Loads table.now cells.now.cells (last_first tasks.new.items) rows.new whole) }
    ensures steps { OnOk result (
        vec_len tasks.old + made_so_far rows.old + 2 ≤ vec_len tasks.new + made_so_far rows.new) }
{
    match task {
        Task::Whole(ty, word) => {
            if ty == 0 {
                add(rows, Value::Int(int_of_bits(word)))
            } else {
                whole(table, cells, ty, word, rows, tasks)
            }
        }
        Task::Fields(types, place) => {
            if cells.begins(place) {
                fields(cells, types, place, rows, tasks)
            } else {
                add(rows, Value::Unbound)
            }
        }
    }
}

// Makes the value of a type that a word stands for, after those that were made.
fn load(
    alloc: Global,
    table: &TypeTable,
    cells: &Sealed,
    ty: u32,
    word: u64,
    rows: &mut Rows,
) -> Result<(), NoMemory>
    ensures loads { length cells.now.cells ≤ 2 ^ 32 → OnOk result ((whole : List Tree) (x : Placed) →
        CellStands table.now cells.now.cells ty x → word_of x ≡ word →
        Loads table.now cells.now.cells [] rows.old whole →
        Loads table.now cells.now.cells [] rows.new (whole ++ value_of x ∷ [])) }
{
    let mut tasks = Vec::new(alloc);
    tasks.push(Task::Whole(ty, word))?;
    'loading: loop {
        match tasks.pop() {
            None => return Ok(()),
            Some(task) => step(table, cells, task, rows, &mut tasks)?,
        }
    }
}

impl Rows {
    /// The rows of the values that these words stand for, one word for each parameter. An error where no memory is
    /// left, also where a cell is reached from itself, since that is no value.
    ///
    /// The clause speaks of a store of at most 2^32 places, and of words that stand for values of the types.
    pub fn of(
        alloc: Global,
        types: &TypeTable,
        cells: &Sealed,
        params: &[Param],
        words: &[u64],
    ) -> Result<Rows, NoMemory>
        ensures stand { length cells.now.cells ≤ 2 ^ 32 → (trees : Parts) →
            CellsStand types.now cells.now.cells (types_of params.now) trees → words.now ≡ words_of trees →
            IfOk result (λ rows. AreRows rows (values_of trees)) }
    {
        let mut rows = Rows {
            store: Store::new(alloc),
            values: Vec::new(alloc),
        };
        for (param, word) in params.iter().zip(words.iter()) {
            load(alloc, types, cells, param.ty, *word, &mut rows)?;
        }
        Ok(rows)
    }
}
