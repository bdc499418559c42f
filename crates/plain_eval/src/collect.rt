// Dropping the rows that nothing names any more. A row names only rows before it, so that one pass from the last row
// to the first finds all that are reached, and one from the first to the last moves them together in the same order.
ghost use Rattle.std.specs.Prelude.{◌≡◌, ℕ, suc, ◌<◌, ◌≤◌, Bool, true, List, length, map, IfOk, OnOk};
ghost use Rattle.fip_trees.specs.fip_language.Values.{Value as Tree};
ghost use Rattle.plain_rows.specs.Rows.{count_rows, Holds, Stands, More};
ghost use Rattle.plain_eval.specs.Slots.{KeepsAll};
ghost use Rattle.plain_eval.specs.Moving.{Marked, MarkedBelow, ClosedFrom, placed, MovedBelow};

use fip_base::plain::NoMemory;
use plain_rows::{Store, Value};
use std::alloc::Global;

/// The store of those rows alone that the values reach; the values name them there. An error where no memory is left.
pub fn collect(alloc: Global, store: &Store, values: &mut Vec<Value>) -> Result<Store, NoMemory>
    ensures keeps { IfOk result (λ kept. KeepsAll store.now values.old.items kept values.new.items) }
{
    let reached = reached(alloc, store, values.as_slice())?;
    let (kept, places) = moved(alloc, store, reached.as_slice())?;
    place_all(places.as_slice(), values);
    Ok(kept)
}

// Which rows the values reach.
fn reached(alloc: Global, store: &Store, values: &[Value]) -> Result<Vec<bool>, NoMemory>
    ensures rows { IfOk result (λ m. length m.items ≡ count_rows store.now) }
    ensures roots { IfOk result (λ m. MarkedBelow (count_rows store.now) m.items values.now) }
    ensures closed { IfOk result (λ m. ClosedFrom 0 store.now m.items) }
{
    let mut reached = Vec::new(alloc);
    reached.resize(store.len(), false)?;
    let mut row = store.len();
    mark(&mut reached, row, values);
    while row > 0 {
        row -= 1;
        if is_marked(reached.as_slice(), row) {
            mark(&mut reached, row, store.fields(row));
        }
    }
    Ok(reached)
}

fn is_marked(reached: &[bool], row: usize) -> bool
    ensures marked { result ≡ true → Marked reached.now row }
    ensures all { Marked reached.now row → result ≡ true }
{
    match reached.get(row) {
        Some(flag) => *flag,
        None => false,
    }
}

// Marks the rows below a limit that these values name.
fn mark(reached: &mut Vec<bool>, limit: usize, values: &[Value])
    ensures marks { MarkedBelow limit reached.new.items values.now }
    ensures keeps { (r : ℕ) → Marked reached.old.items r → Marked reached.new.items r }
    ensures others { (r : ℕ) → limit ≤ r → Marked reached.new.items r → Marked reached.old.items r }
    ensures length { length reached.new.items ≡ length reached.old.items }
{
    for value in values {
        mark_one(reached, limit, *value);
    }
}

fn mark_one(reached: &mut Vec<bool>, limit: usize, value: Value)
    ensures marks { (r : ℕ) → value ≡ Value.Row r → r < limit → r < length reached.old.items →
        Marked reached.new.items r }
    ensures keeps { (r : ℕ) → Marked reached.old.items r → Marked reached.new.items r }
    ensures others { (r : ℕ) → limit ≤ r → Marked reached.new.items r → Marked reached.old.items r }
    ensures length { length reached.new.items ≡ length reached.old.items }
{
    if let Value::Row(row) = value {
        if row < limit && row < reached.len() {
            reached[row] = true;
        }
    }
}

// The store of the rows that are reached, and for each row its number there; a row that isn't reached has that of the
// next one that is.
fn moved(alloc: Global, store: &Store, reached: &[bool]) -> Result<(Store, Vec<usize>), NoMemory>
    ensures moves { IfOk result (λ m. ClosedFrom 0 store.now reached.now →
        MovedBelow (length reached.now) store.now reached.now m.0 m.1.items) }
{
    let mut kept = Store::new(alloc);
    let mut places = Vec::new(alloc);
    let mut fields = Vec::new(alloc);
    for (row, is_reached) in reached.iter().enumerate() {
        places.push(kept.len())?;
        let places = places.as_slice();
        move_row(store, row, *is_reached, places, &mut kept, &mut fields)?;
    }
    Ok((kept, places))
}

// Puts a row after those that were moved, if it is reached.
fn move_row(
    store: &Store,
    row: usize,
    is_reached: bool,
    places: &[usize],
    kept: &mut Store,
    fields: &mut Vec<Value>,
) -> Result<(), NoMemory>
    ensures kept { OnOk result (More kept.old kept.new) }
    ensures moves { OnOk result ((m : List Bool) (v : Tree) → ClosedFrom 0 store.now m →
        is_reached ≡ true → Marked m row →
        MovedBelow row store.now m kept.old places.now → Holds store.now (suc row) (Value.Row row) v →
        Stands kept.new (Value.Row (count_rows kept.old)) v) }
{
    if !is_reached {
        return Ok(());
    }
    fields.clear();
    for field in store.fields(row) {
        fields.push(place_of(places, *field))?;
    }
    if let Some(tag) = store.tag(row) {
        kept.push(tag, fields.as_slice())?;
    }
    Ok(())
}

// Each value names its row's new place.
fn place_all(places: &[usize], values: &mut Vec<Value>)
    ensures placed { values.new.items ≡ map (placed places.now) values.old.items }
{
    for i in 0..values.len() {
        values[i] = place_of(places, values[i]);
    }
}

// The value that names the row's new place.
fn place_of(places: &[usize], value: Value) -> Value
    ensures placed { result ≡ placed places.now value }
{
    match value {
        Value::Row(row) => match places.get(row) {
            Some(place) => Value::Row(*place),
            None => value,
        },
        _ => value,
    }
}
