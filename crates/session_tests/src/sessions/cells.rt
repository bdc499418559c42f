// The cells of a session: those that aren't released, and those of the values that its names hold.

use crate::sessions::lines::NAMES;
use crate::sessions::values::constructors_of;
use cell_store::{Cells, Sealed};
use fip_base::plain::NoMemory;
use fip_base::table::TypeTable;
use fip_session::{Held, Session};
use std::alloc::Global;

// More than a store of a test has cells, and more than the words of its values.
const MOST: usize = 100_000;

// Whether a cell begins at a place that isn't released.
fn is_live(cells: &Sealed, place: u32) -> bool {
    cells.begins(place) && !cells.is_released(place)
}

// The place of the next cell.
fn following(cells: &Sealed, place: u32) -> Option<u32> {
    if cells.begins(place) {
        cells.after(Some(place))
    } else {
        None
    }
}

/// The places of the cells that aren't released, in order.
pub fn live_places(alloc: Global, cells: &Sealed) -> Result<Vec<u32>, NoMemory> {
    let mut places = Vec::new(alloc);
    let mut at = cells.after(None);
    for _ in 0..MOST {
        let Some(place) = at else {
            break;
        };
        if is_live(cells, place) {
            places.push(place)?;
        }
        at = following(cells, place);
    }
    Ok(places)
}

// The types of a constructor's fields; none where the type has no such constructor.
fn fields_of(table: &TypeTable, ty: u32, constructor: u64) -> Option<&[u32]> {
    let number = usize::try_from(constructor).ok()?;
    match constructors_of(table, ty).get(number) {
        Some(found) => Some(found.fields()),
        None => None,
    }
}

// The number of the constructor of the cell at a place.
fn tag_of(cells: &Sealed, place: u32) -> Option<u64> {
    if cells.begins(place) {
        Some(u64::from(cells.cell_tag(place)))
    } else {
        None
    }
}

// Whether the cell at a place has so many fields.
fn has_size(cells: &Sealed, place: u32, size: usize) -> bool {
    cells.begins(place) && cells.cell_size(place) == size
}

// The word of field `i` of the cell at a place; none past its last field.
fn field_of(cells: &Sealed, place: u32, i: usize) -> Option<u64> {
    if cells.begins(place) && i < cells.cell_size(place) {
        Some(cells.field(place, i))
    } else {
        None
    }
}

// The place of a live cell that a word means; none where it means another thing.
fn place_of(cells: &Sealed, word: u64) -> Option<u32> {
    let place = u32::try_from(word / 2).ok()?;
    if is_live(cells, place) {
        Some(place)
    } else {
        None
    }
}

// The fields of a cell wait, as their types and words. False where it has not as many fields as there are types.
fn put_fields(
    cells: &Sealed,
    place: u32,
    types: &[u32],
    waits: &mut Vec<Held>,
) -> Result<bool, NoMemory> {
    for (i, ty) in types.iter().enumerate() {
        match field_of(cells, place, i) {
            Some(word) => waits.push(Held { ty: *ty, word })?,
            None => return Ok(false),
        }
    }
    Ok(has_size(cells, place, types.len()))
}

// Adds the cell of a word that is odd, and lets its fields wait. False where it has no live cell of its type.
fn put_cell(
    table: &TypeTable,
    cells: &Sealed,
    held: Held,
    waits: &mut Vec<Held>,
    places: &mut Vec<u32>,
) -> Result<bool, NoMemory> {
    let Some(place) = place_of(cells, held.word) else {
        return Ok(false);
    };
    places.push(place)?;
    let Some(tag) = tag_of(cells, place) else {
        return Ok(false);
    };
    match fields_of(table, held.ty, tag) {
        Some(types) => put_fields(cells, place, types, waits),
        None => Ok(false),
    }
}

// Whether an even word is a constructor of its type without fields.
fn is_bare(table: &TypeTable, held: Held) -> bool {
    match fields_of(table, held.ty, held.word / 2) {
        Some(types) => types.is_empty(),
        None => false,
    }
}

// Adds the places of the cells of a value. False where these aren't live cells of its type.
fn put_value(
    alloc: Global,
    table: &TypeTable,
    cells: &Sealed,
    held: Held,
    places: &mut Vec<u32>,
) -> Result<bool, NoMemory> {
    let mut waits = Vec::new(alloc);
    waits.push(held)?;
    for _ in 0..MOST {
        let Some(next) = waits.pop() else {
            return Ok(true);
        };
        let is_right = if next.ty == 0 {
            true
        } else if next.word % 2 == 0 {
            is_bare(table, next)
        } else {
            put_cell(table, cells, next, &mut waits, places)?
        };
        if !is_right {
            return Ok(false);
        }
    }
    Ok(false)
}

/// The places of the cells of all held values, in order, a place as often as it is met. None where these aren't live
/// cells of the values' types.
pub fn held_places(
    alloc: Global,
    table: &TypeTable,
    session: &Session,
) -> Result<Option<Vec<u32>>, NoMemory> {
    let mut places = Vec::new(alloc);
    for name in NAMES {
        if let Some(held) = session.held(&[*name])
            && !put_value(alloc, table, session.cells(), held, &mut places)?
        {
            return Ok(None);
        }
    }
    places.sort()?;
    Ok(Some(places))
}

/// The number of the cells that aren't released. None where these aren't those of the held values, each met once.
pub fn count_of_names(
    alloc: Global,
    table: &TypeTable,
    session: &Session,
) -> Result<Option<usize>, NoMemory> {
    let live = live_places(alloc, session.cells())?;
    match held_places(alloc, table, session)? {
        Some(held) if held.as_slice() == live.as_slice() => Ok(Some(live.len())),
        _ => Ok(None),
    }
}
