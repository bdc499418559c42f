// Values as text: the name of a constructor and, where it has fields, their values in brackets, with one space after
// each comma; an int is its digits, without leading zeros. What is still to be printed is a list, so that no value is
// too deep for the program's own stack.
ghost use Rattle.std.specs.Prelude.{◌≡◌, ℕ, ◌+◌, ◌*◌, ◌<◌, ◌≤◌, List, [], ◌∷◌, ◌++◌, length, Some, IfOk, OnOk, vec_len};
ghost use Rattle.std.specs.Prelude.{IfSome, IfNone, slice_get};
ghost use Rattle.std.specs.Fmt.{signed_decimal};
ghost use Rattle.fip_base.specs.fip_language.Values.{Value as Tree, Values};
ghost use Rattle.fip_base.specs.fip_language.Table.{Shape, Table, constructors, HasType, HaveTypes};
ghost use Rattle.fip_base.specs.fip_language.PrintedText.{printed, printed_more, printed_lines};
ghost use Rattle.value_text.specs.Printing.{printed_tail};
ghost use Rattle.plain_rows.specs.Rows.{AreRows, Stands, StandAll};
ghost use Rattle.plain_rows.specs.Printing.{last_first, Prints, Printing};

use crate::load::{Rows, constructor_at, split};
use crate::store::{Store, Value};
use fip_base::plain::NoMemory;
use fip_base::table::TypeTable;
use itoa::Buffer;
use std::alloc::Global;

/// What is still to be printed.
#[derive(Clone, Copy)]
pub enum Task<'a> {
    // a value of a type
    Whole(u32, Value),
    // the last fields of a row, and their types
    Fields(&'a [u32], &'a [Value]),
}

fn put_int(i: i64, out: &mut Vec<u8>) -> Result<(), NoMemory>
    ensures text { OnOk result (out.new.items ≡ out.old.items ++ signed_decimal i) }
    ensures more { OnOk result (vec_len out.old ≤ vec_len out.new) }
{
    let mut buffer = Buffer::new();
    out.extend_from_slice(buffer.format(i).as_bytes())?;
    Ok(())
}

// The first of these values, and the others.
fn first_of(values: &[Value]) -> Option<(Value, &[Value])>
    ensures some { IfSome result (λ r. values.now ≡ r.0 ∷ r.1.now) }
    ensures none { IfNone result (values.now ≡ []) }
{
    match values.split_first() {
        Some((first, others)) => Some((*first, others)),
        None => None,
    }
}

// The first of the last fields of a row comes next; the others wait.
fn put_fields<'a>(
    types: &'a [u32],
    values: &'a [Value],
    tasks: &mut Vec<Task<'a>>,
) -> Result<(), NoMemory>
    ensures prints { OnOk result ((tb : Table) (s : Store) (following : List ℕ) (vs : Values) (rest : List ℕ) →
        0 < length types.now → HaveTypes tb types.now vs → StandAll s values.now vs →
        Prints tb s following (last_first tasks.old.items) rest →
        Prints tb s following (last_first tasks.new.items) (printed_tail tb types.now vs rest)) }
    ensures few { OnOk result (vec_len tasks.new ≤ vec_len tasks.old + 2) }
{
    match (split(types), first_of(values)) {
        (Some((ty, types)), Some((value, values))) => {
            tasks.push(Task::Fields(types, values))?;
            tasks.push(Task::Whole(ty, value))?;
            Ok(())
        }
        _ => Ok(()),
    }
}

// The last fields of a row with what is before them, or the bracket after them.
fn print_fields<'a>(
    types: &'a [u32],
    values: &'a [Value],
    out: &mut Vec<u8>,
    tasks: &mut Vec<Task<'a>>,
) -> Result<(), NoMemory>
    ensures prints { OnOk result ((tb : Table) (s : Store) (following : List ℕ) (vs : Values) (rest : List ℕ) →
        HaveTypes tb types.now vs → StandAll s values.now vs → Prints tb s following (last_first tasks.old.items) rest →
        Printing tb s following (last_first tasks.new.items) out.new.items
        (out.old.items ++ printed_more tb types.now vs rest)) }
    ensures steps { OnOk result (vec_len tasks.new + 3 * vec_len out.old ≤ vec_len tasks.old + 3 * vec_len out.new) }
{
    if types.is_empty() {
        out.push(b')')?;
        return Ok(());
    }
    out.push(b',')?;
    out.push(b' ')?;
    put_fields(types, values, tasks)
}

// The name of a constructor without fields.
fn print_bare(table: &TypeTable, ty: u32, tag: u64, out: &mut Vec<u8>) -> Result<(), NoMemory>
    ensures text { OnOk result ((s : Shape) → slice_get (constructors table.now ty) tag ≡ Some s →
        out.new.items ≡ out.old.items ++ s.name) }
    ensures more { OnOk result (vec_len out.old ≤ vec_len out.new) }
{
    match constructor_at(table, ty, tag) {
        None => Ok(()),
        Some(constructor) => {
            out.extend_from_slice(constructor.name())?;
            Ok(())
        }
    }
}

// The name of a row's constructor, and its fields, the first of them next.
fn print_row<'a>(
    table: &'a TypeTable,
    store: &'a Store,
    ty: u32,
    row: usize,
    out: &mut Vec<u8>,
    tasks: &mut Vec<Task<'a>>,
) -> Result<(), NoMemory>
    ensures prints { OnOk result ((following : List ℕ) (v : Tree) (rest : List ℕ) → HasType table.now ty v →
        Stands store.now (Value.Row row) v → Prints table.now store.now following (last_first tasks.old.items) rest →
        Printing table.now store.now following (last_first tasks.new.items) out.new.items
        (out.old.items ++ printed table.now ty v rest)) }
    ensures steps { OnOk result (vec_len tasks.new + 3 * vec_len out.old ≤ vec_len tasks.old + 3 * vec_len out.new) }
{
    let Some(tag) = store.tag(row) else {
        return Ok(());
    };
    let Some(constructor) = constructor_at(table, ty, tag as u64) else {
        return Ok(());
    };
    out.extend_from_slice(constructor.name())?;
    out.push(b'(')?;
    put_fields(constructor.fields(), store.fields(row), tasks)
}

// A value; the fields of a row are left to do.
fn print_whole<'a>(
    table: &'a TypeTable,
    store: &'a Store,
    ty: u32,
    value: Value,
    out: &mut Vec<u8>,
    tasks: &mut Vec<Task<'a>>,
) -> Result<(), NoMemory>
    ensures prints { OnOk result ((following : List ℕ) (v : Tree) (rest : List ℕ) → HasType table.now ty v →
        Stands store.now value v → Prints table.now store.now following (last_first tasks.old.items) rest →
        Printing table.now store.now following (last_first tasks.new.items) out.new.items
        (out.old.items ++ printed table.now ty v rest)) }
    ensures steps { OnOk result (vec_len tasks.new + 3 * vec_len out.old ≤ vec_len tasks.old + 3 * vec_len out.new) }
{
    match value {
        Value::Int(i) => put_int(i, out),
        Value::Bare(tag) => print_bare(table, ty, tag, out),
        Value::Row(row) => print_row(table, store, ty, row, out, tasks),
        Value::Unbound => Ok(()),
    }
}

// One task.
fn print_task<'a>(
    table: &'a TypeTable,
    store: &'a Store,
    task: Task<'a>,
    out: &mut Vec<u8>,
    tasks: &mut Vec<Task<'a>>,
) -> Result<(), NoMemory>
    ensures prints { OnOk result ((following whole : List ℕ) →
        Printing table.now store.now following (task.entry ∷ last_first tasks.old.items) out.old.items whole →
        Printing table.now store.now following (last_first tasks.new.items) out.new.items whole) }
    ensures steps { OnOk result (vec_len tasks.new + 3 * vec_len out.old ≤ vec_len tasks.old + 3 * vec_len out.new) }
{
    match task {
        Task::Whole(ty, value) => print_whole(table, store, ty, value, out, tasks),
        Task::Fields(types, values) => print_fields(types, values, out, tasks),
    }
}

// A value, after what is printed. A task that puts further ones prints a byte, so there is an end to them.
fn print_value(
    alloc: Global,
    table: &TypeTable,
    store: &Store,
    ty: u32,
    value: Value,
    out: &mut Vec<u8>,
) -> Result<(), NoMemory>
    ensures prints { OnOk result ((v : Tree) (following : List ℕ) → HasType table.now ty v → Stands store.now value v →
        out.new.items ++ following ≡ out.old.items ++ printed table.now ty v following) }
{
    let mut tasks = Vec::new(alloc);
    tasks.push(Task::Whole(ty, value))?;
    'printing: loop {
        match tasks.pop() {
            None => return Ok(()),
            Some(task) => print_task(table, store, task, out, &mut tasks)?,
        }
    }
}

/// The canonical text of values: a line for each, of the type beside it, ended by an LF. An error where no memory is
/// left.
pub fn print_values(
    alloc: Global,
    types: &TypeTable,
    result_types: &[u32],
    rows: &Rows,
) -> Result<Vec<u8>, NoMemory>
    // The text of the trees that the rows stand for, where they have these types.
    ensures lines { (vs : Values) → AreRows rows.now vs → HaveTypes types.now result_types.now vs →
        IfOk result (λ text. text.items ≡ printed_lines types.now result_types.now vs) }
{
    let mut text = Vec::new(alloc);
    for (ty, value) in result_types.iter().zip(rows.values.iter()) {
        print_value(alloc, types, &rows.store, *ty, *value, &mut text)?;
        text.push(b'\n')?;
    }
    Ok(text)
}
