// A value printed, without recursion: what is still to be printed is a list of rows of fields.
ghost use Rattle.std.specs.Prelude.{◌≡◌, ◌≢◌, ℕ, ℤ, ◌+◌, ◌-◌, ◌*◌, ◌<◌, ◌≤◌, ◌^◌, List, [], ◌∷◌, ◌++◌, length};
ghost use Rattle.std.specs.Prelude.{Some, None, IfOk, OnOk, IfSome, IfNone, FitsSigned, slice_get, suc, take, vec_len};
ghost use Rattle.std.specs.Int.{w64};
ghost use Rattle.std.specs.Fmt.{signed_decimal};
ghost use Rattle.fip_language.specs.Values.{End, More};
ghost use Rattle.fip_language.specs.Table.{Shape, Table, constructors};
ghost use Rattle.fip_language.specs.SoundTable.{IsSoundTable};
ghost use Rattle.fip_language.specs.Store.{Cell, Placed, At, Parts, int_word, value_of, values_of, word_of};
ghost use Rattle.fip_language.specs.PrintedText.{printed, printed_more};
ghost use Rattle.fip_language.specs.ValueText.{SpellsValues};
ghost use Rattle.cell_store.specs.Cells.{cell_at};
ghost use Rattle.value_text.specs.Standing.{Stands};
ghost use Rattle.value_text.specs.Printing.{last_first, printed_tail, AreLast, Prints, Printing};
ghost use Rattle.value_text.specs.Printing.{Task, fields_of, closes, row_tasks, then_tasks, then_field, one_task};
ghost use Rattle.value_text.specs.Printing.{Whole, Close};

use crate::read::split;
use crate::room::{push, put, put_name};
use cell_store::Cells;
use fip_base::plain::NoMemory;
use fip_base::table::{Constructor, TypeTable};
use itoa::Buffer;
use std::alloc::{AllocError, Global};

/// The last fields of a cell, which wait: their types, and the cell's place; and after them so many further cells of
/// which only the ) is left.
#[derive(Clone, Copy)]
pub struct Row<'a> {
    types: &'a [u32],
    place: u32,
    following: u32,
}

/// The first of the last fields of a cell: its type and word, and the types of the fields after it.
#[derive(Clone, Copy)]
pub struct Field<'a> {
    ty: u32,
    word: u64,
    rest: &'a [u32],
}

// The int of these 64 bits.
#[inline(always)]
fn int_of_bits(word: u64) -> i64
    ensures bits { int_word result ≡ word }
    ensures fits { FitsSigned w64 result }
{
    if word <= 9223372036854775807 {
        word as i64
    } else {
        -((u64::MAX - word) as i64) - 1
    }
}

#[inline(always)]
fn print_int(word: u64, out: &mut Vec<u8>) -> Result<(), AllocError>
    ensures text { OnOk result ((i : ℤ) → FitsSigned w64 i → int_word i ≡ word →
        out.new.items ≡ out.old.items ++ signed_decimal i) }
    ensures more { OnOk result (vec_len out.old ≤ vec_len out.new) }
{
    let mut buffer = Buffer::new();
    let i = int_of_bits(word);
    put(buffer.format(i).as_bytes(), out)
}

// How many cells wait behind a further one, where only the ) of this one is left.
#[inline(always)]
fn closed(types: &[u32], following: u32) -> Option<u32>
    ensures { IfSome result (λ n. (length types.now ≡ 0) × (n ≡ suc following)) }
{
    if types.is_empty() && following < u32::MAX {
        Some(following + 1)
    } else {
        None
    }
}

// The top row, where only the ) of its cell is left, and how many cells wait behind a further one in its place.
#[inline(always)]
fn waiting<'a>(rows: &Vec<Row<'a>>) -> Option<(usize, u32)>
    ensures { IfSome result (λ r. (suc r.0 ≡ length rows.now.items)
        × (last_first rows.now.items ≡ closes r.1 (last_first (take r.0 rows.now.items)))) }
{
    if rows.is_empty() {
        return None;
    }
    let top = rows.len() - 1;
    let row = rows[top];
    match closed(row.types, row.following) {
        Some(following) => Some((top, following)),
        None => None,
    }
}

#[inline(always)]
fn push_row<'a>(rows: &mut Vec<Row<'a>>, row: Row<'a>) -> Result<(), AllocError>
    ensures added { OnOk result (last_first rows.new.items ≡ row_tasks row.entry (last_first rows.old.items)) }
    ensures one { OnOk result (vec_len rows.new ≡ vec_len rows.old + 1) }
{
    push(row, rows)?;
    Ok(())
}

// The last fields of a cell come next. Where only the ) of the cell above is left, that waits in the same row, so that
// a long list takes no more memory than a short one.
#[inline(always)]
fn add<'a>(rows: &mut Vec<Row<'a>>, types: &'a [u32], place: u32) -> Result<(), AllocError>
    ensures added { OnOk result (last_first rows.new.items ≡ fields_of types.now place ∷ last_first rows.old.items) }
    ensures one { OnOk result (vec_len rows.new ≤ vec_len rows.old + 1) }
{
    match waiting(rows) {
        Some((top, following)) => {
            rows[top] = Row {
                types,
                place,
                following,
            };
            Ok(())
        }
        None => {
            let following = 0;
            push_row(
                rows,
                Row {
                    types,
                    place,
                    following,
                },
            )
        }
    }
}

fn nothing<'a>() -> &'a [u32]
    ensures { length result.now ≡ 0 }
{
    &[]
}

// The cell of the top row is printed; those after it wait on.
#[inline(always)]
fn close<'a>(rows: &mut Vec<Row<'a>>, top: usize, following: u32)
    requires { suc top ≡ length rows.old.items }
    ensures tasks { last_first rows.new.items ≡ closes following (last_first (take top rows.old.items)) }
    ensures fewer { vec_len rows.new ≤ vec_len rows.old }
{
    if following == 0 {
        rows.truncate(top);
    } else {
        let types = nothing();
        let place = 0;
        let following = following - 1;
        rows[top] = Row {
            types,
            place,
            following,
        };
    }
}

// One of the cells of the top row, of which only the ) is left, is printed; those after it wait on.
#[inline(always)]
fn close_one<'a>(rows: &mut Vec<Row<'a>>, top: usize, following: u32)
    requires top { suc top ≡ length rows.old.items }
    requires tasks { last_first rows.old.items ≡ Close ∷ closes following (last_first (take top rows.old.items)) }
    ensures tasks { last_first rows.new.items ≡ closes following (last_first (take top rows.old.items)) }
    ensures fewer { vec_len rows.new ≤ vec_len rows.old }
{
    if following == 0 {
        rows.truncate(top);
    } else {
        rows[top].following = following - 1;
    }
}

// The ) of the cell of the top row.
#[inline(always)]
fn print_close<'a>(
    out: &mut Vec<u8>,
    rows: &mut Vec<Row<'a>>,
    top: usize,
    following: u32,
) -> Result<(), AllocError>
    requires top { suc top ≡ length rows.old.items }
    requires tasks { last_first rows.old.items ≡ Close ∷ closes following (last_first (take top rows.old.items)) }
    ensures tasks { OnOk result (last_first rows.new.items ≡ closes following (last_first (take top rows.old.items))) }
    ensures fewer { OnOk result (vec_len rows.new ≤ vec_len rows.old) }
    ensures text { OnOk result (out.new.items ≡ out.old.items ++ 41 ∷ []) }
    ensures grows { OnOk result (vec_len out.old < vec_len out.new) }
{
    push(b')', out)?;
    close_one(rows, top, following);
    Ok(())
}

// The constructor of this number, where the type has one.
#[inline(always)]
fn constructor_at(table: &TypeTable, ty: u32, tag: u64) -> Option<&Constructor>
    ensures some { IfSome result (λ r. slice_get (constructors table.now ty) tag ≡ Some r.now) }
    ensures none { IfNone result (slice_get (constructors table.now ty) tag ≡ None) }
{
    if ty as usize > table.len() {
        return None;
    }
    let constructors = table.constructors_of(ty);
    if tag < constructors.len() as u64 {
        Some(&constructors[tag as usize])
    } else {
        None
    }
}

// The word of the first of the last `left` fields of a cell.
#[inline(always)]
fn field_from_end<C: Cells>(cells: &C, place: u32, left: usize) -> Option<u64>
    requires { cell_at (C.cells cells.now) place ≢ None }
    ensures { (c : Cell) → cell_at (C.cells cells.now) place ≡ Some c → 0 < left → left ≤ length c.fields →
        result ≡ slice_get c.fields (length c.fields - left) }
{
    let size = cells.cell_size(place);
    if left == 0 || left > size {
        return None;
    }
    Some(cells.field(place, size - left))
}

// The first of the last fields of a cell.
#[inline(always)]
fn first_field<'a, C: Cells>(cells: &C, types: &'a [u32], place: u32) -> Option<Field<'a>>
    requires { cell_at (C.cells cells.now) place ≢ None }
    ensures { (tb : Table) (c : Cell) (xs : Parts) → 0 < length types.now →
        AreLast tb (C.cells cells.now) types.now place c xs → (rest : List ℕ) (ts : List Task) →
        Prints tb (C.cells cells.now) ts rest →
        Prints tb (C.cells cells.now) (then_field result place ts) (printed_tail tb types.now (values_of xs) rest) }
{
    match split(types) {
        None => None,
        Some((ty, rest)) => match field_from_end(cells, place, types.len()) {
            None => None,
            Some(word) => Some(Field { ty, word, rest }),
        },
    }
}

// The comma before the last fields of a cell, of which the first comes next.
#[inline(always)]
fn print_field<'a, C: Cells>(
    cells: &C,
    types: &'a [u32],
    place: u32,
    out: &mut Vec<u8>,
) -> Result<Option<Field<'a>>, AllocError>
    requires { 0 < length types.now }
    ensures prints { IfOk result (λ next. (tb : Table) (c : Cell) (xs : Parts) →
        AreLast tb (C.cells cells.now) types.now place c xs → (rest : List ℕ) (ts : List Task) →
        Prints tb (C.cells cells.now) ts rest →
        Printing tb (C.cells cells.now) (then_field next place ts) out.new.items
        (out.old.items ++ printed_more tb types.now (values_of xs) rest)) }
    ensures grows { IfOk result (λ next. vec_len out.old < vec_len out.new) }
{
    put(b", ", out)?;
    if !cells.begins(place) {
        return Ok(None);
    }
    Ok(first_field(cells, types, place))
}

// A value with a cell: its name, and its fields, of which the first comes next.
#[inline(always)]
fn print_cell<'a, C: Cells>(
    table: &'a TypeTable,
    cells: &C,
    ty: u32,
    place: u32,
    out: &mut Vec<u8>,
    rows: &mut Vec<Row<'a>>,
) -> Result<Option<(u32, u64)>, AllocError>
    requires { cell_at (C.cells cells.now) place ≢ None }
    ensures prints { IfOk result (λ next. (c : ℕ) (xs : Parts) →
        Stands table.now (C.cells cells.now) ty (At place c xs) → (rest : List ℕ) →
        Prints table.now (C.cells cells.now) (last_first rows.old.items) rest →
        Printing table.now (C.cells cells.now) (then_tasks next (last_first rows.new.items)) out.new.items
        (out.old.items ++ printed table.now ty (value_of (At place c xs)) rest)) }
    ensures steps { IfOk result (λ next.
        one_task next + vec_len rows.new + 3 * vec_len out.old ≤ vec_len rows.old + 3 * vec_len out.new) }
{
    let tag = cells.cell_tag(place);
    let Some(constructor) = constructor_at(table, ty, tag as u64) else {
        return Ok(None);
    };
    put_name(constructor.name(), out)?;
    let types = constructor.fields();
    if types.is_empty() {
        return Ok(None);
    }
    push(b'(', out)?;
    match first_field(cells, types, place) {
        None => Ok(None),
        Some(field) => {
            let types = field.rest;
            add(rows, types, place)?;
            Ok(Some((field.ty, field.word)))
        }
    }
}

// A constructor without fields.
#[inline(always)]
fn print_bare(table: &TypeTable, ty: u32, tag: u64, out: &mut Vec<u8>) -> Result<(), AllocError>
    ensures text { OnOk result ((s : Shape) → slice_get (constructors table.now ty) tag ≡ Some s →
        out.new.items ≡ out.old.items ++ s.name) }
    ensures more { OnOk result (vec_len out.old ≤ vec_len out.new) }
{
    match constructor_at(table, ty, tag) {
        None => Ok(()),
        Some(constructor) => put_name(constructor.name(), out),
    }
}

// A value, and its first field where it has one.
#[inline(always)]
fn print_whole<'a, C: Cells>(
    table: &'a TypeTable,
    cells: &C,
    ty: u32,
    word: u64,
    out: &mut Vec<u8>,
    rows: &mut Vec<Row<'a>>,
) -> Result<Option<(u32, u64)>, AllocError>
    ensures prints { IfOk result (λ next. length (C.cells cells.now) ≤ 2 ^ 32 → (x : Placed) →
        Stands table.now (C.cells cells.now) ty x → word_of x ≡ word → (rest : List ℕ) →
        Prints table.now (C.cells cells.now) (last_first rows.old.items) rest →
        Printing table.now (C.cells cells.now) (then_tasks next (last_first rows.new.items)) out.new.items
        (out.old.items ++ printed table.now ty (value_of x) rest)) }
    ensures steps { IfOk result (λ next.
        one_task next + vec_len rows.new + 3 * vec_len out.old ≤ vec_len rows.old + 3 * vec_len out.new) }
{
    if ty == 0 {
        print_int(word, out)?;
        return Ok(None);
    }
    if word % 2 == 0 {
        print_bare(table, ty, word / 2, out)?;
        return Ok(None);
    }
    if word / 2 > u32::MAX as u64 {
        return Ok(None);
    }
    let place = (word / 2) as u32;
    if cells.begins(place) {
        print_cell(table, cells, ty, place, out, rows)
    } else {
        Ok(None)
    }
}

// What is left of the cell of the top row, up to its next field.
#[inline(always)]
fn print_row<'a, C: Cells>(
    cells: &C,
    last: &'a [u32],
    place: u32,
    following: u32,
    top: usize,
    out: &mut Vec<u8>,
    rows: &mut Vec<Row<'a>>,
) -> Result<Option<(u32, u64)>, AllocError>
    requires top { suc top ≡ length rows.old.items }
    requires tasks { last_first rows.old.items
        ≡ fields_of last.now place ∷ closes following (last_first (take top rows.old.items)) }
    ensures prints { IfOk result (λ next. (tb : Table) (whole : List ℕ) →
        Printing tb (C.cells cells.now) (last_first rows.old.items) out.old.items whole →
        Printing tb (C.cells cells.now) (then_tasks next (last_first rows.new.items)) out.new.items whole) }
    ensures fewer { IfOk result (λ next. vec_len rows.new ≤ vec_len rows.old) }
    ensures grows { IfOk result (λ next. vec_len out.old < vec_len out.new) }
{
    if last.is_empty() {
        print_close(out, rows, top, following)?;
        return Ok(None);
    }
    match print_field(cells, last, place, out)? {
        Some(field) => {
            let rest = field.rest;
            rows[top].types = rest;
            Ok(Some((field.ty, field.word)))
        }
        None => {
            close(rows, top, following);
            Ok(None)
        }
    }
}

// The rows, one after another, until a value comes next.
#[inline(always)]
fn next_value<'a, C: Cells>(
    cells: &C,
    out: &mut Vec<u8>,
    rows: &mut Vec<Row<'a>>,
) -> Result<Option<(u32, u64)>, AllocError>
    ensures prints { IfOk result (λ next. (tb : Table) (whole : List ℕ) →
        Printing tb (C.cells cells.now) (last_first rows.old.items) out.old.items whole →
        Printing tb (C.cells cells.now) (then_tasks next (last_first rows.new.items)) out.new.items whole) }
    ensures steps { IfOk result (λ next.
        one_task next + vec_len rows.new + 3 * vec_len out.old ≤ vec_len rows.old + 3 * vec_len out.new) }
    ensures last { IfOk result (λ next. next ≡ None → vec_len rows.new ≡ 0) }
{
    'waiting: loop {
        if rows.is_empty() {
            return Ok(None);
        }
        let top = rows.len() - 1;
        let row = rows[top];
        match print_row(cells, row.types, row.place, row.following, top, out, rows)? {
            Some(next) => return Ok(Some(next)),
            None => {}
        }
    }
}

// A value, and the one that comes next where there is one.
#[inline(always)]
fn print_on<'a, C: Cells>(
    table: &'a TypeTable,
    cells: &C,
    ty: u32,
    word: u64,
    out: &mut Vec<u8>,
    rows: &mut Vec<Row<'a>>,
) -> Result<Option<(u32, u64)>, AllocError>
    ensures prints { IfOk result (λ next. length (C.cells cells.now) ≤ 2 ^ 32 → (whole : List ℕ) →
        Printing table.now (C.cells cells.now) (Whole ty word ∷ last_first rows.old.items) out.old.items whole →
        Printing table.now (C.cells cells.now) (then_tasks next (last_first rows.new.items)) out.new.items whole) }
    ensures steps { IfOk result (λ next.
        one_task next + vec_len rows.new + 3 * vec_len out.old ≤ vec_len rows.old + 3 * vec_len out.new) }
    ensures last { IfOk result (λ next. next ≡ None → vec_len rows.new ≡ 0) }
{
    match print_whole(table, cells, ty, word, out, rows)? {
        Some(next) => Ok(Some(next)),
        None => next_value(cells, out, rows),
    }
}

// The values, one after another, after what stands in the text. A value or a row that puts a further row after itself
// prints a byte, so there is an end to them.
fn print_values<C: Cells>(
    alloc: Global,
    table: &TypeTable,
    cells: &C,
    ty: u32,
    word: u64,
    out: Vec<u8>,
) -> Result<Vec<u8>, AllocError>
    ensures { length (C.cells cells.now) ≤ 2 ^ 32 → (x : Placed) → Stands table.now (C.cells cells.now) ty x →
        word_of x ≡ word → IfOk result (λ text. text.items ≡ out.items ++ printed table.now ty (value_of x) []) }
{
    let mut out = out;
    let mut rows = Vec::new(alloc);
    let mut ty = ty;
    let mut word = word;
    'printing: loop {
        match print_on(table, cells, ty, word, &mut out, &mut rows)? {
            Some(next) => (ty, word) = next,
            None => return Ok(out),
        }
    }
}

/// The canonical text of the value of a type that a word stands for in the cells: constructors and ints without
/// blanks but one space after each comma, ints without leading zeros, and no end of line. An error where memory is
/// wanting. Nesting costs no stack of the program.
///
/// The clauses speak of stores of at most 2^32 places, and of words that stand for a value of the type.
pub fn print_value<C: Cells>(
    alloc: Global,
    table: &TypeTable,
    cells: &C,
    ty: u32,
    word: u64,
) -> Result<Vec<u8>, NoMemory>
    // The text of the value of each tree that the word stands for; there is one at the most.
    ensures canonical { length (C.cells cells.now) ≤ 2 ^ 32 → (x : Placed) →
        Stands table.now (C.cells cells.now) ty x → word_of x ≡ word →
        IfOk result (λ text. text.items ≡ printed table.now ty (value_of x) []) }
    // With an end of line it is read as that value again.
    ensures read_again { IsSoundTable table.now → length (C.cells cells.now) ≤ 2 ^ 32 → (x : Placed) →
        Stands table.now (C.cells cells.now) ty x → word_of x ≡ word →
        IfOk result (λ text. SpellsValues table.now (ty ∷ []) (text.items ++ 10 ∷ []) (More (value_of x) End)) }
{
    Ok(print_values(alloc, table, cells, ty, word, Vec::new(alloc))?)
}

/// The same text, put after what stands in another, which moves in and out.
///
/// The clause speaks of stores of at most 2^32 places, and of words that stand for a value of the type.
pub fn print_after<C: Cells>(
    alloc: Global,
    table: &TypeTable,
    cells: &C,
    ty: u32,
    word: u64,
    text: Vec<u8>,
) -> Result<Vec<u8>, NoMemory>
    // The text of the value of each tree that the word stands for; there is one at the most.
    ensures canonical { length (C.cells cells.now) ≤ 2 ^ 32 → (x : Placed) →
        Stands table.now (C.cells cells.now) ty x → word_of x ≡ word →
        IfOk result (λ new. new.items ≡ text.items ++ printed table.now ty (value_of x) []) }
{
    Ok(print_values(alloc, table, cells, ty, word, text)?)
}
