// The lines of tasks: the name of an entry, and in brackets values of its parameters' types, with commas between them.
ghost use Rattle.std.specs.Prelude.{◌≡◌, ◌<◌, ◌≤◌, ℕ, List, [], ◌∷◌, true, false, length, drop, slice_get};
ghost use Rattle.std.specs.Prelude.{IfOk, IfSome, Ok, None, Some};
ghost use Rattle.fip_language.specs.Values.{Value, Values, cells, cells_of_all};
ghost use Rattle.fip_language.specs.Store.{count};
ghost use Rattle.session_lines.specs.session_semantics.Lines.{Symbol, Comma, SignText};
ghost use Rattle.value_text.specs.Loaded.{AreCredits, types_of, wanted};
ghost use Rattle.value_text.specs.Single.{BeginsWith, IsPlaced, IsValueAt};
ghost use Rattle.session_lines.specs.Named.{AreEntries};
ghost use Rattle.session_lines.specs.Scanned.{left};
ghost use Rattle.task_lines.specs.Called.{Called, IsCall};
ghost use Rattle.session_values.specs.Readable.{IsReadable};
ghost use Rattle.session_values.specs.Read.{Adds};
ghost use Rattle.task_lines.specs.Reading.{AreAt, After, Given, IsAt, IsCalled, IsLineOf};
ghost use Rattle.session_values.specs.Readable.{AreParams, IsLine};
ghost use Rattle.task_lines.specs.Reading.{IsNext};

use cell_code::{Code, Function};
use fip_base::plain::{NoMemory, Param};
use fip_base::table::TypeTable;
use session_lines::{Entries, Scanner};
use std::alloc::Global;
use value_text::{Counts, ReadError, read_value};

/// A task that was read: its line, the number of its function, and where the value of each parameter begins.
#[derive(Drop)]
pub struct TaskLine<'l> {
    pub bytes: &'l [u8],
    pub entry: usize,
    pub values: Vec<usize>,
}

// Reads a value of a type, whose cells are counted. False where none comes next.
fn value(
    alloc: Global,
    table: &TypeTable,
    bytes: &[u8],
    scanner: &mut Scanner,
    ty: u32,
    counts: &mut Counts,
) -> Result<bool, NoMemory>
    ensures bytes { scanner.new.bytes.now ≡ scanner.old.bytes.now }
    ensures within { scanner.old.at ≤ length bytes.now → scanner.new.at ≤ length bytes.now }
    ensures read { IsPlaced table.now ty bytes.now scanner.old.at → result ≡ Ok true → (v : Value)
        × IsValueAt table.now ty bytes.now scanner.old.at v scanner.new.at
        × Adds counts.old counts.new (λ k. cells k v) }
    ensures none { IsPlaced table.now ty bytes.now scanner.old.at → result ≡ Ok false → (v : Value) →
        BeginsWith table.now ty (drop scanner.old.at bytes.now) v → ⊥ }
{
    match read_value(alloc, table, ty, bytes, scanner.at()) {
        Ok((end, more)) => {
            counts.add(&more);
            scanner.go_to(end);
            Ok(true)
        }
        Err(ReadError::BadValue { .. }) => Ok(false),
        Err(ReadError::NoMemory) => Err(NoMemory),
    }
}

// Whether parameter i may come next: it is the first, or after a comma, which is read.
fn comma_before(scanner: &mut Scanner, i: usize) -> bool
    ensures bytes { scanner.new.bytes.now ≡ scanner.old.bytes.now }
    ensures within { scanner.old.at ≤ length scanner.old.bytes.now → scanner.new.at ≤ length scanner.old.bytes.now }
    ensures first { i ≡ 0 → (result ≡ true) × (scanner.new ≡ scanner.old) }
    ensures read { 0 < i → result ≡ true → SignText Comma (left scanner.old) (left scanner.new) }
    ensures none { result ≡ false → (0 < i) × ((rest : List Symbol) → SignText Comma (left scanner.old) rest → ⊥) }
{
    i == 0 || scanner.sign(b',')
}

// Reads the value of parameter i, and before it a comma unless it is the first. Where it begins; none where these don't
// come next.
fn next_value(
    alloc: Global,
    table: &TypeTable,
    bytes: &[u8],
    scanner: &mut Scanner,
    i: usize,
    ty: u32,
    counts: &mut Counts,
) -> Result<Option<usize>, NoMemory>
    ensures bytes { scanner.new.bytes.now ≡ scanner.old.bytes.now }
    ensures within { IsAt bytes.now scanner.old → scanner.new.at ≤ length bytes.now }
    ensures read { IsAt bytes.now scanner.old → IsLine bytes.now → AreParams table.now (ty ∷ []) →
        IfOk result (λ o. IfSome o (λ p. (v : Value)
        × IsNext table.now i ty bytes.now scanner.old.at p v scanner.new.at
        × Adds counts.old counts.new (λ k. cells k v))) }
    ensures none { IsAt bytes.now scanner.old → IsLine bytes.now → AreParams table.now (ty ∷ []) → result ≡ Ok None →
        (ks : List ℕ) (vs : Values) → After i table.now (ty ∷ ks) (left scanner.old) vs → ⊥ }
{
    if !comma_before(scanner, i) {
        return Ok(None);
    }
    let place = scanner.at();
    if value(alloc, table, bytes, scanner, ty, counts)? {
        Ok(Some(place))
    } else {
        Ok(None)
    }
}

// Where the value of each parameter begins, after the opening bracket; their cells are counted. None where these don't
// stand there.
fn values(
    alloc: Global,
    table: &TypeTable,
    bytes: &[u8],
    scanner: &mut Scanner,
    params: &[Param],
    counts: &mut Counts,
) -> Result<Option<Vec<usize>>, NoMemory>
    ensures read { IsAt bytes.now scanner.old → IsLine bytes.now → AreParams table.now (types_of params.now) →
        IfOk result (λ o. IfSome o (λ ps. (vs : Values) × Given table.now (types_of params.now) (left scanner.old) vs
        × AreAt table.now bytes.now (types_of params.now) ps.items vs
        × Adds counts.old counts.new (λ k. cells_of_all k vs))) }
    ensures none { IsAt bytes.now scanner.old → IsLine bytes.now → AreParams table.now (types_of params.now) →
        result ≡ Ok None → (vs : Values) → Given table.now (types_of params.now) (left scanner.old) vs → ⊥ }
{
    let mut places = Vec::new(alloc);
    for (i, param) in params.iter().enumerate() {
        match next_value(alloc, table, bytes, scanner, i, param.ty, counts)? {
            Some(place) => places.push(place)?,
            None => return Ok(None),
        }
    }
    if scanner.sign(b')') && scanner.is_at_end() {
        Ok(Some(places))
    } else {
        Ok(None)
    }
}

// The cells of credits are counted.
fn add_credits(counts: &mut Counts, credits: &[u8])
    ensures { AreCredits credits.now → Adds counts.old counts.new (λ k. count k credits.now) }
{
    for size in credits {
        counts.add_one(*size as usize);
    }
}

// The function of a number.
pub fn function_at(code: &Code, entry: usize) -> Option<&Function>
    ensures there { IfSome result (λ f. slice_get code.now.functions.items entry ≡ Some f.now) }
    ensures none { result ≡ None → length code.now.functions.items ≤ entry }
{
    code.functions.get(entry)
}

// The values of a line's function after its name; the cells of these and of the function's credits are counted. None
// where it isn't called so.
fn called(
    alloc: Global,
    code: &Code,
    scanner: &mut Scanner,
    bytes: &[u8],
    function: &Function,
    counts: &mut Counts,
) -> Result<Option<Vec<usize>>, NoMemory>
    ensures read { IsAt bytes.now scanner.old → IsLine bytes.now →
        AreParams code.now.types (types_of function.now.params) → AreCredits function.now.credits.items →
        IfOk result (λ o. IfSome o (λ ps. (vs : Values) × IsCalled code.now (left scanner.old) function.now vs
        × AreAt code.now.types bytes.now (types_of function.now.params) ps.items vs
        × Adds counts.old counts.new (wanted function.now.credits.items vs))) }
    ensures none { IsAt bytes.now scanner.old → IsLine bytes.now →
        AreParams code.now.types (types_of function.now.params) → AreCredits function.now.credits.items →
        result ≡ Ok None → (vs : Values) → IsCalled code.now (left scanner.old) function.now vs → ⊥ }
{
    if !scanner.sign(b'(') {
        return Ok(None);
    }
    let params = function.params.as_slice();
    match values(alloc, &code.types, bytes, scanner, params, counts)? {
        Some(values) => {
            add_credits(counts, function.credits.as_slice());
            Ok(Some(values))
        }
        None => Ok(None),
    }
}

/// The task that a line is; the cells of its values and of its entry's credits are counted. None where it is none.
pub fn task_of<'l>(
    alloc: Global,
    code: &Code,
    entries: &Entries,
    bytes: &'l [u8],
    counts: &mut Counts,
) -> Result<Option<TaskLine<'l>>, NoMemory>
    ensures there { IfOk result (λ o. IfSome o (λ t. t.entry < length code.now.functions.items)) }
    ensures read { IsReadable code.now → AreEntries code.now.functions.items entries.now.numbers → IsLine bytes.now →
        IfOk result (λ o. IfSome o (λ t. (c : Called) × IsCall code.now bytes.now c × IsLineOf code.now t c
        × Adds counts.old counts.new (wanted c.function.credits.items c.values))) }
    ensures none { IsReadable code.now → AreEntries code.now.functions.items entries.now.numbers → IsLine bytes.now →
        result ≡ Ok None → (c : Called) → IsCall code.now bytes.now c → ⊥ }
{
    let mut scanner = Scanner::new(bytes);
    let Some(name) = scanner.name() else {
        return Ok(None);
    };
    let Some(entry) = entries.find(name) else {
        return Ok(None);
    };
    let Some(function) = function_at(code, entry) else {
        return Ok(None);
    };
    match called(alloc, code, &mut scanner, bytes, function, counts)? {
        Some(values) => Ok(Some(TaskLine {
            bytes,
            entry,
            values,
        })),
        None => Ok(None),
    }
}
