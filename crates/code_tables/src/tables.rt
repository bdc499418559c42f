// The tables of a code.
ghost use Rattle.std.specs.Prelude.{◌≡◌, ◌↔◌, ◌≤◌, ◌^◌, ◌<◌, IfOk, IsTrue, length, map};
ghost use Rattle.fip_language.specs.Table.{constructors};
ghost use Rattle.cell_code.specs.Plain.{plain};
ghost use Rattle.code_rules.specs.Headers.{are_types};
ghost use Rattle.code_rules.specs.Tables.{AreSoundTables};
ghost use Rattle.code_tables.specs.Apart.{none_met, is_any_name, is_some_name, apart, shape_names, function_names};
ghost use Rattle.code_tables.specs.Rows.{is_bare, is_bool_row, is_narrow, are_narrow, is_sound_row, are_sound_rows};

use crate::finite::have_values;
use crate::names::Names;
use cell_code::{Code, Function};
use fip_base::plain::NoMemory;
use fip_base::table::{Constructor, TypeTable};
use fip_language::limits::{MOST_FIELDS, MOST_INSTANCES};
use std::alloc::Global;

/// Whether the tables of a code are sound, which is checked first of a code. It takes time in proportion to them.
/// NoMemory: no memory is left.
pub fn are_sound_tables(alloc: Global, code: &Code) -> Result<bool, NoMemory>
    ensures exact { IfOk result (λ sound. IsTrue sound ↔ AreSoundTables (plain code.now)) }
{
    if code.types.len() > MOST_INSTANCES || code.functions.len() > MOST_INSTANCES {
        return Ok(false);
    }
    if !has_bool(&code.types) {
        return Ok(false);
    }
    if !are_sound_rows(alloc, &code.types)? {
        return Ok(false);
    }
    if !have_values(alloc, &code.types)? {
        return Ok(false);
    }
    have_own_names(alloc, &code.functions)
}

// Whether type 1 is bool.
fn has_bool(types: &TypeTable) -> bool
    ensures { result ≡ is_bool_row (constructors types.now 1) }
{
    if types.len() == 0 {
        return false;
    }
    is_bool(types.constructors_of(1))
}

// Whether these are the constructors of bool.
fn is_bool(constructors: &[Constructor]) -> bool
    ensures { result ≡ is_bool_row constructors.now }
{
    match constructors {
        [one, other] => is_bare(one, b"False") && is_bare(other, b"True"),
        _ => false,
    }
}

// Whether it is the constructor of this name without fields.
fn is_bare(constructor: &Constructor, name: &[u8]) -> bool
    ensures { result ≡ is_bare name.now constructor.now }
{
    constructor.name() == name && constructor.fields().is_empty()
}

// Whether each type has constructors, each of its own name, and fields that are not too many and have types.
fn are_sound_rows(alloc: Global, types: &TypeTable) -> Result<bool, NoMemory>
    requires few { length types.now ≤ MOST_INSTANCES }
    ensures { IfOk result (λ sound. sound ≡ are_sound_rows types.now types.now) }
{
    for place in 0..types.len() {
        if !is_sound_row(alloc, types, types.constructors_of(place as u32 + 1))? {
            return Ok(false);
        }
    }
    Ok(true)
}

// Whether these may be the constructors of one type.
fn is_sound_row(
    alloc: Global,
    types: &TypeTable,
    constructors: &[Constructor],
) -> Result<bool, NoMemory>
    ensures { IfOk result (λ sound. sound ≡ is_sound_row types.now constructors.now) }
{
    if constructors.is_empty() || !are_narrow(types, constructors) {
        return Ok(false);
    }
    are_apart(alloc, constructors)
}

// Whether each has fields that are not too many and have types.
fn are_narrow(types: &TypeTable, constructors: &[Constructor]) -> bool
    ensures { result ≡ are_narrow types.now constructors.now }
{
    for constructor in constructors {
        if !is_narrow(types, constructor) {
            return false;
        }
    }
    true
}

fn is_narrow(types: &TypeTable, constructor: &Constructor) -> bool
    ensures { result ≡ is_narrow types.now constructor.now }
{
    let fields = constructor.fields();
    fields.len() <= MOST_FIELDS && are_types(types, fields)
}

// Whether these are all types of the table.
fn are_types(types: &TypeTable, numbers: &[u32]) -> bool
    ensures { result ≡ are_types types.now numbers.now }
{
    for number in numbers {
        if *number as usize > types.len() {
            return false;
        }
    }
    true
}

// Whether no two of them have one name.
fn are_apart(alloc: Global, constructors: &[Constructor]) -> Result<bool, NoMemory>
    ensures { IfOk result (λ own. own ≡ apart is_any_name none_met (shape_names constructors.now)) }
{
    let mut names = Names::new(alloc);
    for constructor in constructors {
        if !names.meet(constructor.name())? {
            return Ok(false);
        }
    }
    Ok(true)
}

// Whether no two functions have one name, but the empty one.
fn have_own_names(alloc: Global, functions: &[Function]) -> Result<bool, NoMemory>
    ensures { IfOk result (λ own. own ≡ apart is_some_name none_met (function_names functions.now)) }
{
    let mut names = Names::new(alloc);
    for function in functions {
        let name = function.name.as_slice();
        if !name.is_empty() && !names.meet(name)? {
            return Ok(false);
        }
    }
    Ok(true)
}
