// A walk over a function's instructions.
ghost use Rattle.std.specs.Prelude.{◌≡◌, ◌<◌, ◌++◌, [], slice_get, length, None, Some, IfOk, OnOk, true, FitsSigned};
ghost use Rattle.std.specs.Int.{w64};
ghost use Rattle.cell_code.specs.Plain.{plain_function, plain};
ghost use Rattle.code_rules.specs.Codes.{label_at};
ghost use Rattle.code_rules.specs.Kinds.{at};
ghost use Rattle.code_rules.specs.Ranges.{in_range};
ghost use Rattle.code_rules.specs.Headers as headers;
ghost use Rattle.code_rules.specs.Handing.{kept_if};
ghost use Rattle.code_verify.specs.Checked.{HasMachineInt};
ghost use Rattle.code_rules.specs.declared.rule.SoundRule.TheVariants.{S1};
ghost use Rattle.code_rows.specs.Noting.{noted_unless};
ghost use Rattle.code_rows.specs.Placing.{code_of, function_of};
ghost use Rattle.code_verify.specs.Steps.{last_kept, fip_kept, asked, GoesAfter, here, Took};
ghost use Rattle.code_verify.specs.Steps.{calls_of_instr, waiting_of_instr, drops_of_instr};
ghost use Rattle.code_verify.specs.Steps.{call_if, waiting_if, drop_if};
ghost use Rattle.code_verify.specs.Finding.{IsFound, HasMachineIntsBelow};

use call_groups::Call;
use cell_code::{Code, Function, Instr};
use code_rows::kinds::{Registers, Table};
use code_rows::{
    Labels, Least, Place, arrive, is_end, is_fip, is_in_range, note_unless, releases, row,
};
use code_rules::SoundRule;
use fip_base::plain::NoMemory;
use std::alloc::Global;

/// A call outside tail position: its instruction, and the function that is called.
#[derive(Clone, Copy)]
pub struct Waiting {
    pub at: usize,
    pub callee: usize,
}

/// The type of the tree that a Drop releases.
#[derive(Clone, Copy)]
pub struct DropType {
    pub at: usize,
    pub ty: u32,
}

/// What a function was found to do: the least violation but S8; the calls that can be reached, and those outside tail
/// position; for each Drop that can be reached its type, in the order of the instructions.
#[derive(Drop)]
pub struct Found {
    pub least: Least,
    pub calls: Vec<Call>,
    pub waiting: Vec<Waiting>,
    pub drops: Vec<DropType>,
}

/// Walks over the instructions of a function that keeps S9. NoMemory: no memory is left.
pub fn walk<'a>(
    alloc: Global,
    code: &'a Code,
    table: &'a Table<'a>,
    function: &'a Function,
    number: usize,
) -> Result<Found, NoMemory>
    requires types { table.now ≡ code.now.types }
    requires formed { headers.is_formed (plain code.now) (plain_function function.now) ≡ true }
    ensures found { IfOk result (λ r. IsFound (plain code.now) number (plain_function function.now)
        (length function.now.instrs.items) r) }
    ensures literals { OnOk result (HasMachineIntsBelow (plain_function function.now)
        (length function.now.instrs.items)) }
{
    let labels = Labels::of(alloc, function)?;
    walk_over(alloc, code, table, function, &labels, number)
}

// The same with its label maps by instruction.
fn walk_over<'a>(
    alloc: Global,
    code: &'a Code,
    table: &'a Table<'a>,
    function: &'a Function,
    labels: &'a Labels<'a>,
    number: usize,
) -> Result<Found, NoMemory>
    requires types { table.now ≡ code.now.types }
    requires formed { headers.is_formed (plain code.now) (plain_function function.now) ≡ true }
    requires labels { labels.now ≡ (plain_function function.now).labels }
    ensures found { IfOk result (λ r. IsFound (plain code.now) number (plain_function function.now)
        (length function.now.instrs.items) r) }
    ensures literals { OnOk result (HasMachineIntsBelow (plain_function function.now)
        (length function.now.instrs.items)) }
{
    let mut registers = Registers::enter(alloc, table, function)?;
    let mut found = nothing(alloc);
    let mut known = true;
    for at in 0..function.instrs.len() {
        let place = Place {
            table,
            functions: code.functions.as_slice(),
            function,
            labels,
            number,
            at,
        };
        known = enter(&place, &mut registers, known);
        known = step(
            &place,
            &mut registers,
            instr_at(function, at),
            known,
            &mut found,
        )?;
    }
    Ok(found)
}

// An instruction. An int that it writes has 64 bits by its type.
fn instr_at(function: &Function, at: usize) -> &Instr
    requires within { at < length function.now.instrs.items }
    ensures is { slice_get function.now.instrs.items at ≡ Some result.now }
    ensures literal { HasMachineInt result.now }
{
    let instr = &function.instrs[at];
    if let Instr::Const { value, .. } = instr {
        has_64_bits(*value);
    }
    instr
}

// For the proof of `instr_at` alone: an int has 64 bits.
fn has_64_bits(value: i64)
    ensures { FitsSigned w64 value }
{}

// Nothing was found.
fn nothing(alloc: Global) -> Found
    ensures least { result.least.first ≡ None }
    ensures calls { result.calls.items ≡ [] }
    ensures waiting { result.waiting.items ≡ [] }
    ensures drops { result.drops.items ≡ [] }
{
    Found {
        least: Least::new(),
        calls: Vec::new(alloc),
        waiting: Vec::new(alloc),
        drops: Vec::new(alloc),
    }
}

// At an instruction with a label map that holds, whatever comes. Whether anything is known.
fn enter<'a>(place: &Place<'a>, registers: &mut Registers<'a>, known: bool) -> bool
    requires maps { registers.old.maps ≡ place.now.labels.now }
    ensures here { kept_if result registers.new.kinds
        ≡ here (label_at place.now.labels.now place.now.at) (kept_if known registers.old.kinds) }
    ensures maps { registers.new.maps ≡ registers.old.maps }
{
    match place.labels.find(place.at) {
        Some(label) => {
            registers.adopt(label);
            true
        }
        None => known,
    }
}

// One instruction, where the kinds before it are known or not. Whether those after it are.
fn step<'a>(
    place: &Place<'a>,
    registers: &mut Registers<'a>,
    instr: &'a Instr,
    known: bool,
    found: &mut Found,
) -> Result<bool, NoMemory>
    requires maps { registers.old.maps ≡ place.now.labels.now }
    requires within { place.now.at < length place.now.function.now.instrs.items }
    ensures goes { IfOk result (λ goes. GoesAfter (code_of place.now) (function_of place.now) place.now.at
        (kept_if known registers.old.kinds) instr.now goes registers.new.kinds) }
    ensures took { IfOk result (λ goes. Took (code_of place.now) place.now.number (function_of place.now) place.now.at
        (kept_if known registers.old.kinds) instr.now goes registers.new.kinds found.old found.new) }
    ensures maps { OnOk result (registers.new.maps ≡ registers.old.maps) }
{
    if !known {
        note_range(place, instr, &mut found.least);
        return Ok(false);
    }
    keep_call(place, instr, found)?;
    keep_drop(place, registers, instr, found)?;
    Ok(ask(place, registers, instr, &mut found.least))
}

// An instruction that is never reached is checked for S1 alone.
fn note_range(place: &Place, instr: &Instr, least: &mut Least)
    ensures { least.new.first ≡ noted_unless place.now.number place.now.at
        (in_range (code_of place.now) (function_of place.now) place.now.at instr.now) S1 least.old.first }
{
    let in_range = is_in_range(place, instr);
    note_unless(place, in_range, SoundRule::S1, least);
}

// Checks all rules but S8 of an instruction that is reached. Whether the next one is, from it.
fn ask<'a>(
    place: &Place<'a>,
    registers: &mut Registers<'a>,
    instr: &'a Instr,
    least: &mut Least,
) -> bool
    requires maps { registers.old.maps ≡ place.now.labels.now }
    requires within { place.now.at < length place.now.function.now.instrs.items }
    ensures noted { least.new.first ≡ asked (code_of place.now) place.now.number (function_of place.now) place.now.at
        registers.old.kinds instr.now result registers.new.kinds least.old.first }
    ensures goes { GoesAfter (code_of place.now) (function_of place.now) place.now.at (Some registers.old.kinds)
        instr.now result registers.new.kinds }
    ensures maps { registers.new.maps ≡ registers.old.maps }
{
    let in_range = is_in_range(place, instr);
    note_unless(place, in_range, SoundRule::S1, least);
    note_unless(place, ends_last(place, instr), SoundRule::S4, least);
    note_unless(place, keeps_fip(place, instr), SoundRule::S7, least);
    if !in_range {
        return false;
    }
    let goes_on = row(place, registers, instr, least);
    if goes_on {
        arrive(place, registers, place.at + 1, least);
    }
    goes_on
}

// Whether an instruction isn't the last, or ends the function.
fn ends_last(place: &Place, instr: &Instr) -> bool
    requires within { place.now.at < length place.now.function.now.instrs.items }
    ensures { result ≡ last_kept (function_of place.now) place.now.at instr.now }
{
    place.at + 1 != place.function.instrs.len() || is_end(instr)
}

// Whether a function isn't fip, or an instruction of it releases no cell.
fn keeps_fip(place: &Place, instr: &Instr) -> bool
    ensures { result ≡ fip_kept (code_of place.now) (function_of place.now) instr.now }
{
    !(is_fip(place.function) && releases(place, instr))
}

// Keeps a call, where it names a function.
fn keep_call(place: &Place, instr: &Instr, found: &mut Found) -> Result<(), NoMemory>
    ensures calls { OnOk result (found.new.calls.items
        ≡ found.old.calls.items ++ calls_of_instr (code_of place.now) instr.now) }
    ensures waiting { OnOk result (found.new.waiting.items
        ≡ found.old.waiting.items ++ waiting_of_instr (code_of place.now) place.now.at instr.now) }
    ensures least { OnOk result (found.new.least.first ≡ found.old.least.first) }
    ensures drops { OnOk result (found.new.drops.items ≡ found.old.drops.items) }
{
    match instr {
        Instr::Call { function, .. } => keep(place, *function as usize, true, found),
        Instr::Tail { function, .. } => keep(place, *function as usize, false, found),
        _ => Ok(()),
    }
}

fn keep(place: &Place, callee: usize, waits: bool, found: &mut Found) -> Result<(), NoMemory>
    ensures calls { OnOk result (found.new.calls.items
        ≡ found.old.calls.items ++ call_if (code_of place.now) callee waits) }
    ensures waiting { OnOk result (found.new.waiting.items
        ≡ found.old.waiting.items ++ waiting_if (code_of place.now) place.now.at callee waits) }
    ensures least { OnOk result (found.new.least.first ≡ found.old.least.first) }
    ensures drops { OnOk result (found.new.drops.items ≡ found.old.drops.items) }
{
    if callee >= place.functions.len() {
        return Ok(());
    }
    found.calls.push(Call { callee, waits })?;
    if waits {
        found.waiting.push(Waiting {
            at: place.at,
            callee,
        })?;
    }
    Ok(())
}

// Keeps the type of a Drop.
fn keep_drop(
    place: &Place,
    registers: &Registers,
    instr: &Instr,
    found: &mut Found,
) -> Result<(), NoMemory>
    ensures calls { OnOk result (found.new.calls.items ≡ found.old.calls.items) }
    ensures waiting { OnOk result (found.new.waiting.items ≡ found.old.waiting.items) }
    ensures least { OnOk result (found.new.least.first ≡ found.old.least.first) }
    ensures drops { OnOk result (found.new.drops.items
        ≡ found.old.drops.items ++ drops_of_instr registers.now.kinds place.now.at instr.now) }
{
    match instr {
        Instr::Drop { register } => keep_type(place, registers, *register, found),
        _ => Ok(()),
    }
}

fn keep_type(
    place: &Place,
    registers: &Registers,
    register: u16,
    found: &mut Found,
) -> Result<(), NoMemory>
    ensures calls { OnOk result (found.new.calls.items ≡ found.old.calls.items) }
    ensures waiting { OnOk result (found.new.waiting.items ≡ found.old.waiting.items) }
    ensures least { OnOk result (found.new.least.first ≡ found.old.least.first) }
    ensures drops { OnOk result (found.new.drops.items
        ≡ found.old.drops.items ++ drop_if place.now.at (at registers.now.kinds register)) }
{
    if let Some(ty) = registers.owned_type(register) {
        found.drops.push(DropType { at: place.at, ty })?;
    }
    Ok(())
}
