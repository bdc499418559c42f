// Verifying a code, what it has, and its end.
ghost use Rattle.std.specs.Prelude.{◌≡◌, ◌≢◌, ◌<◌, ℕ, false, Some, None, Err, IfOk, IsTrue, length, slice_get};
ghost use Rattle.fip_language.specs.SoundTable.{IsSoundTable};
ghost use Rattle.fip_language.specs.Table.{constructors, Shape};
ghost use Rattle.cell_code.specs.Naming.{IsNamed};
ghost use Rattle.cell_code.specs.declared.code.Function.{Function as a_function};
ghost use Rattle.fip_base.specs.declared.plain.Param.{Param as a_param};
ghost use Rattle.fip_host.specs.Verdicts.{IsVerdict, IsCodeOf, rule_number};
ghost use Rattle.fip_host.specs.Handing.{IsNewMachine, IsMachineOf};
ghost use Rattle.fip_host.specs.Needing.{IsNeed};
ghost use Rattle.fip_host.specs.Telling.{IsFunction, byte_count, field_count, filled};
ghost use Rattle.fip_host.specs.declared.answer.FipVerdict.{FipVerdict as a_verdict};

use super::fill;
use crate::answer::{FipFunction, FipNeed, FipParameter, FipVerdict};
use crate::handle::{Handle, Slot};
use crate::hosted::Hosted;
use cell_code::named;
use code_file::{ReadCodeError, read_code};
use code_verify::{SoundRule, Verified, VerifyError, verify};
use std::alloc::Global;

fn reported(status: u32, rule: u32, function: usize, at: usize) -> FipVerdict
    ensures status { result.status ≡ status }
    ensures rule { result.rule ≡ rule }
    ensures function { result.function ≡ function }
    ensures at { result.at ≡ at }
{
    FipVerdict {
        status,
        rule,
        function,
        at,
    }
}

fn rule_number(rule: SoundRule) -> u32
    ensures is { result ≡ rule_number rule }
{
    match rule {
        SoundRule::S0 => 0,
        SoundRule::S1 => 1,
        SoundRule::S2 => 2,
        SoundRule::S3 => 3,
        SoundRule::S4 => 4,
        SoundRule::S5 => 5,
        SoundRule::S6 => 6,
        SoundRule::S7 => 7,
        SoundRule::S8 => 8,
        SoundRule::S9 => 9,
    }
}

// The sound code of a file, or the verdict on its bytes.
fn verified_of(alloc: Global, bytes: &[u8]) -> Result<Verified, FipVerdict>
    ensures sound { IfOk result (IsCodeOf bytes.now) }
    ensures table { IfOk result (λ v. IsSoundTable v.code.types) }
    ensures verdict { (v : a_verdict) → result ≡ Err v → IsVerdict bytes.now v }
    ensures refused { (v : a_verdict) → result ≡ Err v → v.status ≢ 0 }
{
    match read_code(alloc, bytes) {
        Ok(code) => match verify(alloc, code) {
            Ok(verified) => {
                let _code = verified.code();
                Ok(verified)
            }
            Err(VerifyError::Unsound { function, at, rule }) => {
                Err(reported(11, rule_number(rule), function, at))
            }
            Err(VerifyError::NoMemory) => Err(reported(10, 0, 0, 0)),
        },
        Err(ReadCodeError::BadCode { at }) => Err(reported(8, 0, 0, at)),
        Err(ReadCodeError::NoMemory) => Err(reported(10, 0, 0, 0)),
    }
}

// Puts a machine of the code where the host wants it; false where there is no memory.
fn hand_out(alloc: Global, verified: Verified, machine: &mut Slot) -> bool
    requires table { IsSoundTable verified.code.types }
    ensures machine { IsTrue result → IsNewMachine verified machine.new.held }
    ensures none { result ≡ false → machine.new ≡ machine.old }
{
    match Box::new(alloc, Hosted::of(alloc, verified)) {
        Ok(boxed) => {
            *machine = Slot::of(boxed);
            true
        }
        Err(_) => false,
    }
}

// The verdict on the bytes; where they spell a sound code, a machine of it is put where the host wants it.
fn judged(alloc: Global, bytes: &[u8], machine: &mut Slot) -> FipVerdict
    ensures is { IsVerdict bytes.now result }
    ensures machine { result.status ≡ 0 → IsMachineOf bytes.now machine.new.held }
    ensures none { result.status ≢ 0 → machine.new ≡ machine.old }
{
    match verified_of(alloc, bytes) {
        Ok(verified) => {
            if hand_out(alloc, verified, machine) {
                reported(0, 0, 0, 0)
            } else {
                reported(10, 0, 0, 0)
            }
        }
        Err(refused) => refused,
    }
}

/// Reads and verifies a code file. Status 0: `machine` gets a machine of just that code, with no store and no run;
/// `fip_free` ends it. What was in `machine` before is written over, and not ended. Else nothing is written there: 8
/// where the bytes are no code file, 11 where the code isn't sound, 10 where there is no memory; `verdict` says more.
#[unsafe(no_mangle)]
pub extern "C" fn fip_verify(
    alloc: Global,
    bytes: &[u8],
    machine: &mut Slot,
    verdict: &mut FipVerdict,
) -> u32
    ensures is { IsVerdict bytes.now verdict.new }
    ensures status { result ≡ verdict.new.status }
    ensures machine { result ≡ 0 → IsMachineOf bytes.now machine.new.held }
    ensures none { result ≢ 0 → machine.new ≡ machine.old }
{
    *verdict = judged(alloc, bytes, machine);
    verdict.status
}

/// Ends a machine, and frees all its memory: the code, the store, the run, what was kept.
#[unsafe(no_mangle)]
pub extern "C" fn fip_free(machine: Handle) {
    let _machine = machine.into_box();
}

/// The number of functions of the code.
#[unsafe(no_mangle)]
pub extern "C" fn fip_functions(machine: &mut Handle) -> usize
    ensures number { result ≡ length machine.old.held.code.code.functions.items }
    ensures same { machine.new.held ≡ machine.old.held }
{
    machine.machine().verified().code().functions.len()
}

/// The number of the first function of a name. Status 12: there is none.
#[unsafe(no_mangle)]
pub extern "C" fn fip_find(machine: &mut Handle, name: &[u8], number: &mut usize) -> u32
    ensures same { machine.new.held ≡ machine.old.held }
    ensures found { result ≡ 0 → IsNamed machine.old.held.code.code.functions.items name.now number.new }
    ensures first { result ≡ 0 → (g : ℕ) → g < number.new →
        IsNamed machine.old.held.code.code.functions.items name.now g → ⊥ }
    ensures none { result ≢ 0 → (result ≡ 12) × (number.new ≡ number.old) × ((f : ℕ) → 0 < length name.now →
        IsNamed machine.old.held.code.code.functions.items name.now f → ⊥) }
{
    match named(machine.machine().verified().code(), name) {
        Some(found) => {
            *number = found;
            0
        }
        None => 12,
    }
}

/// What a function has. Status 12: there is none of this number.
#[unsafe(no_mangle)]
pub extern "C" fn fip_function(
    machine: &mut Handle,
    number: usize,
    function: &mut FipFunction,
) -> u32
    ensures same { machine.new.held ≡ machine.old.held }
    ensures reports { result ≡ 0 → IsFunction machine.old.held.code number function.new }
    ensures none { result ≢ 0 → (result ≡ 12) × (function.new ≡ function.old)
        × (slice_get machine.old.held.code.code.functions.items number ≡ None) }
{
    match machine.machine().reported(number) {
        Some(found) => {
            *function = found;
            0
        }
        None => 12,
    }
}

/// The name of a function: how many bytes it has; as much of it as fits is written to `out`. Status 12: there is none
/// of this number.
#[unsafe(no_mangle)]
pub extern "C" fn fip_name(
    machine: &mut Handle,
    number: usize,
    out: &mut [u8],
    length: &mut usize,
) -> u32
    ensures same { machine.new.held ≡ machine.old.held }
    ensures reports { result ≡ 0 → (f : a_function)
        × (slice_get machine.old.held.code.code.functions.items number ≡ Some f)
        × (out.new ≡ filled out.old f.name) × (length.new ≡ byte_count f.name) }
    ensures none { result ≢ 0 → (result ≡ 12) × (out.new ≡ out.old)
        × (slice_get machine.old.held.code.code.functions.items number ≡ None) }
{
    match machine.machine().function(number) {
        Some(function) => {
            fill(out, length, function.name.as_slice());
            0
        }
        None => 12,
    }
}

/// A parameter of a function, from 0. Status 12: there is none.
#[unsafe(no_mangle)]
pub extern "C" fn fip_parameter(
    machine: &mut Handle,
    number: usize,
    i: usize,
    parameter: &mut FipParameter,
) -> u32
    ensures same { machine.new.held ≡ machine.old.held }
    ensures reports { result ≡ 0 → (f : a_function)
        × (slice_get machine.old.held.code.code.functions.items number ≡ Some f) × (p : a_param)
        × (slice_get f.params i ≡ Some p) × (parameter.new.type_number ≡ p.ty) × (parameter.new.borrowed ≡ p.lent) }
    ensures none { result ≢ 0 → (result ≡ 12) × (parameter.new ≡ parameter.old) }
{
    let Some(function) = machine.machine().function(number) else {
        return 12;
    };
    match function.params.as_slice().get(i) {
        Some(param) => {
            *parameter = FipParameter {
                type_number: param.ty,
                borrowed: param.lent,
            };
            0
        }
        None => 12,
    }
}

/// The type of a result of a function, from 0. Status 12: there is none.
#[unsafe(no_mangle)]
pub extern "C" fn fip_result_type(
    machine: &mut Handle,
    number: usize,
    i: usize,
    type_number: &mut u32,
) -> u32
    ensures same { machine.new.held ≡ machine.old.held }
    ensures reports { result ≡ 0 → (f : a_function)
        × (slice_get machine.old.held.code.code.functions.items number ≡ Some f)
        × (slice_get f.results i ≡ Some type_number.new) }
    ensures none { result ≢ 0 → (result ≡ 12) × (type_number.new ≡ type_number.old) }
{
    let Some(function) = machine.machine().function(number) else {
        return 12;
    };
    match function.results.as_slice().get(i) {
        Some(ty) => {
            *type_number = *ty;
            0
        }
        None => 12,
    }
}

/// The size of the cell of a credit of a function, from 0. Status 12: there is none.
#[unsafe(no_mangle)]
pub extern "C" fn fip_credit(machine: &mut Handle, number: usize, i: usize, size: &mut u8) -> u32
    ensures same { machine.new.held ≡ machine.old.held }
    ensures reports { result ≡ 0 → (f : a_function)
        × (slice_get machine.old.held.code.code.functions.items number ≡ Some f)
        × (slice_get f.credits.items i ≡ Some size.new) }
    ensures none { result ≢ 0 → (result ≡ 12) × (size.new ≡ size.old) }
{
    let Some(function) = machine.machine().function(number) else {
        return 12;
    };
    match function.credits.as_slice().get(i) {
        Some(credit) => {
            *size = *credit;
            0
        }
        None => 12,
    }
}

/// The number of data types of the code; they count from 1.
#[unsafe(no_mangle)]
pub extern "C" fn fip_types(machine: &mut Handle) -> usize
    ensures number { result ≡ length machine.old.held.code.code.types }
    ensures same { machine.new.held ≡ machine.old.held }
{
    machine.machine().verified().code().types.len()
}

/// A constructor of a type, from 0: how many fields it has, and how many bytes its name; as much of the name as fits is
/// written to `out`. Status 12: there is none.
#[unsafe(no_mangle)]
pub extern "C" fn fip_constructor(
    machine: &mut Handle,
    type_number: u32,
    i: usize,
    fields: &mut usize,
    out: &mut [u8],
    length: &mut usize,
) -> u32
    ensures same { machine.new.held ≡ machine.old.held }
    ensures reports { result ≡ 0 → (s : Shape)
        × (slice_get (constructors machine.old.held.code.code.types type_number) i ≡ Some s)
        × (fields.new ≡ field_count s) × (out.new ≡ filled out.old s.name) × (length.new ≡ byte_count s.name) }
    ensures none { result ≢ 0 → (result ≡ 12) × (out.new ≡ out.old) }
{
    let types = &machine.machine().verified().code().types;
    if type_number as usize > types.len() {
        return 12;
    }
    match types.constructors_of(type_number).get(i) {
        Some(constructor) => {
            *fields = constructor.fields().len();
            fill(out, length, constructor.name());
            0
        }
        None => 12,
    }
}

/// The type of a field of a constructor, each from 0. Status 12: there is none.
#[unsafe(no_mangle)]
pub extern "C" fn fip_field_type(
    machine: &mut Handle,
    type_number: u32,
    i: usize,
    field: usize,
    field_type: &mut u32,
) -> u32
    ensures same { machine.new.held ≡ machine.old.held }
    ensures reports { result ≡ 0 → (s : Shape)
        × (slice_get (constructors machine.old.held.code.code.types type_number) i ≡ Some s)
        × (slice_get s.fields field ≡ Some field_type.new) }
    ensures none { result ≢ 0 → (result ≡ 12) × (field_type.new ≡ field_type.old) }
{
    let types = &machine.machine().verified().code().types;
    if type_number as usize > types.len() {
        return 12;
    }
    let Some(constructor) = types.constructors_of(type_number).get(i) else {
        return 12;
    };
    match constructor.fields().get(field) {
        Some(ty) => {
            *field_type = *ty;
            0
        }
        None => 12,
    }
}

/// The bytes of memory that are reckoned for a store of so many words, with room for so many kept values, and for a run
/// of a function with so many frames, by functions for memory that add at most 32 bytes to each block: a formula, which is
/// enough as tests show. Status 12: there is no such function.
#[unsafe(no_mangle)]
pub extern "C" fn fip_need(
    machine: &mut Handle,
    number: usize,
    words: usize,
    kept: usize,
    frames: u64,
    need: &mut FipNeed,
) -> u32
    ensures same { machine.new.held ≡ machine.old.held }
    ensures reports { result ≡ 0 → IsNeed machine.old.held.code number words kept frames need.new }
    ensures none { result ≢ 0 → (result ≡ 12) × (need.new ≡ need.old)
        × (slice_get machine.old.held.code.code.functions.items number ≡ None) }
{
    match machine.machine().need(number, words, kept, frames) {
        Some(found) => {
            *need = found;
            0
        }
        None => 12,
    }
}
