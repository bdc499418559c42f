// The rows of instructions that hand registers over.
ghost use Rattle.std.specs.Prelude.{◌≡◌};
ghost use Rattle.cell_code.specs.declared.code.Instr.TheVariants as I;
ghost use Rattle.code_rules.specs.Asked.{tail_left};
ghost use Rattle.code_rules.specs.Asked as asked;
ghost use Rattle.code_rules.specs.Endings.{nothing_owned};
ghost use Rattle.code_rules.specs.Handing.{kept_if};
ghost use Rattle.code_rules.specs.Handing as handing;
ghost use Rattle.code_rows.specs.Noting.{noted_all};
ghost use Rattle.code_rows.specs.Placing.{code_of, function_of};
ghost use Rattle.code_rows.specs.Rows.{row_kept, GoesOn};

use crate::asked_row::{judge, note_unless};
use crate::calls::{credits_of, params_of, results_of};
use crate::least::Least;
use crate::place::Place;
use code_rules::SoundRule;
use register_kinds::Registers;

/// Put.
pub fn row_put<'a>(
    place: &Place<'a>,
    registers: &mut Registers<'a>,
    register: u16,
    ty: u32,
    constructor: u32,
    fields: &[u16],
    least: &mut Least,
) -> bool
    ensures noted { least.new.first ≡ noted_all place.now.number place.now.at least.old.first
        (row_kept (code_of place.now) (function_of place.now) registers.old.kinds
        (I.Put register ty constructor fields.now)) }
    ensures goes { GoesOn (code_of place.now) (function_of place.now) registers.old.kinds
        (I.Put register ty constructor fields.now) result registers.new.kinds }
    ensures maps { registers.new.maps ≡ registers.old.maps }
{
    let is_credit = registers.is_credit_of(register, fields.len());
    let are_given = registers.give_all(fields, place.table.fields(ty, constructor));
    let is_asked = judge(place, are_given, is_credit, least);
    if is_asked {
        registers.write_cell(register, ty, constructor);
    }
    is_asked
}

/// Call.
pub fn row_call<'a>(
    place: &Place<'a>,
    registers: &mut Registers<'a>,
    callee: u32,
    arguments: &[u16],
    destinations: &[u16],
    least: &mut Least,
) -> bool
    ensures noted { least.new.first ≡ noted_all place.now.number place.now.at least.old.first
        (row_kept (code_of place.now) (function_of place.now) registers.old.kinds
        (I.Call callee arguments.now destinations.now)) }
    ensures goes { GoesOn (code_of place.now) (function_of place.now) registers.old.kinds
        (I.Call callee arguments.now destinations.now) result registers.new.kinds }
    ensures maps { registers.new.maps ≡ registers.old.maps }
{
    let results = results_of(place, callee);
    let are_handed = hand_over(place, registers, false, callee, arguments);
    let are_places = can_receive(registers, are_handed, results.len(), destinations);
    let is_asked = judge(place, are_handed, are_places, least);
    if is_asked {
        registers.receive_all(place.table, destinations, results);
    }
    is_asked
}

// Hands registers over as the arguments of a call of a function. Whether they fit.
fn hand_over<'a>(
    place: &Place<'a>,
    registers: &mut Registers<'a>,
    in_tail: bool,
    callee: u32,
    given: &[u16],
) -> bool
    ensures is { kept_if result registers.new.kinds
        ≡ handing.arguments (code_of place.now) in_tail registers.old.kinds callee given.now }
    ensures maps { registers.new.maps ≡ registers.old.maps }
{
    let params = params_of(place, callee);
    let credits = credits_of(place, callee);
    registers.hand_over(place.table, in_tail, params, credits, given)
}

// Whether there is one register for each result, after arguments, and all may be overwritten; also where the arguments
// didn't fit.
fn can_receive(
    registers: &Registers,
    are_handed: bool,
    results: usize,
    destinations: &[u16],
) -> bool
    ensures { result ≡ asked.can_receive (kept_if are_handed registers.now.kinds) results destinations.now }
{
    if !are_handed {
        return true;
    }
    destinations.len() == results && registers.are_places(destinations)
}

/// Tail.
pub fn row_tail<'a>(
    place: &Place<'a>,
    registers: &mut Registers<'a>,
    callee: u32,
    arguments: &[u16],
    least: &mut Least,
) -> bool
    ensures noted { least.new.first ≡ noted_all place.now.number place.now.at least.old.first
        (row_kept (code_of place.now) (function_of place.now) registers.old.kinds (I.Tail callee arguments.now)) }
    ensures goes { GoesOn (code_of place.now) (function_of place.now) registers.old.kinds
        (I.Tail callee arguments.now) result registers.new.kinds }
    ensures maps { registers.new.maps ≡ registers.old.maps }
{
    let are_handed = hand_over_last(place, registers, callee, arguments);
    let is_spent = is_spent(registers, are_handed);
    judge(place, are_handed, true, least);
    note_unless(place, is_spent, SoundRule::S6, least);
    false
}

// Hands registers over as the arguments of a tail call of a function. Whether they fit, and its results are those of
// the function.
fn hand_over_last<'a>(
    place: &Place<'a>,
    registers: &mut Registers<'a>,
    callee: u32,
    given: &[u16],
) -> bool
    ensures is { kept_if result registers.new.kinds
        ≡ tail_left (code_of place.now) (function_of place.now) registers.old.kinds callee given.now }
    ensures maps { registers.new.maps ≡ registers.old.maps }
{
    if !same_types(results_of(place, callee), place.function.results.as_slice()) {
        return false;
    }
    hand_over(place, registers, true, callee, given)
}

// Whether these are the same types.
fn same_types(types: &[u32], others: &[u32]) -> bool
    ensures { result ≡ asked.same_types types.now others.now }
{
    let mut place = 0usize;
    for ty in types {
        match others.get(place) {
            None => return false,
            Some(other) => {
                if *ty != *other {
                    return false;
                }
            }
        }
        place += 1;
    }
    others.get(place).is_none()
}

// Whether nothing owned and no credit is left after registers that were handed over; also where they didn't fit.
fn is_spent(registers: &Registers, are_handed: bool) -> bool
    ensures { result ≡ nothing_owned (kept_if are_handed registers.now.kinds) }
{
    if !are_handed {
        return true;
    }
    registers.are_free()
}

/// Ret.
pub fn row_ret<'a>(
    place: &Place<'a>,
    registers: &mut Registers<'a>,
    results: &[u16],
    least: &mut Least,
) -> bool
    ensures noted { least.new.first ≡ noted_all place.now.number place.now.at least.old.first
        (row_kept (code_of place.now) (function_of place.now) registers.old.kinds (I.Ret results.now)) }
    ensures goes { GoesOn (code_of place.now) (function_of place.now) registers.old.kinds (I.Ret results.now) result
        registers.new.kinds }
    ensures maps { registers.new.maps ≡ registers.old.maps }
{
    let are_given = registers.give_all(results, place.function.results.as_slice());
    let is_spent = is_spent(registers, are_given);
    judge(place, are_given, true, least);
    note_unless(place, is_spent, SoundRule::S6, least);
    false
}
