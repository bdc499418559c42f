// The rows of instructions that read a cell, take it apart, or release it.
ghost use Rattle.std.specs.Prelude.{◌≡◌, ◌&&◌, not};
ghost use Rattle.cell_code.specs.declared.code.Instr.TheVariants as I;
ghost use Rattle.code_rules.specs.Asked.{are_places};
ghost use Rattle.code_rules.specs.Kinds as kinds;
ghost use Rattle.code_rows.specs.Noting.{noted_all};
ghost use Rattle.code_rows.specs.Placing.{code_of, function_of};
ghost use Rattle.code_rows.specs.Rows.{row_kept, GoesOn};

use crate::asked_row::judge;
use crate::least::Least;
use crate::place::Place;
use crate::plain_rows::is_free_beside;
use cell_code::From;
use register_kinds::Registers;

/// Peek.
pub fn row_peek<'a>(
    place: &Place<'a>,
    registers: &mut Registers<'a>,
    destination: u16,
    register: u16,
    field: u8,
    least: &mut Least,
) -> bool
    ensures noted { least.new.first ≡ noted_all place.now.number place.now.at least.old.first
        (row_kept (code_of place.now) (function_of place.now) registers.old.kinds
        (I.Peek destination register field)) }
    ensures goes { GoesOn (code_of place.now) (function_of place.now) registers.old.kinds
        (I.Peek destination register field) result registers.new.kinds }
    ensures maps { registers.new.maps ≡ registers.old.maps }
{
    let types = registers.known_fields(place.table, register);
    let is_there = (field as usize) < types.len();
    let is_free = is_free_beside(registers, destination, register);
    let is_asked = judge(place, is_there, is_free, least);
    if let Some(ty) = types.get(field as usize) {
        if is_asked {
            registers.peek(place.table, destination, From { register, field }, *ty);
        }
    }
    is_asked
}

/// Take.
pub fn row_take<'a>(
    place: &Place<'a>,
    registers: &mut Registers<'a>,
    register: u16,
    fields: &[u16],
    least: &mut Least,
) -> bool
    ensures noted { least.new.first ≡ noted_all place.now.number place.now.at least.old.first
        (row_kept (code_of place.now) (function_of place.now) registers.old.kinds (I.Take register fields.now)) }
    ensures goes { GoesOn (code_of place.now) (function_of place.now) registers.old.kinds
        (I.Take register fields.now) result registers.new.kinds }
    ensures maps { registers.new.maps ≡ registers.old.maps }
{
    let can_take = registers.can_take(place.table, register, fields.len());
    let are_places = are_places_beside(registers, fields, register);
    let is_asked = judge(place, can_take, are_places, least);
    if is_asked {
        registers.take(place.table, register, fields);
    }
    is_asked
}

// Whether registers are distinct and may be overwritten, and another one isn't among them.
fn are_places_beside(registers: &Registers, fields: &[u16], other: u16) -> bool
    ensures { result ≡ (are_places registers.now.kinds fields.now && not (kinds.has fields.now other)) }
{
    registers.are_places(fields) && !has(fields, other)
}

// Whether a register is in a list.
fn has(registers: &[u16], wanted: u16) -> bool
    ensures { result ≡ kinds.has registers.now wanted }
{
    for register in registers {
        if *register == wanted {
            return true;
        }
    }
    false
}

/// Drop.
pub fn row_drop<'a>(
    place: &Place<'a>,
    registers: &mut Registers<'a>,
    register: u16,
    least: &mut Least,
) -> bool
    ensures noted { least.new.first ≡ noted_all place.now.number place.now.at least.old.first
        (row_kept (code_of place.now) (function_of place.now) registers.old.kinds (I.Drop register)) }
    ensures goes { GoesOn (code_of place.now) (function_of place.now) registers.old.kinds (I.Drop register) result
        registers.new.kinds }
    ensures maps { registers.new.maps ≡ registers.old.maps }
{
    let is_owned = registers.is_owned(register);
    let is_asked = judge(place, is_owned, true, least);
    if is_asked {
        registers.use_up(register);
    }
    is_asked
}

/// Free.
pub fn row_free<'a>(
    place: &Place<'a>,
    registers: &mut Registers<'a>,
    register: u16,
    least: &mut Least,
) -> bool
    ensures noted { least.new.first ≡ noted_all place.now.number place.now.at least.old.first
        (row_kept (code_of place.now) (function_of place.now) registers.old.kinds (I.Free register)) }
    ensures goes { GoesOn (code_of place.now) (function_of place.now) registers.old.kinds (I.Free register) result
        registers.new.kinds }
    ensures maps { registers.new.maps ≡ registers.old.maps }
{
    let is_credit = registers.is_credit(register);
    let is_asked = judge(place, is_credit, true, least);
    if is_asked {
        registers.write_gone(register);
    }
    is_asked
}
