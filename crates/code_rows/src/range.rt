// S1: the numbers in an instruction.
ghost use Rattle.std.specs.Prelude.{◌≡◌};
ghost use Rattle.code_rules.specs.Ranges.{are_below, is_target, in_range};
ghost use Rattle.code_rows.specs.Placing.{code_of, function_of};

use crate::place::Place;
use cell_code::Instr;

/// Whether an instruction keeps S1, at its place.
pub fn is_in_range(place: &Place, instr: &Instr) -> bool
    ensures { result ≡ in_range (code_of place.now) (function_of place.now) place.now.at instr.now }
{
    let n = place.function.registers;
    match instr {
        Instr::Const { destination, .. } => *destination < n,
        Instr::Atom {
            destination,
            ty,
            constructor,
        } => *destination < n && place.table.is_constructor(*ty, *constructor),
        Instr::Move {
            destination,
            source,
        } => *destination < n && *source < n,
        Instr::Arith {
            destination,
            left,
            right,
            ..
        } => *destination < n && *left < n && *right < n,
        Instr::Test {
            register,
            target,
            ..
        } => *register < n && is_target(place, *target),
        Instr::TestInt {
            register,
            target,
            ..
        } => *register < n && is_target(place, *target),
        Instr::Peek {
            destination,
            register,
            ..
        } => *destination < n && *register < n,
        Instr::Take { register, fields } => *register < n && are_below(n, fields.as_slice()),
        Instr::Put {
            register,
            ty,
            constructor,
            fields,
        } => {
            *register < n
                && place.table.is_constructor(*ty, *constructor)
                && are_below(n, fields.as_slice())
        }
        Instr::Drop { register } => *register < n,
        Instr::Free { register } => *register < n,
        Instr::Call {
            function,
            arguments,
            destinations,
        } => {
            (*function as usize) < place.functions.len()
                && are_below(n, arguments.as_slice())
                && are_below(n, destinations.as_slice())
        }
        Instr::Tail {
            function,
            arguments,
        } => (*function as usize) < place.functions.len() && are_below(n, arguments.as_slice()),
        Instr::Ret { results } => are_below(n, results.as_slice()),
        Instr::Jump { target } => is_target(place, *target),
    }
}

// Whether these are all registers of a function with n registers.
fn are_below(n: u16, registers: &[u16]) -> bool
    ensures { result ≡ are_below n registers.now }
{
    for register in registers {
        if *register >= n {
            return false;
        }
    }
    true
}

// Whether an instruction may go on at this one: it is after it, in the function, and has a label map.
fn is_target(place: &Place, target: u32) -> bool
    ensures { result ≡ is_target (function_of place.now) place.now.at target }
{
    place.at < target as usize
        && (target as usize) < place.function.instrs.len()
        && place.labels.has(target as usize)
}
