// The row of an instruction.
ghost use Rattle.std.specs.Prelude.{◌≡◌, ◌∷◌, [], ◌&&◌};
ghost use Rattle.code_rules.specs.declared.rule.SoundRule.TheVariants.{S2, S3};
ghost use Rattle.code_rows.specs.Noting.{noted_unless, noted_all};
ghost use Rattle.code_rows.specs.Placing.{code_of, function_of};
ghost use Rattle.code_rows.specs.Rows.{row_kept, GoesOn};

use crate::handing_rows::{row_call, row_put, row_ret, row_tail};
use crate::jump_rows::{row_jump, row_test, row_test_int};
use crate::least::{Least, Violation};
use crate::place::Place;
use crate::plain_rows::{row_arith, row_atom, row_const, row_move};
use crate::tree_rows::{row_drop, row_free, row_peek, row_take};
use cell_code::Instr;
use code_rules::SoundRule;
use register_kinds::Registers;

/// Checks the row of an instruction that keeps S1, and changes what is known of the registers to what is known after
/// it. Whether anything is.
pub fn row<'a>(
    place: &Place<'a>,
    registers: &mut Registers<'a>,
    instr: &'a Instr,
    least: &mut Least,
) -> bool
    requires maps { registers.old.maps ≡ place.now.labels.now }
    ensures noted { least.new.first ≡ noted_all place.now.number place.now.at least.old.first
        (row_kept (code_of place.now) (function_of place.now) registers.old.kinds instr.now) }
    ensures goes { GoesOn (code_of place.now) (function_of place.now) registers.old.kinds instr.now result
        registers.new.kinds }
    ensures maps { registers.new.maps ≡ registers.old.maps }
{
    match instr {
        Instr::Const { destination, .. } => row_const(place, registers, *destination, least),
        Instr::Atom {
            destination,
            ty,
            constructor,
        } => row_atom(place, registers, *destination, *ty, *constructor, least),
        Instr::Move {
            destination,
            source,
        } => row_move(place, registers, *destination, *source, least),
        Instr::Arith {
            destination,
            operator,
            left,
            right,
            ..
        } => row_arith(
            place,
            registers,
            *destination,
            *operator,
            *left,
            *right,
            least,
        ),
        Instr::Test {
            register,
            constructor,
            target,
        } => row_test(place, registers, *register, *constructor, *target, least),
        Instr::TestInt {
            register,
            target,
            ..
        } => row_test_int(place, registers, *register, *target, least),
        Instr::Peek {
            destination,
            register,
            field,
        } => row_peek(place, registers, *destination, *register, *field, least),
        Instr::Take { register, fields } => {
            row_take(place, registers, *register, fields.as_slice(), least)
        }
        Instr::Put {
            register,
            ty,
            constructor,
            fields,
        } => row_put(
            place,
            registers,
            *register,
            *ty,
            *constructor,
            fields.as_slice(),
            least,
        ),
        Instr::Drop { register } => row_drop(place, registers, *register, least),
        Instr::Free { register } => row_free(place, registers, *register, least),
        Instr::Call {
            function,
            arguments,
            destinations,
        } => row_call(
            place,
            registers,
            *function,
            arguments.as_slice(),
            destinations.as_slice(),
            least,
        ),
        Instr::Tail {
            function,
            arguments,
        } => row_tail(place, registers, *function, arguments.as_slice(), least),
        Instr::Ret { results } => row_ret(place, registers, results.as_slice(), least),
        Instr::Jump { target } => row_jump(place, registers, *target, least),
    }
}

/// Notes that an instruction breaks a rule, unless it is kept.
pub fn note_unless(place: &Place, kept: bool, rule: SoundRule, least: &mut Least)
    ensures { least.new.first ≡ noted_unless place.now.number place.now.at kept rule least.old.first }
{
    if !kept {
        least.note(Violation {
            function: place.number,
            at: place.at,
            rule,
        });
    }
}

/// Notes what isn't as an instruction requires. Whether all is.
pub fn judge(place: &Place, sources: bool, destinations: bool, least: &mut Least) -> bool
    ensures noted { least.new.first ≡ noted_all place.now.number place.now.at least.old.first
        ((sources, S2) ∷ (destinations, S3) ∷ []) }
    ensures asked { result ≡ (sources && destinations) }
{
    note_unless(place, sources, SoundRule::S2, least);
    note_unless(place, destinations, SoundRule::S3, least);
    sources && destinations
}
