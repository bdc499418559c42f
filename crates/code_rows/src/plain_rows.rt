// The rows of instructions that write one register.
ghost use Rattle.std.specs.Prelude.{◌≡◌, ◌&&◌, ◌==◌, not, ℕ, ℤ};
ghost use Rattle.fip_language.specs.declared.Operator.{Operator};
ghost use Rattle.cell_code.specs.declared.code.Instr.TheVariants as I;
ghost use Rattle.code_rules.specs.Kinds.{at, is_free, is_scalar_of};
ghost use Rattle.code_rules.specs.Leaves.{result_type};
ghost use Rattle.code_rows.specs.Noting.{noted_all};
ghost use Rattle.code_rows.specs.Placing.{code_of, function_of};
ghost use Rattle.code_rows.specs.Rows.{row_kept, GoesOn};

use crate::asked_row::judge;
use crate::least::Least;
use crate::place::Place;
use fip_base::plain::Operator;
use register_kinds::Registers;

const INT: u32 = 0;

const BOOL: u32 = 1;

/// Const.
pub fn row_const<'a>(
    place: &Place<'a>,
    registers: &mut Registers<'a>,
    destination: u16,
    least: &mut Least,
) -> bool
    ensures noted { (v : ℤ) → least.new.first ≡ noted_all place.now.number place.now.at least.old.first
        (row_kept (code_of place.now) (function_of place.now) registers.old.kinds (I.Const destination v)) }
    ensures goes { (v : ℤ) → GoesOn (code_of place.now) (function_of place.now) registers.old.kinds
        (I.Const destination v) result registers.new.kinds }
    ensures maps { registers.new.maps ≡ registers.old.maps }
{
    let is_free = registers.is_free(destination);
    let is_asked = judge(place, true, is_free, least);
    if is_asked {
        registers.write_scalar(destination, INT);
    }
    is_asked
}

/// Atom.
pub fn row_atom<'a>(
    place: &Place<'a>,
    registers: &mut Registers<'a>,
    destination: u16,
    ty: u32,
    constructor: u32,
    least: &mut Least,
) -> bool
    ensures noted { least.new.first ≡ noted_all place.now.number place.now.at least.old.first
        (row_kept (code_of place.now) (function_of place.now) registers.old.kinds
        (I.Atom destination ty constructor)) }
    ensures goes { GoesOn (code_of place.now) (function_of place.now) registers.old.kinds
        (I.Atom destination ty constructor) result registers.new.kinds }
    ensures maps { registers.new.maps ≡ registers.old.maps }
{
    let is_bare = place.table.fields(ty, constructor).len() == 0;
    let is_free = registers.is_free(destination);
    let is_asked = judge(place, is_bare, is_free, least);
    if is_asked {
        registers.write_atom(place.table, destination, ty, constructor);
    }
    is_asked
}

/// Move.
pub fn row_move<'a>(
    place: &Place<'a>,
    registers: &mut Registers<'a>,
    destination: u16,
    source: u16,
    least: &mut Least,
) -> bool
    ensures noted { least.new.first ≡ noted_all place.now.number place.now.at least.old.first
        (row_kept (code_of place.now) (function_of place.now) registers.old.kinds (I.Move destination source)) }
    ensures goes { GoesOn (code_of place.now) (function_of place.now) registers.old.kinds
        (I.Move destination source) result registers.new.kinds }
    ensures maps { registers.new.maps ≡ registers.old.maps }
{
    let is_there = !registers.is_gone(source);
    let is_free = is_free_beside(registers, destination, source);
    let is_asked = judge(place, is_there, is_free, least);
    if is_asked {
        registers.move_word(destination, source);
    }
    is_asked
}

/// Whether a register may be overwritten, and isn't another one.
pub fn is_free_beside(registers: &Registers, destination: u16, other: u16) -> bool
    ensures { result ≡ (is_free (at registers.now.kinds destination) && not (destination == other)) }
{
    registers.is_free(destination) && destination != other
}

/// Arith.
pub fn row_arith<'a>(
    place: &Place<'a>,
    registers: &mut Registers<'a>,
    destination: u16,
    operator: Operator,
    left: u16,
    right: u16,
    least: &mut Least,
) -> bool
    ensures noted { (line col : ℕ) → least.new.first ≡ noted_all place.now.number place.now.at least.old.first
        (row_kept (code_of place.now) (function_of place.now) registers.old.kinds
        (I.Arith destination operator left right line col)) }
    ensures goes { (line col : ℕ) → GoesOn (code_of place.now) (function_of place.now) registers.old.kinds
        (I.Arith destination operator left right line col) result registers.new.kinds }
    ensures maps { registers.new.maps ≡ registers.old.maps }
{
    let are_ints = are_ints(registers, left, right);
    let is_free = registers.is_free(destination);
    let is_asked = judge(place, are_ints, is_free, least);
    if is_asked {
        registers.write_scalar(destination, type_of(operator));
    }
    is_asked
}

// Whether two registers are ints.
fn are_ints(registers: &Registers, left: u16, right: u16) -> bool
    ensures { result ≡ (is_scalar_of 0 (at registers.now.kinds left) && is_scalar_of 0 (at registers.now.kinds right)) }
{
    registers.is_scalar_of(left, INT) && registers.is_scalar_of(right, INT)
}

// The type of an operator's result.
fn type_of(operator: Operator) -> u32
    ensures { result ≡ result_type operator }
{
    match operator {
        Operator::Add => INT,
        Operator::Subtract => INT,
        Operator::Multiply => INT,
        Operator::Divide => INT,
        Operator::Remainder => INT,
        Operator::Equal => BOOL,
        Operator::NotEqual => BOOL,
        Operator::Less => BOOL,
        Operator::LessOrEqual => BOOL,
        Operator::Greater => BOOL,
        Operator::GreaterOrEqual => BOOL,
    }
}
