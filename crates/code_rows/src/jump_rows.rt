// The rows of instructions that may go on at a target.
ghost use Rattle.std.specs.Prelude.{◌≡◌, ℤ};
ghost use Rattle.cell_code.specs.declared.code.Instr.TheVariants as I;
ghost use Rattle.code_rules.specs.declared.rule.SoundRule.TheVariants.{S5};
ghost use Rattle.code_rules.specs.Changes.{tested, without};
ghost use Rattle.code_rules.specs.Kinds.{at, set_of};
ghost use Rattle.code_rows.specs.Noting.{broken, noted_all, noted_unless};
ghost use Rattle.code_rows.specs.Placing.{code_of, function_of};
ghost use Rattle.code_rows.specs.Rows.{row_kept, GoesOn, fit_at};

use crate::asked_row::judge;
use crate::least::{Least, Violation};
use crate::place::Place;
use code_rules::SoundRule;
use register_kinds::Registers;

const INT: u32 = 0;

/// Test.
pub fn row_test<'a>(
    place: &Place<'a>,
    registers: &mut Registers<'a>,
    register: u16,
    constructor: u32,
    target: u32,
    least: &mut Least,
) -> bool
    requires maps { registers.old.maps ≡ place.now.labels.now }
    ensures noted { least.new.first ≡ noted_all place.now.number place.now.at least.old.first
        (row_kept (code_of place.now) (function_of place.now) registers.old.kinds
        (I.Test register constructor target)) }
    ensures goes { GoesOn (code_of place.now) (function_of place.now) registers.old.kinds
        (I.Test register constructor target) result registers.new.kinds }
    ensures maps { registers.new.maps ≡ registers.old.maps }
{
    let may_have = registers.may_have(place.table, register, constructor);
    let is_asked = judge(place, may_have, true, least);
    if is_asked {
        arrive_without(place, registers, target, register, constructor, least);
        registers.narrow(register, constructor);
    }
    is_asked
}

/// TestInt.
pub fn row_test_int<'a>(
    place: &Place<'a>,
    registers: &mut Registers<'a>,
    register: u16,
    target: u32,
    least: &mut Least,
) -> bool
    requires maps { registers.old.maps ≡ place.now.labels.now }
    ensures noted { (v : ℤ) → least.new.first ≡ noted_all place.now.number place.now.at least.old.first
        (row_kept (code_of place.now) (function_of place.now) registers.old.kinds (I.TestInt register v target)) }
    ensures goes { (v : ℤ) → GoesOn (code_of place.now) (function_of place.now) registers.old.kinds
        (I.TestInt register v target) result registers.new.kinds }
    ensures maps { registers.new.maps ≡ registers.old.maps }
{
    let is_int = registers.is_scalar_of(register, INT);
    let is_asked = judge(place, is_int, true, least);
    if is_asked {
        arrive(place, registers, target as usize, least);
    }
    is_asked
}

/// Jump.
pub fn row_jump<'a>(
    place: &Place<'a>,
    registers: &mut Registers<'a>,
    target: u32,
    least: &mut Least,
) -> bool
    requires maps { registers.old.maps ≡ place.now.labels.now }
    ensures noted { least.new.first ≡ noted_all place.now.number place.now.at least.old.first
        (row_kept (code_of place.now) (function_of place.now) registers.old.kinds (I.Jump target)) }
    ensures goes { GoesOn (code_of place.now) (function_of place.now) registers.old.kinds (I.Jump target) result
        registers.new.kinds }
    ensures maps { registers.new.maps ≡ registers.old.maps }
{
    arrive(place, registers, target as usize, least);
    false
}

/// What is known reaches an instruction, and is to fit its label map. Where a violation is known that comes before,
/// this one needn't be looked for.
pub fn arrive<'a>(
    place: &Place<'a>,
    registers: &mut Registers<'a>,
    target: usize,
    least: &mut Least,
)
    requires maps { registers.old.maps ≡ place.now.labels.now }
    ensures noted { least.new.first ≡ noted_unless place.now.number place.now.at
        (fit_at place.now.labels.now target registers.old.kinds) S5 least.old.first }
    ensures kinds { registers.new.kinds ≡ registers.old.kinds }
    ensures maps { registers.new.maps ≡ registers.old.maps }
{
    let violation = missed(place);
    if least.is_before(violation) {
        return;
    }
    if let Some(number) = place.labels.find(target) {
        if !registers.fit(number) {
            least.note(violation);
        }
    }
}

// The same of what is known where a register's tree hasn't a constructor.
fn arrive_without<'a>(
    place: &Place<'a>,
    registers: &mut Registers<'a>,
    target: u32,
    register: u16,
    constructor: u32,
    least: &mut Least,
)
    requires maps { registers.old.maps ≡ place.now.labels.now }
    ensures noted { least.new.first ≡ noted_unless place.now.number place.now.at
        (fit_at place.now.labels.now target
        (tested registers.old.kinds register (without constructor (set_of (at registers.old.kinds register))))) S5
        least.old.first }
    ensures kinds { registers.new.kinds ≡ registers.old.kinds }
    ensures maps { registers.new.maps ≡ registers.old.maps }
{
    let violation = missed(place);
    if least.is_before(violation) {
        return;
    }
    if let Some(number) = place.labels.find(target as usize) {
        if !registers.fit_without(number, register, constructor) {
            least.note(violation);
        }
    }
}

// S5, at an instruction.
fn missed(place: &Place) -> Violation
    ensures { result ≡ broken place.now.number place.now.at S5 }
{
    Violation {
        function: place.number,
        at: place.at,
        rule: SoundRule::S5,
    }
}
