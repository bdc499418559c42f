// Whether a code file encodes what is lowered. All that it doesn't encode is answered here: no program that keeps the
// rules has any of it, since no constructor has more than 16 fields, no function more than 4,096 registers or 8
// results, no program more than 4,096 types, and none of the types of which labels report something more
// than 65,535 constructors.
ghost use Rattle.std.specs.Prelude.{◌≡◌, true};
ghost use Rattle.cell_code.specs.declared.code.Instr.TheVariants as I;
ghost use Rattle.cell_code.specs.declared.kind.Kind.TheVariants as K;
ghost use Rattle.code_file.specs.CodeText.{instr_text, kind_text, list_text, arguments_text, set_text};
ghost use Rattle.code_file.specs.CodeText.{register_text, from_text};
ghost use Rattle.code_file.specs.Spelling.{two};
ghost use Rattle.lower_frame.specs.Spelled.{IsSpelt, AreKindsSpelt};

use cell_code::{From, Instr, Kind};
use fip_base::plain::Operator;

/// Whether a file encodes an instruction.
pub fn is_spelt(instr: &Instr) -> bool
    ensures spelt { result ≡ true → IsSpelt (instr_text instr.now) }
{
    match instr {
        Instr::Const { destination, value } => const_(*destination, *value),
        Instr::Atom {
            destination,
            ty,
            constructor,
        } => atom(*destination, *ty, *constructor),
        Instr::Move {
            destination,
            source,
        } => move_(*destination, *source),
        Instr::Arith {
            destination,
            operator,
            left,
            right,
            line,
            col,
        } => arith(*destination, *operator, *left, *right, *line, *col),
        Instr::Test {
            register,
            constructor,
            target,
        } => test(*register, *constructor, *target),
        Instr::TestInt {
            register,
            value,
            target,
        } => test_int(*register, *value, *target),
        Instr::Peek {
            destination,
            register,
            field,
        } => peek(*destination, *register, *field),
        Instr::Take { register, fields } => take(*register, fields.as_slice()),
        Instr::Put {
            register,
            ty,
            constructor,
            fields,
        } => put(*register, *ty, *constructor, fields.as_slice()),
        Instr::Drop { register } => drop_(*register),
        Instr::Free { register } => free(*register),
        Instr::Call {
            function,
            arguments,
            destinations,
        } => call(*function, arguments.as_slice(), destinations.as_slice()),
        Instr::Tail {
            function,
            arguments,
        } => tail(*function, arguments.as_slice()),
        Instr::Ret { results } => ret(results.as_slice()),
        Instr::Jump { target } => jump(*target),
    }
}

#[tactic(auto, using(crate::proofs::Spelt::instructions))]
fn const_(destination: u16, value: i64) -> bool
    ensures spelt { result ≡ true → IsSpelt (instr_text (I.Const destination value)) }
{
    true
}

#[tactic(auto, using(crate::proofs::Spelt::instructions))]
fn atom(destination: u16, ty: u32, constructor: u32) -> bool
    ensures spelt { result ≡ true → IsSpelt (instr_text (I.Atom destination ty constructor)) }
{
    is_type(ty)
}

#[tactic(auto, using(crate::proofs::Spelt::instructions))]
fn move_(destination: u16, source: u16) -> bool
    ensures spelt { result ≡ true → IsSpelt (instr_text (I.Move destination source)) }
{
    true
}

#[tactic(auto, using(crate::proofs::Spelt::instructions))]
fn arith(destination: u16, operator: Operator, left: u16, right: u16, line: u32, col: u32) -> bool
    ensures spelt { result ≡ true → IsSpelt (instr_text (I.Arith destination operator left right line col)) }
{
    true
}

#[tactic(auto, using(crate::proofs::Spelt::instructions))]
fn test(register: u16, constructor: u32, target: u32) -> bool
    ensures spelt { result ≡ true → IsSpelt (instr_text (I.Test register constructor target)) }
{
    true
}

#[tactic(auto, using(crate::proofs::Spelt::instructions))]
fn test_int(register: u16, value: i64, target: u32) -> bool
    ensures spelt { result ≡ true → IsSpelt (instr_text (I.TestInt register value target)) }
{
    true
}

#[tactic(auto, using(crate::proofs::Spelt::instructions))]
fn peek(destination: u16, register: u16, field: u8) -> bool
    ensures spelt { result ≡ true → IsSpelt (instr_text (I.Peek destination register field)) }
{
    true
}

#[tactic(auto, using(crate::proofs::Spelt::instructions))]
fn take(register: u16, fields: &[u16]) -> bool
    ensures spelt { result ≡ true → IsSpelt (instr_text (I.Take register fields.now)) }
{
    list(fields)
}

#[tactic(auto, using(crate::proofs::Spelt::instructions))]
fn put(register: u16, ty: u32, constructor: u32, fields: &[u16]) -> bool
    ensures spelt { result ≡ true → IsSpelt (instr_text (I.Put register ty constructor fields.now)) }
{
    is_type(ty) && list(fields)
}

#[tactic(auto, using(crate::proofs::Spelt::instructions))]
fn drop_(register: u16) -> bool
    ensures spelt { result ≡ true → IsSpelt (instr_text (I.Drop register)) }
{
    true
}

#[tactic(auto, using(crate::proofs::Spelt::instructions))]
fn free(register: u16) -> bool
    ensures spelt { result ≡ true → IsSpelt (instr_text (I.Free register)) }
{
    true
}

#[tactic(auto, using(crate::proofs::Spelt::instructions))]
fn call(function: u32, arguments: &[u16], destinations: &[u16]) -> bool
    ensures spelt { result ≡ true → IsSpelt (instr_text (I.Call function arguments.now destinations.now)) }
{
    are_arguments(arguments) && list(destinations)
}

#[tactic(auto, using(crate::proofs::Spelt::instructions))]
fn tail(function: u32, arguments: &[u16]) -> bool
    ensures spelt { result ≡ true → IsSpelt (instr_text (I.Tail function arguments.now)) }
{
    are_arguments(arguments)
}

#[tactic(auto, using(crate::proofs::Spelt::instructions))]
fn ret(results: &[u16]) -> bool
    ensures spelt { result ≡ true → IsSpelt (instr_text (I.Ret results.now)) }
{
    list(results)
}

#[tactic(auto, using(crate::proofs::Spelt::instructions))]
fn jump(target: u32) -> bool
    ensures spelt { result ≡ true → IsSpelt (instr_text (I.Jump target)) }
{
    true
}

// Two bytes hold the number of a type.
#[tactic(auto, using(crate::proofs::Spelt::numbers))]
fn is_type(ty: u32) -> bool
    ensures spelt { result ≡ true → IsSpelt (two ty) }
{
    ty <= u16::MAX as u32
}

// One byte reports how many registers there are.
fn list(registers: &[u16]) -> bool
    ensures spelt { result ≡ true → IsSpelt (list_text registers.now) }
{
    registers.len() <= u8::MAX as usize
}

// Two bytes hold how many registers there are.
fn are_arguments(registers: &[u16]) -> bool
    ensures spelt { result ≡ true → IsSpelt (arguments_text registers.now) }
{
    registers.len() <= u16::MAX as usize
}

/// Whether a file encodes each of these kinds.
pub fn are_spelt(kinds: &[Kind]) -> bool
    ensures spelt { result ≡ true → AreKindsSpelt kinds.now }
{
    for kind in kinds {
        if !is_kind_spelt(kind) {
            return false;
        }
    }
    true
}

fn is_kind_spelt(kind: &Kind) -> bool
    ensures spelt { result ≡ true → IsSpelt (kind_text kind.now) }
{
    match kind {
        Kind::Gone => gone(),
        Kind::Scalar { ty } => scalar(*ty),
        Kind::Owned { ty, constructors } => owned(*ty, constructors.as_slice()),
        Kind::Lent {
            ty,
            constructors,
            root,
            from,
        } => lent(*ty, constructors.as_slice(), *root, *from),
        Kind::Credit { size } => credit(*size),
    }
}

#[tactic(auto, using(crate::proofs::Spelt::kinds))]
fn gone() -> bool
    ensures spelt { result ≡ true → IsSpelt (kind_text K.Gone) }
{
    true
}

#[tactic(auto, using(crate::proofs::Spelt::kinds))]
fn scalar(ty: u32) -> bool
    ensures spelt { result ≡ true → IsSpelt (kind_text (K.Scalar ty)) }
{
    is_type(ty)
}

#[tactic(auto, using(crate::proofs::Spelt::kinds))]
fn owned(ty: u32, constructors: &[u32]) -> bool
    ensures spelt { result ≡ true → IsSpelt (kind_text (K.Owned ty constructors.now)) }
{
    is_type(ty) && set(constructors)
}

#[tactic(auto, using(crate::proofs::Spelt::kinds))]
fn lent(ty: u32, constructors: &[u32], root: Option<u16>, from: Option<From>) -> bool
    ensures spelt { result ≡ true → IsSpelt (kind_text (K.Lent ty constructors.now root from)) }
{
    is_type(ty) && set(constructors) && is_register_or_none(root) && is_from(from)
}

#[tactic(auto, using(crate::proofs::Spelt::kinds))]
fn credit(size: u8) -> bool
    ensures spelt { result ≡ true → IsSpelt (kind_text (K.Credit size)) }
{
    true
}

// Two bytes hold how many constructors there are.
fn set(constructors: &[u32]) -> bool
    ensures spelt { result ≡ true → IsSpelt (set_text constructors.now) }
{
    constructors.len() <= u16::MAX as usize
}

// The greatest number stands for no register.
#[tactic(auto, using(crate::proofs::Spelt::kinds))]
fn is_register_or_none(register: Option<u16>) -> bool
    ensures spelt { result ≡ true → IsSpelt (register_text register) }
{
    match register {
        None => true,
        Some(register) => register < u16::MAX,
    }
}

#[tactic(auto, using(crate::proofs::Spelt::kinds))]
fn is_from(from: Option<From>) -> bool
    ensures spelt { result ≡ true → IsSpelt (from_text from) }
{
    match from {
        None => true,
        Some(from) => from.register < u16::MAX,
    }
}
