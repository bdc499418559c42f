// What the tags of a code file stand for.
ghost use Rattle.std.specs.Prelude.{◌≡◌};
ghost use Rattle.code_file.specs.CodeText.{operator_number};
ghost use Rattle.code_file.specs.Reading.{operator_at as operator_of_number};

use fip_base::plain::Operator;

/// The first bytes of a code file.
pub const MAGIC: &[u8] = b"FP2C";

/// A version of the format.
#[derive(Clone, Copy, PartialEq, Eq)]
pub enum Version {
    /// The first one, in which no function states a credit.
    First,
    /// The one that is written.
    Second,
}

/// The number of the version that has no credits.
pub const VERSION_1: u8 = 1;

/// The number of the version that is written.
pub const VERSION_2: u8 = 2;

/// A function that is fip.
pub const FIP: u8 = 0;

/// A function that is fbip.
pub const FBIP: u8 = 1;

/// A parameter that is owned.
pub const OWNED_PARAM: u8 = 0;

/// A parameter that is borrowed.
pub const LENT_PARAM: u8 = 1;

/// A register of which nothing is known.
pub const GONE: u8 = 0;

/// A register that owns a tree.
pub const OWNED: u8 = 1;

/// A register that reads a tree.
pub const LENT: u8 = 2;

/// A register that holds a value of a scalar type.
pub const SCALAR: u8 = 3;

/// A register that names a cell whose fields are no longer owned.
pub const CREDIT: u8 = 4;

/// No register.
pub const NO_REGISTER: u16 = 0xffff;

// The ops.
pub const CONST: u8 = 0x01;

pub const ATOM: u8 = 0x02;

pub const MOVE: u8 = 0x03;

pub const ARITH: u8 = 0x04;

pub const TEST: u8 = 0x05;

pub const TEST_INT: u8 = 0x06;

pub const PEEK: u8 = 0x07;

pub const TAKE: u8 = 0x08;

pub const PUT: u8 = 0x09;

pub const DROP: u8 = 0x0a;

pub const FREE: u8 = 0x0b;

pub const CALL: u8 = 0x0c;

pub const TAIL: u8 = 0x0d;

pub const RET: u8 = 0x0e;

pub const JUMP: u8 = 0x0f;

/// The number of an operator.
pub fn number_of(operator: Operator) -> u8
    ensures { result ≡ operator_number operator }
{
    match operator {
        Operator::Add => 0,
        Operator::Subtract => 1,
        Operator::Multiply => 2,
        Operator::Divide => 3,
        Operator::Remainder => 4,
        Operator::Equal => 5,
        Operator::NotEqual => 6,
        Operator::Less => 7,
        Operator::LessOrEqual => 8,
        Operator::Greater => 9,
        Operator::GreaterOrEqual => 10,
    }
}

/// The operator of a number, at most 10.
#[tactic(auto, using(crate::proofs::Steps::operator_last))]
pub fn operator_at(number: u8) -> Operator
    ensures { result ≡ operator_of_number number }
{
    match number {
        0 => Operator::Add,
        1 => Operator::Subtract,
        2 => Operator::Multiply,
        3 => Operator::Divide,
        4 => Operator::Remainder,
        5 => Operator::Equal,
        6 => Operator::NotEqual,
        7 => Operator::Less,
        8 => Operator::LessOrEqual,
        9 => Operator::Greater,
        _ => Operator::GreaterOrEqual,
    }
}
