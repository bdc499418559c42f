// The plain types of the language that take no memory. Its limits are in `limits`. The language itself is defined in
// specs/; its theorems are in `theorems`.
#![tactic(auto)]

ghost use Rattle.std.specs.Prelude.{◌≡◌};
ghost use Rattle.fip_language.specs.Kinds as K;

pub mod characters;
pub mod limits;
mod rule;
pub mod theorems;

pub use rule::Rule;

/// A place in a source: line and column, both from 1, the column in bytes; and the offset in bytes from 0.
#[derive(Clone, Copy, Debug, PartialEq, Eq)]
pub struct Place {
    pub line: usize,
    pub col: usize,
    pub at: usize,
}

/// A mark in the header of a function, `+` and a size: its caller must hold a credit of that size. The first place is
/// that of the `+`, the other that of the digits.
#[derive(Clone, Copy, PartialEq, Eq)]
pub struct CreditMark {
    pub place: Place,
    pub size_place: Place,
    pub size: u64,
}

/// What a function promises: to work in the cells that it is given, to make none and free some, or nothing.
#[derive(Clone, Copy, PartialEq, Eq)]
pub enum FunKind {
    Fip,
    Fbip,
    Fun,
}

impl FunKind {
    /// Whether functions of this kind make no cell and free none.
    pub fn is_fip(self) -> bool
        ensures fip { result ≡ K.is_fip self }
    {
        match self {
            FunKind::Fip => true,
            FunKind::Fbip => false,
            FunKind::Fun => false,
        }
    }

    /// Whether the rules of ownership and credits speak of functions of this kind: of fip and fbip ones.
    pub fn is_ruled(self) -> bool
        ensures ruled { result ≡ K.is_ruled self }
    {
        match self {
            FunKind::Fip => true,
            FunKind::Fbip => true,
            FunKind::Fun => false,
        }
    }
}

/// Why an operator has no value.
#[derive(Clone, Copy, PartialEq, Eq)]
pub enum TrapKind {
    Overflow,
    DivideByZero,
}

/// An operator between two ints. The first five give an int, the others a bool.
#[derive(Clone, Copy, PartialEq, Eq)]
pub enum Operator {
    Add,
    Subtract,
    Multiply,
    Divide,
    Remainder,
    Equal,
    NotEqual,
    Less,
    LessOrEqual,
    Greater,
    GreaterOrEqual,
}
