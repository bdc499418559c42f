// The core form of a program. The definition that it mirrors is fip_language's specs/Core.antt.
use crate::plain::{CreditMark, FunKind, Name, Operator, Place};

/// A type as it is written; a static argument is written as a type too.
#[derive(Drop)]
pub enum Written {
    Int(Place),
    Named {
        name: Name,
        place: Place,
        arguments: Vec<Written>,
    },
}

/// What a function gives: one value, or a tuple, whose place is its bracket.
#[derive(Drop)]
pub enum ResultType {
    One(Written),
    Tuple(Place, Vec<Written>),
}

/// A binder of a variable, with its number in its function, from 0. One that nothing names has the name `_`.
#[derive(Drop)]
pub struct Binder {
    pub number: usize,
    pub name: Name,
    pub place: Place,
    pub annotation: Option<Written>,
}

/// An argument. A variable has the number of its binder, or none where nothing of its name is in scope.
#[derive(Drop)]
pub enum Argument {
    Variable {
        binder: Option<usize>,
        name: Name,
        place: Place,
    },
    Literal {
        value: i64,
        place: Place,
    },
    Constructor {
        name: Name,
        place: Place,
        arguments: Vec<Argument>,
    },
}

/// A pattern of a clause.
#[derive(Drop)]
pub enum Pattern {
    Binder(Binder),
    Literal {
        value: i64,
        place: Place,
    },
    Constructor {
        name: Name,
        place: Place,
        patterns: Vec<Pattern>,
    },
}

/// What a match does with its scrutinee: `match` and `if` only read it, `match!` takes it apart.
#[derive(Clone, Copy, PartialEq, Eq)]
pub enum MatchKind {
    Borrowing,
    Destructive,
}

/// An expression. The scrutinee of a match is a variable.
#[derive(Drop)]
#[cycle(block)]
pub enum Expression {
    Give(Argument),
    Tuple {
        place: Place,
        arguments: Vec<Argument>,
    },
    Operation {
        operator: Operator,
        place: Place,
        left: Argument,
        right: Argument,
    },
    Call {
        name: Name,
        place: Place,
        statics: Vec<Written>,
        arguments: Vec<Argument>,
    },
    Match {
        kind: MatchKind,
        place: Place,
        scrutinee: Argument,
        clauses: Vec<Clause>,
    },
    Nested(Box<Block>),
}

/// A block: bindings, one after another, and the last expression, which it gives.
#[derive(Drop)]
#[cycle(block)]
pub struct Block {
    pub bindings: Vec<Binding>,
    pub last: Expression,
}

/// A let: it binds what the expression gives, one value or a tuple of as many values as binders.
#[derive(Drop)]
#[cycle(block)]
pub struct Binding {
    pub binders: Vec<Binder>,
    pub bound: Expression,
}

/// A clause of a match.
#[derive(Drop)]
#[cycle(block)]
pub struct Clause {
    pub pattern: Pattern,
    pub body: Block,
}

/// A parameter of a signature.
#[derive(Drop)]
pub struct SignatureParameter {
    pub lent: bool,
    pub ty: Written,
}

/// A static parameter: a type, or a function with its signature.
#[derive(Drop)]
pub enum Static {
    Type {
        name: Name,
        place: Place,
    },
    Function {
        name: Name,
        place: Place,
        parameters: Vec<SignatureParameter>,
        result: ResultType,
    },
}

/// A parameter of a function.
#[derive(Drop)]
pub struct Parameter {
    pub lent: bool,
    pub binder: Binder,
    pub ty: Written,
}

/// A function.
#[derive(Drop)]
pub struct Function {
    pub kind: FunKind,
    pub credits: Vec<CreditMark>,
    pub name: Name,
    pub place: Place,
    pub statics: Vec<Static>,
    pub parameters: Vec<Parameter>,
    pub result: ResultType,
    pub body: Block,
}

/// A type parameter of a data type.
#[derive(Drop)]
pub struct TypeName {
    pub name: Name,
    pub place: Place,
}

/// A constructor with the types of its fields.
#[derive(Drop)]
pub struct DataConstructor {
    pub name: Name,
    pub place: Place,
    pub fields: Vec<Written>,
}

/// A data type.
#[derive(Drop)]
pub struct Data {
    pub name: Name,
    pub place: Place,
    pub parameters: Vec<TypeName>,
    pub constructors: Vec<DataConstructor>,
}

/// The declarations of a program, each kind in text order.
#[derive(Drop)]
pub struct Core {
    pub types: Vec<Data>,
    pub functions: Vec<Function>,
}
