//! The tree of a source text.
//!
//! Every list is a `Vec`, and trees nest only where the source has brackets, so at most 100 deep. An expression is
//! a list of steps in postfix order. What the core form takes over as it is written, types, static parameters and data
//! types, is the core form's own, so that it moves from one tree into the other.

pub use crate::core_form::{
    Data, DataConstructor, ResultType, SignatureParameter, Static, TypeName, Written,
};
use crate::plain::{CreditMark, FunKind, Name, Operator, Place};

/// A parameter of a function.
#[derive(Drop)]
pub struct Parameter {
    pub lent: bool,
    pub name: Name,
    pub place: Place,
    pub ty: Written,
}

/// What a let binds to a name, or to `_`, whose name is `_`.
#[derive(Drop)]
pub struct Bind {
    pub name: Name,
    pub place: Place,
    pub annotation: Option<Written>,
}

/// A pattern. The place of a literal is that of its minus where it has one.
#[derive(Drop)]
pub enum Pattern {
    Wildcard {
        place: Place,
    },
    Variable {
        name: Name,
        place: Place,
    },
    Literal {
        value: i64,
        place: Place,
    },
    Constructor {
        name: Name,
        place: Place,
        patterns: Vec<Pattern>,
    },
}

/// A step of an expression. It takes what it needs from the expressions that the steps before it leave on a stack,
/// and leaves one there.
#[derive(Drop)]
#[cycle(tree)]
pub enum Step {
    Variable {
        name: Name,
        place: Place,
    },
    /// The place is that of the minus where there is one.
    Literal {
        value: i64,
        place: Place,
    },
    Call {
        name: Name,
        place: Place,
        statics: Vec<Written>,
        arguments: Vec<Expression>,
    },
    Constructor {
        name: Name,
        place: Place,
        arguments: Vec<Expression>,
    },
    /// Brackets round one expression.
    Bracket {
        block: Block,
    },
    /// Two expressions or more; the place is the bracket's.
    Tuple {
        place: Place,
        parts: Vec<Expression>,
    },
    /// Takes the right operand and the left one below it.
    Binary {
        operator: Operator,
        place: Place,
    },
    /// Takes the scrutinee. It is destructive where it is written `match!`.
    Match {
        destructive: bool,
        place: Place,
        clauses: Vec<Clause>,
    },
    /// Takes the condition.
    If {
        place: Place,
        yes: Block,
        no: Block,
    },
}

/// An expression in postfix order: `a + b * c` is `a`, `b`, `c`, `*`, `+`.
#[derive(Drop)]
#[cycle(tree)]
pub struct Expression {
    pub steps: Vec<Step>,
}

/// Lets, and a last expression.
#[derive(Drop)]
#[cycle(tree)]
pub struct Block {
    pub lets: Vec<Let>,
    pub last: Expression,
}

/// A let binds one bind, or two or more in brackets.
#[derive(Drop)]
#[cycle(tree)]
pub struct Let {
    pub binds: Vec<Bind>,
    pub bound: Expression,
}

/// A clause of a match.
#[derive(Drop)]
#[cycle(tree)]
pub struct Clause {
    pub pattern: Pattern,
    pub body: Block,
}

/// A function. The place is its name's.
#[derive(Drop)]
pub struct Function {
    pub kind: FunKind,
    pub credits: Vec<CreditMark>,
    pub name: Name,
    pub place: Place,
    pub statics: Vec<Static>,
    pub parameters: Vec<Parameter>,
    pub result: ResultType,
    pub body: Block,
}

/// A declaration.
#[derive(Drop)]
pub enum Declaration {
    Data { data: Data },
    Function { function: Function },
}

/// A program: its declarations in text order.
#[derive(Drop)]
pub struct Program {
    pub declarations: Vec<Declaration>,
}
