//! What the parser has read of a program so far: the constructs that are open, and the place in each.

use fip_base::plain::Name;
use fip_base::surface::{
    Bind, Block, Clause, DataConstructor, Declaration, Expression, Let, Parameter, Pattern,
    ResultType, SignatureParameter, Static, Step, TypeName, Written,
};
use fip_language::{CreditMark, FunKind, Operator, Place};

/// The head of a data type, and its constructors so far.
#[derive(Drop)]
pub struct DataHead {
    pub name: Name,
    pub place: Place,
    pub parameters: Vec<TypeName>,
    pub constructors: Vec<DataConstructor>,
}

/// The head of a function so far.
#[derive(Drop)]
pub struct FunctionHead {
    pub kind: FunKind,
    pub credits: Vec<CreditMark>,
    pub name: Name,
    pub place: Place,
    pub statics: Vec<Static>,
    pub parameters: Vec<Parameter>,
}

/// A function parameter's signature so far.
#[derive(Drop)]
pub struct Signature {
    pub name: Name,
    pub place: Place,
    pub parameters: Vec<SignatureParameter>,
}

/// Whose result is read.
#[derive(Drop)]
pub enum ResultOwner {
    Signature {
        head: FunctionHead,
        signature: Signature,
    },
    Function {
        head: FunctionHead,
    },
}

/// A place in the head of a function, by what comes next.
#[derive(Drop)]
pub enum FunctionHeading {
    /// `fun` or `+`, after `fip`, `fbip` or a credit.
    FunctionKeyword {
        kind: FunKind,
        credits: Vec<CreditMark>,
    },
    /// A credit's size, after `+`.
    CreditSize {
        kind: FunKind,
        credits: Vec<CreditMark>,
        plus: Place,
    },
    /// A function's name.
    FunctionName {
        kind: FunKind,
        credits: Vec<CreditMark>,
    },
    /// `[` or `(`, after a function's name.
    FunctionStart {
        head: FunctionHead,
    },
    /// A static parameter's name.
    StaticName {
        head: FunctionHead,
    },
    /// `:`, `,` or `]`, after a static parameter's name.
    StaticStart {
        head: FunctionHead,
        name: Name,
        place: Place,
    },
    /// `fun` of a signature.
    SignatureKeyword {
        head: FunctionHead,
        signature: Signature,
    },
    /// `(` of a signature.
    SignatureOpen {
        head: FunctionHead,
        signature: Signature,
    },
    /// A signature's first parameter or `)`.
    SignatureFirst {
        head: FunctionHead,
        signature: Signature,
    },
    /// A signature's further parameter.
    SignatureNext {
        head: FunctionHead,
        signature: Signature,
    },
    /// `:`, after a signature's parameters.
    SignatureColon {
        head: FunctionHead,
        signature: Signature,
    },
    /// A result.
    ResultStart {
        owner: ResultOwner,
    },
    /// `,` or `]`, after a static parameter.
    StaticEnd {
        head: FunctionHead,
    },
    /// `(` of a function's parameters.
    ParametersOpen {
        head: FunctionHead,
    },
    /// A function's first parameter or `)`.
    ParameterFirst {
        head: FunctionHead,
    },
    /// A function's further parameter.
    ParameterNext {
        head: FunctionHead,
    },
    /// A parameter's name, after `^`.
    ParameterName {
        head: FunctionHead,
    },
    /// `:`, after a parameter's name.
    ParameterColon {
        head: FunctionHead,
        lent: bool,
        name: Name,
        place: Place,
    },
    /// `:`, after a function's parameters.
    ResultColon {
        head: FunctionHead,
    },
    /// `{` of a function's body.
    BodyOpen {
        head: FunctionHead,
        gives: ResultType,
    },
}

/// A place in a data type, by what comes next.
#[derive(Drop)]
pub enum DataHeading {
    /// A data type's name.
    DataName,
    /// `[` or `{`, after a data type's name.
    DataStart {
        data: DataHead,
    },
    /// A type parameter's name.
    DataParameter {
        data: DataHead,
    },
    /// `,` or `]`, after a type parameter's name.
    DataParameterEnd {
        data: DataHead,
    },
    /// `{` of a data type's constructors.
    DataOpen {
        data: DataHead,
    },
    /// A data type's first constructor.
    ConstructorFirst {
        data: DataHead,
    },
    /// A data type's further constructor, or `}`.
    ConstructorNext {
        data: DataHead,
    },
    /// `(`, `;` or `}`, after a constructor's name.
    ConstructorStart {
        data: DataHead,
        name: Name,
        place: Place,
    },
    /// `;` or `}`, after a constructor.
    ConstructorEnd {
        data: DataHead,
    },
}

/// A type whose brackets are open, with its arguments so far.
#[derive(Drop)]
pub struct OpenType {
    pub name: Name,
    pub place: Place,
    pub done: Vec<Written>,
}

/// A place in a type.
#[derive(Drop)]
pub enum TypePosition {
    /// A type comes next.
    Wanted,
    /// After a name: `[` may come.
    Named { name: Name, place: Place },
    /// After a type.
    Done { written: Written },
}

/// What the outermost type is read for.
#[derive(Drop)]
pub enum TypeUse {
    /// A constructor's field.
    Field {
        data: DataHead,
        name: Name,
        place: Place,
        fields: Vec<Written>,
    },
    /// A parameter of a signature.
    SignatureParameter {
        head: FunctionHead,
        signature: Signature,
        lent: bool,
    },
    /// A parameter of a function.
    Parameter {
        head: FunctionHead,
        lent: bool,
        name: Name,
        place: Place,
    },
    /// A result that is no tuple.
    Result {
        owner: ResultOwner,
    },
    /// A part of a result.
    ResultPart {
        owner: ResultOwner,
        place: Place,
        parts: Vec<Written>,
    },
    /// The type of a bind.
    Annotation {
        body: Body,
        binds: Binds,
        name: Name,
        place: Place,
    },
    /// A static argument of a call.
    StaticArgument {
        body: Body,
        name: Name,
        place: Place,
        statics: Vec<Written>,
    },
}

/// The binds of a let: one alone, or those in brackets so far.
#[derive(Drop)]
pub enum Binds {
    Alone,
    Bracketed { done: Vec<Bind> },
}

/// A pattern whose brackets are open, with its parts so far.
#[derive(Drop)]
pub struct OpenPattern {
    pub name: Name,
    pub place: Place,
    pub done: Vec<Pattern>,
}

/// A place in a pattern.
#[derive(Drop)]
pub enum PatternPosition {
    /// A pattern comes next.
    Wanted,
    /// A literal, after its minus.
    Minus { place: Place },
    /// After a constructor's name: `(` may come.
    Named { name: Name, place: Place },
    /// After a pattern.
    Done { pattern: Pattern },
}

/// An operator that waits for its right operand.
#[derive(Clone, Copy)]
pub struct Pending {
    pub operator: Operator,
    pub place: Place,
}

/// The operators that wait, at most one of each tightness. Their left operands are on the stack of steps.
#[derive(Clone, Copy)]
pub struct Waiting {
    pub comparison: Option<Pending>,
    pub sum: Option<Pending>,
    pub product: Option<Pending>,
}

/// A match whose scrutinee, or an if whose condition, is being read, with the operators that wait outside it.
#[derive(Drop)]
pub enum Opener {
    Match {
        waiting: Waiting,
        destructive: bool,
        place: Place,
    },
    If {
        waiting: Waiting,
        place: Place,
    },
}

/// What is read between two brackets: the lets so far, the binds of the let whose bound expression is being read,
/// and the expression so far.
#[derive(Drop)]
pub struct Partial {
    pub lets: Vec<Let>,
    pub binds: Option<Vec<Bind>>,
    pub steps: Vec<Step>,
    pub openers: Vec<Opener>,
    pub waiting: Waiting,
}

/// A match whose clauses are being read.
#[derive(Drop)]
pub struct OpenMatch {
    pub destructive: bool,
    pub place: Place,
    pub clauses: Vec<Clause>,
}

/// What an open bracket of a body is for.
#[derive(Drop)]
pub enum Use {
    /// Arguments of a call.
    Arguments {
        name: Name,
        place: Place,
        statics: Vec<Written>,
        done: Vec<Expression>,
    },
    /// Arguments of a constructor.
    Fields {
        name: Name,
        place: Place,
        done: Vec<Expression>,
    },
    /// An expression without a let, or the first of a tuple.
    Parenthesis {
        place: Place,
    },
    /// An expression with a let.
    Bracket,
    /// A further part of a tuple.
    Tuple {
        place: Place,
        done: Vec<Expression>,
    },
    /// The body of a clause.
    Clause {
        open: OpenMatch,
        pattern: Pattern,
    },
    /// The first block of an if.
    Yes {
        place: Place,
    },
    /// The second block of an if.
    No {
        place: Place,
        yes: Block,
    },
}

/// An open bracket of a body, and what was read before it.
#[derive(Drop)]
pub struct Level {
    pub before: Partial,
    pub purpose: Use,
}

/// A function whose body is being read.
#[derive(Drop)]
pub struct Body {
    pub head: FunctionHead,
    pub gives: ResultType,
    pub levels: Vec<Level>,
    pub partial: Partial,
}

/// A place in a body, by what comes next.
#[derive(Drop)]
pub enum BodyPosition {
    /// A let or an expression.
    Block,
    /// A bind or `(`, after `let`.
    LetStart,
    /// A bind in brackets.
    BindStart {
        done: Vec<Bind>,
    },
    /// `:` or the bind's end, after a bind's name.
    BindNamed {
        binds: Binds,
        name: Name,
        place: Place,
    },
    /// `=`, after binds in brackets.
    LetEquals {
        binds: Vec<Bind>,
    },
    /// An operand.
    Operand,
    /// `[`, `(` or the operand's end, after a lower name.
    LowerName {
        name: Name,
        place: Place,
    },
    /// `(`, `[` having been closed.
    CallOpen {
        name: Name,
        place: Place,
        statics: Vec<Written>,
    },
    /// A call's first argument or `)`.
    ArgumentFirst {
        name: Name,
        place: Place,
        statics: Vec<Written>,
    },
    /// `(` or the operand's end, after an upper name.
    UpperName {
        name: Name,
        place: Place,
    },
    /// A literal, after its minus.
    Minus {
        place: Place,
    },
    /// A let or an expression, after `(`.
    Parenthesis {
        place: Place,
    },
    /// After an operand.
    Operator,
    /// A further clause or `}`.
    ClauseNext {
        open: OpenMatch,
    },
    /// `else`.
    Else {
        place: Place,
        yes: Block,
    },
    /// `{`, after `else`.
    ElseOpen {
        place: Place,
        yes: Block,
    },
}

/// A place in a program.
#[derive(Drop)]
pub enum State {
    /// Between two declarations.
    Top,
    /// In the head of a function.
    Function {
        heading: FunctionHeading,
    },
    /// In a data type.
    Data {
        heading: DataHeading,
    },
    /// In a type; the open brackets' types, the innermost last.
    Typing {
        position: TypePosition,
        open: Vec<OpenType>,
        purpose: TypeUse,
    },
    /// In a clause's pattern; the open brackets' patterns, the innermost last.
    Matching {
        position: PatternPosition,
        open: Vec<OpenPattern>,
        body: Body,
        clauses: OpenMatch,
    },
    /// In a function's body.
    Body {
        position: BodyPosition,
        body: Body,
    },
}

/// What a token does.
#[derive(Drop)]
pub enum Next {
    /// It fits.
    Stays { state: State },
    /// It fits and ends a declaration.
    Declares { declaration: Declaration },
    /// It doesn't fit.
    Refused,
    /// It is a literal that fits, but whose value is too large.
    TooLarge,
}
