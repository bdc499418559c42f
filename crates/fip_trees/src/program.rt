// Programs without static parameters: instances that call one another by number.
//
// One family of trees serves before typing (`Flat`) and after it (`Typed`). A field named `ty` of a binder, a
// constructor or a match is a slot: it says nothing in a `Flat`, and is the node's type in a `Typed`. No pass after
// these trees looks a name up; names stay for what a refusal names.
ghost use Rattle.std.specs.Prelude.{◌≡◌};
ghost use Rattle.fip_trees.specs.SoundProgram.{IsSoundProgram};
ghost use Rattle.fip_trees.specs.Tree.{pattern_place};
ghost use Rattle.fip_trees.specs.TreeView as V;

use fip_base::core_form::MatchKind;
use fip_base::plain::{FunKind, Name, Operator, Params, Place, Types};
use fip_base::table::{Constructor, TypeTable};
use std::marker::Model;

/// A binder of a variable. Its number is its own in its instance, from 0 without gaps, the parameters' first. The
/// annotation is a type of the table. One that nothing names has the name `_`.
#[derive(Drop)]
pub struct Binder {
    pub number: usize,
    pub name: Name,
    pub place: Place,
    pub annotation: Option<u32>,
    /// A slot: the variable's type.
    pub ty: u32,
}

/// An argument. A variable has the number of its binder, or none where nothing of its name is in scope (never in a
/// `Typed`).
#[derive(Drop)]
pub enum Argument {
    Variable {
        binder: Option<usize>,
        name: Name,
        place: Place,
    },
    Literal {
        value: i64,
        place: Place,
    },
    Constructor {
        /// A slot: the constructor's type.
        ty: u32,
        /// The number of the data type that declares it.
        data: u32,
        /// Its number in its type, from 0.
        number: u32,
        name: Name,
        place: Place,
        arguments: Vec<Argument>,
    },
}

/// A pattern of a clause.
#[derive(Drop)]
pub enum Pattern {
    Binder(Binder),
    Literal {
        value: i64,
        place: Place,
    },
    Constructor {
        /// A slot: the constructor's type.
        ty: u32,
        /// The number of the data type that declares it.
        data: u32,
        /// Its number in its type, from 0.
        number: u32,
        name: Name,
        place: Place,
        patterns: Vec<Pattern>,
    },
}

/// An expression. The scrutinee of a match is a variable, and a match has at least one clause. The place of an `if` is
/// that of its match.
#[derive(Drop)]
#[cycle(block)]
pub enum Expression {
    Give(Argument),
    Tuple {
        place: Place,
        arguments: Vec<Argument>,
    },
    Operation {
        operator: Operator,
        place: Place,
        left: Argument,
        right: Argument,
    },
    Call {
        /// The number of the instance that is called.
        callee: u32,
        /// The name as it is written.
        name: Name,
        place: Place,
        arguments: Vec<Argument>,
    },
    Match {
        kind: MatchKind,
        /// A slot: the scrutinee's type.
        ty: u32,
        place: Place,
        scrutinee: Argument,
        first: Box<Clause>,
        others: Vec<Clause>,
    },
    Nested(Box<Block>),
}

/// A block: bindings, one after another, and the last expression, which it gives.
#[derive(Drop)]
#[cycle(block)]
pub struct Block {
    pub bindings: Vec<Binding>,
    pub last: Expression,
}

/// A let: it binds what the expression gives, one value or a tuple of as many values as binders.
#[derive(Drop)]
#[cycle(block)]
pub struct Binding {
    pub binders: Vec<Binder>,
    pub bound: Expression,
}

/// A clause of a match.
#[derive(Drop)]
#[cycle(block)]
pub struct Clause {
    pub pattern: Pattern,
    pub body: Block,
}

/// A tuple of results in a header: the place of its bracket, and how many results it has.
#[derive(Clone, Copy, PartialEq, Eq)]
pub struct TupleResult {
    pub place: Place,
    pub count: usize,
}

/// An instance of a function: one for each list of static arguments with which it is reached.
#[derive(Drop)]
pub struct Instance {
    pub name: Name,
    /// The place of the function's name.
    pub place: Place,
    /// Whether it has no static parameters, so that it can be an entry.
    pub root: bool,
    pub kind: FunKind,
    /// The types of the parameters, and which are borrowed.
    pub params: Params,
    /// The parameters' binders, numbered from 0.
    pub binders: Vec<Binder>,
    /// The sizes of the header's credits, at most 16, each from 1 to 16.
    pub credits: Vec<u8>,
    /// The types of the results.
    pub results: Types,
    /// The place of a tuple's bracket in the header; none where it gives one value.
    pub results_place: Option<Place>,
    /// The tuples that the header's function parameters give, by their signatures.
    pub signature_tuples: Vec<TupleResult>,
    /// The number of binders in it, the parameters' included.
    pub variables: usize,
    pub body: Block,
}

/// A program: its types, and its instances in the order of their numbers.
#[derive(Drop)]
pub struct Program {
    pub types: TypeTable,
    /// For each type the number of the data type that declares it, that of type `t` at `t - 1`. Bool is data type 1,
    /// those of the program follow in text order.
    pub declaring: Vec<u32>,
    /// For each data type the number of its type parameters, that of data type `d` at `d - 1`.
    pub arities: Vec<usize>,
    /// For each data type the numbers of its constructors' fields as it declares them, those of data type `d` at
    /// `d - 1`. It speaks also of data types that declare no type of the table.
    pub field_counts: Vec<Vec<usize>>,
    pub instances: Vec<Instance>,
}

/// A program that isn't typed yet. It has few instances and few types, no two roots of one name, and types that are
/// sound: bool is the first, each has a finite value, constructors of unlike names, and few fields in each of them. A
/// header has at most 16 credits, of sizes from 1 to 16.
#[derive(Drop)]
pub struct Flat {
    program: Program,
}

impl Model for Flat {
    ghost use Rattle.fip_trees.specs.SoundProgram.{IsSoundProgram};
    ghost use Rattle.fip_trees.specs.TreeView as V;
    ghost use Rattle.fip_trees.specs.declared.program.Program.{Program};
    ghost use Rattle.fip_trees.specs.contracts.program.Program as contracts;

    ghost Value = { Program };

    ghost coded = { contracts.the_row.coded };

    ghost view = { λ f. f.program };

    ghost invariant = { λ f. IsSoundProgram (V.program f.program) };
}

impl Flat {
    /// A program that isn't typed yet, where it is sound.
    pub fn new(program: Program) -> Flat
        requires sound { IsSoundProgram (V.program program) }
        ensures same { result ≡ program }
    {
        Flat { program }
    }

    /// The program.
    pub fn program(&self) -> &Program
        ensures same { result.now ≡ self.now }
        ensures sound { IsSoundProgram (V.program self.now) }
    {
        &self.program
    }

    /// The program, taken out.
    pub fn into_program(self) -> Program
        ensures same { result ≡ self }
        ensures sound { IsSoundProgram (V.program self) }
    {
        self.program
    }
}

/// A program that the type checker gave, whose clauses say that each slot holds its node's type. By its type it is as
/// sound as one that isn't typed yet.
#[derive(Drop)]
pub struct Typed {
    pub program: Program,
    pub ghost sound: { ∥ IsSoundProgram (V.program program) ∥₁ },
}

impl Program {
    /// The instance of a number; none where there are fewer.
    pub fn instance(&self, number: u32) -> Option<&Instance> {
        self.instances.get(number as usize)
    }

    /// The constructors of a type; int has none, nor has a number that is no type's.
    pub fn constructors(&self, ty: u32) -> &[Constructor] {
        if ty as usize <= self.types.len() {
            self.types.constructors_of(ty)
        } else {
            &[]
        }
    }

    /// The types of a constructor's fields; none where there is no such constructor.
    pub fn fields(&self, ty: u32, constructor: u32) -> &[u32] {
        match self.constructors(ty).get(constructor as usize) {
            Some(found) => found.fields(),
            None => &[],
        }
    }

    /// Whether the type is int, or has no constructor with fields.
    pub fn is_scalar(&self, ty: u32) -> bool {
        if ty as usize <= self.types.len() {
            self.types.is_scalar(ty)
        } else {
            true
        }
    }
}

impl Argument {
    /// The place of its head.
    pub fn place(&self) -> Place {
        match self {
            Argument::Variable { place, .. } => *place,
            Argument::Literal { place, .. } => *place,
            Argument::Constructor { place, .. } => *place,
        }
    }
}

impl Pattern {
    /// The place of its first token.
    pub fn place(&self) -> Place
        ensures place { result ≡ pattern_place (V.pattern self.now) }
    {
        match self {
            Pattern::Binder(binder) => binder.place,
            Pattern::Literal { place, .. } => *place,
            Pattern::Constructor { place, .. } => *place,
        }
    }
}
