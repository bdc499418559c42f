// What a program declares: data types, constructors and functions, by name and by number.
ghost use Rattle.std.specs.Prelude.{◌≡◌, [], not, IfOk, OnOk};
ghost use Rattle.fip_trees.specs.Names.{is_among, meaning, names, with_meaning};

use crate::meanings::Meanings;
use fip_base::plain::NoMemory;
use std::alloc::Global;
use std::marker::Model;

/// The type of a field, its names looked up.
#[derive(Drop)]
pub enum FieldType {
    Int,
    /// The type parameter of this number of the data type, from 0.
    Parameter(u32),
    /// The data type of this number, with what stands for its type parameters.
    Applied(u32, Vec<FieldType>),
}

/// A constructor of a data type.
#[derive(Drop)]
pub struct DeclaredConstructor<'a> {
    pub name: &'a [u8],
    pub fields: Vec<FieldType>,
}

/// A data type.
#[derive(Drop)]
pub struct DeclaredType<'a> {
    /// How many type parameters it has.
    pub arity: usize,
    /// Its constructors, in the order of their numbers from 0.
    pub constructors: Vec<DeclaredConstructor<'a>>,
}

/// What the name of a data type means: its number, and how many type parameters it has.
#[derive(Clone, Copy, PartialEq, Eq)]
pub struct TypeHead {
    pub number: u32,
    pub arity: usize,
}

/// What the name of a constructor means: the number of its data type, and its own in it, from 0.
#[derive(Clone, Copy, PartialEq, Eq)]
pub struct ConstructorId {
    pub data: u32,
    pub number: u32,
}

/// What the names of a program mean. Types, constructors and functions have names of their own each; where a name is
/// declared twice it means its first declaration.
#[derive(Drop)]
pub struct DeclaredNames<'a> {
    types: Meanings<'a, TypeHead>,
    constructors: Meanings<'a, ConstructorId>,
    functions: Meanings<'a, usize>,
}

impl<'a> Model for DeclaredNames<'a> {
    ghost use Rattle.fip_trees.specs.Names.{Names};

    ghost Value = { Names };

    ghost view = { λ d. record { types = d.types; constructors = d.constructors; functions = d.functions } };
}

impl<'a> DeclaredNames<'a> {
    /// No names.
    pub fn new(alloc: Global) -> Self
        ensures empty { result ≡ record { types = []; constructors = []; functions = [] } }
    {
        DeclaredNames {
            types: Meanings::new(alloc),
            constructors: Meanings::new(alloc),
            functions: Meanings::new(alloc),
        }
    }

    /// Adds the name of a data type, and says whether it is new; one that is there keeps its meaning.
    pub fn add_type(&mut self, name: &'a [u8], head: TypeHead) -> Result<bool, NoMemory>
        ensures new { IfOk result (λ new. new ≡ not (is_among name.now (names self.old.types))) }
        ensures added { OnOk result (self.new.types ≡ with_meaning self.old.types name.now head) }
        ensures constructors { OnOk result (self.new.constructors ≡ self.old.constructors) }
        ensures functions { OnOk result (self.new.functions ≡ self.old.functions) }
    {
        self.types.add(name, head)
    }

    /// Adds the name of a constructor, and says whether it is new; one that is there keeps its meaning.
    pub fn add_constructor(&mut self, name: &'a [u8], id: ConstructorId) -> Result<bool, NoMemory>
        ensures new { IfOk result (λ new. new ≡ not (is_among name.now (names self.old.constructors))) }
        ensures added { OnOk result (self.new.constructors ≡ with_meaning self.old.constructors name.now id) }
        ensures types { OnOk result (self.new.types ≡ self.old.types) }
        ensures functions { OnOk result (self.new.functions ≡ self.old.functions) }
    {
        self.constructors.add(name, id)
    }

    /// Adds the name of the function at a place of the core form, and says whether it is new; one that is there keeps
    /// its meaning.
    pub fn add_function(&mut self, name: &'a [u8], place: usize) -> Result<bool, NoMemory>
        ensures new { IfOk result (λ new. new ≡ not (is_among name.now (names self.old.functions))) }
        ensures added { OnOk result (self.new.functions ≡ with_meaning self.old.functions name.now place) }
        ensures types { OnOk result (self.new.types ≡ self.old.types) }
        ensures constructors { OnOk result (self.new.constructors ≡ self.old.constructors) }
    {
        self.functions.add(name, place)
    }

    /// The data type of a name; none where it is unknown.
    pub fn find_type(&self, name: &[u8]) -> Option<TypeHead>
        ensures meaning { result ≡ meaning name.now self.now.types }
    {
        self.types.find(name)
    }

    /// The constructor of a name; none where it is unknown.
    pub fn find_constructor(&self, name: &[u8]) -> Option<ConstructorId>
        ensures meaning { result ≡ meaning name.now self.now.constructors }
    {
        self.constructors.find(name)
    }

    /// The place of the function of a name; none where it is unknown.
    pub fn find_function(&self, name: &[u8]) -> Option<usize>
        ensures meaning { result ≡ meaning name.now self.now.functions }
    {
        self.functions.find(name)
    }
}

/// The declarations of a program. Data type 1 is bool, with the constructors False (0) and True (1); those of the
/// program follow in text order. Number 0 is int, which is no data type and has no name.
#[derive(Drop)]
pub struct Decls<'a> {
    pub names: DeclaredNames<'a>,
    /// The data types in the order of their numbers, that of number `d` at `d - 1`.
    pub types: Vec<DeclaredType<'a>>,
}

impl<'a> Decls<'a> {
    /// The data type of a number; none for int and where there are fewer.
    pub fn data_type(&self, number: u32) -> Option<&DeclaredType<'a>> {
        match number.checked_sub(1) {
            Some(place) => self.types.get(place as usize),
            None => None,
        }
    }

    /// How many type parameters the data type of a number has; int has none.
    pub fn arity(&self, number: u32) -> usize {
        match self.data_type(number) {
            Some(declared) => declared.arity,
            None => 0,
        }
    }
}
