// The plain types, and lists with names of their own. A contract sees such a list as a list.
ghost use Rattle.std.specs.Prelude.{◌≡◌, ℕ, List, IfOk};
ghost use Rattle.fip_base.specs.declared.plain.Param.{Param as a_param};

pub use fip_language::{CreditMark, FunKind, Operator, Place, TrapKind};
use std::alloc::{AllocError, AllocFailed, Global};
use std::marker::Model;
use thiserror::Error;

/// How a program ends; 0 is success.
#[derive(Clone, Copy, PartialEq, Eq)]
pub struct Status(pub u8);

/// What a run holds of the stack at the most: frames beside the first one, and words in all frames.
#[derive(Clone, Copy, PartialEq, Eq)]
pub struct Stack {
    pub frames: usize,
    pub words: usize,
}

/// A parameter: the number of its type, and whether it is borrowed.
#[derive(Clone, Copy, PartialEq, Eq)]
pub struct Param {
    pub ty: u32,
    pub lent: bool,
}

/// No memory was left for what a call makes.
#[derive(Clone, Copy, Debug, PartialEq, Eq, Error)]
#[error("no memory is left")]
pub struct NoMemory;

impl From<AllocError> for NoMemory {
    fn from(_: AllocError) -> NoMemory {
        NoMemory
    }
}

impl<T: Drop> From<AllocFailed<T>> for NoMemory {
    fn from(_: AllocFailed<T>) -> NoMemory {
        NoMemory
    }
}

/// A name, of a type, a constructor, a function or a variable.
#[derive(Drop)]
pub struct Name {
    bytes: Vec<u8>,
}

impl Model for Name {
    ghost Value = { List ℕ };

    ghost view = { λ l. l.bytes.items };
}

impl Name {
    /// The name of these bytes; it takes no memory.
    pub fn new(bytes: Vec<u8>) -> Self
        ensures same { result ≡ bytes.items }
    {
        Name { bytes }
    }

    /// Its bytes.
    pub fn as_slice(&self) -> &[u8]
        ensures same { result.now ≡ self.now }
    {
        self.bytes.as_slice()
    }

    /// Its bytes, in the vector that it was made of.
    pub fn into_vec(self) -> Vec<u8>
        ensures same { result.items ≡ self }
    {
        self.bytes
    }

    /// One with the same bytes; an error where no memory is left.
    pub fn copy(&self, alloc: Global) -> Result<Self, NoMemory>
        ensures same { IfOk result (λ l. l ≡ self.now) }
    {
        let mut bytes = Vec::new(alloc);
        bytes.extend_from_slice(self.bytes.as_slice())?;
        Ok(Name { bytes })
    }
}

/// What a refusal names beside its place; empty where it names nothing.
#[derive(Debug, Drop)]
pub struct Detail {
    bytes: Vec<u8>,
}

impl Model for Detail {
    ghost Value = { List ℕ };

    ghost view = { λ l. l.bytes.items };
}

impl Detail {
    /// The detail of these bytes; it takes no memory.
    pub fn new(bytes: Vec<u8>) -> Self
        ensures same { result ≡ bytes.items }
    {
        Detail { bytes }
    }

    /// Its bytes.
    pub fn as_slice(&self) -> &[u8]
        ensures same { result.now ≡ self.now }
    {
        self.bytes.as_slice()
    }

    /// Its bytes, in the vector that it was made of.
    pub fn into_vec(self) -> Vec<u8>
        ensures same { result.items ≡ self }
    {
        self.bytes
    }

    /// One with the same bytes; an error where no memory is left.
    pub fn copy(&self, alloc: Global) -> Result<Self, NoMemory>
        ensures same { IfOk result (λ l. l ≡ self.now) }
    {
        let mut bytes = Vec::new(alloc);
        bytes.extend_from_slice(self.bytes.as_slice())?;
        Ok(Detail { bytes })
    }
}

/// The parameters of a function.
#[derive(Drop)]
pub struct Params {
    params: Vec<Param>,
}

impl Model for Params {
    ghost Value = { List a_param };

    ghost view = { λ l. l.params.items };
}

impl Params {
    /// The list of these parameters; it takes no memory.
    pub fn new(params: Vec<Param>) -> Self
        ensures same { result ≡ params.items }
    {
        Params { params }
    }

    /// Its parameters.
    pub fn as_slice(&self) -> &[Param]
        ensures same { result.now ≡ self.now }
    {
        self.params.as_slice()
    }

    /// Its parameters, in the vector that it was made of.
    pub fn into_vec(self) -> Vec<Param>
        ensures same { result.items ≡ self }
    {
        self.params
    }

    /// One with the same parameters; an error where no memory is left.
    pub fn copy(&self, alloc: Global) -> Result<Self, NoMemory>
        ensures same { IfOk result (λ l. l ≡ self.now) }
    {
        let mut params = Vec::new(alloc);
        params.extend_from_slice(self.params.as_slice())?;
        Ok(Params { params })
    }
}

/// Numbers of types.
#[derive(Drop)]
pub struct Types {
    types: Vec<u32>,
}

impl Model for Types {
    ghost Value = { List ℕ };

    ghost view = { λ l. l.types.items };
}

impl Types {
    /// The list of these types; it takes no memory.
    pub fn new(types: Vec<u32>) -> Self
        ensures same { result ≡ types.items }
    {
        Types { types }
    }

    /// Its types.
    pub fn as_slice(&self) -> &[u32]
        ensures same { result.now ≡ self.now }
    {
        self.types.as_slice()
    }

    /// Its types, in the vector that it was made of.
    pub fn into_vec(self) -> Vec<u32>
        ensures same { result.items ≡ self }
    {
        self.types
    }

    /// One with the same types; an error where no memory is left.
    pub fn copy(&self, alloc: Global) -> Result<Self, NoMemory>
        ensures same { IfOk result (λ l. l ≡ self.now) }
    {
        let mut types = Vec::new(alloc);
        types.extend_from_slice(self.types.as_slice())?;
        Ok(Types { types })
    }
}

/// Words of the store.
#[derive(Drop)]
pub struct Words {
    words: Vec<u64>,
}

impl Model for Words {
    ghost Value = { List ℕ };

    ghost view = { λ l. l.words.items };
}

impl Words {
    /// The list of these words; it takes no memory.
    pub fn new(words: Vec<u64>) -> Self
        ensures same { result ≡ words.items }
    {
        Words { words }
    }

    /// Its words.
    pub fn as_slice(&self) -> &[u64]
        ensures same { result.now ≡ self.now }
    {
        self.words.as_slice()
    }

    /// Its words, in the vector that it was made of.
    pub fn into_vec(self) -> Vec<u64>
        ensures same { result.items ≡ self }
    {
        self.words
    }

    /// One with the same words; an error where no memory is left.
    pub fn copy(&self, alloc: Global) -> Result<Self, NoMemory>
        ensures same { IfOk result (λ l. l ≡ self.now) }
    {
        let mut words = Vec::new(alloc);
        words.extend_from_slice(self.words.as_slice())?;
        Ok(Words { words })
    }
}
