// What is known of a register before an instruction.
ghost use Rattle.std.specs.Prelude.{◌≡◌, ℕ, List, IfOk};

use fip_base::plain::NoMemory;
use std::alloc::Global;
use std::marker::Model;

/// Numbers of constructors of one type, rising: those that a value may have.
#[derive(Drop)]
pub struct Constructors {
    numbers: Vec<u32>,
}

impl Model for Constructors {
    ghost Value = { List ℕ };

    ghost view = { λ l. l.numbers.items };
}

impl Constructors {
    /// The list of these constructors; it takes no memory.
    pub fn new(numbers: Vec<u32>) -> Self
        ensures same { result ≡ numbers.items }
    {
        Constructors { numbers }
    }

    /// Its constructors.
    pub fn as_slice(&self) -> &[u32]
        ensures same { result.now ≡ self.now }
    {
        self.numbers.as_slice()
    }

    /// One with the same constructors; an error where no memory is left.
    pub fn copy(&self, alloc: Global) -> Result<Self, NoMemory>
        ensures same { IfOk result (λ l. l ≡ self.now) }
    {
        let mut numbers = Vec::new(alloc);
        numbers.extend_from_slice(self.numbers.as_slice())?;
        Ok(Constructors { numbers })
    }
}

/// Where a borrowed word came from: it is a field, from 0, of the cell in a register.
#[derive(Clone, Copy, PartialEq, Eq)]
pub struct From {
    pub register: u16,
    pub field: u8,
}

/// What is known of a register.
#[derive(Drop)]
pub enum Kind {
    /// Nothing; its word is not used any more.
    Gone,
    /// It holds a value of a scalar type.
    Scalar {
        ty: u32,
    },
    /// It owns a tree of the type, whose root has one of the constructors.
    Owned {
        ty: u32,
        constructors: Constructors,
    },
    /// It reads a tree of the type, whose root has one of the constructors. The tree lies in that of the register
    /// `root`, or, where there is none, in one that a frame below owns. Where `from` is there, the word is that field
    /// of that register's cell.
    Lent {
        ty: u32,
        constructors: Constructors,
        root: Option<u16>,
        from: Option<From>,
    },
    /// It names a cell of this size whose fields are no longer owned.
    Credit {
        size: u8,
    },
}

/// A place in a function where instructions meet: the number of the instruction, and what is known of each register
/// there, on whatever way it is reached.
#[derive(Drop)]
pub struct Label {
    pub at: u32,
    pub kinds: Vec<Kind>,
}
