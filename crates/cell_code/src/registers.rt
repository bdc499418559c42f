// Lists of registers.
ghost use Rattle.std.specs.Prelude.{◌≡◌, ℕ, List, [], ◌∷◌, ◌++◌, IfOk, OnOk};

use fip_base::plain::NoMemory;
use smallvec::SmallVec;
use std::alloc::Global;
use std::marker::Model;

/// Numbers of registers, as an instruction names them; a short list lies in the instruction itself. A contract sees a
/// list.
#[derive(Drop)]
pub struct Registers {
    numbers: SmallVec<u16, 8>,
}

impl Model for Registers {
    ghost Value = { List ℕ };

    ghost view = { λ l. l.numbers.items };
}

impl Registers {
    /// No register; it takes no memory.
    pub fn new(alloc: Global) -> Self
        ensures empty { result ≡ [] }
    {
        Registers {
            numbers: SmallVec::new(alloc),
        }
    }

    /// Puts a register after the others; an error where no memory is left.
    pub fn push(&mut self, register: u16) -> Result<(), NoMemory>
        ensures added { OnOk result (self.new ≡ self.old ++ register ∷ []) }
    {
        self.numbers.push(register)?;
        Ok(())
    }

    /// The list of these registers; an error where no memory is left.
    pub fn of(alloc: Global, registers: &[u16]) -> Result<Self, NoMemory>
        ensures same { IfOk result (λ l. l ≡ registers.now) }
    {
        Ok(Registers {
            numbers: SmallVec::from_slice(alloc, registers)?,
        })
    }

    /// Its registers.
    pub fn as_slice(&self) -> &[u16]
        ensures same { result.now ≡ self.now }
    {
        self.numbers.as_slice()
    }
}
