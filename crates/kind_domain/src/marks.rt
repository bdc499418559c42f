// A mark for each register.
ghost use Rattle.std.specs.Prelude.{◌≡◌, ◌<◌, ℕ, true, false, length, Some, IfOk, set, slice_get};

use fip_base::plain::NoMemory;
use std::alloc::Global;
use std::marker::Model;

/// A mark for each of some registers. Any other counts as marked.
#[derive(Drop)]
pub struct Marks {
    marks: Vec<bool>,
}

impl Model for Marks {
    ghost use Rattle.std.specs.Prelude.{Bool, List};

    ghost Value = { List Bool };

    ghost view = { λ m. m.marks.items };
}

impl Marks {
    /// So many registers, none of them marked.
    pub fn new(alloc: Global, count: usize) -> Result<Marks, NoMemory>
        ensures long { IfOk result (λ m. length m ≡ count) }
        ensures unmarked { IfOk result (λ m. (r : ℕ) → slice_get m r ≡ Some true → ⊥) }
    {
        let mut marks = Vec::new(alloc);
        marks.resize(count, false)?;
        Ok(Marks { marks })
    }

    /// Whether a register is marked.
    pub fn is_marked(&self, register: u16) -> bool
        ensures unmarked { result ≡ false → slice_get self.now register ≡ Some false }
        ensures marked { result ≡ true → register < length self.now → slice_get self.now register ≡ Some true }
    {
        match self.marks.get(register as usize) {
            Some(mark) => *mark,
            None => true,
        }
    }

    /// Marks a register.
    pub fn mark(&mut self, register: u16)
        ensures is { self.new ≡ set self.old register true }
    {
        let place = register as usize;
        if place < self.marks.len() {
            self.marks[place] = true;
        }
    }

    /// Takes the mark of a register away.
    pub fn clear(&mut self, register: u16)
        ensures is { self.new ≡ set self.old register false }
    {
        let place = register as usize;
        if place < self.marks.len() {
            self.marks[place] = false;
        }
    }
}
