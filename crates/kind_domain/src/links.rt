// Which registers may lead to a register: came from its cell, or are borrowed from it.
ghost use Rattle.std.specs.Prelude.{◌≡◌, ℕ, true, IfSome};
ghost use Rattle.code_rules.specs.Kinds.{has};
ghost use Rattle.kind_domain.specs.Leading.{Linked};
ghost use Rattle.kind_domain.specs.Owners.{swapped};

use fip_base::plain::NoMemory;
use std::alloc::Global;
use std::marker::Model;

/// For each of some registers others that may lead to it. All that do are in its list, unless there is a gap.
#[derive(Drop)]
pub struct Links {
    lists: Vec<Vec<u16>>,
    // There was no room for one of them.
    gap: bool,
}

impl Model for Links {
    ghost use Rattle.std.specs.Prelude.{map};
    ghost use Rattle.kind_domain.specs.Leading.{Links as Held};
    ghost use Rattle.kind_domain.specs.Views.{row_of};

    ghost Value = { Held };

    ghost view = { λ l. record { lists = map row_of l.lists.items; gap = l.gap } };
}

impl Links {
    /// None that leads to any of so many registers. NoMemory: no memory is left.
    pub fn new(alloc: Global, count: usize) -> Result<Links, NoMemory> {
        let mut lists = Vec::new(alloc);
        for _ in 0..count {
            lists.push(Vec::new(alloc))?;
        }
        Ok(Links { lists, gap: false })
    }

    /// Registers among which are all that lead to one; none where there is a gap.
    pub fn of(&self, register: u16) -> Option<&[u16]>
        ensures all { IfSome result (λ xs. (q : ℕ) → Linked self.now register q → has xs.now q ≡ true) }
    {
        if self.gap {
            return None;
        }
        match self.lists.get(register as usize) {
            None => Some(&[]),
            Some(list) => Some(list.as_slice()),
        }
    }

    /// One more leads to a register.
    pub fn add(&mut self, register: u16, other: u16)
        ensures added { Linked self.new register other }
        ensures keeps { (r q : ℕ) → Linked self.old r q → Linked self.new r q }
    {
        let place = register as usize;
        if place < self.lists.len() {
            match self.lists[place].push(other) {
                Ok(()) => (),
                Err(_) => self.gap = true,
            }
        } else {
            self.gap = true;
        }
    }

    /// Those that led to one of two registers lead to the other.
    pub fn swap(&mut self, one: u16, other: u16)
        ensures swapped { (r q : ℕ) → Linked self.old (swapped one other r) q → Linked self.new r q }
    {
        let first = one as usize;
        let second = other as usize;
        if first < self.lists.len() && second < self.lists.len() {
            self.lists.swap(first, second);
        } else {
            self.gap = true;
        }
    }

    /// None leads to a register.
    pub fn clear(&mut self, register: u16)
        ensures others { (r q : ℕ) → (register ≡ r → ⊥) → Linked self.old r q → Linked self.new r q }
    {
        let place = register as usize;
        if place < self.lists.len() {
            self.lists[place].clear();
        }
    }
}
