// Numbers of cells or credits by size.
ghost use Rattle.std.specs.Prelude.{◌≡◌, ℕ, List, OnOk};
ghost use Rattle.fip_trees.specs.Sizes.{number, no_sizes, one_more, plus, minus, greater, greatest};

use fip_base::plain::NoMemory;
use std::marker::Model;

/// A number for each size of cells from 1 to 16.
#[derive(Clone, Copy, PartialEq, Eq)]
pub struct Sizes {
    numbers: [u32; 17],
}

impl Model for Sizes {
    ghost Value = { List ℕ };

    ghost view = { λ s. s.numbers };

    ghost inverse = { λ xs. record { numbers = xs } };
}

impl Sizes {
    /// None of any size.
    pub fn none() -> Sizes
        ensures none { result ≡ no_sizes }
    {
        Sizes { numbers: [0; 17] }
    }

    /// The number of size `k`; 0 for a size that no cell has.
    pub fn of(&self, k: usize) -> u32
        ensures number { result ≡ number self.now k }
    {
        if k < 17 { self.numbers[k] } else { 0 }
    }

    /// One more of size `k`; nothing for a size that no cell has. The number stays at the greatest one where it would
    /// pass it.
    pub fn add_one(&mut self, k: usize) {
        if 0 < k && k < 17 {
            self.numbers[k] = self.numbers[k].saturating_add(1);
        }
    }

    /// As many more of each size as the other has. A number stays at the greatest one where it would pass it.
    pub fn add(&mut self, other: &Sizes) {
        for k in 1..17 {
            self.numbers[k] = self.numbers[k].saturating_add(other.numbers[k]);
        }
    }

    /// One more of size `k`; nothing for a size that no cell has. An error where the number has no room.
    pub fn try_add_one(&mut self, k: usize) -> Result<(), NoMemory>
        ensures added { OnOk result (self.new ≡ one_more k self.old) }
    {
        if 0 < k && k < 17 {
            self.numbers[k] = self.numbers[k].checked_add(1).ok_or(NoMemory)?;
        }
        Ok(())
    }

    /// As many more of each size as the other has. An error where a number has no room.
    pub fn try_add(&mut self, other: &Sizes) -> Result<(), NoMemory>
        ensures added { OnOk result (self.new ≡ plus self.old other.now) }
    {
        for k in 0..17 {
            self.numbers[k] = self.numbers[k]
                .checked_add(other.numbers[k])
                .ok_or(NoMemory)?;
        }
        Ok(())
    }

    /// As many fewer of each size as the other has, never below 0.
    pub fn less(&mut self, other: &Sizes)
        ensures fewer { self.new ≡ minus self.old other.now }
    {
        for k in 0..17 {
            self.numbers[k] = self.numbers[k].saturating_sub(other.numbers[k]);
        }
    }

    /// Of each size the greater number of the two.
    pub fn at_least(&mut self, other: &Sizes)
        ensures greatest { self.new ≡ greatest self.old other.now }
    {
        for k in 0..17 {
            self.numbers[k] = greater(self.numbers[k], other.numbers[k]);
        }
    }
}

// The greater one of two numbers.
fn greater(one: u32, other: u32) -> u32
    ensures { result ≡ greater one other }
{
    if one < other { other } else { one }
}
