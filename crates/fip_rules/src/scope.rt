// The variables in scope.
ghost use Rattle.std.specs.Prelude.{◌≡◌, List, [], ◌∷◌, ◌++◌, map, length, OnOk, OnErr, MatchOption, option_map};
ghost use Rattle.fip_rules.specs.Marks.{Entry as PlainEntry};
ghost use Rattle.fip_rules.specs.Stands.{find};
ghost use Rattle.fip_rules.specs.Views.{entry_of, entry_number};

use crate::log::Log;
use fip_base::plain::{NoMemory, Place};
use std::alloc::Global;
use std::marker::Model;

/// An occurrence of a variable, or its binder: what the variable is known by in its instance, its number in the tree,
/// and where it is with which name.
#[derive(Clone, Copy)]
pub struct Mark<'a> {
    /// How many binders are before the variable's own; no two variables of an instance have the same.
    pub id: usize,
    pub number: usize,
    pub place: Place,
    pub name: &'a [u8],
}

/// How a variable is bound.
#[derive(Clone, Copy, PartialEq, Eq)]
pub enum Ownership {
    Scalar,
    Borrowed,
    Owned,
}

/// A variable in scope, with its binder, and how many bound expressions are around that.
#[derive(Clone, Copy)]
pub struct Entry<'a> {
    pub mark: Mark<'a>,
    pub ownership: Ownership,
    pub level: usize,
}

/// The variables in scope, the innermost last.
#[derive(Drop)]
pub struct Scope<'a> {
    entries: Vec<Entry<'a>>,
    // Their numbers.
    numbers: Log,
}

impl<'a> Model for Scope<'a> {
    ghost Value = { List PlainEntry };

    ghost view = { λ s. map entry_of s.entries.items };

    ghost invariant = { λ s. s.numbers ≡ map entry_number s.entries.items };
}

impl<'a> Scope<'a> {
    /// Nothing is in scope.
    pub fn new(alloc: Global) -> Scope<'a>
        ensures none { result ≡ [] }
    {
        Scope {
            entries: Vec::new(alloc),
            numbers: Log::new(alloc),
        }
    }

    /// How many are in scope.
    pub fn len(&self) -> usize
        ensures count { result ≡ length self.now }
    {
        self.entries.len()
    }

    /// The innermost variable of a number.
    pub fn look(&self, number: usize) -> Option<Entry<'a>>
        ensures found { option_map entry_of result ≡ find self.now number }
    {
        match self.numbers.last_place(number) {
            Some(place) => Some(self.entries[place]),
            None => None,
        }
    }

    /// One more; an error where no memory is left, and then nothing changes.
    pub fn enter(&mut self, entry: Entry<'a>) -> Result<(), NoMemory>
        ensures added { OnOk result (self.new ≡ self.old ++ entry_of entry.entry ∷ []) }
        ensures same { OnErr result (self.new ≡ self.old) }
    {
        self.entries.push(entry)?;
        match self.numbers.push(entry.mark.number) {
            Ok(()) => Ok(()),
            Err(NoMemory) => {
                self.entries.pop();
                Err(NoMemory)
            }
        }
    }

    /// The last one leaves.
    pub fn pop(&mut self) -> Option<Entry<'a>>
        ensures left { MatchOption result (self.old ≡ []) (λ e. self.old ≡ self.new ++ entry_of e ∷ []) }
    {
        self.numbers.leave_one();
        self.entries.pop()
    }
}
