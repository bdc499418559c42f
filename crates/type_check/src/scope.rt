// The variables in scope, and their types.
ghost use Rattle.std.specs.Prelude.{◌≡◌, ◌≤◌, ◌<◌, ℕ, ◌-◌, OnOk, OnErr, None};
ghost use Rattle.std.specs.Prelude.{List, [], ◌∷◌, ◌++◌, get_or, set, map, take, length};
ghost use Rattle.type_check.specs.Scope.{look, of_binder};
ghost use Rattle.type_check.specs.Trail.{step_entry, IsTable, IsTrail};
ghost use Rattle.type_check.specs.declared.scope.Entry.{Entry};

use crate::expected::Found;
use fip_base::plain::NoMemory;
use std::alloc::Global;
use std::marker::Model;

/// A variable in scope: its number, and its type.
#[derive(Clone, Copy)]
pub(crate) struct Entry {
    pub(crate) number: usize,
    pub(crate) ty: Found,
}

// An entry, and what the table had for its number before.
#[derive(Clone, Copy)]
struct Step {
    entry: Entry,
    before: Option<Found>,
}

/// A scope: its entries in the order in which they were entered. Of two with one number the later one counts. A table
/// by number gives a variable's type at once; the trail of the entries undoes it where a scope is left.
#[derive(Drop)]
pub(crate) struct Scope {
    trail: Vec<Step>,
    table: Vec<Option<Found>>,
}

impl Model for Scope {
    ghost Value = { List Entry };

    ghost view = { λ s. map step_entry s.trail.items };

    ghost invariant = { λ s. IsTable s.table.items (map step_entry s.trail.items) × IsTrail [] s.trail.items };
}

impl Scope {
    /// The scope without variables.
    pub(crate) fn new(alloc: Global) -> Scope
        ensures { result ≡ [] }
    {
        Scope {
            trail: Vec::new(alloc),
            table: Vec::new(alloc),
        }
    }

    /// How many entries there are.
    pub(crate) fn len(&self) -> usize
        ensures { result ≡ length self.now }
    {
        self.trail.len()
    }

    /// What is known of a variable's type; none where it isn't in scope.
    pub(crate) fn look(&self, number: usize) -> Option<Found>
        ensures { result ≡ look self.now number }
    {
        entry_at(&self.table, number)
    }

    /// The same of a variable that may have no binder.
    pub(crate) fn look_binder(&self, binder: Option<usize>) -> Option<Found>
        ensures { result ≡ of_binder self.now binder }
    {
        match binder {
            None => None,
            Some(number) => self.look(number),
        }
    }

    /// Enters a variable after the others; an error where no memory is left, and then nothing changes.
    pub(crate) fn enter(&mut self, entry: Entry) -> Result<(), NoMemory>
        ensures added { OnOk result (self.new ≡ self.old ++ entry ∷ []) }
        ensures same { OnErr result (self.new ≡ self.old) }
    {
        grow(&mut self.table, entry.number)?;
        let before = entry_at(&self.table, entry.number);
        self.trail.push(Step { entry, before })?;
        put(&mut self.table, entry.number, Some(entry.ty));
        Ok(())
    }

    // Leaves the last entry.
    fn leave_one(&mut self)
        ensures left { self.new ≡ take (length self.old - 1) self.old }
    {
        if let Some(step) = self.trail.pop() {
            put(&mut self.table, step.entry.number, step.before);
        }
    }

    /// Leaves all but the first entries.
    pub(crate) fn leave(&mut self, kept: usize)
        ensures left { self.new ≡ take kept self.old }
    {
        while kept < self.len() {
            self.leave_one();
        }
    }
}

// What a table has at a number.
fn entry_at(table: &[Option<Found>], number: usize) -> Option<Found>
    ensures { result ≡ get_or table.now number None }
{
    if number < table.len() {
        table[number]
    } else {
        None
    }
}

// Makes room for a number.
fn grow(table: &mut Vec<Option<Found>>, number: usize) -> Result<(), NoMemory>
    ensures same { (y : ℕ) → get_or table.new.items y None ≡ get_or table.old.items y None }
    ensures long { OnOk result (number < length table.new.items) }
{
    while table.len() <= number {
        table.push(None)?;
    }
    Ok(())
}

// Writes at a number that has room.
fn put(table: &mut Vec<Option<Found>>, number: usize, found: Option<Found>)
    ensures { table.new.items ≡ set table.old.items number found }
{
    if number < table.len() {
        table[number] = found;
    }
}
