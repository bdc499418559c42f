// The values of variables: those of each function that was entered and isn't left, one function's after another's.
ghost use Rattle.std.specs.Prelude.{◌≡◌, ◌≢◌, ℕ, ◌+◌, ◌<◌, ◌≤◌, length, Some, IfOk, OnOk};
ghost use Rattle.std.specs.Prelude.{IfSome, slice_get};
ghost use Rattle.fip_trees.specs.fip_language.Values.{Value as Tree};
ghost use Rattle.fip_trees.specs.fip_language.Meaning.{Environment, bind};
ghost use Rattle.plain_rows.specs.Rows.{Stands};
ghost use Rattle.plain_eval.specs.Slots.{CoversNow, Keeps, KeepsOff, KeepsAll};

use crate::collect::collect;
use fip_base::plain::NoMemory;
use plain_rows::{Store, Value};
use std::alloc::Global;

/// The values of variables, by their numbers in the function that runs.
#[derive(Drop)]
pub struct Variables {
    alloc: Global,
    values: Vec<Value>,
    // Where those of the function that runs begin and end.
    base: usize,
    end: usize,
}

impl Variables {
    /// No variables, of no function. It takes no memory.
    pub fn new(alloc: Global) -> Variables {
        Variables {
            alloc,
            values: Vec::new(alloc),
            base: 0,
            end: 0,
        }
    }

    /// The value of a variable.
    pub fn value(&self, number: usize) -> Value
        ensures stands { (s : Store) (env : Environment) (v : Tree) → CoversNow s self.now env → env number ≡ Some v →
            Stands s result v }
    {
        match self.base.checked_add(number) {
            Some(place) => value_at(self.values.as_slice(), place),
            None => Value::Unbound,
        }
    }

    // The slot of a variable that has no value yet.
    fn free_place(&self, number: usize) -> Option<usize>
        ensures free { IfSome result (λ p. (p ≡ self.now.base + number) × (p < self.now.end)
            × (slice_get self.now.values.items p ≡ Some Value.Unbound)) }
    {
        let place = self.base.checked_add(number)?;
        if place < self.end && self.values.get(place).copied() == Some(Value::Unbound) {
            Some(place)
        } else {
            None
        }
    }

    // Puts the variables of the function that runs after all others once more, with a slot for this one; its place.
    // So where a variable gets another value, those that wait keep theirs.
    fn renew(&mut self, number: usize) -> Result<usize, NoMemory>
        ensures place { IfOk result (λ p. (p ≡ self.new.base + number) × (p < self.new.end)
            × (p < length self.new.values.items)) }
        ensures covers { OnOk result ((s : Store) (env : Environment) → CoversNow s self.old env →
            CoversNow s self.new env) }
        ensures keeps { IfOk result (λ p. (s : Store) → KeepsOff p s self.old.values.items self.new.values.items) }
        ensures longer { OnOk result (length self.old.values.items ≤ self.new.end) }
    {
        let base = self.values.len();
        // A place that no number names is past all memory, so that it gets no slot.
        let place = base.saturating_add(number);
        let least = place.saturating_add(1);
        let mut copy = Vec::new(self.alloc);
        copy.extend_from_slice(part(self.values.as_slice(), self.base, self.end))?;
        self.values.extend_from_slice(copy.as_slice())?;
        fill(&mut self.values, least)?;
        self.base = base;
        self.end = self.values.len();
        Ok(place)
    }

    // A slot for a variable, which has no value there that anything needs.
    fn new_place(&mut self, number: usize) -> Result<usize, NoMemory>
        ensures place { IfOk result (λ p. (p ≡ self.new.base + number) × (p < self.new.end)
            × (p < length self.new.values.items)) }
        ensures covers { OnOk result ((s : Store) (env : Environment) → CoversNow s self.old env →
            CoversNow s self.new env) }
        ensures keeps { IfOk result (λ p. (s : Store) → KeepsOff p s self.old.values.items self.new.values.items) }
        ensures longer { OnOk result (self.old.end ≤ self.new.end) }
    {
        match self.free_place(number) {
            Some(place) => Ok(place),
            None => {
                fill(&mut self.values, self.end)?;
                self.renew(number)
            }
        }
    }

    /// Binds a variable. An error where no memory is left.
    pub fn bind(&mut self, number: usize, value: Value) -> Result<(), NoMemory>
        ensures covers { OnOk result ((s : Store) (env : Environment) (v : Tree) → CoversNow s self.old env →
            Stands s value v → CoversNow s self.new (bind env number v)) }
        ensures keeps { OnOk result ((s : Store) → KeepsAll s self.old.values.items s self.new.values.items) }
        ensures longer { OnOk result (self.old.end ≤ self.new.end) }
    {
        let place = self.new_place(number)?;
        put(&mut self.values, place, value);
        Ok(())
    }

    /// Where the variables of the function that runs begin.
    pub fn base(&self) -> usize
        ensures same { result ≡ self.now.base }
    {
        self.base
    }

    /// Where they end.
    pub fn end(&self) -> usize
        ensures same { result ≡ self.now.end }
    {
        self.end
    }

    /// Enters a function of so many variables. Those after an end are given up. An error where no memory is left.
    pub fn enter(&mut self, end: usize, count: usize) -> Result<(), NoMemory>
        ensures keeps { OnOk result ((s : Store) → Keeps end s self.old.values.items s self.new.values.items) }
        ensures longer { OnOk result (end ≤ self.new.end) }
    {
        let last = end.saturating_add(count);
        self.values.truncate(end);
        fill(&mut self.values, last)?;
        self.base = end;
        self.end = last;
        Ok(())
    }

    /// Goes back to the variables from one place to another, which stayed as they were, and gives up those after them.
    pub fn leave(&mut self, base: usize, end: usize)
        ensures base { self.new.base ≡ base }
        ensures end { self.new.end ≡ end }
        ensures keeps { (s : Store) → Keeps end s self.old.values.items s self.new.values.items }
    {
        self.values.truncate(end);
        self.base = base;
        self.end = end;
    }

    /// Goes back to the variables from one place to another, which stayed as they were.
    pub fn go_back(&mut self, base: usize, end: usize)
        ensures base { self.new.base ≡ base }
        ensures end { self.new.end ≡ end }
        ensures values { self.new.values ≡ self.old.values }
    {
        self.base = base;
        self.end = end;
    }

    /// The number of values.
    pub fn len(&self) -> usize {
        self.values.len()
    }

    /// The store of those rows alone that the values reach; they name them there. An error where no memory is left.
    pub fn collect(&mut self, store: &Store) -> Result<Store, NoMemory>
        ensures keeps { IfOk result (λ kept. KeepsAll store.now self.old.values.items kept self.new.values.items) }
        ensures base { self.new.base ≡ self.old.base }
        ensures end { self.new.end ≡ self.old.end }
    {
        collect(self.alloc, store, &mut self.values)
    }
}

/// The value at a place.
pub fn value_at(values: &[Value], place: usize) -> Value
    ensures at { (w : Value) → slice_get values.now place ≡ Some w → result ≡ w }
{
    match values.get(place) {
        Some(value) => *value,
        None => Value::Unbound,
    }
}

// Puts a value at a place.
fn put(values: &mut Vec<Value>, place: usize, value: Value)
    requires { place < length values.old.items }
    ensures at { slice_get values.new.items place ≡ Some value }
    ensures others { (i : ℕ) → i ≢ place → slice_get values.new.items i ≡ slice_get values.old.items i }
    ensures length { length values.new.items ≡ length values.old.items }
{
    values[place] = value;
}

// Fills slots up to an end.
fn fill(values: &mut Vec<Value>, end: usize) -> Result<(), NoMemory>
    ensures kept { OnOk result ((i : ℕ) (w : Value) → slice_get values.old.items i ≡ Some w →
        slice_get values.new.items i ≡ Some w) }
    ensures end { OnOk result (end ≤ length values.new.items) }
    ensures longer { OnOk result (length values.old.items ≤ length values.new.items) }
{
    if values.len() < end {
        values.resize(end, Value::Unbound)?;
    }
    Ok(())
}

// The values from one place to another, as many as there are.
fn part(values: &[Value], start: usize, end: usize) -> &[Value]
    ensures part { (i : ℕ) (w : Value) → start + i < end → slice_get values.now (start + i) ≡ Some w →
        slice_get result.now i ≡ Some w }
{
    let end = end.min(values.len());
    if start <= end {
        &values[start..end]
    } else {
        &[]
    }
}
