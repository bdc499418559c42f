// Stacks of the places of released cells, one for each size.
ghost use Rattle.std.specs.Prelude.{◌≡◌, ◌≢◌, ℕ, ◌+◌, ◌<◌, ◌≤◌, List, [], ◌∷◌, ◌++◌, length, OnOk, IfNone};
ghost use Rattle.std.specs.Prelude.{IsTrue, MatchOption};
ghost use Rattle.std.specs.Vec.{vec_capacity};
ghost use Rattle.cell_store.specs.Free.{Stack, KeepsPlaces, stack_at};

use std::alloc::{AllocError, Global};
use std::marker::Model;

/// A stack of places. A contract sees the places, the top last, and for how many the memory was taken.
#[derive(Drop)]
pub struct Places {
    places: Vec<u32>,
}

impl Model for Places {
    ghost Value = { Stack };

    ghost view = { λ s. record { places = s.places.items; room = vec_capacity s.places } };
}

impl Places {
    pub fn new(alloc: Global) -> Places
        ensures { result.places ≡ [] }
    {
        Places {
            places: Vec::new(alloc),
        }
    }

    pub fn len(&self) -> usize
        ensures { result ≡ length self.now.places }
    {
        self.places.len()
    }

    /// Takes memory for so many more places.
    pub fn reserve(&mut self, more: usize) -> Result<(), AllocError>
        ensures places { self.new.places ≡ self.old.places }
        ensures room { self.old.room ≤ self.new.room }
        ensures more { OnOk result (length self.new.places + more ≤ self.new.room) }
    {
        self.places.reserve(more)
    }

    /// Whether there is memory for so many more places.
    #[inline(always)]
    pub fn has_room(&self, more: usize) -> bool
        ensures { IsTrue result → length self.now.places + more ≤ self.now.room }
    {
        more <= self.places.capacity() - self.places.len()
    }

    pub fn push(&mut self, place: u32)
        requires { length self.old.places < self.old.room }
        ensures places { self.new.places ≡ self.old.places ++ place ∷ [] }
        ensures room { self.old.room ≤ self.new.room }
    {
        self.places.push(place).unwrap();
    }

    pub fn pop(&mut self) -> Option<u32>
        ensures places { MatchOption result (self.old.places ≡ []) (λ p. self.old.places ≡ self.new.places ++ p ∷ []) }
        ensures same { self.old.places ≡ [] → self.new.places ≡ [] }
        ensures room { self.new.room ≡ self.old.room }
    {
        self.places.pop()
    }
}

/// How many places are in the stack of a size.
pub fn count_of(stacks: &[Places], size: usize) -> usize
    ensures { result ≡ length (stack_at stacks.now size).places }
{
    match stacks.get(size) {
        Some(stack) => stack.len(),
        None => 0,
    }
}

/// Puts a place on the stack of a size, for which there is memory.
pub fn put(stacks: &mut Vec<Places>, size: usize, place: u32)
    requires { length (stack_at stacks.old.items size).places < (stack_at stacks.old.items size).room }
    ensures places { (stack_at stacks.new.items size).places ≡ (stack_at stacks.old.items size).places ++ place ∷ [] }
    ensures room { (stack_at stacks.old.items size).room ≤ (stack_at stacks.new.items size).room }
    ensures others { (k : ℕ) → k ≢ size → stack_at stacks.new.items k ≡ stack_at stacks.old.items k }
{
    let stack = &mut stacks[size];
    stack.push(place);
}

/// Takes the top place off the stack of a size. `None` where no place is there.
pub fn take(stacks: &mut Vec<Places>, size: usize) -> Option<u32>
    ensures places { MatchOption result ((stack_at stacks.old.items size).places ≡ [])
        (λ p. (stack_at stacks.old.items size).places ≡ (stack_at stacks.new.items size).places ++ p ∷ []) }
    ensures same { (stack_at stacks.old.items size).places ≡ [] → (stack_at stacks.new.items size).places ≡ [] }
    ensures room { (stack_at stacks.new.items size).room ≡ (stack_at stacks.old.items size).room }
    ensures others { (k : ℕ) → k ≢ size → stack_at stacks.new.items k ≡ stack_at stacks.old.items k }
    ensures none { IfNone result (KeepsPlaces stacks.old.items stacks.new.items) }
{
    if size < stacks.len() {
        let stack = &mut stacks[size];
        stack.pop()
    } else {
        None
    }
}

/// Whether there is memory for so many more places of a size.
#[inline(always)]
pub fn has_places(stacks: &[Places], size: usize, more: usize) -> bool
    ensures { IsTrue result → length (stack_at stacks.now size).places + more ≤ (stack_at stacks.now size).room }
{
    match stacks.get(size) {
        Some(stack) => stack.has_room(more),
        None => false,
    }
}

/// Takes memory for so many more places of a size.
pub fn reserve(
    alloc: Global,
    stacks: &mut Vec<Places>,
    size: usize,
    more: usize,
) -> Result<(), AllocError>
    requires { size < 64 }
    ensures kept { KeepsPlaces stacks.old.items stacks.new.items }
    ensures more { OnOk result (length (stack_at stacks.new.items size).places + more ≤ (stack_at stacks.new.items
        size).room) }
{
    for _ in stacks.len()..size + 1 {
        stacks.push(Places::new(alloc))?;
    }
    let stack = &mut stacks[size];
    stack.reserve(more)
}
