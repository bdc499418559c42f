// What is looked up of the variables of an instance: their numbers, and where each occurs.
ghost use Rattle.std.specs.Prelude.{◌≡◌, ℕ, length, IfOk, OnOk};
ghost use Rattle.fip_trees.specs.TreeView as V;
ghost use Rattle.derivation_walk.specs.Lookups as L;
ghost use Rattle.derivation_walk.specs.Seen.{world_of};
ghost use Rattle.derivation_walk.specs.Tables.{numbers_of, zeros, row_at, rows, rows_from, empty_rows, IsRising};
ghost use Rattle.derivation_walk.specs.Tables as T;

use crate::context::Context;
use crate::found::{Bound, Found, Occurrence, found_in};
use crate::tables::Uses;
use fip_base::plain::NoMemory;
use fip_trees::program::Instance;
use std::alloc::Global;

impl Uses {
    /// Walks through an instance; an error where no memory is left.
    pub fn of(alloc: Global, context: &Context<'_>, instance: &Instance) -> Result<Uses, NoMemory>
        ensures of { IfOk result (λ u. L.IsOf (world_of context.now) (V.instance_of instance.now) u) }
    {
        let found = found_in(alloc, context, instance)?;
        let numbers = numbers_of(alloc, found.variables.as_slice())?;
        let occurring = places_of(alloc, &found, true)?;
        let used = places_of(alloc, &found, false)?;
        Ok(Uses {
            variables: found.variables,
            numbers,
            occurring,
            used,
        })
    }

    /// The number of the variable of a binder.
    pub fn number_of(&self, binder: usize) -> usize
        ensures number { result ≡ L.number_at self.now binder }
    {
        match self.numbers.get(binder) {
            Some(number) => *number,
            None => 0,
        }
    }

    /// Whether a variable is scalar.
    pub fn is_scalar(&self, number: usize) -> bool
        ensures scalar { result ≡ L.is_scalar_at self.now number }
    {
        match self.variables.get(number) {
            Some(variable) => variable.is_scalar,
            None => true,
        }
    }

    /// Whether a variable is that of a binder.
    pub fn is_bound_by(&self, number: usize, binder: usize) -> bool
        ensures bound { result ≡ L.is_bound_by self.now number binder }
    {
        match self.variables.get(number) {
            Some(variable) => variable.binder == binder,
            None => false,
        }
    }

    /// Whether a variable is used up in one of the expressions from `first` to before `end`.
    pub fn is_used(&self, number: usize, first: u128, end: u128) -> bool
        ensures used { result ≡ L.uses_at self.now number first end }
    {
        match self.variables.get(number) {
            Some(variable) => is_within(&self.used, variable.binder, first, end),
            None => false,
        }
    }

    /// Whether a variable occurs in one of the expressions from `first` to before `end`.
    pub fn occurs(&self, number: usize, first: u128, end: u128) -> bool
        ensures occurs { result ≡ L.occurs_at self.now number first end }
    {
        match self.variables.get(number) {
            Some(variable) => is_within(&self.occurring, variable.binder, first, end),
            None => false,
        }
    }
}

// For each binder the number of its variable.
fn numbers_of(alloc: Global, variables: &[Bound]) -> Result<Vec<usize>, NoMemory>
    ensures { IfOk result (λ v. v.items ≡ numbers_of variables.now) }
{
    let mut numbers = zeros(alloc, variables.len())?;
    let mut next: usize = 0;
    for variable in variables {
        if let Some(number) = numbers.get_mut(variable.binder) {
            *number = next;
        }
        next += 1;
    }
    Ok(numbers)
}

fn zeros(alloc: Global, count: usize) -> Result<Vec<usize>, NoMemory>
    ensures { IfOk result (λ v. v.items ≡ zeros count) }
{
    let mut zeros = Vec::new(alloc);
    for i in 0..count {
        zeros.push(0)?;
    }
    Ok(zeros)
}

// For each binder the expressions in which its variable occurs, or is used up.
fn places_of(alloc: Global, found: &Found, is_all: bool) -> Result<Vec<Vec<usize>>, NoMemory>
    ensures { IfOk result (λ v. rows v.items ≡
        rows_from is_all (empty_rows (length found.now.variables.items)) found.now.occurrences.items) }
{
    let mut places = empty_rows(alloc, found.variables.len())?;
    for occurrence in &found.occurrences {
        if is_all || !occurrence.is_lent {
            add_place(&mut places, occurrence)?;
        }
    }
    Ok(places)
}

fn empty_rows(alloc: Global, count: usize) -> Result<Vec<Vec<usize>>, NoMemory>
    ensures { IfOk result (λ v. rows v.items ≡ empty_rows count) }
{
    let mut places = Vec::new(alloc);
    for i in 0..count {
        places.push(Vec::new(alloc))?;
    }
    Ok(places)
}

fn add_place(places: &mut Vec<Vec<usize>>, occurrence: &Occurrence) -> Result<(), NoMemory>
    ensures { OnOk result (rows places.new.items ≡
        T.add_at occurrence.now.binder occurrence.now.expression (rows places.old.items)) }
{
    if let Some(row) = places.get_mut(occurrence.binder) {
        row.push(occurrence.expression)?;
    }
    Ok(())
}

// Whether one of the places of a binder lies from `first` to before `end`.
fn is_within(places: &[Vec<usize>], binder: usize, first: u128, end: u128) -> bool
    requires { (x : ℕ) → IsRising (row_at (rows places.now) x) }
    ensures { result ≡ T.has_within first end (row_at (rows places.now) binder) }
{
    match places.get(binder) {
        Some(row) => has_within(row, first, end),
        None => false,
    }
}

fn has_within(places: &[usize], first: u128, end: u128) -> bool
    requires { IsRising places.now }
    ensures { result ≡ T.has_within first end places.now }
{
    match usize::try_from(first) {
        Ok(first) => has_from(places, first, end),
        // No place is so great a number.
        Err(_) => false,
    }
}

fn has_from(places: &[usize], first: usize, end: u128) -> bool
    requires { IsRising places.now }
    ensures { result ≡ T.has_within first end places.now }
{
    let next = match places.binary_search(&first) {
        Ok(next) => next,
        Err(next) => next,
    };
    match places.get(next) {
        Some(place) => (*place as u128) < end,
        None => false,
    }
}
