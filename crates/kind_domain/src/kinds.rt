// What is known of each register, with names for the roots of borrowed ones.
ghost use Rattle.std.specs.Prelude.{◌≡◌, ◌∷◌, ◌+◌, ◌<◌, ℕ, [], set, map, drop, length, None, IfOk, IfSome};
ghost use Rattle.code_rules.specs.Kinds.{are_free, at};
ghost use Rattle.kind_domain.specs.Owners.{number_at, root_by, rooted, swapped};
ghost use Rattle.kind_domain.specs.Views.{kind_of, kinds_of};

use crate::known::Known;
use fip_base::plain::NoMemory;
use std::alloc::Global;
use std::marker::Model;

/// What is known of each register. The root of a borrowed one is kept as a name of the register that owns the tree, so
/// that another can become the owner of all that is borrowed from one.
#[derive(Drop)]
pub struct Kinds<'a> {
    items: Vec<Known<'a>>,
    // Of each name the register.
    owners: Vec<u16>,
    // Of each register the name.
    names: Vec<u16>,
}

impl<'a> Model for Kinds<'a> {
    ghost use Rattle.std.specs.Prelude.{List, length, map};
    ghost use Rattle.cell_code.specs.declared.kind.Kind.{Kind};
    ghost use Rattle.kind_domain.specs.Owners.{AreNames, number_at, rooted};
    ghost use Rattle.kind_domain.specs.Views.{kinds_of};

    ghost Value = { List Kind };

    ghost view = { λ k. map (rooted (number_at k.owners.items)) (kinds_of k.items.items) };

    ghost invariant = { λ k. AreNames (length k.items.items) k.owners.items k.names.items };
}

impl<'a> Kinds<'a> {
    /// What is known of so many registers. NoMemory: no memory is left.
    pub fn new(alloc: Global, items: Vec<Known<'a>>, count: u16) -> Result<Kinds<'a>, NoMemory>
        requires many { length items.items ≡ count }
        ensures is { IfOk result (λ k. k ≡ kinds_of items.entry.items) }
    {
        Ok(Kinds {
            items,
            owners: numbers(alloc, count)?,
            names: numbers(alloc, count)?,
        })
    }

    /// The number of registers.
    pub fn len(&self) -> usize
        ensures is { result ≡ length self.now }
    {
        self.items.len()
    }

    /// What is known of a register.
    pub fn get(&self, register: u16) -> Known<'a>
        ensures is { kind_of result ≡ at self.now register }
    {
        match self.items.get(register as usize) {
            None => Known::Gone,
            Some(known) => renamed(&self.owners, *known),
        }
    }

    /// What is known of the register at a place, where there is one.
    pub fn find(&self, place: usize) -> Option<Known<'a>>
        ensures some { IfSome result (λ k. drop place self.now ≡ kind_of k ∷ drop (place + 1) self.now) }
        ensures none { result ≡ None → drop place self.now ≡ [] }
    {
        match self.items.get(place) {
            None => None,
            Some(known) => Some(renamed(&self.owners, *known)),
        }
    }

    /// Whether all may be overwritten.
    pub fn are_free(&self) -> bool
        ensures is { result ≡ are_free self.now }
    {
        all_free(&self.items)
    }

    /// Another thing is known of a register.
    pub fn set(&mut self, register: u16, known: Known<'a>)
        ensures is { self.new ≡ set self.old register (kind_of known.entry) }
    {
        let place = register as usize;
        if place < self.items.len() {
            self.items[place] = renamed(&self.names, known);
        }
    }

    /// What is borrowed from one of two registers is borrowed from the other from now on.
    pub fn swap(&mut self, one: u16, other: u16)
        requires one { one < length self.now }
        requires other { other < length self.now }
        ensures is { self.new ≡ map (rooted (swapped one other)) self.old }
    {
        let first = self.names[one as usize];
        let second = self.names[other as usize];
        self.names[one as usize] = second;
        self.names[other as usize] = first;
        self.owners[first as usize] = other;
        self.owners[second as usize] = one;
    }
}

// The number that stands for another in a table.
#[tactic(auto, using(crate::proofs::Naming::number_get, crate::proofs::Naming::number_past))]
fn number_at(table: &[u16], number: u16) -> u16
    ensures is { result ≡ number_at table.now number }
{
    match table.get(number as usize) {
        None => number,
        Some(other) => *other,
    }
}

// A root by another number.
fn root_by(table: &[u16], root: Option<u16>) -> Option<u16>
    ensures is { result ≡ root_by (number_at table.now) root }
{
    match root {
        None => None,
        Some(root) => Some(number_at(table, root)),
    }
}

// The same with another number for the root.
fn renamed<'a>(table: &[u16], known: Known<'a>) -> Known<'a>
    ensures is { kind_of result ≡ rooted (number_at table.now) (kind_of known.entry) }
{
    match known {
        Known::Gone => Known::Gone,
        Known::Scalar { ty } => Known::Scalar { ty },
        Known::Owned { ty, set } => Known::Owned { ty, set },
        Known::Lent {
            ty,
            set,
            root,
            from,
        } => Known::Lent {
            ty,
            set,
            root: root_by(table, root),
            from,
        },
        Known::Credit { size } => Known::Credit { size },
    }
}

// So many numbers, each of which stands for itself.
fn numbers(alloc: Global, count: u16) -> Result<Vec<u16>, NoMemory>
    ensures same { IfOk result (λ v. (n : ℕ) → number_at v.items n ≡ n) }
    ensures long { IfOk result (λ v. length v.items ≡ count) }
{
    let mut items = Vec::new(alloc);
    for number in 0..count {
        items.push(number)?;
    }
    Ok(items)
}

// Whether all may be overwritten.
fn all_free(known: &[Known]) -> bool
    ensures is { result ≡ are_free (kinds_of known.now) }
{
    for one in known {
        if !one.is_free() {
            return false;
        }
    }
    true
}
