// The registers that a step looks at.
ghost use Rattle.std.specs.Prelude.{◌≡◌, ◌⊎◌, ℕ, ◌<◌, ◌≤◌, true, false, length, set, [], None, Some, slice_get, IfOk};
ghost use Rattle.code_rules.specs.Kinds.{has};
ghost use Rattle.kind_domain.specs.Leading.{Grows, kept_at};

use crate::marks::Marks;
use fip_base::plain::NoMemory;
use std::alloc::Global;
use std::marker::Model;

/// A list of registers, in which each occurs once. It has room for all. Beside each an heir may be kept.
#[derive(Drop)]
pub struct Lents {
    items: Vec<u16>,
    top: usize,
    listed: Marks,
    reached: Vec<Option<u16>>,
}

impl Model for Lents {
    ghost use Rattle.std.specs.Prelude.{length, take};
    ghost use Rattle.kind_domain.specs.Leading.{Lents as Held, AreLents};

    ghost Value = { Held };

    ghost view = { λ l. record {
      held = take l.top l.items.items;
      room = length l.items.items;
      reached = l.reached.items;
    } };

    ghost invariant = { λ l. AreLents l.items.items l.top l.listed l.reached.items };
}

impl Lents {
    /// None of so many registers. NoMemory: no memory is left.
    pub fn new(alloc: Global, count: u16) -> Result<Lents, NoMemory>
        ensures none { IfOk result (λ l. l.held ≡ []) }
        ensures room { IfOk result (λ l. l.room ≡ count) }
    {
        Ok(Lents {
            items: zeros(alloc, count as usize)?,
            top: 0,
            listed: Marks::new(alloc, count as usize)?,
            reached: nones(alloc, count as usize)?,
        })
    }

    /// The registers.
    pub fn as_slice(&self) -> &[u16]
        ensures same { result.now ≡ self.now.held }
        ensures few { length result.now ≤ self.now.room }
    {
        &self.items[..self.top]
    }

    /// Lists none, and keeps no heir.
    pub fn clear(&mut self)
        ensures none { self.new.held ≡ [] }
        ensures unreached { (q : ℕ) → kept_at self.new.reached q ≡ None }
        ensures room { self.new.room ≡ self.old.room }
    {
        clear_each(&self.items[..self.top], &mut self.listed, &mut self.reached);
        self.top = 0;
    }

    /// Lists a register, where there is room for it.
    pub fn add(&mut self, register: u16)
        ensures added { register < self.old.room → has self.new.held register ≡ true }
        ensures more { Grows self.old.held self.new.held }
        ensures only { (q : ℕ) → has self.new.held q ≡ true → (has self.old.held q ≡ true) ⊎ (register ≡ q) }
        ensures room { self.new.room ≡ self.old.room }
        ensures reached { self.new.reached ≡ self.old.reached }
    {
        if self.top < self.items.len() {
            if !self.listed.is_marked(register) {
                self.items[self.top] = register;
                self.top += 1;
                self.listed.mark(register);
            }
        }
    }

    /// Lists a register that isn't listed, and keeps an heir for it, where there is room for it.
    pub fn list(&mut self, register: u16, heir: Option<u16>)
        ensures listed { register < self.old.room → has self.new.held register ≡ true }
        ensures only { (q : ℕ) → has self.new.held q ≡ true →
            ((has self.old.held q ≡ true) × (kept_at self.new.reached q ≡ kept_at self.old.reached q))
            ⊎ ((register ≡ q) × (has self.old.held q ≡ false) × (kept_at self.new.reached q ≡ heir)) }
        ensures more { Grows self.old.held self.new.held }
        ensures room { self.new.room ≡ self.old.room }
    {
        if register as usize >= self.items.len() {
            return;
        }
        if self.is_listed(register) {
            return;
        }
        self.add(register);
        self.reach(register, heir);
    }

    /// Whether a register is listed.
    pub fn is_listed(&self, register: u16) -> bool
        ensures listed { result ≡ true → has self.now.held register ≡ true }
        ensures unlisted { result ≡ false → register < self.now.room → has self.now.held register ≡ false }
    {
        (register as usize) < self.items.len() && self.listed.is_marked(register)
    }

    /// The heir that was kept for a register.
    #[tactic(auto, using(crate::proofs::Heirs::kept_get, crate::proofs::Heirs::kept_past))]
    pub fn reached(&self, register: u16) -> Option<u16>
        ensures is { result ≡ kept_at self.now.reached register }
    {
        match self.reached.get(register as usize) {
            Some(heir) => *heir,
            None => None,
        }
    }

    /// Keeps an heir for a listed register, or none.
    pub fn reach(&mut self, register: u16, heir: Option<u16>)
        requires listed { has self.now.held register ≡ true }
        ensures is { self.new.reached ≡ set self.old.reached register heir }
        ensures held { self.new.held ≡ self.old.held }
        ensures room { self.new.room ≡ self.old.room }
        ensures long { length self.new.reached ≡ self.new.room }
    {
        keep(&mut self.reached, register, heir);
    }
}

// Takes the marks and the heirs of registers away.
fn clear_each(registers: &[u16], listed: &mut Marks, reached: &mut Vec<Option<u16>>)
    ensures marks { (q : ℕ) → slice_get listed.new q ≡ Some true → slice_get listed.old q ≡ Some true }
    ensures unmarked { (q : ℕ) → slice_get listed.new q ≡ Some true → has registers.now q ≡ true → ⊥ }
    ensures heirs { (q d : ℕ) → kept_at reached.new.items q ≡ Some d → kept_at reached.old.items q ≡ Some d }
    ensures unreached { (q d : ℕ) → kept_at reached.new.items q ≡ Some d → has registers.now q ≡ true → ⊥ }
    ensures marks_long { length listed.new ≡ length listed.old }
    ensures heirs_long { length reached.new.items ≡ length reached.old.items }
{
    for register in registers {
        listed.clear(*register);
        keep(reached, *register, None);
    }
}

// Keeps an heir for a register, or none.
fn keep(reached: &mut Vec<Option<u16>>, register: u16, heir: Option<u16>)
    ensures is { reached.new.items ≡ set reached.old.items register heir }
{
    let place = register as usize;
    if place < reached.len() {
        reached[place] = heir;
    }
}

// So many times no heir.
fn nones(alloc: Global, count: usize) -> Result<Vec<Option<u16>>, NoMemory>
    ensures long { IfOk result (λ v. length v.items ≡ count) }
    ensures none { IfOk result (λ v. (q d : ℕ) → slice_get v.items q ≡ Some (Some d) → ⊥) }
{
    let mut reached = Vec::new(alloc);
    reached.resize(count, None)?;
    Ok(reached)
}

// So many zeros.
fn zeros(alloc: Global, count: usize) -> Result<Vec<u16>, NoMemory>
    ensures long { IfOk result (λ v. length v.items ≡ count) }
{
    let mut items = Vec::new(alloc);
    items.resize(count, 0)?;
    Ok(items)
}
