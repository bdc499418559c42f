// The registers that a step looks at: those that lead to what it changes.
ghost use Rattle.std.specs.Prelude.{◌≡◌, ◌<◌, ◌≤◌, ℕ, true, false, [], length, None};
ghost use Rattle.kind_domain.specs.code_rules.Kinds.{at, from_of, has, is_lent_of};
ghost use Rattle.kind_domain.specs.Leading.{ClosedBelow, Gathers, Grows, kept_at, leads, names};
ghost use Rattle.kind_domain.specs.Views.{kind_of};

use crate::registers::Registers;
use kind_domain::kinds::Kinds;
use kind_domain::known::Known;
use kind_domain::lents::Lents;

impl<'a> Registers<'a> {
    // Lists none.
    pub(crate) fn list_none(&mut self)
        ensures none { self.new.lent ≡ [] }
        ensures unreached { (q : ℕ) → kept_at self.new.reached q ≡ None }
        ensures kinds { self.new.kinds ≡ self.old.kinds }
        ensures maps { self.new.maps ≡ self.old.maps }
    {
        self.lents.clear();
    }

    // Lists also those that lead to a register.
    pub(crate) fn list_to(&mut self, register: u16)
        ensures listed { (q : ℕ) → leads register (at self.old.kinds q) ≡ true → has self.new.lent q ≡ true }
        ensures more { Grows self.old.lent self.new.lent }
        ensures kinds { self.new.kinds ≡ self.old.kinds }
        ensures maps { self.new.maps ≡ self.old.maps }
        ensures reached { self.new.reached ≡ self.old.reached }
    {
        self.list_below(register);
        self.list_tree(register);
    }

    // Lists also those that came from the cell of a register.
    pub(crate) fn list_below(&mut self, register: u16)
        ensures listed { (q : ℕ) → names register (from_of (at self.old.kinds q)) ≡ true →
            has self.new.lent q ≡ true }
        ensures more { Grows self.old.lent self.new.lent }
        ensures kinds { self.new.kinds ≡ self.old.kinds }
        ensures maps { self.new.maps ≡ self.old.maps }
        ensures reached { self.new.reached ≡ self.old.reached }
    {
        match self.below.of(register) {
            None => list_all(&mut self.lents, self.known.len() as u16),
            Some(others) => list_those(&mut self.lents, &self.known, others, register),
        }
    }

    // Lists also those that are lent of a register.
    fn list_tree(&mut self, register: u16)
        ensures listed { (q : ℕ) → is_lent_of register (at self.old.kinds q) ≡ true → has self.new.lent q ≡ true }
        ensures more { Grows self.old.lent self.new.lent }
        ensures kinds { self.new.kinds ≡ self.old.kinds }
        ensures maps { self.new.maps ≡ self.old.maps }
        ensures reached { self.new.reached ≡ self.old.reached }
    {
        match self.trees.of(register) {
            None => list_all(&mut self.lents, self.known.len() as u16),
            Some(others) => list_those(&mut self.lents, &self.known, others, register),
        }
    }

    // Lists also those that lead to some registers.
    pub(crate) fn list_to_each(&mut self, registers: &[u16])
        ensures listed { (p q : ℕ) → has registers.now p ≡ true → leads p (at self.old.kinds q) ≡ true →
            has self.new.lent q ≡ true }
        ensures more { Grows self.old.lent self.new.lent }
        ensures kinds { self.new.kinds ≡ self.old.kinds }
        ensures maps { self.new.maps ≡ self.old.maps }
        ensures reached { self.new.reached ≡ self.old.reached }
    {
        for register in registers {
            self.list_to(*register);
        }
    }

    // Lists also those that lead to a register of the list, from a place in it on. The place where it ends.
    pub(crate) fn list_further(&mut self, start: usize) -> usize
        requires within { start ≤ length self.now.lent }
        requires closed { ClosedBelow self.now.kinds self.now.lent start }
        ensures end { result ≡ length self.new.lent }
        ensures closed { (p q : ℕ) → has self.new.lent p ≡ true → leads p (at self.old.kinds q) ≡ true →
            has self.new.lent q ≡ true }
        ensures more { Grows self.old.lent self.new.lent }
        ensures kinds { self.new.kinds ≡ self.old.kinds }
        ensures maps { self.new.maps ≡ self.old.maps }
        ensures reached { self.new.reached ≡ self.old.reached }
    {
        let mut place = start;
        while place < self.lent_len() {
            let listed = self.lent_at(place);
            self.list_to(listed);
            place += 1;
        }
        place
    }

    // Lists those that lead to a register, or to one that is listed, each after the one that it leads to.
    pub(crate) fn gather(&mut self, register: u16)
        ensures gathered { Gathers self.old.kinds register self.new.lent }
        ensures kinds { self.new.kinds ≡ self.old.kinds }
        ensures maps { self.new.maps ≡ self.old.maps }
    {
        self.list_none();
        self.list_to(register);
        self.list_further(0);
    }

    // Whether a register is there.
    pub(crate) fn is_there(&self, register: u16) -> bool
        ensures there { result ≡ true → register < length self.now.kinds }
    {
        (register as usize) < self.known.len()
    }

    // Where nothing leads to a register any more, nothing is kept of what did.
    pub(crate) fn tidy(&mut self, register: u16)
        ensures same { self.new ≡ self.old }
    {
        if self.is_alone(register) {
            self.below.clear(register);
            self.trees.clear(register);
            self.loose.clear(register);
        }
    }

    // Whether nothing leads to a register; no where that isn't seen at once.
    fn is_alone(&self, register: u16) -> bool
        ensures alone { result ≡ true → (q : ℕ) → leads register (at self.now.kinds q) ≡ false }
    {
        match self.below.of(register) {
            None => false,
            Some(sources) => match self.trees.of(register) {
                None => false,
                Some(tree) => none_leads(&self.known, sources, register)
                    && none_leads(&self.known, tree, register),
            },
        }
    }
}

// Lists also so many registers.
fn list_all(lents: &mut Lents, count: u16)
    ensures listed { (q : ℕ) → q < count → q < lents.old.room → has lents.new.held q ≡ true }
    ensures more { Grows lents.old.held lents.new.held }
    ensures room { lents.new.room ≡ lents.old.room }
    ensures reached { lents.new.reached ≡ lents.old.reached }
{
    for register in 0..count {
        lents.add(register);
    }
}

// Lists also those of some registers that lead to one.
fn list_those(lents: &mut Lents, known: &Kinds, others: &[u16], register: u16)
    ensures listed { (q : ℕ) → has others.now q ≡ true → leads register (at known.now q) ≡ true →
        q < lents.old.room → has lents.new.held q ≡ true }
    ensures more { Grows lents.old.held lents.new.held }
    ensures room { lents.new.room ≡ lents.old.room }
    ensures reached { lents.new.reached ≡ lents.old.reached }
{
    for other in others {
        list_one(lents, known.get(*other), *other, register);
    }
}

// Lists also a register of which this is known, where it leads to one.
fn list_one(lents: &mut Lents, known: Known, other: u16, register: u16)
    ensures listed { leads register (kind_of known.entry) ≡ true → other < lents.old.room →
        has lents.new.held other ≡ true }
    ensures more { Grows lents.old.held lents.new.held }
    ensures room { lents.new.room ≡ lents.old.room }
    ensures reached { lents.new.reached ≡ lents.old.reached }
{
    if known.leads_to(register) {
        lents.add(other);
    }
}

// Whether none of some registers leads to one.
fn none_leads(known: &Kinds, others: &[u16], register: u16) -> bool
    ensures none { result ≡ true → (q : ℕ) → has others.now q ≡ true →
        leads register (at known.now q) ≡ false }
{
    for other in others {
        if known.get(*other).leads_to(register) {
            return false;
        }
    }
    true
}
