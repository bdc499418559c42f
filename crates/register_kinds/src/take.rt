// Taking a cell apart: its fields go into registers, and the register that owned it keeps it as a credit.
ghost use Rattle.std.specs.Prelude.{◌≡◌, ◌⊎◌, ◌<◌, ℕ, List, true, false, None, Some, is_some, set, length, map};
ghost use Rattle.kind_domain.specs.code_rules.Asked.{known_fields};
ghost use Rattle.kind_domain.specs.code_rules.Kinds.{at, has, is_lent_of, is_owned};
ghost use Rattle.kind_domain.specs.code_rules.Taking.{IsTaken, IsReached, part, is_heir, is_field, part_kind, credit, ends};
ghost use Rattle.kind_domain.specs.code_rules.Taking.{is_heir_by, with_root};
ghost use Rattle.register_kinds.specs.Takes.{as_part, seen_at, next_at, AreReached, AreSettled, nones};
ghost use Rattle.register_kinds.specs.Takes.{is_used, forgotten, fated, filled_by, filled_at, emptied, in_turn};
ghost use Rattle.register_kinds.specs.Takes.{stands_for};
ghost use Rattle.register_kinds.specs.Climbs.{AreKnown, AreKnownOver, IsWhole};
ghost use Rattle.kind_domain.specs.cell_code.declared.kind.Kind.{Kind};
ghost use Rattle.kind_domain.specs.Owners.{rooted};
ghost use Rattle.register_kinds.specs.Sorted.{IsTakable};
ghost use Rattle.register_kinds.specs.Takes.{GathersParts, IsPassed};
ghost use Rattle.kind_domain.specs.Leading.{Grows, kept_at, leads, names};
ghost use Rattle.kind_domain.specs.declared.label_sets.Origin.{Origin};
ghost use Rattle.kind_domain.specs.LabelSets.{set_at};
ghost use Rattle.kind_domain.specs.Rising.{Rise};
ghost use Rattle.kind_domain.specs.code_rules.Kinds.{set_of};
ghost use Rattle.kind_domain.specs.Views.{kind_of};

use crate::held::{is_whole, mended};
use crate::registers::Registers;
use kind_domain::code::From;
use kind_domain::known::{Known, whole};
use kind_domain::label_sets::Origin;
use kind_domain::marks::Marks;
use kind_domain::table::Table;

// So few registers get another root one by one: where names change, label maps are looked at anew.
const FEW: usize = 16;

// So often the number of registers that are looked at to find the largest part of a tree is doubled, at the most.
const MOST_TURNS: usize = 16;

/// A field of a cell, and its type.
#[derive(Clone, Copy)]
pub struct Piece {
    pub field: usize,
    pub ty: u32,
}

impl<'a> Registers<'a> {
    /// The cell of a register is taken apart into these registers, one for each field. A register that was known to
    /// read the field that it gets owns it from now on, with the constructors that it was known to have, and what was
    /// read through it goes on to be read. All else that was read of the tree is gone.
    pub fn take(&mut self, table: &Table<'a>, register: u16, parts: &[u16])
        ensures kinds { IsTaken table.now self.old.kinds register parts.now
            (known_fields table.now (at self.old.kinds register)) self.new.kinds }
        ensures maps { self.new.maps ≡ self.old.maps }
    {
        let held = self.take_held();
        let types = self.known_fields(table, register);
        let plain = self.is_plain(register, parts, types);
        self.pass_either(table, register, parts, types, &held, plain);
        self.fill(table, register, parts, types);
        self.empty(register, parts, types);
        self.tidy(register);
        self.settle(register, held, plain);
    }

    // Whether the register owns a tree and gets no part, and no part's register owns one.
    fn is_plain(&self, register: u16, parts: &[u16], types: &[u32]) -> bool
        ensures owned { result ≡ true → is_owned (at self.now.kinds register) ≡ true }
        ensures own { result ≡ true → is_some (part parts.now types.now register) ≡ false }
        ensures free { result ≡ true → (q : ℕ) → is_some (part parts.now types.now q) ≡ true →
            is_owned (at self.now.kinds q) ≡ false }
    {
        if !self.known(register).is_owned() {
            return false;
        }
        if piece_of(parts, types, register).is_some() {
            return false;
        }
        self.none_owned(parts)
    }

    // Whether none of some registers owns a tree.
    fn none_owned(&self, registers: &[u16]) -> bool
        ensures none { result ≡ true → (q : ℕ) → has registers.now q ≡ true → is_owned (at self.now.kinds q) ≡ false }
    {
        for register in registers {
            if self.known(*register).is_owned() {
                return false;
            }
        }
        true
    }

    // It is known which trees are torn after a Take, where it was before, or it is found out.
    fn settle(&mut self, register: u16, held: Option<Marks>, plain: bool)
        requires known { plain ≡ true → AreKnownOver self.now.kinds register held }
        ensures kinds { self.new.kinds ≡ self.old.kinds }
        ensures maps { self.new.maps ≡ self.old.maps }
    {
        if plain {
            self.set_held(mended(held, register));
        } else {
            self.find_held(held);
        }
    }

    // What was read through an heir goes on to be read in its tree, and all else that was read of the register's is
    // gone. Where the tree is whole, only those are looked at that change one by one.
    fn pass_either(
        &mut self,
        table: &Table<'a>,
        register: u16,
        parts: &[u16],
        types: &[u32],
        held: &Option<Marks>,
        plain: bool,
    )
        requires known { AreKnown self.now.kinds held.now }
        requires owned { plain ≡ true → is_owned (at self.now.kinds register) ≡ true }
        requires own { plain ≡ true → is_some (part parts.now types.now register) ≡ false }
        ensures passed { IsPassed table.now self.old.kinds register parts.now types.now self.new.kinds }
        ensures maps { self.new.maps ≡ self.old.maps }
    {
        if !plain {
            self.pass_all_on(table, register, parts, types);
            return;
        }
        if !is_whole(held, register) {
            self.pass_all_on(table, register, parts, types);
            return;
        }
        if !self.pass_sorted(table, register, parts, types, held) {
            self.pass_all_on(table, register, parts, types);
        }
    }

    // The same where the tree is whole. Whether those that change one by one were found.
    fn pass_sorted(
        &mut self,
        table: &Table<'a>,
        register: u16,
        parts: &[u16],
        types: &[u32],
        held: &Option<Marks>,
    ) -> bool
        requires takable { IsTakable self.now.kinds register (part parts.now types.now) }
        requires known { AreKnown self.now.kinds held.now }
        ensures passed { result ≡ true →
            IsPassed table.now self.old.kinds register parts.now types.now self.new.kinds }
        ensures same { result ≡ false → self.new.kinds ≡ self.old.kinds }
        ensures maps { self.new.maps ≡ self.old.maps }
    {
        let keeper = self.choose(table, register, parts, types, held);
        if !self.sort(table, register, parts, types, keeper) {
            return false;
        }
        self.forget_ended(table, register, parts, types);
        self.pass_on(register, parts, types, keeper);
        self.change_names(register, keeper);
        true
    }

    // The heir that keeps the name of the register: the one that most registers reach, unless few do.
    fn choose(
        &mut self,
        table: &Table<'a>,
        register: u16,
        parts: &[u16],
        types: &[u32],
        held: &Option<Marks>,
    ) -> Option<u16>
        requires known { AreKnown self.now.kinds held.now }
        ensures apart { (h : ℕ) → result ≡ Some h → (q : ℕ) → is_lent_of h (at self.old.kinds q) ≡ false }
        ensures own { (h : ℕ) → result ≡ Some h → register < length self.new.kinds }
        ensures other { (h : ℕ) → result ≡ Some h → h < length self.new.kinds }
        ensures kinds { self.new.kinds ≡ self.old.kinds }
        ensures maps { self.new.maps ≡ self.old.maps }
    {
        match self.largest(table, register, parts, types) {
            None => None,
            Some(heir) => self.checked(register, heir, held),
        }
    }

    // A register as the one that keeps the name of another, where both are there and nothing is lent of it.
    fn checked(&self, register: u16, heir: u16, held: &Option<Marks>) -> Option<u16>
        ensures free { (h : ℕ) → result ≡ Some h → is_owned (at self.now.kinds h) ≡ false }
        ensures whole { (ks : List Kind) (h : ℕ) → result ≡ Some h → AreKnown ks held.now → IsWhole ks h }
        ensures own { (h : ℕ) → result ≡ Some h → register < length self.now.kinds }
        ensures other { (h : ℕ) → result ≡ Some h → h < length self.now.kinds }
    {
        if !self.is_there(register) {
            return None;
        }
        if !self.is_there(heir) {
            return None;
        }
        if !is_whole(held, heir) {
            return None;
        }
        if self.known(heir).is_owned() {
            None
        } else {
            Some(heir)
        }
    }

    // The heir that most registers reach, as far as that is found by looking at twice as many registers each time until
    // one heir at the most has more.
    fn largest(
        &mut self,
        table: &Table<'a>,
        register: u16,
        parts: &[u16],
        types: &[u32],
    ) -> Option<u16>
        ensures kinds { self.new.kinds ≡ self.old.kinds }
        ensures maps { self.new.maps ≡ self.old.maps }
    {
        let mut largest = None;
        let mut many = FEW;
        for _ in 0..MOST_TURNS {
            let first = self.large(table, register, parts, types, many, None);
            if first.is_none() {
                return largest;
            }
            largest = first;
            let second = self.large(table, register, parts, types, many, first);
            if second.is_none() {
                return largest;
            }
            many = many.saturating_mul(2);
        }
        largest
    }

    // The first heir but one that so many registers reach, where there is one.
    fn large(
        &mut self,
        table: &Table<'a>,
        register: u16,
        parts: &[u16],
        types: &[u32],
        many: usize,
        but: Option<u16>,
    ) -> Option<u16>
        ensures kinds { self.new.kinds ≡ self.old.kinds }
        ensures maps { self.new.maps ≡ self.old.maps }
    {
        for part in parts {
            if !is_one(*part, but) && self.is_heir(table, register, parts, types, *part) {
                if self.has_many(*part, many) {
                    return Some(*part);
                }
            }
        }
        None
    }

    // Whether so many registers reach one.
    fn has_many(&mut self, register: u16, many: usize) -> bool
        ensures kinds { self.new.kinds ≡ self.old.kinds }
        ensures maps { self.new.maps ≡ self.old.maps }
    {
        self.list_none();
        self.list_below(register);
        let mut place = 0usize;
        while place < self.lent_len() {
            if self.lent_len() >= many {
                return true;
            }
            let listed = self.lent_at(place);
            self.list_below(listed);
            place += 1;
        }
        self.lent_len() >= many
    }

    // What was read through an heir goes on to be read in its tree, and all else that was read of the register's is
    // gone.
    fn pass_all_on(&mut self, table: &Table<'a>, register: u16, parts: &[u16], types: &[u32])
        ensures passed { IsPassed table.now self.old.kinds register parts.now types.now self.new.kinds }
        ensures maps { self.new.maps ≡ self.old.maps }
    {
        self.gather_parts(table, register, parts, types);
        self.find_heirs(table, register, parts, types);
        self.forget_ended(table, register, parts, types);
        self.pass_on(register, parts, types, None);
    }

    // Lists those that lead to the register, to heirs, or to one of these that are listed, and those that lead to parts.
    // Those that lead to heirs stand first, each after the one that it leads to.
    fn gather_parts(&mut self, table: &Table<'a>, register: u16, parts: &[u16], types: &[u32])
        ensures gathered { GathersParts self.old.kinds register
            (is_heir table.now self.old.kinds register (part parts.now types.now)) parts.now self.new.lent }
        ensures unreached { (q : ℕ) → kept_at self.new.reached q ≡ None }
        ensures kinds { self.new.kinds ≡ self.old.kinds }
        ensures maps { self.new.maps ≡ self.old.maps }
    {
        self.list_none();
        self.list_to_heirs(table, register, parts, types);
        let settled = self.list_further(0);
        self.list_to(register);
        self.list_further(settled);
        self.list_to_each(parts);
    }

    // Lists also those that lead to heirs.
    fn list_to_heirs(&mut self, table: &Table<'a>, register: u16, parts: &[u16], types: &[u32])
        ensures listed { (p q : ℕ) → is_heir table.now self.old.kinds register (part parts.now types.now) p ≡ true →
            leads p (at self.old.kinds q) ≡ true → has self.new.lent q ≡ true }
        ensures more { Grows self.old.lent self.new.lent }
        ensures kinds { self.new.kinds ≡ self.old.kinds }
        ensures maps { self.new.maps ≡ self.old.maps }
        ensures reached { self.new.reached ≡ self.old.reached }
    {
        for heir in parts {
            self.list_to_heir(table, register, parts, types, *heir);
        }
    }

    // Lists also those that lead to a register, where it is an heir.
    fn list_to_heir(
        &mut self,
        table: &Table<'a>,
        register: u16,
        parts: &[u16],
        types: &[u32],
        heir: u16,
    )
        ensures listed { (q : ℕ) → is_heir table.now self.old.kinds register (part parts.now types.now) heir ≡ true →
            leads heir (at self.old.kinds q) ≡ true → has self.new.lent q ≡ true }
        ensures more { Grows self.old.lent self.new.lent }
        ensures kinds { self.new.kinds ≡ self.old.kinds }
        ensures maps { self.new.maps ≡ self.old.maps }
        ensures reached { self.new.reached ≡ self.old.reached }
    {
        if self.is_heir(table, register, parts, types, heir) {
            self.list_to(heir);
        }
    }

    // Whether a register is known to read the field that it gets, which is no scalar.
    pub(crate) fn is_heir(
        &self,
        table: &Table<'a>,
        register: u16,
        parts: &[u16],
        types: &[u32],
        other: u16,
    ) -> bool
        ensures is { result ≡ is_heir table.now self.now.kinds register (part parts.now types.now) other }
    {
        is_heir_by(table, register, parts, types, self.known(other), other)
    }

    // The heir that a lent register was seen to reach.
    fn seen(&self, lent: u16) -> Option<u16>
        ensures is { result ≡ seen_at self.now.kinds self.now.reached lent }
    {
        if self.known(lent).is_lent() {
            self.reached(lent)
        } else {
            None
        }
    }

    // The heir that a register's word came from, or that the register reaches that it came from.
    fn next(
        &self,
        table: &Table<'a>,
        register: u16,
        parts: &[u16],
        types: &[u32],
        lent: u16,
    ) -> Option<u16>
        ensures is { result ≡ next_at self.now.kinds
            (is_heir table.now self.now.kinds register (part parts.now types.now)) self.now.reached lent }
    {
        match self.known(lent).from() {
            None => None,
            Some(from) => {
                if self.is_heir(table, register, parts, types, from.register) {
                    Some(from.register)
                } else {
                    self.seen(from.register)
                }
            }
        }
    }

    // Finds the heirs that registers reach, where all that lead to the register, to its parts and to listed ones are
    // listed.
    fn find_heirs(&mut self, table: &Table<'a>, register: u16, parts: &[u16], types: &[u32])
        requires gathered { GathersParts self.now.kinds register
            (is_heir table.now self.now.kinds register (part parts.now types.now)) parts.now self.now.lent }
        requires unreached { (q : ℕ) → kept_at self.now.reached q ≡ None }
        ensures reached { (q : ℕ) → IsReached self.old.kinds
            (is_heir table.now self.old.kinds register (part parts.now types.now)) q
            (seen_at self.old.kinds self.new.reached q) }
        ensures kinds { self.new.kinds ≡ self.old.kinds }
        ensures maps { self.new.maps ≡ self.old.maps }
        ensures lent { self.new.lent ≡ self.old.lent }
    {
        while self.reach_more(table, register, parts, types) {}
    }

    // Sees of registers that they reach an heir. Whether there was one.
    fn reach_more(&mut self, table: &Table<'a>, register: u16, parts: &[u16], types: &[u32]) -> bool
        ensures reached { AreReached self.old.kinds
            (is_heir table.now self.old.kinds register (part parts.now types.now)) self.old.reached →
            AreReached self.old.kinds
            (is_heir table.now self.old.kinds register (part parts.now types.now)) self.new.reached }
        ensures more { result ≡ true → nones self.new.reached < nones self.old.reached }
        ensures settled { result ≡ false → AreSettled self.old.kinds
            (is_heir table.now self.old.kinds register (part parts.now types.now)) self.new.reached self.old.lent }
        ensures kinds { self.new.kinds ≡ self.old.kinds }
        ensures maps { self.new.maps ≡ self.old.maps }
        ensures lent { self.new.lent ≡ self.old.lent }
    {
        let mut more = false;
        for place in 0..self.lent_len() {
            let lent = self.lent_at(place);
            more = either(self.reach_one(table, register, parts, types, lent), more);
        }
        more
    }

    // Sees of a register that it reaches an heir. Whether it does.
    fn reach_one(
        &mut self,
        table: &Table<'a>,
        register: u16,
        parts: &[u16],
        types: &[u32],
        lent: u16,
    ) -> bool
        requires listed { has self.now.lent lent ≡ true }
        ensures reached { AreReached self.old.kinds
            (is_heir table.now self.old.kinds register (part parts.now types.now)) self.old.reached →
            AreReached self.old.kinds
            (is_heir table.now self.old.kinds register (part parts.now types.now)) self.new.reached }
        ensures more { result ≡ true → nones self.new.reached < nones self.old.reached }
        ensures same { result ≡ false → self.new.reached ≡ self.old.reached }
        ensures settled { result ≡ false → kept_at self.old.reached lent ≡ None → next_at self.old.kinds
            (is_heir table.now self.old.kinds register (part parts.now types.now)) self.old.reached lent ≡ None }
        ensures kinds { self.new.kinds ≡ self.old.kinds }
        ensures maps { self.new.maps ≡ self.old.maps }
        ensures lent { self.new.lent ≡ self.old.lent }
    {
        match self.reached(lent) {
            Some(_) => false,
            None => match self.next(table, register, parts, types, lent) {
                None => false,
                Some(heir) => {
                    self.reach(lent, Some(heir));
                    true
                }
            },
        }
    }

    // Whether no from names a register any more.
    fn ends(
        &self,
        table: &Table<'a>,
        register: u16,
        parts: &[u16],
        types: &[u32],
        other: u16,
    ) -> bool
        ensures is { result ≡ ends table.now self.now.kinds register (part parts.now types.now)
            (length parts.now) (seen_at self.now.kinds self.now.reached) other }
    {
        if piece_of(parts, types, other).is_some() {
            return !self.is_heir(table, register, parts, types, other);
        }
        if other == register {
            return parts.is_empty();
        }
        self.known(other).is_lent_of(register) && self.seen(other).is_none()
    }

    // Registers that aren't used forget what no from names any more.
    fn forget_ended(&mut self, table: &Table<'a>, register: u16, parts: &[u16], types: &[u32])
        ensures kinds { self.new.kinds ≡ in_turn (forgotten register (part parts.now types.now)
            (ends table.now self.old.kinds register (part parts.now types.now) (length parts.now)
            (seen_at self.old.kinds self.old.reached))) self.old.kinds self.old.lent }
        ensures maps { self.new.maps ≡ self.old.maps }
        ensures lent { self.new.lent ≡ self.old.lent }
        ensures reached { self.new.reached ≡ self.old.reached }
    {
        for place in 0..self.lent_len() {
            self.forget_ended_in(table, register, parts, types, self.lent_at(place));
        }
    }

    // One register that isn't used forgets what no from names any more.
    fn forget_ended_in(
        &mut self,
        table: &Table<'a>,
        register: u16,
        parts: &[u16],
        types: &[u32],
        lent: u16,
    )
        ensures kinds { self.new.kinds ≡ set self.old.kinds lent (forgotten register (part parts.now types.now)
            (ends table.now self.old.kinds register (part parts.now types.now) (length parts.now)
            (seen_at self.old.kinds self.old.reached)) lent (at self.old.kinds lent)) }
        ensures maps { self.new.maps ≡ self.old.maps }
        ensures lent { self.new.lent ≡ self.old.lent }
        ensures reached { self.new.reached ≡ self.old.reached }
    {
        if is_used(register, parts, types, lent) {
            return;
        }
        let known = self.known(lent);
        match known.from() {
            None => (),
            Some(from) => {
                if self.ends(table, register, parts, types, from.register) {
                    self.put_alike(lent, known.without_from());
                }
            }
        }
    }

    // Registers that aren't used get the heirs that they reach as roots; where they reach none, and were lent of the
    // register, they are gone. The register stands for the heir that keeps its name.
    fn pass_on(&mut self, register: u16, parts: &[u16], types: &[u32], keeper: Option<u16>)
        ensures kinds { self.new.kinds
            ≡ in_turn (fated (stands_for keeper register) register (part parts.now types.now) self.old.reached)
            self.old.kinds self.old.lent }
        ensures maps { self.new.maps ≡ self.old.maps }
    {
        for place in 0..self.lent_len() {
            self.pass_on_in(register, parts, types, keeper, self.lent_at(place));
        }
    }

    // The same of one register.
    fn pass_on_in(
        &mut self,
        register: u16,
        parts: &[u16],
        types: &[u32],
        keeper: Option<u16>,
        lent: u16,
    )
        ensures kinds { self.new.kinds ≡ set self.old.kinds lent
            (fated (stands_for keeper register) register (part parts.now types.now)
            self.old.reached lent (at self.old.kinds lent)) }
        ensures maps { self.new.maps ≡ self.old.maps }
        ensures lent { self.new.lent ≡ self.old.lent }
        ensures reached { self.new.reached ≡ self.old.reached }
    {
        if is_used(register, parts, types, lent) {
            return;
        }
        match self.seen(lent) {
            Some(heir) => self.put_root(lent, stands_for(keeper, register, heir)),
            None => {
                if self.known(lent).is_lent_of(register) {
                    self.put(lent, Known::Gone);
                }
            }
        }
    }

    // A register that is lent is lent of another.
    fn put_root(&mut self, lent: u16, owner: u16)
        ensures kinds { self.new.kinds ≡ set self.old.kinds lent (with_root owner (at self.old.kinds lent)) }
        ensures maps { self.new.maps ≡ self.old.maps }
        ensures lent { self.new.lent ≡ self.old.lent }
        ensures reached { self.new.reached ≡ self.old.reached }
    {
        let known = self.known(lent);
        if !known.is_lent_of(owner) {
            self.put_alike(lent, known.with_root(owner));
        }
    }

    // A register and the heir that keeps its name change names, where there is such an heir.
    fn change_names(&mut self, register: u16, keeper: Option<u16>)
        requires own { (h : ℕ) → keeper ≡ Some h → register < length self.now.kinds }
        requires other { (h : ℕ) → keeper ≡ Some h → h < length self.now.kinds }
        ensures kinds { self.new.kinds ≡ map (rooted (stands_for keeper register)) self.old.kinds }
        ensures maps { self.new.maps ≡ self.old.maps }
    {
        match keeper {
            None => (),
            Some(keeper) => {
                self.known.swap(register, keeper);
                self.trees.swap(register, keeper);
                self.loose.swap(register, keeper);
                self.held = None;
                self.log.start();
            }
        }
    }

    // The parts get what their types tell, or what they were known to read.
    fn fill(&mut self, table: &Table<'a>, register: u16, parts: &[u16], types: &[u32])
        ensures kinds { (q : ℕ) → q < length self.old.kinds → at self.new.kinds q
            ≡ filled_by table.now register (length parts.now) (at self.old.kinds q) (part parts.now types.now q) }
        ensures long { length self.new.kinds ≡ length self.old.kinds }
        ensures maps { self.new.maps ≡ self.old.maps }
    {
        for place in 0..parts.len() {
            self.fill_one(table, register, parts, types, place);
        }
    }

    // The register of one part gets it, where this is its first.
    fn fill_one(
        &mut self,
        table: &Table<'a>,
        register: u16,
        parts: &[u16],
        types: &[u32],
        place: usize,
    )
        requires within { place < length parts.now }
        ensures kinds { (q : ℕ) → q < length self.old.kinds → at self.new.kinds q
            ≡ filled_at table.now register place (at self.old.kinds q) (part parts.now types.now q) }
        ensures long { length self.new.kinds ≡ length self.old.kinds }
        ensures maps { self.new.maps ≡ self.old.maps }
    {
        let destination = parts[place];
        match piece_of(parts, types, destination) {
            None => (),
            Some(piece) => {
                if piece.field == place {
                    let known = part_known(table, register, self.known(destination), piece);
                    let origin = self.part_origin(table, register, destination, piece);
                    self.change(destination, known, origin);
                }
            }
        }
    }

    // The register of a label map whose set a register has once it gets a part, where that is known.
    fn part_origin(
        &self,
        table: &Table<'a>,
        register: u16,
        destination: u16,
        piece: Piece,
    ) -> Option<Origin>
        ensures is { (o : Origin) → result ≡ Some o → set_of (part_kind table.now register
            (at self.now.kinds destination) (record { field = piece.field; ty = piece.ty }))
            ≡ set_at self.now.maps o }
    {
        let from = self.known(destination).from();
        if !table.is_scalar(piece.ty) && is_field(register, piece.field, from) {
            self.origin(destination)
        } else {
            None
        }
    }

    // The register that owned the cell keeps it as a credit, unless it gets a part.
    fn empty(&mut self, register: u16, parts: &[u16], types: &[u32])
        ensures kinds { self.new.kinds ≡ emptied self.old.kinds register (part parts.now types.now register)
            (length parts.now) }
        ensures maps { self.new.maps ≡ self.old.maps }
    {
        if piece_of(parts, types, register).is_none() {
            self.put(register, credit(parts.len()));
        }
    }
}

// The register that stands for an heir until a register and the one that keeps its name change names.
fn stands_for(keeper: Option<u16>, register: u16, heir: u16) -> u16
    ensures is { result ≡ stands_for keeper register heir }
{
    match keeper {
        None => heir,
        Some(keeper) => {
            if heir == register {
                keeper
            } else if heir == keeper {
                register
            } else {
                heir
            }
        }
    }
}

// Whether a register is one, where there is one.
fn is_one(register: u16, one: Option<u16>) -> bool {
    match one {
        None => false,
        Some(one) => register == one,
    }
}

// Whether one of two is so.
fn either(one: bool, other: bool) -> bool
    ensures yes { result ≡ true → (one ≡ true) ⊎ (other ≡ true) }
    ensures no { result ≡ false → (one ≡ false) × (other ≡ false) }
{
    one || other
}

// Whether a register of which this is known reads the field that it gets, which is no scalar.
pub(crate) fn is_heir_by(
    table: &Table,
    register: u16,
    parts: &[u16],
    types: &[u32],
    known: Known,
    other: u16,
) -> bool
    ensures is { result ≡ is_heir_by table.now register (kind_of known.entry) (part parts.now types.now other) }
{
    let from = known.from();
    if !is_of(register, from) {
        return false;
    }
    match piece_of(parts, types, other) {
        None => false,
        Some(piece) => !table.is_scalar(piece.ty) && is_field(register, piece.field, from),
    }
}

// The first part that a register gets.
pub(crate) fn piece_of(parts: &[u16], types: &[u32], register: u16) -> Option<Piece>
    ensures is { as_part result ≡ part parts.now types.now register }
{
    let mut field = 0usize;
    for part in parts {
        match types.get(field) {
            None => return None,
            Some(ty) => {
                if *part == register {
                    return Some(Piece { field, ty: *ty });
                }
            }
        }
        field += 1;
    }
    None
}

// Whether a from names a register.
fn is_of(register: u16, from: Option<From>) -> bool
    ensures is { result ≡ names register from }
{
    match from {
        None => false,
        Some(from) => from.register == register,
    }
}

// Whether a from is this field of a register.
fn is_field(register: u16, field: usize, from: Option<From>) -> bool
    ensures is { result ≡ is_field register field from }
{
    match from {
        None => false,
        Some(from) => from.register == register && from.field as usize == field,
    }
}

// Whether a register gets a part, or owned the cell.
fn is_used(register: u16, parts: &[u16], types: &[u32], other: u16) -> bool
    ensures is { result ≡ is_used register (part parts.now types.now) other }
{
    piece_of(parts, types, other).is_some() || other == register
}

// What is known of a register that gets a part.
fn part_known<'a>(table: &Table<'a>, register: u16, known: Known<'a>, piece: Piece) -> Known<'a>
    requires rises { Rise (set_of (kind_of known)) }
    ensures is { kind_of result
        ≡ part_kind table.now register (kind_of known.entry) (record { field = piece.field; ty = piece.ty }) }
    ensures rises { Rise (set_of (kind_of result)) }
{
    if table.is_scalar(piece.ty) {
        Known::Scalar { ty: piece.ty }
    } else if is_field(register, piece.field, known.from()) {
        known.inherited()
    } else {
        whole(table, piece.ty)
    }
}

// What is known of a register whose cell of so many fields was taken apart.
fn credit<'a>(size: usize) -> Known<'a>
    ensures is { kind_of result ≡ credit size }
    ensures rises { Rise (set_of (kind_of result)) }
{
    match size {
        0 => Known::Gone,
        _ => Known::Credit { size },
    }
}
