// Which registers are listed while a cell is taken apart whose tree is whole: those whose froms or roots change one by
// one. What else reads the tree reaches the heir that keeps its name.
ghost use Rattle.std.specs.Prelude.{◌≡◌, ◌⊎◌, ◌<◌, ℕ, ◌&&◌, not, true, false, is_some, IfSome, Option, Some};
ghost use Rattle.kind_domain.specs.code_rules.Kinds.{at, from_of, has, is_lent_of};
ghost use Rattle.kind_domain.specs.code_rules.Taking.{is_heir, part};
ghost use Rattle.kind_domain.specs.Leading.{Grows, kept_at, names};
ghost use Rattle.register_kinds.specs.Sorted.{AreGood, Candidate, IsSorted, IsTakable, Rest, listed_if, listing};
ghost use Rattle.kind_domain.specs.Views.{kind_of};

use crate::held::is_some_of;
use crate::registers::Registers;
use crate::take::{is_heir_by, piece_of};
use kind_domain::kinds::Kinds;
use kind_domain::known::Known;
use kind_domain::lents::Lents;
use kind_domain::links::Links;
use kind_domain::table::Table;

/// Which registers are listed.
#[derive(Clone, Copy)]
pub enum Wanted {
    /// Those that came from the register whose cell is taken apart, and are no heirs.
    Lost,
    /// Those that are lent of it and came from no register.
    Loose,
    /// Those that came from a register, with the heir that they reach.
    Below(u16, Option<u16>),
    /// Those that came from a register, with the heir that they reach where they are lent of the one whose cell is
    /// taken apart.
    Ended(u16, Option<u16>),
}

impl<'a> Registers<'a> {
    // Lists what changes one by one when a cell is taken apart, where one heir may keep the name of the register.
    // Whether it was found.
    pub(crate) fn sort(
        &mut self,
        table: &Table<'a>,
        register: u16,
        parts: &[u16],
        types: &[u32],
        keeper: Option<u16>,
    ) -> bool
        requires takable { IsTakable self.now.kinds register (part parts.now types.now) }
        ensures sorted { result ≡ true → IsSorted table.now self.old.kinds register (part parts.now types.now) keeper
            self.new.lent self.new.reached }
        ensures kinds { self.new.kinds ≡ self.old.kinds }
        ensures maps { self.new.maps ≡ self.old.maps }
    {
        self.list_none();
        if !self.list_lost(table, register, parts, types) {
            return false;
        }
        if !self.list_heirs(table, register, parts, types, keeper) {
            return false;
        }
        if !self.list_rest(table, register, parts, types) {
            return false;
        }
        self.list_ended(table, register, parts, types, keeper)
    }

    // Lists also what is lost at once: what came from the register and is no heir, and what came from none. Whether it
    // was found.
    fn list_lost(&mut self, table: &Table<'a>, register: u16, parts: &[u16], types: &[u32]) -> bool
        requires takable { IsTakable self.now.kinds register (part parts.now types.now) }
        ensures good { AreGood table.now self.old.kinds register (part parts.now types.now) self.old.lent
            self.old.reached → AreGood table.now self.old.kinds register (part parts.now types.now) self.new.lent
            self.new.reached }
        ensures lost { result ≡ true → (q : ℕ) → names register (from_of (at self.old.kinds q)) ≡ true →
            is_heir table.now self.old.kinds register (part parts.now types.now) q ≡ false →
            has self.new.lent q ≡ true }
        ensures loose { result ≡ true → (q : ℕ) → is_lent_of register (at self.old.kinds q) ≡ true →
            from_of (at self.old.kinds q) ≡ None → has self.new.lent q ≡ true }
        ensures more { Grows self.old.lent self.new.lent }
        ensures kinds { self.new.kinds ≡ self.old.kinds }
        ensures maps { self.new.maps ≡ self.old.maps }
    {
        if !self.list_wanted(table, register, parts, types, Wanted::Lost) {
            return false;
        }
        self.list_wanted(table, register, parts, types, Wanted::Loose)
    }

    // Lists also what came from heirs, but from the one that keeps the name. Whether it was found.
    fn list_heirs(
        &mut self,
        table: &Table<'a>,
        register: u16,
        parts: &[u16],
        types: &[u32],
        keeper: Option<u16>,
    ) -> bool
        requires takable { IsTakable self.now.kinds register (part parts.now types.now) }
        ensures good { AreGood table.now self.old.kinds register (part parts.now types.now) self.old.lent
            self.old.reached → AreGood table.now self.old.kinds register (part parts.now types.now) self.new.lent
            self.new.reached }
        ensures heirs { result ≡ true → (p q : ℕ) → is_heir table.now self.old.kinds register
            (part parts.now types.now) p ≡ true → (keeper ≡ Some p → ⊥) →
            names p (from_of (at self.old.kinds q)) ≡ true → has self.new.lent q ≡ true }
        ensures more { Grows self.old.lent self.new.lent }
        ensures kinds { self.new.kinds ≡ self.old.kinds }
        ensures maps { self.new.maps ≡ self.old.maps }
    {
        for heir in parts {
            if !self.list_heir(table, register, parts, types, keeper, *heir) {
                return false;
            }
        }
        true
    }

    // Lists also what came from an heir, unless it keeps the name. Whether it was found.
    fn list_heir(
        &mut self,
        table: &Table<'a>,
        register: u16,
        parts: &[u16],
        types: &[u32],
        keeper: Option<u16>,
        heir: u16,
    ) -> bool
        requires takable { IsTakable self.now.kinds register (part parts.now types.now) }
        ensures good { AreGood table.now self.old.kinds register (part parts.now types.now) self.old.lent
            self.old.reached → AreGood table.now self.old.kinds register (part parts.now types.now) self.new.lent
            self.new.reached }
        ensures heir { result ≡ true → (q : ℕ) → is_heir table.now self.old.kinds register
            (part parts.now types.now) heir ≡ true → (keeper ≡ Some heir → ⊥) →
            names heir (from_of (at self.old.kinds q)) ≡ true → has self.new.lent q ≡ true }
        ensures more { Grows self.old.lent self.new.lent }
        ensures kinds { self.new.kinds ≡ self.old.kinds }
        ensures maps { self.new.maps ≡ self.old.maps }
    {
        if is_some_of(keeper, heir) {
            return true;
        }
        if !self.is_heir(table, register, parts, types, heir) {
            return true;
        }
        self.list_wanted(
            table,
            register,
            parts,
            types,
            Wanted::Below(heir, Some(heir)),
        )
    }

    // Lists also what came from listed registers. Whether it was found.
    fn list_rest(&mut self, table: &Table<'a>, register: u16, parts: &[u16], types: &[u32]) -> bool
        requires takable { IsTakable self.now.kinds register (part parts.now types.now) }
        ensures good { AreGood table.now self.old.kinds register (part parts.now types.now) self.old.lent
            self.old.reached → AreGood table.now self.old.kinds register (part parts.now types.now) self.new.lent
            self.new.reached }
        ensures closed { result ≡ true → (p q : ℕ) → has self.new.lent p ≡ true →
            names p (from_of (at self.old.kinds q)) ≡ true → has self.new.lent q ≡ true }
        ensures more { Grows self.old.lent self.new.lent }
        ensures kinds { self.new.kinds ≡ self.old.kinds }
        ensures maps { self.new.maps ≡ self.old.maps }
    {
        let mut place = 0usize;
        while place < self.lent_len() {
            let listed = self.lent_at(place);
            let heir = self.reached(listed);
            if !self.list_wanted(table, register, parts, types, Wanted::Below(listed, heir)) {
                return false;
            }
            place += 1;
        }
        true
    }

    // Lists also what came from registers that get a part and are no heirs. Whether it was found.
    fn list_ended(
        &mut self,
        table: &Table<'a>,
        register: u16,
        parts: &[u16],
        types: &[u32],
        keeper: Option<u16>,
    ) -> bool
        requires takable { IsTakable self.now.kinds register (part parts.now types.now) }
        requires rest { Rest table.now self.now.kinds register (part parts.now types.now) keeper self.now.lent }
        ensures good { AreGood table.now self.old.kinds register (part parts.now types.now) self.old.lent
            self.old.reached → AreGood table.now self.old.kinds register (part parts.now types.now) self.new.lent
            self.new.reached }
        ensures ended { result ≡ true → (p q : ℕ) → is_some (part parts.now types.now p) ≡ true →
            is_heir table.now self.old.kinds register (part parts.now types.now) p ≡ false →
            names p (from_of (at self.old.kinds q)) ≡ true → has self.new.lent q ≡ true }
        ensures only { (q : ℕ) → has self.new.lent q ≡ true → (has self.old.lent q ≡ true)
            ⊎ (is_lent_of register (at self.old.kinds q) ≡ true → (h : ℕ) × (kept_at self.new.reached q ≡ Some h)) }
        ensures more { Grows self.old.lent self.new.lent }
        ensures kinds { self.new.kinds ≡ self.old.kinds }
        ensures maps { self.new.maps ≡ self.old.maps }
    {
        for part in parts {
            if !self.list_part(table, register, parts, types, keeper, *part) {
                return false;
            }
        }
        true
    }

    // Lists also what came from a register, where that gets a part and is no heir. Whether it was found.
    fn list_part(
        &mut self,
        table: &Table<'a>,
        register: u16,
        parts: &[u16],
        types: &[u32],
        keeper: Option<u16>,
        other: u16,
    ) -> bool
        requires takable { IsTakable self.now.kinds register (part parts.now types.now) }
        requires rest { Rest table.now self.now.kinds register (part parts.now types.now) keeper self.now.lent }
        ensures good { AreGood table.now self.old.kinds register (part parts.now types.now) self.old.lent
            self.old.reached → AreGood table.now self.old.kinds register (part parts.now types.now) self.new.lent
            self.new.reached }
        ensures ended { result ≡ true → (q : ℕ) → is_some (part parts.now types.now other) ≡ true →
            is_heir table.now self.old.kinds register (part parts.now types.now) other ≡ false →
            names other (from_of (at self.old.kinds q)) ≡ true → has self.new.lent q ≡ true }
        ensures only { (q : ℕ) → has self.new.lent q ≡ true →
            ((has self.old.lent q ≡ true) × (kept_at self.new.reached q ≡ kept_at self.old.reached q))
            ⊎ (is_lent_of register (at self.old.kinds q) ≡ true → (h : ℕ) × (kept_at self.new.reached q ≡ Some h)) }
        ensures more { Grows self.old.lent self.new.lent }
        ensures kinds { self.new.kinds ≡ self.old.kinds }
        ensures maps { self.new.maps ≡ self.old.maps }
    {
        match piece_of(parts, types, other) {
            None => true,
            Some(_) => {
                if self.is_heir(table, register, parts, types, other) {
                    return true;
                }
                self.list_wanted(table, register, parts, types, Wanted::Ended(other, keeper))
            }
        }
    }

    // Lists also those that are wanted. Whether they were found.
    fn list_wanted(
        &mut self,
        table: &Table<'a>,
        register: u16,
        parts: &[u16],
        types: &[u32],
        wanted: Wanted,
    ) -> bool
        ensures listed { result ≡ true → (q : ℕ) (o : Option ℕ) →
            listing table.now register (part parts.now types.now) wanted q (at self.old.kinds q) ≡ Some o →
            has self.new.lent q ≡ true }
        ensures only { (q : ℕ) → has self.new.lent q ≡ true →
            ((has self.old.lent q ≡ true) × (kept_at self.new.reached q ≡ kept_at self.old.reached q))
            ⊎ ((has self.old.lent q ≡ false)
            × (listing table.now register (part parts.now types.now) wanted q (at self.old.kinds q)
            ≡ Some (kept_at self.new.reached q))) }
        ensures more { Grows self.old.lent self.new.lent }
        ensures kinds { self.new.kinds ≡ self.old.kinds }
        ensures maps { self.new.maps ≡ self.old.maps }
    {
        match candidates(&self.below, &self.loose, register, wanted) {
            None => false,
            Some(others) => {
                list_some(
                    &mut self.lents,
                    &self.known,
                    others,
                    table,
                    register,
                    parts,
                    types,
                    wanted,
                );
                true
            }
        }
    }
}

// Registers among which are all that are wanted.
fn candidates<'b>(
    below: &'b Links,
    loose: &'b Links,
    register: u16,
    wanted: Wanted,
) -> Option<&'b [u16]>
    ensures all { IfSome result (λ xs. (q : ℕ) → Candidate below.now loose.now register wanted q →
        has xs.now q ≡ true) }
{
    match wanted {
        Wanted::Lost => below.of(register),
        Wanted::Loose => loose.of(register),
        Wanted::Below(parent, _) => below.of(parent),
        Wanted::Ended(parent, _) => below.of(parent),
    }
}

// Lists also those of some registers that are wanted.
fn list_some(
    lents: &mut Lents,
    known: &Kinds,
    others: &[u16],
    table: &Table,
    register: u16,
    parts: &[u16],
    types: &[u32],
    wanted: Wanted,
)
    ensures listed { (q : ℕ) (o : Option ℕ) → has others.now q ≡ true →
        listing table.now register (part parts.now types.now) wanted q (at known.now q) ≡ Some o →
        q < lents.old.room → has lents.new.held q ≡ true }
    ensures only { (q : ℕ) → has lents.new.held q ≡ true →
        ((has lents.old.held q ≡ true) × (kept_at lents.new.reached q ≡ kept_at lents.old.reached q))
        ⊎ ((has lents.old.held q ≡ false)
        × (listing table.now register (part parts.now types.now) wanted q (at known.now q)
        ≡ Some (kept_at lents.new.reached q))) }
    ensures more { Grows lents.old.held lents.new.held }
    ensures room { lents.new.room ≡ lents.old.room }
{
    for other in others {
        let heir = listing(
            table,
            register,
            parts,
            types,
            wanted,
            known.get(*other),
            *other,
        );
        list_one(lents, *other, heir);
    }
}

// Lists also a register, where it is wanted.
fn list_one(lents: &mut Lents, other: u16, wanted: Option<Option<u16>>)
    ensures listed { (o : Option ℕ) → wanted ≡ Some o → other < lents.old.room → has lents.new.held other ≡ true }
    ensures only { (q : ℕ) → has lents.new.held q ≡ true →
        ((has lents.old.held q ≡ true) × (kept_at lents.new.reached q ≡ kept_at lents.old.reached q))
        ⊎ ((other ≡ q) × (has lents.old.held q ≡ false) × (wanted ≡ Some (kept_at lents.new.reached q))) }
    ensures more { Grows lents.old.held lents.new.held }
    ensures room { lents.new.room ≡ lents.old.room }
{
    match wanted {
        None => (),
        Some(heir) => lents.list(other, heir),
    }
}

// The heir, or none, with which a register is listed, where it is wanted.
fn listing(
    table: &Table,
    register: u16,
    parts: &[u16],
    types: &[u32],
    wanted: Wanted,
    known: Known,
    other: u16,
) -> Option<Option<u16>>
    ensures is { result
        ≡ listing table.now register (part parts.now types.now) wanted other (kind_of known.entry) }
{
    match wanted {
        Wanted::Lost => {
            let is_heir = is_heir_by(table, register, parts, types, known, other);
            listed_if(is_lost(register, known, is_heir), None)
        }
        Wanted::Loose => listed_if(is_loose(register, known), None),
        Wanted::Below(parent, heir) => listed_if(known.came_from(parent), heir),
        Wanted::Ended(parent, heir) => {
            let heir = if known.is_lent_of(register) {
                heir
            } else {
                None
            };
            listed_if(known.came_from(parent), heir)
        }
    }
}

// An heir, or none, where a register is wanted.
fn listed_if(wanted: bool, heir: Option<u16>) -> Option<Option<u16>>
    ensures is { result ≡ listed_if wanted heir }
{
    if wanted { Some(heir) } else { None }
}

// Whether a register came from another, and is no heir.
fn is_lost(register: u16, known: Known, is_heir: bool) -> bool
    ensures is { result ≡ (names register (from_of (kind_of known.entry)) && not is_heir) }
{
    known.came_from(register) && !is_heir
}

// Whether a register is lent of another, and came from none.
fn is_loose(register: u16, known: Known) -> bool
    ensures is { result
        ≡ (is_lent_of register (kind_of known.entry) && not (is_some (from_of (kind_of known.entry)))) }
{
    known.is_lent_of(register) && !known.from().is_some()
}
