// Which trees are whole: the froms of each register that reads one lead to its owner, or to a register that reads it
// too and has no from; and what came from a register of the tree reads it.
ghost use Rattle.std.specs.Prelude.{◌≡◌, ◌⊎◌, ℕ, List, true, false, slice_get, Some, None, Option};
ghost use Rattle.kind_domain.specs.code_rules.Changes.{written};
ghost use Rattle.kind_domain.specs.code_rules.Kinds.{at, from_of, has};
ghost use Rattle.kind_domain.specs.cell_code.declared.kind.Kind.{Kind};
ghost use Rattle.kind_domain.specs.cell_code.declared.kind.From.{From};
ghost use Rattle.register_kinds.specs.Climbs.{AreKnown, AreKnownOver, AreWhole, HasOwner, IsHeld, IsWhole};
ghost use Rattle.kind_domain.specs.Leading.{is_lent_in};
ghost use Rattle.register_kinds.specs.Climbs.{tree_of};
ghost use Rattle.kind_domain.specs.Leading.{Grows, names};
ghost use Rattle.kind_domain.specs.Views.{kind_of};

use crate::registers::Registers;
use kind_domain::code::From;
use kind_domain::kinds::Kinds;
use kind_domain::known::{Known, same_root};
use kind_domain::lents::Lents;
use kind_domain::marks::Marks;

impl<'a> Registers<'a> {
    // Which trees are torn, where that is known. Until it is set again it isn't.
    pub(crate) fn take_held(&mut self) -> Option<Marks>
        ensures known { AreKnown self.old.kinds result }
        ensures same { self.new ≡ self.old }
    {
        self.held.take()
    }

    // It becomes known which trees are torn, or that isn't known any more.
    pub(crate) fn set_held(&mut self, held: Option<Marks>)
        requires known { AreKnown self.now.kinds held }
        ensures same { self.new ≡ self.old }
    {
        self.held = held;
    }

    // Which trees are torn once a register is written.
    pub(crate) fn stays_held(
        &self,
        held: Option<Marks>,
        register: u16,
        known: Known<'a>,
    ) -> Option<Marks>
        requires known { AreKnown self.now.kinds held }
        ensures known { AreKnown (written self.now.kinds register (kind_of known.entry)) result }
    {
        match held {
            None => None,
            Some(torn) => {
                if self.stays_whole(&torn, register, known) {
                    Some(torn)
                } else {
                    None
                }
            }
        }
    }

    // Whether all trees that aren't torn stay whole when a register is written.
    fn stays_whole(&self, torn: &Marks, register: u16, known: Known<'a>) -> bool
        ensures whole { result ≡ true → AreWhole self.now.kinds torn.now →
            AreWhole (written self.now.kinds register (kind_of known.entry)) torn.now }
    {
        !self.known(register).is_owned() && self.follows(torn, known)
    }

    // Whether a register of which this is known would leave all trees whole that aren't torn.
    fn follows(&self, torn: &Marks, known: Known<'a>) -> bool
        ensures held { result ≡ true → (r : ℕ) → slice_get torn.now r ≡ Some false → IsWhole self.now.kinds r →
            is_lent_in (Some r) (kind_of known.entry) ≡ true →
            IsHeld self.now.kinds (Some r) (from_of (kind_of known.entry)) }
        ensures closed { result ≡ true → (r : ℕ) → slice_get torn.now r ≡ Some false →
            tree_of self.now.kinds (from_of (kind_of known.entry)) ≡ Some r →
            is_lent_in (Some r) (kind_of known.entry) ≡ true }
    {
        match known {
            Known::Gone => true,
            Known::Scalar { .. } => true,
            Known::Owned { .. } => true,
            Known::Lent { root, from, .. } => {
                self.is_sound(torn, root) && self.stays_in(torn, root, from)
            }
            Known::Credit { .. } => true,
        }
    }

    // Whether a root is owned, or its tree is torn.
    fn is_sound(&self, torn: &Marks, root: Option<u16>) -> bool
        ensures owned { result ≡ true → (r : ℕ) → slice_get torn.now r ≡ Some false → root ≡ Some r →
            HasOwner self.now.kinds (Some r) }
    {
        is_torn(torn, root) || self.has_owner(root)
    }

    // Whether a from stays in the tree of a root, unless both trees are torn.
    fn stays_in(&self, torn: &Marks, root: Option<u16>, from: Option<From>) -> bool
        ensures inside { result ≡ true → (r : ℕ) → slice_get torn.now r ≡ Some false → root ≡ Some r →
            (from ≡ None) ⊎ (tree_of self.now.kinds from ≡ Some r) }
        ensures outside { result ≡ true → (r : ℕ) → slice_get torn.now r ≡ Some false →
            tree_of self.now.kinds from ≡ Some r → root ≡ Some r }
    {
        if from.is_none() {
            return true;
        }
        let tree = self.tree_of(from);
        if same_root(root, tree) {
            return true;
        }
        is_torn(torn, root) && is_torn(torn, tree)
    }

    // The register that owns the tree that a from leads into, where there is one.
    fn tree_of(&self, from: Option<From>) -> Option<u16>
        ensures is { result ≡ tree_of self.now.kinds from }
    {
        match from {
            None => None,
            Some(from) => self.known(from.register).root(from.register),
        }
    }

    // Whether a root is owned, where there is one.
    fn has_owner(&self, root: Option<u16>) -> bool
        ensures owned { result ≡ true → HasOwner self.now.kinds root }
    {
        match root {
            None => true,
            Some(root) => self.known(root).is_owned(),
        }
    }

    // Finds out which trees are torn, and keeps that in what was known of it before.
    pub(crate) fn find_held(&mut self, held: Option<Marks>)
        ensures kinds { self.new.kinds ≡ self.old.kinds }
        ensures maps { self.new.maps ≡ self.old.maps }
    {
        match held {
            None => (),
            Some(torn) => {
                self.list_none();
                self.list_tops();
                if self.list_climbing() {
                    let found = self.find_torn(torn);
                    self.set_held(Some(found));
                }
            }
        }
    }

    // The trees that are torn, where each register that is listed is held.
    fn find_torn(&self, torn: Marks) -> Marks
        requires held { (q : ℕ) → has self.now.lent q ≡ true → (o : Option ℕ) →
            is_lent_in o (at self.now.kinds q) ≡ true → IsHeld self.now.kinds o (from_of (at self.now.kinds q)) }
        ensures whole { AreWhole self.now.kinds result }
    {
        let mut found = torn;
        for register in 0..self.known.len() as u16 {
            found.clear(register);
        }
        for register in 0..self.known.len() as u16 {
            self.mark_torn(&mut found, register);
        }
        found
    }

    // Marks also the trees that a register tears: its own where it isn't listed, and where its from leads into another
    // both.
    fn mark_torn(&self, torn: &mut Marks, register: u16)
        ensures listed { (r : ℕ) → slice_get torn.new r ≡ Some false →
            is_lent_in (Some r) (at self.now.kinds register) ≡ true → has self.now.lent register ≡ true }
        ensures closed { (r : ℕ) → slice_get torn.new r ≡ Some false →
            tree_of self.now.kinds (from_of (at self.now.kinds register)) ≡ Some r →
            is_lent_in (Some r) (at self.now.kinds register) ≡ true }
        ensures more { (r : ℕ) → slice_get torn.new r ≡ Some false → slice_get torn.old r ≡ Some false }
    {
        match self.known(register) {
            Known::Gone => (),
            Known::Scalar { .. } => (),
            Known::Owned { .. } => (),
            Known::Lent { root, from, .. } => {
                let tree = self.tree_of(from);
                mark_unless(torn, self.lents.is_listed(register), root);
                mark_unless(torn, same_root(root, tree), tree);
            }
            Known::Credit { .. } => (),
        }
    }

    // Lists those that came from no register, or from the owner of their tree.
    fn list_tops(&mut self)
        requires none { (q : ℕ) → has self.now.lent q ≡ true → (o : Option ℕ) →
            is_lent_in o (at self.now.kinds q) ≡ true → IsHeld self.now.kinds o (from_of (at self.now.kinds q)) }
        ensures held { (q : ℕ) → has self.new.lent q ≡ true → (o : Option ℕ) →
            is_lent_in o (at self.old.kinds q) ≡ true → IsHeld self.old.kinds o (from_of (at self.old.kinds q)) }
        ensures kinds { self.new.kinds ≡ self.old.kinds }
        ensures maps { self.new.maps ≡ self.old.maps }
    {
        for register in 0..self.known.len() as u16 {
            if self.is_top(register) {
                self.lents.add(register);
            }
        }
    }

    // Whether a register came from none, or from the owner of its tree.
    fn is_top(&self, register: u16) -> bool
        ensures held { result ≡ true → (o : Option ℕ) →
            is_lent_in o (at self.now.kinds register) ≡ true →
            IsHeld self.now.kinds o (from_of (at self.now.kinds register)) }
    {
        match self.known(register) {
            Known::Gone => false,
            Known::Scalar { .. } => false,
            Known::Owned { .. } => false,
            Known::Lent { root, from, .. } => self.has_owner(root) && is_top_of(root, from),
            Known::Credit { .. } => false,
        }
    }

    // Lists also those that came from listed ones in the same tree. Whether they were found.
    fn list_climbing(&mut self) -> bool
        requires held { (q : ℕ) → has self.now.lent q ≡ true → (o : Option ℕ) →
            is_lent_in o (at self.now.kinds q) ≡ true → IsHeld self.now.kinds o (from_of (at self.now.kinds q)) }
        ensures held { (q : ℕ) → has self.new.lent q ≡ true → (o : Option ℕ) →
            is_lent_in o (at self.old.kinds q) ≡ true → IsHeld self.old.kinds o (from_of (at self.old.kinds q)) }
        ensures kinds { self.new.kinds ≡ self.old.kinds }
        ensures maps { self.new.maps ≡ self.old.maps }
    {
        let mut place = 0usize;
        while place < self.lent_len() {
            let listed = self.lent_at(place);
            if !self.list_kin(listed) {
                return false;
            }
            place += 1;
        }
        true
    }

    // Lists also those that came from a register and read the same tree. Whether they were found.
    fn list_kin(&mut self, register: u16) -> bool
        ensures only { (q : ℕ) → has self.new.lent q ≡ true → (has self.old.lent q ≡ true)
            ⊎ ((p : Option ℕ) × (is_lent_in p (at self.old.kinds register) ≡ true)
            × (names register (from_of (at self.old.kinds q)) ≡ true)
            × (is_lent_in p (at self.old.kinds q) ≡ true)) }
        ensures more { Grows self.old.lent self.new.lent }
        ensures kinds { self.new.kinds ≡ self.old.kinds }
        ensures maps { self.new.maps ≡ self.old.maps }
    {
        match self.known(register) {
            Known::Gone => true,
            Known::Scalar { .. } => true,
            Known::Owned { .. } => true,
            Known::Lent { root, .. } => match self.below.of(register) {
                None => false,
                Some(others) => {
                    list_alike(&mut self.lents, &self.known, others, register, root);
                    true
                }
            },
            Known::Credit { .. } => true,
        }
    }
}

// Lists also those of some registers that came from one and read this tree.
fn list_alike(lents: &mut Lents, known: &Kinds, others: &[u16], register: u16, root: Option<u16>)
    ensures only { (q : ℕ) → has lents.new.held q ≡ true → (has lents.old.held q ≡ true)
        ⊎ ((names register (from_of (at known.now q)) ≡ true) × (is_lent_in root (at known.now q) ≡ true)) }
    ensures more { Grows lents.old.held lents.new.held }
    ensures room { lents.new.room ≡ lents.old.room }
{
    for other in others {
        list_one_alike(lents, known.get(*other), *other, register, root);
    }
}

// Lists also a register of which this is known, where it came from one and reads this tree.
fn list_one_alike(lents: &mut Lents, known: Known, other: u16, register: u16, root: Option<u16>)
    ensures only { (q : ℕ) → has lents.new.held q ≡ true → (has lents.old.held q ≡ true)
        ⊎ ((other ≡ q) × (names register (from_of (kind_of known.entry)) ≡ true)
        × (is_lent_in root (kind_of known.entry) ≡ true)) }
    ensures more { Grows lents.old.held lents.new.held }
    ensures room { lents.new.room ≡ lents.old.room }
{
    if known.came_from(register) {
        if known.is_lent_in(root) {
            lents.add(other);
        }
    }
}

// Whether a register is this one.
pub(crate) fn is_some_of(one: Option<u16>, register: u16) -> bool
    ensures yes { result ≡ true → one ≡ Some register }
{
    match one {
        None => false,
        Some(one) => one == register,
    }
}

// Whether the tree of a root is torn; yes where there is no root.
fn is_torn(torn: &Marks, root: Option<u16>) -> bool
    ensures torn { result ≡ true → (r : ℕ) → slice_get torn.now r ≡ Some false → root ≡ Some r → ⊥ }
{
    match root {
        None => true,
        Some(root) => torn.is_marked(root),
    }
}

// Marks also the tree of a root, where there is one, unless it is fine.
fn mark_unless(torn: &mut Marks, fine: bool, root: Option<u16>)
    ensures marked { fine ≡ false → (r : ℕ) → slice_get torn.new r ≡ Some false → root ≡ Some r → ⊥ }
    ensures more { (r : ℕ) → slice_get torn.new r ≡ Some false → slice_get torn.old r ≡ Some false }
{
    match root {
        None => (),
        Some(root) => {
            if !fine {
                torn.mark(root);
            }
        }
    }
}

// Whether the tree of a register is known to be whole.
pub(crate) fn is_whole(held: &Option<Marks>, register: u16) -> bool
    ensures whole { (ks : List Kind) → result ≡ true → AreKnown ks held.now → IsWhole ks register }
{
    match held {
        None => false,
        Some(torn) => !torn.is_marked(register),
    }
}

// The tree of a register is whole from now on.
pub(crate) fn mended(held: Option<Marks>, register: u16) -> Option<Marks>
    ensures is { (ks : List Kind) → AreKnownOver ks register held → AreKnown ks result }
{
    match held {
        None => None,
        Some(torn) => {
            let mut torn = torn;
            torn.clear(register);
            Some(torn)
        }
    }
}

// Whether a from is none, or names the owner of a tree.
fn is_top_of(root: Option<u16>, from: Option<From>) -> bool
    ensures climbs { result ≡ true → (f : From) → from ≡ Some f → root ≡ Some f.register }
{
    match from {
        None => true,
        Some(from) => is_some_of(root, from.register),
    }
}
