// Whether what is known fits a label map.
ghost use Rattle.std.specs.Prelude.{◌≡◌, ◌&&◌, ℕ, Bool, List, true, Some, IfSome, length, slice_get};
ghost use Rattle.kind_domain.specs.cell_code.declared.kind.Kind.{Kind as a_kind};
ghost use Rattle.kind_domain.specs.code_rules.Changes.{tested, without};
ghost use Rattle.kind_domain.specs.cell_code.Plain.{LabelMap};
ghost use Rattle.kind_domain.specs.code_rules.Fitting.{fits, fit_all, is_subset, takes_from};
ghost use Rattle.kind_domain.specs.code_rules.Kinds.{at, set_of};
ghost use Rattle.register_kinds.specs.Arrivals.{arrive, each_fits, fits_at, lacked_at, lessened, tested_fits};
ghost use Rattle.kind_domain.specs.Busy.{AllSay, IsAsked, busy_in, registers_of, says_of};
ghost use Rattle.register_kinds.specs.Kept.{KindsRise};
ghost use Rattle.kind_domain.specs.declared.label_sets.Origin.{Origin};
ghost use Rattle.kind_domain.specs.LabelSets.{AreComparable, MapsRise, origin_at, set_at};
ghost use Rattle.kind_domain.specs.Rising.{Rise, less};
ghost use Rattle.kind_domain.specs.Views.{constructors_in, kind_of};

use crate::registers::Registers;
use kind_domain::asked::{Ask, Asked, Says};
use kind_domain::code::{From, Kind};
use kind_domain::kinds::Kinds;
use kind_domain::known::{Known, same_root};
use kind_domain::label_sets::{LabelSets, Origin, map_of};
use kind_domain::set::Set;

/// A register that was tested, and a constructor that its value doesn't have.
#[derive(Clone, Copy)]
pub struct Tested {
    register: u16,
    constructor: u32,
}

impl<'a> Registers<'a> {
    /// Whether what is known fits the label map of a number. Where it did before, only what has changed since is looked
    /// at.
    pub fn fit(&mut self, label: usize) -> bool
        ensures is { (m : LabelMap) → slice_get self.old.maps label ≡ Some m →
            result ≡ fit_all m.kinds self.old.kinds }
        ensures kinds { self.new.kinds ≡ self.old.kinds }
        ensures maps { self.new.maps ≡ self.old.maps }
    {
        let fits = self.fits_map(label, None);
        if fits {
            self.log.see(label);
        }
        fits
    }

    /// Whether what is known would fit the label map of a number if a register's tree hadn't this constructor.
    pub fn fit_without(&mut self, label: usize, register: u16, constructor: u32) -> bool
        ensures is { (m : LabelMap) → slice_get self.old.maps label ≡ Some m → result ≡ fit_all m.kinds
            (tested self.old.kinds register (without constructor (set_of (at self.old.kinds register)))) }
        ensures kinds { self.new.kinds ≡ self.old.kinds }
        ensures maps { self.new.maps ≡ self.old.maps }
    {
        let tested = Tested {
            register,
            constructor,
        };
        let fits = self.fits_map(label, Some(tested));
        if fits {
            self.log.see_but(label, register);
        }
        fits
    }

    // Whether what is known fits a label map, where a register may have been tested.
    fn fits_map(&mut self, label: usize, tested: Option<Tested>) -> bool
        ensures is { (m : LabelMap) → slice_get self.old.maps label ≡ Some m →
            result ≡ fit_all m.kinds (arrive tested 0 self.old.kinds) }
        ensures same { self.new ≡ self.old }
    {
        let labels = self.labels;
        match map_of(labels, label) {
            None => true,
            Some(kinds) => self.fits_kinds(label, kinds, tested),
        }
    }

    // The same where the kinds of the label map are given.
    fn fits_kinds(&mut self, label: usize, kinds: &[Kind], tested: Option<Tested>) -> bool
        requires map { (m : LabelMap) × (slice_get self.now.maps label ≡ Some m) × (m.kinds ≡ kinds.now) }
        ensures is { result ≡ fit_all kinds.now (arrive tested 0 self.old.kinds) }
        ensures same { self.new ≡ self.old }
    {
        if self.asks_less(label) {
            return self.fits_anew(label, kinds, tested);
        }
        match self.log.since(label) {
            None => self.fits_anew(label, kinds, tested),
            Some(changed) => changed_fit(
                &self.known,
                kinds,
                tested,
                changed,
                &mut self.sets,
                label,
            ),
        }
    }

    // Whether the label map of a number asks less than has changed since it was seen to fit.
    fn asks_less(&self, label: usize) -> bool {
        match self.log.since(label) {
            None => false,
            Some(changed) => match self.asked.get(label) {
                None => false,
                Some(asked) => asked.asks.len() < changed.len(),
            },
        }
    }

    // The same by all registers.
    fn fits_anew(&mut self, label: usize, kinds: &[Kind], tested: Option<Tested>) -> bool
        requires map { (m : LabelMap) × (slice_get self.now.maps label ≡ Some m) × (m.kinds ≡ kinds.now) }
        ensures is { result ≡ fit_all kinds.now (arrive tested 0 self.old.kinds) }
        ensures same { self.new ≡ self.old }
    {
        match self.asked.get(label) {
            None => all_fit(&self.known, kinds, tested),
            Some(asked) => asked_fit(
                &self.known,
                kinds,
                tested,
                self.busy,
                asked,
                &mut self.sets,
                label,
            ),
        }
    }
}

// Whether all registers fit: those of which the map says more than Gone, and by their number the others.
fn asked_fit(
    known: &Kinds,
    kinds: &[Kind],
    tested: Option<Tested>,
    busy: usize,
    asked: &Asked,
    sets: &mut LabelSets,
    label: usize,
) -> bool
    requires known_rise { KindsRise known.now }
    requires kinds_rise { KindsRise kinds.now }
    requires comparable { AreComparable sets.old known.now kinds.now label }
    requires said { AllSay kinds.now asked.now.asks.items }
    ensures is { length kinds.now ≡ length known.now → busy ≡ busy_in known.now →
        IsAsked kinds.now asked.now → result ≡ fit_all kinds.now (arrive tested 0 known.now) }
    ensures same { sets.new ≡ sets.old }
{
    if busy != asked.busy {
        return false;
    }
    asks_fit(known, kinds, tested, asked.asks.as_slice(), sets, label)
}

// Whether all registers fit of which a label map says more than Gone. What it says of a tree stands in its kinds.
fn asks_fit(
    known: &Kinds,
    kinds: &[Kind],
    tested: Option<Tested>,
    asks: &[Ask],
    sets: &mut LabelSets,
    label: usize,
) -> bool
    requires known_rise { KindsRise known.now }
    requires kinds_rise { KindsRise kinds.now }
    requires comparable { AreComparable sets.old known.now kinds.now label }
    requires said { AllSay kinds.now asks.now }
    ensures is { result ≡ each_fits tested kinds.now known.now (registers_of asks.now) }
    ensures same { sets.new ≡ sets.old }
{
    for ask in asks {
        if !ask_fits(known, kinds, tested, *ask, sets, label) {
            return false;
        }
    }
    true
}

// Whether one of them fits.
fn ask_fits(
    known: &Kinds,
    kinds: &[Kind],
    tested: Option<Tested>,
    ask: Ask,
    sets: &mut LabelSets,
    label: usize,
) -> bool
    requires known_rise { KindsRise known.now }
    requires kinds_rise { KindsRise kinds.now }
    requires comparable { AreComparable sets.old known.now kinds.now label }
    requires said { says_of (at kinds.now ask.register) ≡ Some ask.says }
    ensures is { result ≡ fits_at tested kinds.now known.now ask.register }
    ensures same { sets.new ≡ sets.old }
{
    match ask.says {
        Says::Scalar(ty) => known.get(ask.register).is_scalar_of(ty),
        Says::Credit(size) => known.get(ask.register).is_credit_of(size as usize),
        Says::Tree => fits_at(known, kinds, tested, ask.register, sets, label),
    }
}

// Whether what was seen to fit fits still, where these registers have changed since.
fn changed_fit(
    known: &Kinds,
    kinds: &[Kind],
    tested: Option<Tested>,
    changed: &[u16],
    sets: &mut LabelSets,
    label: usize,
) -> bool
    requires known_rise { KindsRise known.now }
    requires kinds_rise { KindsRise kinds.now }
    requires comparable { AreComparable sets.old known.now kinds.now label }
    ensures is { result ≡ (each_fits tested kinds.now known.now changed.now
        && tested_fits tested kinds.now known.now) }
    ensures same { sets.new ≡ sets.old }
{
    if !tested_fits(known, kinds, tested, sets, label) {
        return false;
    }
    let fitting = register_of(tested);
    each_fits(known, kinds, tested, changed, fitting, sets, label)
}

// Whether all registers fit.
#[tactic(auto, using(crate::proofs::Short::drop_none))]
fn all_fit(known: &Kinds, kinds: &[Kind], tested: Option<Tested>) -> bool
    requires known_rise { KindsRise known.now }
    requires kinds_rise { KindsRise kinds.now }
    ensures is { result ≡ fit_all kinds.now (arrive tested 0 known.now) }
{
    let mut place = 0usize;
    for kind in kinds {
        match known.find(place) {
            None => return false,
            Some(one) => {
                if !fits(&one, kind, lacked_at(tested, place), None) {
                    return false;
                }
            }
        }
        place += 1;
    }
    known.find(place).is_none()
}

// Whether these registers fit, where one is already known to fit. One that stands several times on end is looked at
// once.
fn each_fits(
    known: &Kinds,
    kinds: &[Kind],
    tested: Option<Tested>,
    changed: &[u16],
    fitting: Option<u16>,
    sets: &mut LabelSets,
    label: usize,
) -> bool
    requires known_rise { KindsRise known.now }
    requires kinds_rise { KindsRise kinds.now }
    requires comparable { AreComparable sets.old known.now kinds.now label }
    requires fitting { (r : ℕ) → fitting ≡ Some r → fits_at tested kinds.now known.now r ≡ true }
    ensures is { result ≡ each_fits tested kinds.now known.now changed.now }
    ensures same { sets.new ≡ sets.old }
{
    let mut last = fitting;
    for register in changed {
        if !is_same(last, *register) {
            if !fits_at(known, kinds, tested, *register, sets, label) {
                return false;
            }
            last = Some(*register);
        }
    }
    true
}

// The register that was tested.
fn register_of(tested: Option<Tested>) -> Option<u16>
    ensures fits { (ms ks : List a_kind) (r : ℕ) → tested_fits tested ms ks ≡ true → result ≡ Some r →
        fits_at tested ms ks r ≡ true }
{
    match tested {
        None => None,
        Some(test) => Some(test.register),
    }
}

// Whether a register is one that is there.
fn is_same(last: Option<u16>, register: u16) -> bool
    ensures yes { result ≡ true → last ≡ Some register }
{
    match last {
        None => false,
        Some(last) => last == register,
    }
}

// Whether the register fits that was tested.
fn tested_fits(
    known: &Kinds,
    kinds: &[Kind],
    tested: Option<Tested>,
    sets: &mut LabelSets,
    label: usize,
) -> bool
    requires known_rise { KindsRise known.now }
    requires kinds_rise { KindsRise kinds.now }
    requires comparable { AreComparable sets.old known.now kinds.now label }
    ensures is { result ≡ tested_fits tested kinds.now known.now }
    ensures same { sets.new ≡ sets.old }
{
    match tested {
        None => true,
        Some(test) => fits_at(known, kinds, Some(test), test.register, sets, label),
    }
}

// Whether one register fits.
fn fits_at(
    known: &Kinds,
    kinds: &[Kind],
    tested: Option<Tested>,
    register: u16,
    sets: &mut LabelSets,
    label: usize,
) -> bool
    requires known_rise { KindsRise known.now }
    requires kinds_rise { KindsRise kinds.now }
    requires comparable { AreComparable sets.old known.now kinds.now label }
    ensures is { result ≡ fits_at tested kinds.now known.now register }
    ensures same { sets.new ≡ sets.old }
{
    let place = register as usize;
    match kinds.get(place) {
        None => known.get(register).is_free(),
        Some(kind) => {
            let one = known.get(register);
            let lacked = lacked_at(tested, place);
            let within = found_within(&one, register, lacked, sets, label);
            fits(&one, kind, lacked, within)
        }
    }
}

// Whether the set of a register, but `lacked`, is among the one that a label map asks of it, where that is found among
// what is kept of label maps. Short sets aren't looked for.
fn found_within(
    known: &Known,
    register: u16,
    lacked: Option<u32>,
    sets: &mut LabelSets,
    label: usize,
) -> Option<bool>
    requires rise { MapsRise sets.old.maps }
    ensures is { IfSome result (λ b. (o : Origin) × (origin_at sets.old.origins register ≡ Some o)
        × (b ≡ is_subset (less lacked (set_at sets.old.maps o))
        (set_at sets.old.maps (record { label = label; register = register })))) }
    ensures same { sets.new ≡ sets.old }
{
    if !known.is_long() {
        return None;
    }
    sets.is_within(register, lacked, Origin { label, register })
}

// The constructor that a register was tested not to have.
fn lacked_at(tested: Option<Tested>, place: usize) -> Option<u32>
    ensures is { result ≡ lacked_at tested place }
{
    match tested {
        None => None,
        Some(test) => {
            if place == test.register as usize {
                Some(test.constructor)
            } else {
                None
            }
        }
    }
}

// Whether what is known of a register, whose tree doesn't have the constructor `lacked`, fits what a label says of it.
// Whether its set is among the label's may be known.
#[tactic(auto, using(crate::proofs::Less::free, crate::proofs::Less::scalar, crate::proofs::Less::credit))]
fn fits(known: &Known, kind: &Kind, lacked: Option<u32>, within: Option<bool>) -> bool
    requires known_rises { Rise (set_of (kind_of known.now)) }
    requires kind_rises { Rise (set_of kind.now) }
    requires within { (b : Bool) → within ≡ Some b →
        b ≡ is_subset (less lacked (set_of (kind_of known.now))) (set_of kind.now) }
    ensures is { result ≡ fits kind.now (lessened lacked (kind_of known.now)) }
{
    match kind {
        Kind::Gone => known.is_free(),
        Kind::Scalar { ty } => known.is_scalar_of(*ty),
        Kind::Credit { size } => known.is_credit_of(*size as usize),
        Kind::Owned { ty, constructors } => match known {
            Known::Owned { ty: own, set } => {
                *own == *ty && is_within(*set, lacked, constructors.as_slice(), within)
            }
            Known::Gone => false,
            Known::Scalar { .. } => false,
            Known::Lent { .. } => false,
            Known::Credit { .. } => false,
        },
        Kind::Lent {
            ty,
            constructors,
            root,
            from,
        } => match known {
            Known::Lent {
                ty: own,
                set,
                root: known_root,
                from: known_from,
            } => {
                *own == *ty
                    && is_within(*set, lacked, constructors.as_slice(), within)
                    && same_root(*known_root, *root)
                    && takes_from(*from, *known_from)
            }
            Known::Gone => false,
            Known::Scalar { .. } => false,
            Known::Owned { .. } => false,
            Known::Credit { .. } => false,
        },
    }
}

// Whether a set, but `lacked`, is among others, where that may be known.
fn is_within(set: Set, lacked: Option<u32>, others: &[u32], known: Option<bool>) -> bool
    requires own_rise { Rise (constructors_in set) }
    requires others_rise { Rise others.now }
    requires known { (b : Bool) → known ≡ Some b → b ≡ is_subset (less lacked (constructors_in set)) others.now }
    ensures is { result ≡ is_subset (less lacked (constructors_in set.entry)) others.now }
{
    match known {
        Some(within) => within,
        None => set.is_within(lacked, others),
    }
}

// Whether a label's from takes what is known: the same one, or, where it has none, any.
fn takes_from(from: Option<From>, known: Option<From>) -> bool
    ensures is { result ≡ takes_from from known }
{
    match from {
        None => true,
        Some(from) => match known {
            None => false,
            Some(known) => from.register == known.register && from.field == known.field,
        },
    }
}
