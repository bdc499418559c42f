// The sets of constructors of label maps: which registers have one, and what of one isn't in another.
ghost use Rattle.std.specs.Prelude.{◌≡◌, ℕ, Some, None, set, map, slice_get, IfOk, IfSome};
ghost use Rattle.cell_code.specs.Plain.{LabelMap, plain_label};
ghost use Rattle.code_rules.specs.Fitting.{is_subset};
ghost use Rattle.code_rules.specs.Kinds.{set_of};
ghost use Rattle.kind_domain.specs.declared.label_sets.Origin.{Origin};
ghost use Rattle.kind_domain.specs.LabelSets.{IsMissing, MapsRise, origin_at, pair_of, set_at};
ghost use Rattle.kind_domain.specs.Rising.{Rise, less};

use crate::missing::{Missing, compare};
use cell_code::{Kind, Label};
use fip_base::plain::NoMemory;
use std::alloc::Global;
use std::collections::BTreeMap;
use std::marker::Model;

/// A register of a label map.
#[derive(Clone, Copy)]
pub struct Origin {
    pub label: usize,
    pub register: u16,
}

/// Label maps, and for each register the one of a label map whose set it has, where that is known. What of one set
/// isn't in another is found out once, so that a Test of a register again and again doesn't go through long sets.
#[derive(Drop)]
pub struct LabelSets<'a> {
    labels: &'a [Label],
    origins: Vec<Option<Origin>>,
    answers: BTreeMap<(usize, u16, usize, u16), Missing>,
}

impl<'a> Model for LabelSets<'a> {
    ghost use Rattle.std.specs.BTreeMap.{get_by};
    ghost use Rattle.std.specs.Prelude.{map};
    ghost use Rattle.cell_code.specs.Plain.{plain_label};
    ghost use Rattle.kind_domain.specs.LabelSets.{AreAnswers, LabelSets as Held, pair_cmp};

    ghost Value = { Held };

    ghost view = { λ s. record { maps = map plain_label s.labels.now; origins = s.origins.items } };

    ghost invariant = { λ s. AreAnswers (map plain_label s.labels.now) (λ k. get_by (pair_cmp k) s.answers) };
}

impl<'a> LabelSets<'a> {
    /// Those of label maps; of none of so many registers the set is known to be one of them. NoMemory: no memory is
    /// left.
    pub fn new(
        alloc: Global,
        labels: &'a [Label],
        registers: usize,
    ) -> Result<LabelSets<'a>, NoMemory>
        ensures maps { IfOk result (λ s. s.maps ≡ map plain_label labels.now) }
        ensures none { IfOk result (λ s. (q : ℕ) (o : Origin) → origin_at s.origins q ≡ Some o → ⊥) }
    {
        Ok(LabelSets {
            labels,
            origins: nones(alloc, registers)?,
            answers: BTreeMap::new(alloc),
        })
    }

    /// The register of a label map whose set a register has, where that is known.
    #[tactic(auto, using(crate::proofs::SetsCompared::origin_get, crate::proofs::SetsCompared::origin_past))]
    pub fn origin(&self, register: u16) -> Option<Origin>
        ensures is { result ≡ origin_at self.now.origins register }
    {
        match self.origins.get(register as usize) {
            Some(origin) => *origin,
            None => None,
        }
    }

    /// A register has the set of this register of a label map, or another one.
    pub fn set(&mut self, register: u16, origin: Option<Origin>)
        ensures is { self.new.origins ≡ set self.old.origins register origin }
        ensures maps { self.new.maps ≡ self.old.maps }
    {
        let place = register as usize;
        if place < self.origins.len() {
            self.origins[place] = origin;
        }
    }

    /// Forgets what was found out: sets of another label map come into registers.
    pub fn start(&mut self)
        ensures same { self.new ≡ self.old }
    {
        self.answers.clear();
    }

    /// Whether the set that a register has, but `lacked`, is among the set of a register in a label map; none where
    /// the register's isn't known to be one of a label map.
    pub fn is_within(&mut self, register: u16, lacked: Option<u32>, asked: Origin) -> Option<bool>
        requires rise { MapsRise self.now.maps }
        ensures is { IfSome result (λ b. (o : Origin) × (origin_at self.old.origins register ≡ Some o)
            × (b ≡ is_subset (less lacked (set_at self.old.maps o)) (set_at self.old.maps asked))) }
        ensures same { self.new ≡ self.old }
    {
        match self.origin(register) {
            None => None,
            Some(own) => Some(self.missing(own, asked).allows(lacked)),
        }
    }

    // What of the set of a register in a label map isn't in another such set.
    fn missing(&mut self, own: Origin, asked: Origin) -> Missing
        requires rise { MapsRise self.now.maps }
        ensures is { IsMissing (set_at self.old.maps own) (set_at self.old.maps asked) result }
        ensures same { self.new ≡ self.old }
    {
        match self.answer(own, asked) {
            Some(found) => found,
            None => self.find(own, asked),
        }
    }

    // The answer that was found before.
    fn answer(&self, own: Origin, asked: Origin) -> Option<Missing>
        ensures is { IfSome result (λ m. IsMissing (set_at self.now.maps own) (set_at self.now.maps asked) m) }
    {
        self.answers
            .get(&(own.label, own.register, asked.label, asked.register))
            .copied()
    }

    // Finds the answer, and keeps it while there is memory.
    fn find(&mut self, own: Origin, asked: Origin) -> Missing
        requires rise { MapsRise self.now.maps }
        ensures is { IsMissing (set_at self.old.maps own) (set_at self.old.maps asked) result }
        ensures same { self.new ≡ self.old }
    {
        let found = compare(list_of(self.labels, own), list_of(self.labels, asked));
        let pair = (own.label, own.register, asked.label, asked.register);
        match self.answers.insert(pair, found) {
            Ok(_) => found,
            Err(_) => found,
        }
    }
}

/// The kinds of the label map of a number; none where there is no such map.
pub fn map_of(labels: &[Label], label: usize) -> Option<&[Kind]>
    ensures found { IfSome result (λ ks. (m : LabelMap)
        × (slice_get (map plain_label labels.now) label ≡ Some m) × (m.kinds ≡ ks.now)) }
    ensures none { result ≡ None → (m : LabelMap) → slice_get (map plain_label labels.now) label ≡ Some m → ⊥ }
{
    match labels.get(label) {
        None => None,
        Some(found) => Some(&found.kinds),
    }
}

// The set of a register in a label map.
fn list_of(labels: &[Label], origin: Origin) -> &[u32]
    ensures is { result.now ≡ set_at (map plain_label labels.now) origin }
{
    match map_of(labels, origin.label) {
        None => &[],
        Some(kinds) => match kinds.get(origin.register as usize) {
            None => &[],
            Some(kind) => constructors_of(kind),
        },
    }
}

// The set of a kind.
fn constructors_of(kind: &Kind) -> &[u32]
    ensures is { result.now ≡ set_of kind.now }
{
    match kind {
        Kind::Gone => &[],
        Kind::Scalar { .. } => &[],
        Kind::Owned { constructors, .. } => constructors.as_slice(),
        Kind::Lent { constructors, .. } => constructors.as_slice(),
        Kind::Credit { .. } => &[],
    }
}

// So many registers of which nothing is known.
fn nones(alloc: Global, count: usize) -> Result<Vec<Option<Origin>>, NoMemory>
    ensures none { IfOk result (λ v. (q : ℕ) (o : Origin) → slice_get v.items q ≡ Some (Some o) → ⊥) }
{
    let mut origins = Vec::new(alloc);
    origins.resize(count, None)?;
    Ok(origins)
}
