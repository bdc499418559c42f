// The registers of a function.
ghost use Rattle.std.specs.Prelude.{◌≡◌, ◌<◌, ◌≤◌, ◌++◌, ℕ, true, set, length, Some, None, map};
ghost use Rattle.std.specs.Prelude.{IfOk, IfSome, OnOk};
ghost use Rattle.std.specs.Prelude.{slice_get, slice_index};
ghost use Rattle.kind_domain.specs.cell_code.declared.kind.Kind.TheVariants.{Credit};
ghost use Rattle.kind_domain.specs.cell_code.Plain.{LabelMap, plain_label, plain_function};
ghost use Rattle.kind_domain.specs.code_rules.Entry.{entry, gones, param_kind};
ghost use Rattle.kind_domain.specs.code_rules.Headers.{is_formed};
ghost use Rattle.kind_domain.specs.code_rules.Kinds.{at, from_of, has, is_lent_of, set_of};
ghost use Rattle.register_kinds.specs.Kept.{KindsRise};
ghost use Rattle.kind_domain.specs.Leading.{Linked, names};
ghost use Rattle.kind_domain.specs.declared.label_sets.Origin.{Origin};
ghost use Rattle.kind_domain.specs.LabelSets.{set_at};
ghost use Rattle.kind_domain.specs.Rising.{Rise};
ghost use Rattle.register_kinds.specs.State.{of_types};
ghost use Rattle.kind_domain.specs.Leading.{kept_at};
ghost use Rattle.kind_domain.specs.Views.{kind_of, kinds_of};

use kind_domain::asked::{Asked, asked_by, count_known, recount};
use kind_domain::base::plain::{NoMemory, Param};
use kind_domain::code::{Function, Kind, Label};
use kind_domain::kinds::Kinds;
use kind_domain::known::Known;
use kind_domain::label_sets::{LabelSets, Origin, map_of};
use kind_domain::lents::Lents;
use kind_domain::links::Links;
use kind_domain::log::Log;
use kind_domain::marks::Marks;
use kind_domain::set::Set;
use kind_domain::table::Table;
use std::alloc::Global;
use std::marker::Model;

/// What is known of each register of a function, which also knows the function's label maps.
#[derive(Drop)]
pub struct Registers<'a> {
    pub(crate) known: Kinds<'a>,
    pub(crate) labels: &'a [Label],
    pub(crate) lents: Lents,
    // For each register those whose words came from its cell.
    pub(crate) below: Links,
    // For each register those that are lent of it.
    pub(crate) trees: Links,
    // For each register those that are lent of it and have no from.
    pub(crate) loose: Links,
    // The registers whose trees may be torn, where that is known.
    pub(crate) held: Option<Marks>,
    pub(crate) log: Log,
    pub(crate) busy: usize,
    pub(crate) asked: Vec<Asked>,
    pub(crate) sets: LabelSets<'a>,
}

impl<'a> Model for Registers<'a> {
    ghost use Rattle.std.specs.Prelude.{map};
    ghost use Rattle.kind_domain.specs.cell_code.Plain.{plain_label};
    ghost use Rattle.register_kinds.specs.Kept.{IsKept};
    ghost use Rattle.register_kinds.specs.State.{RegisterState};

    ghost Value = { RegisterState };

    ghost view = { λ v. record {
      kinds = v.known;
      maps = map plain_label v.labels.now;
      lent = v.lents.held;
      reached = v.lents.reached;
    } };

    ghost invariant = { λ v. IsKept v.known (map plain_label v.labels.now) v.lents v.below v.trees v.loose v.held v.log
        v.busy v.asked.items v.sets };
}

impl<'a> Registers<'a> {
    /// The registers where a function that doesn't break S9 is entered. NoMemory: no memory is left.
    pub fn enter(
        alloc: Global,
        table: &Table<'a>,
        function: &'a Function,
    ) -> Result<Registers<'a>, NoMemory>
        requires formed { is_formed (of_types table.now) (plain_function function.now) ≡ true }
        ensures kinds { IfOk result (λ s. s.kinds ≡ entry (of_types table.now) (plain_function function.now)) }
        ensures maps { IfOk result (λ s. s.maps ≡ (plain_function function.now).labels) }
    {
        let known = entry_kinds(alloc, table, function)?;
        let busy = count_known(&known);
        Ok(Registers {
            known: Kinds::new(alloc, known, function.registers)?,
            labels: &function.labels,
            lents: Lents::new(alloc, function.registers)?,
            below: Links::new(alloc, function.registers as usize)?,
            trees: Links::new(alloc, function.registers as usize)?,
            loose: Links::new(alloc, function.registers as usize)?,
            held: Some(Marks::new(alloc, function.registers as usize)?),
            log: Log::new(alloc, function.registers as usize, function.labels.len())?,
            busy,
            asked: asked_by(alloc, &function.labels)?,
            sets: LabelSets::new(alloc, &function.labels, function.registers as usize)?,
        })
    }

    /// At a label: what its map says of each register holds. No change where there is no label of this number.
    pub fn adopt(&mut self, label: usize)
        ensures kinds { (m : LabelMap) → slice_get self.old.maps label ≡ Some m → self.new.kinds ≡ m.kinds }
        ensures maps { self.new.maps ≡ self.old.maps }
    {
        let labels = self.labels;
        match map_of(labels, label) {
            None => (),
            Some(kinds) => self.put_all(label, kinds),
        }
    }

    // What the label map of a number says of each register holds.
    fn put_all(&mut self, label: usize, kinds: &'a [Kind])
        requires map { (m : LabelMap) × (slice_get self.now.maps label ≡ Some m) × (m.kinds ≡ kinds.now) }
        requires rise { KindsRise kinds.now }
        requires long { length kinds.now ≡ length self.now.kinds }
        requires few { length kinds.now < 65536 }
        ensures kinds { self.new.kinds ≡ kinds.now }
        ensures maps { self.new.maps ≡ self.old.maps }
    {
        let held = self.held.take();
        self.sets.start();
        let mut register = 0u16;
        for kind in kinds {
            self.adopt_one(label, register, Known::of(kind));
            register += 1;
        }
        self.find_held(held);
    }

    // What a label map says of one register holds. Most registers are Gone in both, and take no work then.
    fn adopt_one(&mut self, label: usize, register: u16, known: Known<'a>)
        requires rises { Rise (set_of (kind_of known)) }
        requires origin { set_of (kind_of known)
            ≡ set_at self.now.maps (record { label = label; register = register }) }
        ensures kinds { self.new.kinds ≡ set self.old.kinds register (kind_of known.entry) }
        ensures maps { self.new.maps ≡ self.old.maps }
    {
        if known.is_gone() && self.known(register).is_gone() {
            return;
        }
        let origin = Origin { label, register };
        self.change(register, known, Some(origin));
    }
}

impl<'a> Registers<'a> {
    // What is known of a register.
    pub(crate) fn known(&self, register: u16) -> Known<'a>
        ensures is { kind_of result ≡ at self.now.kinds register }
        ensures rises { Rise (set_of (kind_of result)) }
    {
        self.known.get(register)
    }

    // The register of a label map whose set a register has, where that is known.
    pub(crate) fn origin(&self, register: u16) -> Option<Origin>
        ensures is { (o : Origin) → result ≡ Some o →
            set_of (at self.now.kinds register) ≡ set_at self.now.maps o }
    {
        self.sets.origin(register)
    }

    // Another thing is known of a register.
    pub(crate) fn put(&mut self, register: u16, known: Known<'a>)
        requires rises { Rise (set_of (kind_of known)) }
        ensures kinds { self.new.kinds ≡ set self.old.kinds register (kind_of known.entry) }
        ensures maps { self.new.maps ≡ self.old.maps }
        ensures lent { self.new.lent ≡ self.old.lent }
        ensures reached { self.new.reached ≡ self.old.reached }
    {
        self.change(register, known, None);
    }

    // Another thing is known of a register, with the same set of constructors.
    pub(crate) fn put_alike(&mut self, register: u16, known: Known<'a>)
        requires rises { Rise (set_of (kind_of known)) }
        requires same { set_of (kind_of known) ≡ set_of (at self.now.kinds register) }
        ensures kinds { self.new.kinds ≡ set self.old.kinds register (kind_of known.entry) }
        ensures maps { self.new.maps ≡ self.old.maps }
        ensures lent { self.new.lent ≡ self.old.lent }
        ensures reached { self.new.reached ≡ self.old.reached }
    {
        let origin = self.origin(register);
        self.change(register, known, origin);
    }

    // Another thing is known of a register. Where an origin is reported, its set is the one of that register of a label
    // map.
    pub(crate) fn change(&mut self, register: u16, known: Known<'a>, origin: Option<Origin>)
        requires rises { Rise (set_of (kind_of known)) }
        requires origin { (o : Origin) → origin ≡ Some o → set_of (kind_of known) ≡ set_at self.now.maps o }
        ensures kinds { self.new.kinds ≡ set self.old.kinds register (kind_of known.entry) }
        ensures maps { self.new.maps ≡ self.old.maps }
        ensures lent { self.new.lent ≡ self.old.lent }
        ensures reached { self.new.reached ≡ self.old.reached }
    {
        let place = register as usize;
        if place < self.known.len() {
            let before = self.known.get(register);
            link_source(&mut self.below, register, before, known.source());
            link_owner(&mut self.trees, register, before, known.owner());
            link_loose(&mut self.loose, register, before, known);
            self.held = None;
            self.busy = recount(self.busy, before.is_free(), known.is_free());
            self.known.set(register, known);
            self.log.add(register);
            self.sets.set(register, origin);
        }
    }

    // The heir that was kept for a register.
    pub(crate) fn reached(&self, register: u16) -> Option<u16>
        ensures is { result ≡ kept_at self.now.reached register }
    {
        self.lents.reached(register)
    }

    // Keeps an heir for a listed register, or none.
    pub(crate) fn reach(&mut self, register: u16, heir: Option<u16>)
        requires listed { has self.now.lent register ≡ true }
        ensures is { self.new.reached ≡ set self.old.reached register heir }
        ensures long { length self.new.reached ≡ length self.new.kinds }
        ensures kinds { self.new.kinds ≡ self.old.kinds }
        ensures maps { self.new.maps ≡ self.old.maps }
        ensures lent { self.new.lent ≡ self.old.lent }
    {
        self.lents.reach(register, heir);
    }

    // The number of registers in the list of those that a step looks at.
    pub(crate) fn lent_len(&self) -> usize
        ensures is { result ≡ length self.now.lent }
        ensures few { result ≤ length self.now.kinds }
    {
        self.lents.as_slice().len()
    }

    // A register of that list.
    pub(crate) fn lent_at(&self, place: usize) -> u16
        requires within { place < length self.now.lent }
        ensures is { result ≡ slice_index self.now.lent place }
        ensures listed { has self.now.lent result ≡ true }
    {
        self.lents.as_slice()[place]
    }
}

// A register's word came from the cell of another, where there is one. What it came from before is known.
fn link_source(below: &mut Links, register: u16, before: Known, source: Option<u16>)
    requires linked { (r : ℕ) → names r (from_of (kind_of before)) ≡ true → Linked below.old r register }
    ensures linked { (r : ℕ) → source ≡ Some r → Linked below.new r register }
    ensures others { (r q : ℕ) → Linked below.old r q → Linked below.new r q }
{
    match source {
        None => (),
        Some(source) => {
            if !before.came_from(source) {
                below.add(source, register);
            }
        }
    }
}

// A register is lent of another, where there is one. What it was lent of before is known.
fn link_owner(trees: &mut Links, register: u16, before: Known, owner: Option<u16>)
    requires linked { (r : ℕ) → is_lent_of r (kind_of before) ≡ true → Linked trees.old r register }
    ensures linked { (r : ℕ) → owner ≡ Some r → Linked trees.new r register }
    ensures others { (r q : ℕ) → Linked trees.old r q → Linked trees.new r q }
{
    match owner {
        None => (),
        Some(owner) => {
            if !before.is_lent_of(owner) {
                trees.add(owner, register);
            }
        }
    }
}

// A register is lent of another without a from, where it is. Whether it was so before is known.
fn link_loose(loose: &mut Links, register: u16, before: Known, known: Known)
    requires linked { (r : ℕ) → is_lent_of r (kind_of before) ≡ true → from_of (kind_of before) ≡ None →
        Linked loose.old r register }
    ensures linked { (r : ℕ) → is_lent_of r (kind_of known.entry) ≡ true → from_of (kind_of known.entry) ≡ None →
        Linked loose.new r register }
    ensures others { (r q : ℕ) → Linked loose.old r q → Linked loose.new r q }
{
    if known.from().is_some() {
        return;
    }
    match known.owner() {
        None => (),
        Some(owner) => {
            if before.from().is_some() || !before.is_lent_of(owner) {
                loose.add(owner, register);
            }
        }
    }
}

// The kinds where a function is entered.
fn entry_kinds<'a>(
    alloc: Global,
    table: &Table<'a>,
    function: &'a Function,
) -> Result<Vec<Known<'a>>, NoMemory>
    ensures is { IfOk result (λ v. kinds_of v.items ≡ entry (of_types table.now) (plain_function function.now)) }
{
    let mut known = param_kinds(alloc, table, function.params.as_slice())?;
    add_credits(&mut known, &function.credits)?;
    let rest = (function.registers as usize).saturating_sub(known.len());
    add_gones(&mut known, rest)?;
    Ok(known)
}

// Credits of these sizes follow.
fn add_credits(known: &mut Vec<Known>, sizes: &[u8]) -> Result<(), NoMemory>
    ensures is { OnOk result (kinds_of known.new.items ≡ kinds_of known.old.items ++ map Credit sizes.now) }
{
    for size in sizes {
        known.push(Known::Credit {
            size: *size as usize,
        })?;
    }
    Ok(())
}

// So many registers follow that are gone.
fn add_gones(known: &mut Vec<Known>, count: usize) -> Result<(), NoMemory>
    ensures is { OnOk result (kinds_of known.new.items ≡ kinds_of known.old.items ++ gones count) }
{
    for place in 0..count {
        known.push(Known::Gone)?;
    }
    Ok(())
}

// The kinds of parameters.
fn param_kinds<'a>(
    alloc: Global,
    table: &Table<'a>,
    params: &[Param],
) -> Result<Vec<Known<'a>>, NoMemory>
    ensures is { IfOk result (λ v. kinds_of v.items ≡ map (param_kind table.now) params.now) }
{
    let mut known = Vec::new(alloc);
    for param in params {
        known.push(param_known(table, *param))?;
    }
    Ok(known)
}

// The kind of a parameter.
fn param_known<'a>(table: &Table<'a>, param: Param) -> Known<'a>
    ensures is { kind_of result ≡ param_kind table.now param }
{
    if table.is_scalar(param.ty) {
        Known::Scalar { ty: param.ty }
    } else if param.lent {
        Known::Lent {
            ty: param.ty,
            set: Set::All(table.count(param.ty)),
            root: None,
            from: None,
        }
    } else {
        Known::Owned {
            ty: param.ty,
            set: Set::All(table.count(param.ty)),
        }
    }
}
