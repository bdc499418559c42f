// The code of a function while it is written.
ghost use Rattle.std.specs.Prelude.{◌≡◌, ◌≤◌, ◌<◌, ◌-◌, suc, true, [], ◌∷◌, ◌++◌, IfOk, OnOk, OnErr, length, map};
ghost use Rattle.std.specs.Prelude.{slice_get, slice_set, Some, None};
ghost use Rattle.lowering_relation.specs.Written.{Written as Writing, Extends, IsAt, added, place_of, settled, size};
ghost use Rattle.cell_code.specs.Plain.{plain_label};
ghost use Rattle.code_file.specs.CodeText.{instr_text};
ghost use Rattle.lowering_relation.specs.Standing.{AreOpen, are_open, is_open};
ghost use Rattle.lower_frame.specs.Labels.{labels, placed, stands_at, telling, untold, HaveMaps, Rising};
ghost use Rattle.lower_frame.specs.Spelled.{IsSpelt, AreInstrsSpelt, AreMapsSpelt, AreLabelsSpelt};

use crate::spelling::{are_spelt, is_spelt};
use cell_code::{Instr, Kind, Label};
use fip_base::plain::NoMemory;
use std::alloc::Global;
use std::marker::Model;

/// Instructions, whose jumps and tests go to labels; the places of labels, where they are known; and what is known of
/// the registers at some places, which rise and have a label each. A file encodes all of it. Where a label has its
/// place, it is reported what is known, but at the first instruction; each tree may have some constructor.
#[derive(Drop)]
pub struct Buffer {
    instrs: Vec<Instr>,
    places: Vec<Option<u32>>,
    labels: Vec<Label>,
}

impl Model for Buffer {
    ghost Value = { Writing };

    ghost view = { λ b. record {
      instrs = b.instrs.items;
      places = b.places.items;
      maps = map plain_label b.labels.items;
    } };

    ghost invariant = { λ b. (length b.labels.items ≤ placed b.places.items)
        × Rising (length b.instrs.items) 0 (map plain_label b.labels.items)
        × AreInstrsSpelt b.instrs.items × AreMapsSpelt (map plain_label b.labels.items)
        × HaveMaps b.places.items (map plain_label b.labels.items) × AreOpen (map plain_label b.labels.items) };
}

impl Buffer {
    /// Nothing is written yet.
    pub fn new(alloc: Global) -> Buffer
        ensures empty { result ≡ record { instrs = []; places = []; maps = [] } }
    {
        Buffer {
            instrs: Vec::new(alloc),
            places: Vec::new(alloc),
            labels: Vec::new(alloc),
        }
    }

    /// The number of the next instruction.
    pub fn here(&self) -> u32
        ensures here { result ≡ size self.now }
    {
        self.instrs.len() as u32
    }

    /// Writes an instruction; a jump or a test names a label. An error where no file encodes it, or one more.
    #[tactic(auto, using(crate::proofs::Labels::placing, crate::proofs::Spelt::spelling))]
    pub fn add(&mut self, instr: Instr) -> Result<(), NoMemory>
        ensures added { OnOk result (self.new ≡ added self.old instr) }
    {
        if self.instrs.len() >= u32::MAX as usize {
            return Err(NoMemory);
        }
        if !is_spelt(&instr) {
            return Err(NoMemory);
        }
        self.instrs.push(instr)?;
        Ok(())
    }

    /// A label that has no place yet.
    #[tactic(auto, using(crate::proofs::Labels::placing))]
    pub fn new_label(&mut self) -> Result<u32, NoMemory>
        ensures extends { OnOk result (Extends self.old self.new) }
        ensures instrs { OnOk result (self.new.instrs ≡ self.old.instrs) }
        ensures one { OnOk result (labels self.new ≡ suc (labels self.old)) }
        ensures maps { OnOk result (self.new.maps ≡ self.old.maps) }
    {
        let label = u32::try_from(self.places.len()).map_err(|_| NoMemory)?;
        self.places.push(None)?;
        Ok(label)
    }

    /// The place of a label is that of the next instruction, and these kinds are known there, in the place of narrower
    /// ones that were reported; an error where the label has a place, where no file encodes one of the kinds, or where
    /// a tree has no constructor. After an error all is as it was.
    #[tactic(auto, using(crate::proofs::Labels::placing, crate::proofs::Spelt::spelling))]
    pub fn put_label(&mut self, label: u32, kinds: Vec<Kind>) -> Result<(), NoMemory>
        ensures extends { OnOk result (Extends self.old self.new) }
        ensures instrs { OnOk result (self.new.instrs ≡ self.old.instrs) }
        ensures placed { OnOk result (IsAt self.new label (size self.old)) }
        ensures same { OnOk result (labels self.new ≡ labels self.old) }
        ensures reported { OnOk result (self.new.maps ≡ telling (size self.old) kinds.items self.old.maps) }
        ensures failed { OnErr result (self.new ≡ self.old) }
    {
        if !are_spelt(kinds.as_slice()) || !are_open(kinds.as_slice()) {
            return Err(NoMemory);
        }
        if !is_free(self.places.as_slice(), label) {
            return Err(NoMemory);
        }
        let here = self.here();
        report(&mut self.labels, here, kinds)?;
        place(&mut self.places, label, here);
        Ok(())
    }

    /// The instructions, with the places of labels for the labels, and what is known at places. For a label that has no
    /// place is that of the first instruction.
    pub fn into_parts(self) -> Result<(Vec<Instr>, Vec<Label>), NoMemory>
        ensures instrs { IfOk result (λ p. p.0.items ≡ map (settled (place_of self.places)) self.instrs) }
        ensures few { IfOk result (λ p. length p.1.items ≤ labels self) }
        ensures maps { IfOk result (λ p. map plain_label p.1.items ≡ self.maps) }
        ensures rising { IfOk result (λ p. Rising (size self) 0 (map plain_label p.1.items)) }
        ensures have { IfOk result (λ p. HaveMaps self.places (map plain_label p.1.items)) }
        ensures opens { IfOk result (λ p. AreOpen (map plain_label p.1.items)) }
        ensures spelt { IfOk result (λ p. AreInstrsSpelt p.0.items × AreLabelsSpelt p.1.items) }
    {
        let Buffer {
            mut instrs,
            places,
            labels,
        } = self;
        settle_all(&mut instrs, places.as_slice());
        Ok((instrs, labels))
    }
}

// Whether a label has no place yet.
fn is_free(places: &[Option<u32>], label: u32) -> bool
    ensures free { result ≡ true → slice_get places.now label ≡ Some None }
{
    match places.get(label as usize) {
        None => false,
        Some(place) => place.is_none(),
    }
}

// A label gets this place.
fn place(places: &mut Vec<Option<u32>>, label: u32, here: u32)
    ensures placed { places.new.items ≡ slice_set places.old.items label (Some here) }
{
    if let Some(place) = places.get_mut(label as usize) {
        *place = Some(here);
    }
}

// At the next instruction these kinds are known, in the place of those that were reported there. The first instruction of a
// function needs none, since no other goes there.
#[tactic(auto, using(crate::proofs::Labels::telling_on))]
fn report(labels: &mut Vec<Label>, at: u32, kinds: Vec<Kind>) -> Result<(), NoMemory>
    ensures reported { OnOk result (map plain_label labels.new.items
        ≡ telling at kinds.items (map plain_label labels.old.items)) }
    ensures failed { OnErr result (map plain_label labels.new.items ≡ map plain_label labels.old.items) }
{
    if at == 0 {
        return Ok(());
    }
    if is_last_at(labels.as_slice(), at) {
        set_last(labels, Label { at, kinds });
        return Ok(());
    }
    labels.push(Label { at, kinds })?;
    Ok(())
}

// The last label is this one.
fn set_last(labels: &mut Vec<Label>, label: Label)
    ensures set { labels.new.items ≡ slice_set labels.old.items (length labels.old.items - 1) label }
{
    let count = labels.len();
    if count > 0 {
        if let Some(last) = labels.get_mut(count - 1) {
            *last = label;
        }
    }
}

// Whether the last of what was reported was reported here.
#[tactic(auto, using(crate::proofs::Labels::telling_on))]
fn is_last_at(labels: &[Label], at: u32) -> bool
    ensures is { result ≡ stands_at at (slice_get (map plain_label labels.now)
        (length (map plain_label labels.now) - 1)) }
{
    match labels.last() {
        None => false,
        Some(last) => last.at == at,
    }
}

// Whether each tree may have some constructor.
fn are_open(kinds: &[Kind]) -> bool
    ensures opens { result ≡ are_open kinds.now }
{
    for kind in kinds {
        if !is_open(kind) {
            return false;
        }
    }
    true
}

fn is_open(kind: &Kind) -> bool
    ensures opens { result ≡ is_open kind.now }
{
    match kind {
        Kind::Gone => true,
        Kind::Scalar { .. } => true,
        Kind::Owned { constructors, .. } => !constructors.as_slice().is_empty(),
        Kind::Lent { constructors, .. } => !constructors.as_slice().is_empty(),
        Kind::Credit { .. } => true,
    }
}

#[tactic(auto, using(crate::proofs::Frames::mapping))]
fn settle_all(instrs: &mut Vec<Instr>, places: &[Option<u32>])
    ensures settled { instrs.new.items ≡ map (settled (place_of places.now)) instrs.old.items }
    ensures spelt { AreInstrsSpelt instrs.old.items → AreInstrsSpelt instrs.new.items }
{
    for instr in instrs.iter_mut() {
        settle(instr, places);
    }
}

// A jump or a test goes to the place of its label.
#[tactic(auto, using(crate::proofs::Spelt::settling))]
fn settle(instr: &mut Instr, places: &[Option<u32>])
    ensures settled { instr.new ≡ settled (place_of places.now) instr.old }
    ensures spelt { IsSpelt (instr_text instr.old) → IsSpelt (instr_text instr.new) }
{
    match instr {
        Instr::Jump { target } => set_target(target, places),
        Instr::Test { target, .. } => set_target(target, places),
        Instr::TestInt { target, .. } => set_target(target, places),
        _ => (),
    }
}

fn set_target(target: &mut u32, places: &[Option<u32>])
    ensures set { target.new ≡ place_of places.now target.old }
    ensures small { target.new < 4294967296 }
{
    *target = match places.get(*target as usize) {
        Some(Some(place)) => *place,
        _ => 0,
    };
}
