// The positions of a match and their registers.
ghost use Rattle.std.specs.Prelude.{◌≡◌, ◌≤◌, ◌<◌, suc, IfOk, OnOk, Some, length, slice_get};
ghost use Rattle.fip_trees.specs.TreeView as V;
ghost use Rattle.lowering_relation.specs.Spots as S;
ghost use Rattle.lowering_relation.specs.Growing.{AllGrow, Grows};
ghost use Rattle.lowering_relation.specs.Opening.{AllRoomy, Roomy};
ghost use Rattle.lower_frame.specs.declared.spots.Spot.{out-Spot};
ghost use Rattle.lower_frame.specs.Registers.{HasRoom};
ghost use Rattle.lower_frame.specs.Positions.{reaching, spot_of, spots_of, RoomyAt};

use crate::frame::Frame;
use fip_base::plain::NoMemory;
use fip_trees::program::Pattern;
use std::alloc::Global;

/// A position of a match: the register that its value is read into, and the positions of its fields. Patterns share it.
#[derive(Drop)]
pub struct Spot {
    pub register: u16,
    pub fields: Vec<Spot>,
}

impl Spot {
    /// A position without fields.
    pub fn new(alloc: Global, register: u16) -> Spot
        ensures alone { spot_of result ≡ S.At register S.NoSpots }
    {
        Spot {
            register,
            fields: Vec::new(alloc),
        }
    }

    /// The position of a field; an error where there are fewer.
    pub fn field(&self, place: usize) -> Result<&Spot, NoMemory>
        ensures there { IfOk result (λ s. slice_get (out-Spot self.now).fields.items place ≡ Some s.now) }
    {
        field_at(self.fields.as_slice(), place)
    }
}

/// The position at a place among others; an error where there are fewer.
pub fn field_at(spots: &[Spot], place: usize) -> Result<&Spot, NoMemory>
    ensures there { IfOk result (λ s. slice_get spots.now place ≡ Some s.now) }
{
    match spots.get(place) {
        None => Err(NoMemory),
        Some(spot) => Ok(spot),
    }
}

/// Adds the positions of a pattern at a spot. Each new one has the next register, so that there are at most as many as
/// pattern nodes below the roots.
#[cycle(spots)]
pub fn add_spots(
    alloc: Global,
    pattern: &Pattern,
    spot: &mut Spot,
    frame: &mut Frame,
) -> Result<(), NoMemory>
    ensures grows { OnOk result (Grows (spot_of spot.old) (spot_of spot.new) frame.old.next frame.new.next) }
    ensures roomy { OnOk result (Roomy (V.pattern pattern.now) (spot_of spot.new)) }
    ensures frame { OnOk result (frame.new ≡ reaching frame.old frame.new.next) }
    ensures room { OnOk result (HasRoom frame.old frame.new) }
{
    match pattern {
        Pattern::Binder(_) => Ok(()),
        Pattern::Literal { .. } => Ok(()),
        Pattern::Constructor { patterns, .. } => {
            add_parts(alloc, patterns.as_slice(), &mut spot.fields, frame)?;
            Ok(())
        }
    }
}

#[cycle(spots)]
#[tactic(auto, using(crate::proofs::Growing::growing))]
fn add_parts(
    alloc: Global,
    patterns: &[Pattern],
    fields: &mut Vec<Spot>,
    frame: &mut Frame,
) -> Result<(), NoMemory>
    ensures grow { OnOk result (AllGrow (spots_of fields.old.items) (spots_of fields.new.items) frame.old.next
        frame.new.next) }
    ensures roomy { OnOk result (AllRoomy (V.patterns patterns.now) (spots_of fields.new.items)) }
    ensures frame { OnOk result (frame.new ≡ reaching frame.old frame.new.next) }
    ensures room { OnOk result (HasRoom frame.old frame.new) }
{
    add_fields(alloc, patterns.len(), fields, frame)?;
    add_all(alloc, patterns, fields, frame)?;
    Ok(())
}

// The positions of the parts of a pattern, at the first fields.
#[cycle(spots)]
fn add_all(
    alloc: Global,
    patterns: &[Pattern],
    fields: &mut Vec<Spot>,
    frame: &mut Frame,
) -> Result<(), NoMemory>
    requires there { length patterns.now ≤ length fields.old.items }
    ensures grow { OnOk result (AllGrow (spots_of fields.old.items) (spots_of fields.new.items) frame.old.next
        frame.new.next) }
    ensures roomy { OnOk result (AllRoomy (V.patterns patterns.now) (spots_of fields.new.items)) }
    ensures frame { OnOk result (frame.new ≡ reaching frame.old frame.new.next) }
    ensures room { OnOk result (HasRoom frame.old frame.new) }
{
    let mut place: usize = 0;
    for part in patterns {
        add_part(alloc, part, fields, place, frame)?;
        place += 1;
    }
    Ok(())
}

// The positions of a part of a pattern, at a field that is there.
#[cycle(spots)]
fn add_part(
    alloc: Global,
    part: &Pattern,
    fields: &mut Vec<Spot>,
    place: usize,
    frame: &mut Frame,
) -> Result<(), NoMemory>
    requires there { place < length fields.old.items }
    ensures as_many { OnOk result (length fields.new.items ≡ length fields.old.items) }
    ensures grow { OnOk result (AllGrow (spots_of fields.old.items) (spots_of fields.new.items) frame.old.next
        frame.new.next) }
    ensures roomy { OnOk result (RoomyAt (V.pattern part.now) place (spots_of fields.new.items)) }
    ensures frame { OnOk result (frame.new ≡ reaching frame.old frame.new.next) }
    ensures room { OnOk result (HasRoom frame.old frame.new) }
{
    match fields.get_mut(place) {
        None => unreachable!(),
        Some(field) => {
            add_spots(alloc, part, field, frame)?;
            Ok(())
        }
    }
}

// As many fields as this at least.
#[tactic(auto, using(crate::proofs::Growing::growing))]
fn add_fields(
    alloc: Global,
    number: usize,
    fields: &mut Vec<Spot>,
    frame: &mut Frame,
) -> Result<(), NoMemory>
    ensures many { OnOk result (number ≤ length fields.new.items) }
    ensures grow { OnOk result (AllGrow (spots_of fields.old.items) (spots_of fields.new.items) frame.old.next
        frame.new.next) }
    ensures frame { OnOk result (frame.new ≡ reaching frame.old frame.new.next) }
    ensures room { OnOk result (HasRoom frame.old frame.new) }
{
    while fields.len() < number {
        add_field(alloc, fields, frame)?;
    }
    Ok(())
}

#[tactic(auto, using(crate::proofs::Growing::growing))]
fn add_field(alloc: Global, fields: &mut Vec<Spot>, frame: &mut Frame) -> Result<(), NoMemory>
    ensures one { OnOk result (length fields.new.items ≡ suc (length fields.old.items)) }
    ensures grow { OnOk result (AllGrow (spots_of fields.old.items) (spots_of fields.new.items) frame.old.next
        frame.new.next) }
    ensures frame { OnOk result (frame.new ≡ reaching frame.old frame.new.next) }
    ensures room { OnOk result (HasRoom frame.old frame.new) }
{
    let register = frame.fresh()?;
    fields.push(Spot::new(alloc, register))?;
    Ok(())
}
