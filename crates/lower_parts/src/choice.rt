// A match as far as its tests go: the clauses, the sides where tests aren't written yet, and what is known there.
ghost use Rattle.std.specs.Prelude.{◌≡◌, ◌≤◌, ◌<◌, suc, true, [], ◌∷◌, ◌++◌, IfOk, IfSome, OnOk, Some, None};
ghost use Rattle.std.specs.Prelude.{false, get_or, length, slice_get, slice_set};
ghost use Rattle.fip_language.specs.Every.{Every};
ghost use Rattle.fip_trees.specs.TreeView as V;
ghost use Rattle.lower_frame.specs.code_rules.Types.{fields};
ghost use Rattle.match_knowledge.specs.declared.verdicts.Verdict.TheVariants as D;
ghost use Rattle.match_knowledge.specs.Known as K;
ghost use Rattle.match_knowledge.specs.Known.{is_in};
ghost use Rattle.match_knowledge.specs.View as View;
ghost use Rattle.lower_frame.specs.lowering_relation.Spots as S;
ghost use Rattle.lower_frame.specs.lowering_relation.Rows.{row_of};
ghost use Rattle.lower_frame.specs.lowering_relation.Reading.{contains};
ghost use Rattle.lower_frame.specs.lowering_relation.Opening as O;
ghost use Rattle.lower_frame.specs.lowering_relation.Opening.{as_many};
ghost use Rattle.lower_frame.specs.lowering_relation.Landing.{test_of};
ghost use Rattle.lower_frame.specs.lowering_relation.Sights.{left};
ghost use Rattle.lower_frame.specs.Positions.{spot_of, spots_of};
ghost use Rattle.lower_parts.specs.Overlays.{may_be};
ghost use Rattle.lower_parts.specs.Testing.{AreMissed, Misses};
ghost use Rattle.lower_parts.specs.Scenes.{asking, first_side, patterns_of};
ghost use Rattle.lower_parts.specs.Scenes.{AsksAt, HasRows, IsFirstOf};
ghost use Rattle.lower_parts.specs.Scenes.{Asks, NotFirst, sides_of};

use cell_code::{Constructors, Instr, Kind, Registers};
use fip_base::plain::NoMemory;
use fip_base::table::TypeTable;
use fip_trees::program::{Binder, Pattern};
use lower_frame::{Spot, constructors_of, field_at};
use match_knowledge::{Head, Knowledge, Row, compare, is_asks, is_fits, open, same_head, side};
use std::alloc::Global;

/// Where tests aren't written yet: what is known of the values that come there, the registers that were read on the
/// way, and the label to which a test goes that these values fail; none where all values come there.
#[derive(Drop)]
pub struct Side {
    pub known: Knowledge,
    pub read: Vec<u16>,
    pub label: Option<u32>,
}

/// A match, as far as its tests go.
#[derive(Drop)]
pub struct Choice<'c> {
    /// The clauses' patterns, and the same without names.
    pub patterns: Vec<&'c Pattern>,
    pub rows: Vec<Row>,
    /// The scrutinee: its position, type, and whether its cells are taken apart.
    pub root: Spot,
    pub ty: u32,
    pub takes: bool,
    /// The labels of the clauses' bodies.
    pub entries: Vec<u32>,
}

/// The first clause that isn't ruled out: it matches all values, or it asks.
#[derive(Clone, Copy)]
pub enum First<'r> {
    Chosen(usize),
    Asks(&'r Row),
}

/// What a pattern asks for first: the register of the position, and the head.
#[derive(Clone, Copy)]
pub struct Asked {
    pub register: u16,
    pub head: Head,
}

/// What the words below a scrutinee are lent of, and the registers into which they were read.
#[derive(Clone, Copy)]
pub struct Overlay<'r> {
    pub root: Option<u16>,
    pub read: &'r [u16],
}

/// The start of a match, where tests aren't written yet: nothing is known.
pub fn start_of(alloc: Global) -> Result<Vec<Side>, NoMemory>
    ensures start { IfOk result (λ ds. sides_of ds.items ≡ first_side ∷ []) }
{
    let mut sides = Vec::new(alloc);
    sides.push(Side {
        known: open(alloc),
        read: Vec::new(alloc),
        label: None,
    })?;
    Ok(sides)
}

impl<'c> Choice<'c> {
    /// A match without clauses yet.
    pub fn new(alloc: Global, root: u16, ty: u32, takes: bool) -> Choice<'c>
        ensures root { spot_of result.root ≡ S.At root S.NoSpots }
        ensures of_type { result.ty ≡ ty }
        ensures takes { result.takes ≡ takes }
        ensures entries { result.entries.items ≡ [] }
        ensures patterns { patterns_of result ≡ [] }
        ensures rows { HasRows result }
    {
        Choice {
            patterns: Vec::new(alloc),
            rows: Vec::new(alloc),
            root: Spot::new(alloc, root),
            ty,
            takes,
            entries: Vec::new(alloc),
        }
    }

    /// Adds a clause: its pattern, the same without names, and the label of its body.
    #[tactic(auto, using(crate::proofs::Choosing::adding))]
    pub fn add(&mut self, pattern: &'c Pattern, row: Row, entry: u32) -> Result<(), NoMemory>
        ensures root { OnOk result (self.new.root ≡ self.old.root) }
        ensures of_type { OnOk result (self.new.ty ≡ self.old.ty) }
        ensures takes { OnOk result (self.new.takes ≡ self.old.takes) }
        ensures entries { OnOk result (length self.new.entries.items ≡ suc (length self.old.entries.items)) }
        ensures patterns { OnOk result (patterns_of self.new ≡ patterns_of self.old ++ V.pattern pattern.now ∷ []) }
        ensures rows { OnOk result (View.row row ≡ row_of (V.pattern pattern.now) → HasRows self.old →
            HasRows self.new) }
    {
        self.patterns.push(pattern)?;
        self.rows.push(row)?;
        self.entries.push(entry)?;
        Ok(())
    }

    /// The label of a clause's body.
    pub fn entry(&self, clause: usize) -> u32
        requires there { clause < length self.now.entries.items }
        ensures entry { result ≡ get_or self.now.entries.items clause 0 }
        ensures there { slice_get self.now.entries.items clause ≡ Some result }
    {
        match self.entries.get(clause) {
            None => unreachable!(),
            Some(label) => *label,
        }
    }

    /// How many clauses it has.
    pub fn len(&self) -> usize
        ensures count { result ≡ length self.now.rows.items }
    {
        self.rows.len()
    }

    /// The first clause that isn't ruled out. The clauses cover all values, so there is one.
    pub fn first_left(&self, known: &Knowledge) -> Result<First<'_>, NoMemory>
        ensures first { IfOk result (IsFirstOf (View.rows self.now.rows.items) (View.known known.now)) }
    {
        match first_of(self.rows.as_slice(), known) {
            None => Err(NoMemory),
            Some(first) => Ok(first),
        }
    }

    /// Whether a clause may be chosen where tests aren't written yet.
    pub fn may_choose(&self, sides: &[Side], clause: usize) -> bool
        ensures none { sides.now ≡ [] → result ≡ false }
        ensures missed { result ≡ false → AreMissed (View.rows self.now.rows.items) clause (sides_of sides.now) }
    {
        match self.rows.get(clause) {
            None => false,
            Some(row) => may_come(sides, row),
        }
    }

    /// Whether the tests are written that choose a clause; for the last clause all. At the start of the match they
    /// aren't: no clause is ruled out there.
    pub fn is_written(&self, sides: &[Side], clause: usize) -> bool
        ensures none { sides.now ≡ [] → result ≡ true }
        ensures all { result ≡ true → length self.now.rows.items ≤ suc clause → sides.now ≡ [] }
        ensures begun { result ≡ true → NotFirst (sides_of sides.now) }
        ensures missed { result ≡ true → AreMissed (View.rows self.now.rows.items) clause (sides_of sides.now) }
    {
        if is_start(sides) {
            return false;
        }
        if clause >= self.rows.len().saturating_sub(1) {
            sides.is_empty()
        } else {
            !self.may_choose(sides, clause)
        }
    }
}

/// Whether a value comes to one of these sides that may match a pattern.
pub fn may_come(sides: &[Side], row: &Row) -> bool
    ensures none { sides.now ≡ [] → result ≡ false }
    ensures missed { result ≡ false → Every (Misses (View.row row.now)) (sides_of sides.now) }
{
    for next in sides {
        let verdict = compare(row, &next.known);
        if is_fits(verdict) || is_asks(verdict) {
            return true;
        }
    }
    false
}

/// Whether the side that is next is the start of the match.
pub fn is_start(sides: &[Side]) -> bool
    ensures none { sides.now ≡ [] → result ≡ false }
    ensures start { sides_of sides.now ≡ first_side ∷ [] → result ≡ true }
{
    match sides.first() {
        None => false,
        Some(side) => match side.label {
            None => true,
            Some(_) => false,
        },
    }
}

/// The registers of the positions of these patterns.
pub fn registers_of(
    alloc: Global,
    patterns: &[Pattern],
    spots: &[Spot],
) -> Result<Registers, NoMemory>
    ensures registers { IfOk result (λ rs. rs ≡ as_many (V.patterns patterns.now) (spots_of spots.now)) }
{
    let mut registers = Registers::new(alloc);
    for (place, _part) in patterns.iter().enumerate() {
        let spot = field_at(spots, place)?;
        registers.push(spot.register)?;
    }
    Ok(registers)
}

/// The test of a head, which goes to a label where it fails.
pub fn test_of(register: u16, head: Head, target: u32) -> Instr
    ensures { result ≡ test_of register head target }
{
    match head {
        Head::Tag(constructor) => Instr::Test {
            register,
            constructor,
            target,
        },
        Head::Number(value) => Instr::TestInt {
            register,
            value,
            target,
        },
    }
}

/// The first clause that isn't ruled out; none where each is.
pub fn first_of<'r>(rows: &'r [Row], known: &Knowledge) -> Option<First<'r>>
    ensures first { IfSome result (IsFirstOf (View.rows rows.now) (View.known known.now)) }
{
    for (number, row) in rows.iter().enumerate() {
        let verdict = compare(row, known);
        if is_fits(verdict) {
            return Some(First::Chosen(number));
        }
        if is_asks(verdict) {
            return Some(First::Asks(row));
        }
    }
    None
}

/// Whether a pattern names a variable, or a part of it does.
#[cycle(names)]
pub fn names_any(pattern: &Pattern) -> bool
    ensures { result ≡ O.names_any (V.pattern pattern.now) }
{
    match pattern {
        Pattern::Binder(binder) => is_named(binder),
        Pattern::Literal { .. } => false,
        Pattern::Constructor { patterns, .. } => any_named(patterns.as_slice()),
    }
}

#[cycle(names)]
pub fn any_named(patterns: &[Pattern]) -> bool
    ensures { result ≡ O.any_named (V.patterns patterns.now) }
{
    for part in patterns {
        if names_any(part) {
            return true;
        }
    }
    false
}

/// Whether a variable can be named.
pub fn is_named(binder: &Binder) -> bool
    ensures { result ≡ O.is_named binder.now }
{
    !is_underscore(binder.name.as_slice())
}

pub fn is_underscore(name: &[u8]) -> bool
    ensures { result ≡ O.is_underscore name.now }
{
    name.len() == 1 && name[0] == b'_'
}

/// The first of the fields whose pattern asks.
pub fn first_asking(parts: &[Row], knowns: &[Knowledge]) -> Option<usize>
    ensures first { result ≡ asking (View.parts parts.now) (View.knowns knowns.now) 0 }
{
    let mut field: usize = 0;
    for part in parts {
        if field >= knowns.len() {
            return None;
        }
        if is_asks(compare(part, &knowns[field])) {
            return Some(field);
        }
        field += 1;
    }
    None
}

/// The same, where one asks.
pub fn asking_at(parts: &[Row], knowns: &[Knowledge]) -> usize
    requires asks { K.compare_all (View.parts parts.now) (View.knowns knowns.now) ≡ D.Asks }
    ensures first { asking (View.parts parts.now) (View.knowns knowns.now) 0 ≡ Some result }
    ensures part { result < length parts.now }
    ensures known { result < length knowns.now }
    ensures asks { AsksAt parts.now knowns.now result }
{
    match first_asking(parts, knowns) {
        None => unreachable!(),
        Some(field) => field,
    }
}

/// The pattern at a place.
pub fn row_at(rows: &[Row], place: usize) -> &Row
    requires there { place < length rows.now }
    ensures row { slice_get rows.now place ≡ Some result.now }
{
    match rows.get(place) {
        None => unreachable!(),
        Some(row) => row,
    }
}

/// What is known of the field at a place.
pub fn known_at(knowns: &[Knowledge], place: usize) -> &Knowledge
    requires there { place < length knowns.now }
    ensures known { slice_get knowns.now place ≡ Some result.now }
{
    match knowns.get(place) {
        None => unreachable!(),
        Some(known) => known,
    }
}

/// Whether a register is among these.
pub fn contains(read: &[u16], register: u16) -> bool
    ensures { result ≡ contains register read.now }
{
    for one in read {
        if register == *one {
            return true;
        }
    }
    false
}

/// Puts the kind of a register, where it is there.
pub fn set_kind(kinds: &mut Vec<Kind>, register: u16, kind: Kind)
    ensures set { kinds.new.items ≡ slice_set kinds.old.items register kind }
{
    if let Some(place) = kinds.get_mut(register as usize) {
        *place = kind;
    }
}

/// The types of the fields of a constructor; none where there is no such constructor.
pub fn fields_of(types: &TypeTable, ty: u32, constructor: u32) -> &[u32]
    ensures same { result.now ≡ fields types.now ty constructor }
{
    match constructors_of(types, ty).get(constructor as usize) {
        None => &[],
        Some(found) => found.fields(),
    }
}

/// The constructors that a value of a type may have.
pub fn left_of(
    alloc: Global,
    types: &TypeTable,
    ty: u32,
    known: &Knowledge,
) -> Result<Constructors, NoMemory>
    ensures left { IfOk result (λ s. s ≡ left types.now ty (View.known known.now)) }
{
    let mut numbers = Vec::new(alloc);
    let count = constructors_of(types, ty).len() as u32;
    for number in 0..count {
        if may_be(known, number) {
            numbers.push(number)?;
        }
    }
    Ok(Constructors::new(numbers))
}

pub fn may_be(known: &Knowledge, constructor: u32) -> bool
    ensures { result ≡ may_be (View.known known.now) constructor }
{
    let tag = Head::Tag(constructor);
    match known {
        Knowledge::Is(head, _) => same_head(head, &tag),
        Knowledge::Open(out) => !is_out(out.as_slice(), &tag),
    }
}

/// Whether a head was ruled out.
pub fn is_out(out: &[Head], head: &Head) -> bool
    ensures { result ≡ is_in head.now out.now }
{
    for one in out {
        if same_head(one, head) {
            return true;
        }
    }
    false
}
