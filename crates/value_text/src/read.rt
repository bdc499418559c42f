// A text of values, read in steps: a leaf, an opened or closed constructor, a comma or an end of a line each.
// Open constructors are a list, so that nesting costs no stack.
ghost use Rattle.std.specs.Prelude.{◌≡◌, ◌↔◌, ℕ, suc, ◌+◌, ◌<◌, ◌≤◌, ◌^◌, length, drop, List, [], ◌∷◌, Some, None};
ghost use Rattle.std.specs.Prelude.{IfOk, IsTrue, OnOk, MatchOption, MatchResult, slice_get, FitsSigned, vec_len};
ghost use Rattle.std.specs.Int.{w64};
ghost use Rattle.fip_language.specs.declared.limits.TheConstants.{MOST_FIELDS};
ghost use Rattle.fip_language.specs.Values.{Values};
ghost use Rattle.fip_language.specs.Table.{Table, Shape, constructors};
ghost use Rattle.fip_language.specs.SoundTable.{IsSoundTable, AreTypes};
ghost use Rattle.value_text.specs.Loaded.{types_of};
ghost use Rattle.value_text.specs.Scan.{runs};
ghost use Rattle.value_text.specs.Reading.{pending, outline, outline_at, state_at, IsKnown, Spot, GoesOn, Stepped};
ghost use Rattle.value_text.specs.Reading.{spot_of, cost_of, IsNarrow, number_event, node_event, field_event};
ghost use Rattle.value_text.specs.Reading.{line_event};

use crate::room::{cut, push};
use crate::scan;
use fip_base::plain::Param;
use fip_base::table::{Constructor, TypeTable};
use std::alloc::{AllocError, Global};

/// A constructor whose `)` has not come.
#[derive(Clone, Copy)]
pub struct Frame<'a> {
    constructor: &'a Constructor,
    tag: u32,
    // how many of its fields have begun
    begun: u32,
}

/// Where the reader is.
#[derive(Drop)]
pub struct Cursor<'a> {
    pub(crate) at: usize,
    // the type of the value that comes next; none after a value
    pub(crate) next: Option<u32>,
    // the open constructors, the innermost last
    pub(crate) frames: Vec<Frame<'a>>,
    lines: &'a [Param],
}

/// What one step read.
#[derive(Clone, Copy)]
pub enum Event {
    Number(i64),
    /// A constructor without fields.
    Bare(u32),
    Opened,
    Comma,
    Closed { tag: u32, size: usize },
    Line,
}

/// Why a step read nothing.
#[derive(Clone, Copy)]
pub enum Refused {
    BadValue(usize),
    NoMemory,
}

impl From<AllocError> for Refused {
    ghost use Rattle.value_text.specs.declared.read.Refused.TheVariants.{NoMemory};

    ghost from_gives = { λ _ e. e ≡ NoMemory };

    fn from(_: AllocError) -> Refused {
        Refused::NoMemory
    }
}

// The first of a row of types, and the rest.
#[inline(always)]
pub fn split(types: &[u32]) -> Option<(u32, &[u32])>
    ensures { MatchOption result (types.now ≡ []) (λ r. types.now ≡ r.0 ∷ r.1.now) }
{
    match types.split_first() {
        Some((k, ks)) => Some((*k, ks)),
        None => None,
    }
}

// The first of the parameters' types, and the other parameters.
#[inline(always)]
fn split_lines(params: &[Param]) -> Option<(u32, &[Param])>
    ensures { MatchOption result (types_of params.now ≡ []) (λ r. types_of params.now ≡ r.0 ∷ types_of r.1.now) }
{
    match params.split_first() {
        Some((p, ps)) => Some((p.ty, ps)),
        None => None,
    }
}

// A frame becomes the innermost.
#[inline(always)]
fn push_frame<'a>(cursor: &mut Cursor<'a>, frame: Frame<'a>) -> Result<(), AllocError>
    ensures frames { OnOk result (outline cursor.new ≡ record (outline cursor.old) {
      frames =
          pending frame.entry ∷ (outline cursor.old).frames;
    }) }
{
    push(frame, &mut cursor.frames)?;
    Ok(())
}

// The constructor of this number.
#[inline(always)]
fn constructor_of<'a>(table: &'a TypeTable, ty: u32, tag: usize) -> &'a Constructor
    requires of_table { ty ≤ length table.now }
    requires there { (s : Shape) × (slice_get (constructors table.now ty) tag ≡ Some s) }
    ensures there { slice_get (constructors table.now ty) tag ≡ Some result.now }
    ensures few { tag < 2 ^ 32 }
{
    &table.constructors_of(ty)[tag]
}

// The type of a field, where the constructor has so many.
#[inline(always)]
fn field_at(constructor: &Constructor, begun: u32) -> Option<u32>
    ensures { MatchOption result (drop begun constructor.now.fields ≡ [])
        (λ k. drop begun constructor.now.fields ≡ k ∷ drop (suc begun) constructor.now.fields) }
{
    match constructor.fields().get(begun as usize) {
        Some(k) => Some(*k),
        None => None,
    }
}

// The frame when one more field has begun.
#[inline(always)]
fn one_further<'a>(frame: Frame<'a>) -> Frame<'a>
    ensures { (k : ℕ) (ks : List ℕ) → (pending frame.entry).size ≤ MOST_FIELDS →
        (pending frame.entry).rest ≡ k ∷ ks → pending result ≡ record (pending frame.entry) { rest = ks } }
{
    let begun = frame.begun.wrapping_add(1);
    Frame { begun, ..frame }
}

/// An int.
#[inline(always)]
pub fn read_int<'a>(bytes: &[u8], cursor: &mut Cursor<'a>) -> Result<i64, Refused>
    requires place { cursor.old.at ≤ length bytes.now }
    requires next { cursor.old.next ≡ Some 0 }
    ensures reads { (tb : Table) (s : Spot) → outline cursor.old ≡ outline_at s →
        Stepped tb bytes.now s cursor.old.at (number_event result) (outline cursor.new) cursor.new.at }
    ensures place { IfOk (number_event result) (λ e. MatchOption e ℕ (λ e. (cursor.old.at < cursor.new.at)
        × (cursor.old.at + cost_of e ≤ cursor.new.at) × (cursor.new.at ≤ length bytes.now))) }
    ensures fits { IfOk result (λ i. FitsSigned w64 i) }
    ensures known { (tb : Table) → IsKnown tb (outline cursor.old) →
        IfOk (number_event result) (λ e. IsKnown tb (outline cursor.new)) }
{
    match scan::int(bytes, cursor.at) {
        Ok((i, at)) => {
            cursor.at = at;
            cursor.next = None;
            Ok(i)
        }
        Err(at) => Err(Refused::BadValue(at)),
    }
}

/// The name of a constructor, and its `(` where it has fields; the number of one that has none.
#[inline(always)]
pub fn read_node<'a>(
    table: &'a TypeTable,
    ty: u32,
    bytes: &[u8],
    cursor: &mut Cursor<'a>,
) -> Result<Option<u32>, Refused>
    requires place { cursor.old.at ≤ length bytes.now }
    requires next { cursor.old.next ≡ Some ty }
    requires data { 0 < ty }
    requires of_table { ty ≤ length table.now }
    ensures reads { IsSoundTable table.now → (s : Spot) → outline cursor.old ≡ outline_at s →
        Stepped table.now bytes.now s cursor.old.at (node_event result) (outline cursor.new) cursor.new.at }
    ensures place { IfOk (node_event result) (λ e. MatchOption e ℕ (λ e. (cursor.old.at < cursor.new.at)
        × (cursor.old.at + cost_of e ≤ cursor.new.at) × (cursor.new.at ≤ length bytes.now))) }
    ensures known { IsSoundTable table.now → IsKnown table.now (outline cursor.old) →
        IfOk (node_event result) (λ e. IsKnown table.now (outline cursor.new)) }
{
    let (tag, following) = match scan::name(table, ty, bytes, cursor.at) {
        Ok(found) => found,
        Err(at) => return Err(Refused::BadValue(at)),
    };
    let constructor = constructor_of(table, ty, tag);
    match field_at(constructor, 0) {
        None => {
            cursor.at = following;
            cursor.next = None;
            Ok(Some(tag as u32))
        }
        Some(k) => match scan::sign(bytes, following, b'(') {
            Ok(at) => {
                let tag = tag as u32;
                let begun = 1;
                push_frame(
                    cursor,
                    Frame {
                        constructor,
                        tag,
                        begun,
                    },
                )?;
                cursor.at = at;
                cursor.next = Some(k);
                Ok(None)
            }
            Err(at) => Err(Refused::BadValue(at)),
        },
    }
}

/// The end of a line after a value; false where it was the last one, and the text ends.
#[inline(always)]
pub fn read_line<'a>(bytes: &[u8], cursor: &mut Cursor<'a>) -> Result<bool, Refused>
    requires place { cursor.old.at ≤ length bytes.now }
    requires next { cursor.old.next ≡ None }
    requires frames { (outline cursor.old).frames ≡ [] }
    ensures reads { (tb : Table) (s : Spot) → GoesOn s → outline cursor.old ≡ outline_at s →
        Stepped tb bytes.now s cursor.old.at (line_event result) (outline cursor.new) cursor.new.at }
    ensures place { IfOk (line_event result) (λ e. MatchOption e ℕ (λ e. (cursor.old.at < cursor.new.at)
        × (cursor.old.at + cost_of e ≤ cursor.new.at) × (cursor.new.at ≤ length bytes.now))) }
    ensures known { (tb : Table) → IsKnown tb (outline cursor.old) →
        IfOk (line_event result) (λ e. IsKnown tb (outline cursor.new)) }
{
    match split_lines(cursor.lines) {
        None => match scan::end_of_text(bytes, cursor.at) {
            Ok(()) => Ok(false),
            Err(at) => Err(Refused::BadValue(at)),
        },
        Some((k, lines)) => match scan::sign(bytes, cursor.at, b'\n') {
            Ok(at) => {
                cursor.at = at;
                cursor.next = Some(k);
                cursor.lines = lines;
                Ok(true)
            }
            Err(at) => Err(Refused::BadValue(at)),
        },
    }
}

/// The `,` after a field of the innermost open constructor, or the `)` after its last one; the number of a
/// constructor that is closed, and the number of its fields.
#[inline(always)]
pub fn read_field<'a>(
    bytes: &[u8],
    cursor: &mut Cursor<'a>,
) -> Result<Option<(u32, usize)>, Refused>
    requires place { cursor.old.at ≤ length bytes.now }
    requires next { cursor.old.next ≡ None }
    requires open { 0 < vec_len cursor.old.frames }
    ensures reads { (tb : Table) → IsKnown tb (outline cursor.old) → (s : Spot) → outline cursor.old ≡ outline_at s →
        Stepped tb bytes.now s cursor.old.at (field_event result) (outline cursor.new) cursor.new.at }
    ensures place { IfOk (field_event result) (λ e. MatchOption e ℕ (λ e. (cursor.old.at < cursor.new.at)
        × (cursor.old.at + cost_of e ≤ cursor.new.at) × (cursor.new.at ≤ length bytes.now))) }
    ensures narrow { (tb : Table) → IsKnown tb (outline cursor.old) →
        IfOk (field_event result) (λ e. MatchOption e ℕ IsNarrow) }
    ensures known { (tb : Table) → IsKnown tb (outline cursor.old) →
        IfOk (field_event result) (λ e. IsKnown tb (outline cursor.new)) }
{
    let top = cursor.frames.len() - 1;
    let frame = cursor.frames[top];
    match field_at(frame.constructor, frame.begun) {
        None => match scan::sign(bytes, cursor.at, b')') {
            Ok(at) => {
                cut(&mut cursor.frames, top);
                cursor.at = at;
                Ok(Some((frame.tag, frame.constructor.fields().len())))
            }
            Err(at) => Err(Refused::BadValue(at)),
        },
        Some(k) => match scan::sign(bytes, cursor.at, b',') {
            Ok(at) => {
                cursor.frames[top] = one_further(frame);
                cursor.at = at;
                cursor.next = Some(k);
                Ok(None)
            }
            Err(at) => Err(Refused::BadValue(at)),
        },
    }
}

// The step of an event.
fn number_step(read: Result<i64, Refused>) -> Result<Option<Event>, Refused>
    ensures { result ≡ number_event read }
{
    match read {
        Ok(i) => Ok(Some(Event::Number(i))),
        Err(e) => Err(e),
    }
}

fn node_step(read: Result<Option<u32>, Refused>) -> Result<Option<Event>, Refused>
    ensures { result ≡ node_event read }
{
    match read {
        Ok(Some(tag)) => Ok(Some(Event::Bare(tag))),
        Ok(None) => Ok(Some(Event::Opened)),
        Err(e) => Err(e),
    }
}

fn field_step(read: Result<Option<(u32, usize)>, Refused>) -> Result<Option<Event>, Refused>
    ensures { result ≡ field_event read }
{
    match read {
        Ok(Some((tag, size))) => Ok(Some(Event::Closed { tag, size })),
        Ok(None) => Ok(Some(Event::Comma)),
        Err(e) => Err(e),
    }
}

fn line_step(read: Result<bool, Refused>) -> Result<Option<Event>, Refused>
    ensures { result ≡ line_event read }
{
    match read {
        Ok(true) => Ok(Some(Event::Line)),
        Ok(false) => Ok(None),
        Err(e) => Err(e),
    }
}

/// One step; none after the last value, where only blanks and ends of lines come.
pub fn step<'a>(
    table: &'a TypeTable,
    bytes: &[u8],
    cursor: &mut Cursor<'a>,
) -> Result<Option<Event>, Refused>
    requires place { cursor.old.at ≤ length bytes.now }
    ensures reads { IsSoundTable table.now → IsKnown table.now (outline cursor.old) → (s : Spot) → GoesOn s →
        outline cursor.old ≡ outline_at s →
        Stepped table.now bytes.now s cursor.old.at result (outline cursor.new) cursor.new.at }
    ensures place { IfOk result (λ e. MatchOption e ℕ (λ e. (cursor.old.at < cursor.new.at)
        × (cursor.old.at + cost_of e ≤ cursor.new.at) × (cursor.new.at ≤ length bytes.now))) }
    ensures narrow { IsKnown table.now (outline cursor.old) → IfOk result (λ e. MatchOption e ℕ IsNarrow) }
    ensures known { IsSoundTable table.now → IsKnown table.now (outline cursor.old) →
        IfOk result (λ e. IsKnown table.now (outline cursor.new)) }
{
    match cursor.next {
        Some(ty) => {
            if ty == 0 {
                number_step(read_int(bytes, cursor))
            } else if ty as usize <= table.len() {
                node_step(read_node(table, ty, bytes, cursor))
            } else {
                Err(Refused::BadValue(cursor.at))
            }
        }
        None => {
            if cursor.frames.is_empty() {
                line_step(read_line(bytes, cursor))
            } else {
                field_step(read_field(bytes, cursor))
            }
        }
    }
}

/// The reader before the first value.
#[inline(always)]
pub fn begin<'a>(alloc: Global, params: &'a [Param]) -> Cursor<'a>
    ensures at { result.at ≡ 0 }
    ensures starts { outline result ≡ outline_at (spot_of (types_of params.now)) }
{
    let frames = Vec::new(alloc);
    match split_lines(params) {
        Some((k, lines)) => Cursor {
            at: 0,
            next: Some(k),
            frames,
            lines,
        },
        None => Cursor {
            at: 0,
            next: None,
            frames,
            lines: params,
        },
    }
}

/// The reader before a value of a type, at a place.
pub fn begin_value<'a>(alloc: Global, ty: u32, at: usize) -> Cursor<'a>
    ensures at { result.at ≡ at }
    ensures starts { outline result ≡ outline_at (spot_of (ty ∷ [])) }
{
    Cursor {
        at,
        next: Some(ty),
        frames: Vec::new(alloc),
        lines: &[],
    }
}

/// Whether the last value is read whole.
pub fn is_whole(cursor: &Cursor) -> bool
    ensures { IsTrue result ↔ (((outline cursor.now).next ≡ None) × ((outline cursor.now).frames ≡ [])) }
{
    match cursor.next {
        Some(_) => false,
        None => cursor.frames.is_empty(),
    }
}

/// The place after what was read.
pub fn place_of(cursor: &Cursor) -> usize
    ensures { result ≡ cursor.now.at }
{
    cursor.at
}
