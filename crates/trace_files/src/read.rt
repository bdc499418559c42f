// Reading a trace.
ghost use Rattle.std.specs.Prelude.{◌≡◌, ◌≢◌, ◌<◌, ◌≤◌, ℕ, List, [], length, map, slice_get, Err, IfOk, IfSome, IfNone};
ghost use Rattle.std.specs.Prelude.{MatchOption, None, Some};
ghost use Rattle.cell_trace.specs.declared.trace.LoadedCell.{LoadedCell as a_cell};
ghost use Rattle.run_loading.specs.TraceReading as S;
ghost use Rattle.run_loading.specs.TraceText.{IsTrace, Loaded, left_by, size_at};
ghost use Rattle.cell_trace.specs.declared.error.ReadTraceError.TheVariants.{BadTrace};
ghost use Rattle.trace_files.specs.Lines.{place_of as change_place};
ghost use Rattle.trace_files.specs.Plain.{plain_cell, plain_event, plain_trace};
ghost use Rattle.trace_files.specs.Reading.{Reads, ReadsAll, cells_of, events_of, AreRising, left, IsLive, trace_with};

use crate::reader::Reader;
use cell_trace::{Event, LoadedCell, ReadTraceError, Trace};
use fip_language::limits::MOST_FIELDS;
use std::alloc::Global;

// The bytes with which a trace begins: its magic and its version.
const HEAD: &[u8] = b"FP2T\x00\x01";

// The operation of an event that releases a cell; that of one that gives a cell its words is 0.
const RELEASE: u8 = 1;

/// The trace that the bytes encode. BadTrace with the least place at which they go wrong. Memory grows with the bytes
/// that are read.
pub fn read_trace(alloc: Global, bytes: &[u8]) -> Result<Trace, ReadTraceError>
    ensures got { IfOk result (λ t. (end : ℕ) × (S.read_trace bytes.now ≡ S.Got (plain_trace t) end [])) }
    ensures trace { IfOk result (λ t. IsTrace (plain_trace t)) }
    ensures bad { (at : ℕ) → result ≡ Err (BadTrace at) → S.read_trace bytes.now ≡ S.Bad at }
{
    whole(alloc, bytes)
}

// The same, by one clause.
fn whole(alloc: Global, bytes: &[u8]) -> Result<Trace, ReadTraceError>
    ensures reads { ReadsAll plain_trace result (S.read_trace bytes.now) }
{
    let mut reader = Reader::new(bytes);
    reader.exactly(HEAD)?;
    let cells = read_cells(alloc, &mut reader)?;
    let events = read_events(alloc, &mut reader, cells.as_slice())?;
    let steps = read_steps(&mut reader, events.as_slice())?;
    Ok(Trace {
        cells,
        events,
        steps,
    })
}

// The number of steps, and the end.
fn read_steps(reader: &mut Reader<'_>, events: &[Event]) -> Result<u64, ReadTraceError>
    ensures reads { (cells : List Loaded) → ReadsAll (trace_with cells (map plain_event events.now)) result
        (S.read_steps cells (map plain_event events.now) reader.old.at reader.old.rest) }
{
    let at = reader.at();
    let steps = reader.u64()?;
    if steps < last_step(events) {
        return Err(ReadTraceError::BadTrace { at });
    }
    reader.end()?;
    Ok(steps)
}

// The step of the last event.
fn last_step(events: &[Event]) -> u64
    ensures is { result ≡ S.last_step (map plain_event events.now) }
{
    match events.last() {
        None => 0,
        Some(event) => step_of(event),
    }
}

/// The step of an event.
pub fn step_of(event: &Event) -> u64
    ensures is { result ≡ (plain_event event.now).step }
{
    match event {
        Event::Put { step, .. } | Event::Release { step, .. } => *step,
    }
}

/// The place of an event's cell.
pub fn place_of(event: &Event) -> u32
    ensures is { result ≡ change_place (plain_event event.now).change }
{
    match event {
        Event::Put { place, .. } | Event::Release { place, .. } => *place,
    }
}

fn read_cells(alloc: Global, reader: &mut Reader<'_>) -> Result<Vec<LoadedCell>, ReadTraceError>
    ensures reads { Reads cells_of result reader.new (S.then_read (S.read_number 4 0 reader.old.at reader.old.rest)
        (λ n at rest. S.read_cells n 0 at rest)) }
    ensures rising { IfOk result (λ v. AreRising 0 (cells_of v)) }
{
    let count = reader.u32()?;
    let mut cells: Vec<LoadedCell> = Vec::new(alloc);
    let mut least: u64 = 0;
    for i in 0..count {
        let cell = read_cell(alloc, reader, least)?;
        least = u64::from(cell.place) + 1;
        cells.push(cell)?;
    }
    Ok(cells)
}

// A cell at this place or later.
fn read_cell(
    alloc: Global,
    reader: &mut Reader<'_>,
    least: u64,
) -> Result<LoadedCell, ReadTraceError>
    ensures reads { Reads plain_cell result reader.new (S.read_cell least reader.old.at reader.old.rest) }
    ensures above { IfOk result (λ c. least ≤ c.place) }
{
    let start = reader.at();
    let place = reader.u32()?;
    if u64::from(place) < least {
        return Err(ReadTraceError::BadTrace { at: start });
    }
    let tag = reader.u32()?;
    let size = reader.u8()? as usize;
    if !is_size(size) {
        return Err(ReadTraceError::BadTrace { at: start });
    }
    let fields = reader.words(alloc, size)?;
    Ok(LoadedCell { place, tag, fields })
}

// How many fields a cell may have.
fn is_size(size: usize) -> bool
    ensures is { result ≡ S.is_size size }
{
    1 <= size && size <= MOST_FIELDS
}

fn read_events(
    alloc: Global,
    reader: &mut Reader<'_>,
    cells: &[LoadedCell],
) -> Result<Vec<Event>, ReadTraceError>
    requires rising { AreRising 0 (map plain_cell cells.now) }
    ensures reads { Reads events_of result reader.new (S.then_read (S.read_number 4 0 reader.old.at reader.old.rest)
        (λ n at rest. S.read_events n (map plain_cell cells.now) 1 at rest)) }
{
    let count = reader.u32()?;
    let mut events: Vec<Event> = Vec::new(alloc);
    let mut released = Vec::from_elem(alloc, false, cells.len())?;
    let mut least: u64 = 1;
    for i in 0..count {
        let event = read_event(alloc, reader, cells, &mut released, least)?;
        least = step_of(&event);
        events.push(event)?;
    }
    Ok(events)
}

// An event of this step or a later one, at a cell that isn't released.
fn read_event(
    alloc: Global,
    reader: &mut Reader<'_>,
    cells: &[LoadedCell],
    released: &mut Vec<bool>,
    least: u64,
) -> Result<Event, ReadTraceError>
    requires rising { AreRising 0 (map plain_cell cells.now) }
    requires all { length released.old.items ≡ length cells.now }
    ensures reads { Reads plain_event result reader.new
        (S.read_event (left (map plain_cell cells.now) released.old.items) least reader.old.at reader.old.rest) }
    ensures left { IfOk result (λ e. left (map plain_cell cells.now) released.new.items
        ≡ left_by (plain_event e).change (left (map plain_cell cells.now) released.old.items)) }
    ensures all { length released.new.items ≡ length cells.now }
{
    let start = reader.at();
    let step = reader.u64()?;
    if step < least {
        return Err(ReadTraceError::BadTrace { at: start });
    }
    let at = reader.at();
    let op = reader.u8()?;
    if RELEASE < op {
        return Err(ReadTraceError::BadTrace { at });
    }
    let place = reader.u32()?;
    match live_number(cells, released.as_slice(), place) {
        None => Err(ReadTraceError::BadTrace { at: start }),
        Some(number) => {
            if op == RELEASE {
                released[number] = true;
                return Ok(Event::Release { step, place });
            }
            put_event(alloc, reader, size_of(cells, number), step, place)
        }
    }
}

// An event that gives a cell of so many fields its constructor and words.
fn put_event(
    alloc: Global,
    reader: &mut Reader<'_>,
    size: usize,
    step: u64,
    place: u32,
) -> Result<Event, ReadTraceError>
    ensures reads { Reads plain_event result reader.new (S.read_write step place size reader.old.at reader.old.rest) }
{
    let tag = reader.u32()?;
    let fields = reader.words(alloc, size)?;
    Ok(Event::Put {
        step,
        place,
        tag,
        fields,
    })
}

// How many fields a cell has.
fn size_of(cells: &[LoadedCell], number: usize) -> usize
    requires within { number < length cells.now }
    ensures is { (c : a_cell) → slice_get cells.now number ≡ Some c → result ≡ length c.fields.items }
{
    cells[number].fields.len()
}

// The number of the cell at a place, where there is one that isn't released.
fn live_number(cells: &[LoadedCell], released: &[bool], place: u32) -> Option<usize>
    requires rising { AreRising 0 (map plain_cell cells.now) }
    requires all { length released.now ≡ length cells.now }
    ensures live { MatchOption result
        (size_at place (left (map plain_cell cells.now) released.now) ≡ None)
        (λ k. IsLive (map plain_cell cells.now) released.now place k) }
{
    match number_of(cells, place) {
        None => None,
        Some(number) => { if released[number] { None } else { Some(number) } }
    }
}

/// The number of the cell at a place; none where there is none.
pub fn number_of(cells: &[LoadedCell], place: u32) -> Option<usize>
    ensures found { IfSome result (λ k. (c : a_cell) × (slice_get cells.now k ≡ Some c) × (c.place ≡ place)) }
    ensures none { AreRising 0 (map plain_cell cells.now) →
        IfNone result ((k : ℕ) (c : a_cell) → slice_get cells.now k ≡ Some c → c.place ≢ place) }
{
    let mut low = 0;
    let mut high = cells.len();
    while low < high {
        let middle = low + (high - low) / 2;
        let at = cells[middle].place;
        if at == place {
            return Some(middle);
        }
        if at < place {
            low = middle + 1;
        } else {
            high = middle;
        }
    }
    None
}
