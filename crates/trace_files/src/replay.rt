// The cells after so many steps.
ghost use Rattle.std.specs.Prelude.{◌≡◌, ◌++◌, ℕ, Option, length, map, slice_get, OnOk, IfOk, Some, None};
ghost use Rattle.std.specs.Fmt.{decimal};
ghost use Rattle.run_loading.specs.TraceText.{IsTrace};
ghost use Rattle.run_loading.specs.Replaying.{replayed, live_line, free_line};
ghost use Rattle.cell_trace.specs.declared.trace.LoadedCell.{LoadedCell as a_cell};
ghost use Rattle.trace_files.specs.Plain.{plain_cell, plain_event, plain_trace};
ghost use Rattle.trace_files.specs.Reading.{AreRising};
ghost use Rattle.trace_files.specs.Lines.{IsMarked, event_line, latest, lines_by, numbered, reported_line};
ghost use Rattle.trace_files.specs.Lines.{words_line};

use crate::read::{number_of, place_of, step_of};
use cell_trace::{Event, LoadedCell, Trace};
use fip_base::plain::NoMemory;
use itoa::Buffer;
use std::alloc::Global;

/// A line for each cell in order of place, as it is after so many steps, or after the last: `cell 0: tag 1 fields 2 0`,
/// or `free 0` where it is released. Words are unsigned decimals. An error where no memory is left.
pub fn cells_after(alloc: Global, trace: &Trace, step: u64) -> Result<Vec<u8>, NoMemory>
    ensures lines { IsTrace (plain_trace trace.now) →
        IfOk result (λ v. v.items ≡ replayed (plain_trace trace.now) step) }
{
    let last = last_events(alloc, trace.cells.as_slice(), trace.events.as_slice(), step)?;
    let mut text = Vec::new(alloc);
    let cells = trace.cells.as_slice();
    put_cells(&mut text, cells, trace.events.as_slice(), last.as_slice())?;
    Ok(text)
}

// For each cell the number of the last event at it up to the step.
fn last_events(
    alloc: Global,
    cells: &[LoadedCell],
    events: &[Event],
    step: u64,
) -> Result<Vec<Option<usize>>, NoMemory>
    ensures all { IfOk result (λ v. length v.items ≡ length cells.now) }
    ensures last { AreRising 0 (map plain_cell cells.now) → IfOk result (λ v. (k : ℕ) (c : a_cell) (o : Option ℕ) →
        slice_get cells.now k ≡ Some c → slice_get v.items k ≡ Some o →
        numbered (map plain_event events.now) o ≡ latest c.place step (map plain_event events.now) None) }
{
    let mut last = Vec::from_elem(alloc, None, cells.len())?;
    for number in 0..events.len() {
        mark(&mut last, cells, &events[number], number, step);
    }
    Ok(last)
}

// The event of a number is the last one of its cell, where it isn't after the step.
fn mark(
    last: &mut Vec<Option<usize>>,
    cells: &[LoadedCell],
    event: &Event,
    number: usize,
    step: u64,
)
    requires all { length last.old.items ≡ length cells.now }
    ensures all { length last.new.items ≡ length cells.now }
    ensures reported { AreRising 0 (map plain_cell cells.now) → (k : ℕ) (c : a_cell) (o : Option ℕ) →
        slice_get cells.now k ≡ Some c → slice_get last.new.items k ≡ Some o →
        IsMarked (plain_event event.now) number step c.place (slice_get last.old.items k) o }
{
    if step < step_of(event) {
        return;
    }
    match number_of(cells, place_of(event)) {
        None => {}
        Some(cell) => {
            last[cell] = Some(number);
        }
    }
}

// The lines of cells of which these were the last events.
fn put_cells(
    text: &mut Vec<u8>,
    cells: &[LoadedCell],
    events: &[Event],
    last: &[Option<usize>],
) -> Result<(), NoMemory>
    requires all { length last.now ≡ length cells.now }
    ensures lines { OnOk result (text.new.items
        ≡ text.old.items ++ lines_by (map plain_event events.now) (map plain_cell cells.now) last.now) }
{
    for number in 0..cells.len() {
        put_cell(text, &cells[number], events, last[number])?;
    }
    Ok(())
}

// The line of a cell of which this was the last event.
fn put_cell(
    text: &mut Vec<u8>,
    cell: &LoadedCell,
    events: &[Event],
    last: Option<usize>,
) -> Result<(), NoMemory>
    ensures line { OnOk result (text.new.items
        ≡ text.old.items ++ reported_line (plain_cell cell.now) (numbered (map plain_event events.now) last)) }
{
    match last {
        None => put_live(text, cell.place, cell.tag, cell.fields.as_slice()),
        Some(number) => match events.get(number) {
            None => put_live(text, cell.place, cell.tag, cell.fields.as_slice()),
            Some(event) => put_event(text, cell.place, event),
        },
    }
}

// The line of the cell at a place, after this event.
fn put_event(text: &mut Vec<u8>, place: u32, event: &Event) -> Result<(), NoMemory>
    ensures line { OnOk result (text.new.items ≡ text.old.items ++ event_line place (plain_event event.now)) }
{
    match event {
        Event::Put { tag, fields, .. } => put_live(text, place, *tag, fields.as_slice()),
        Event::Release { .. } => put_free(text, place),
    }
}

fn put_free(text: &mut Vec<u8>, place: u32) -> Result<(), NoMemory>
    ensures line { OnOk result (text.new.items ≡ text.old.items ++ free_line place) }
{
    text.extend_from_slice(b"free ")?;
    put_number(text, u64::from(place))?;
    text.push(b'\n')?;
    Ok(())
}

fn put_live(text: &mut Vec<u8>, place: u32, tag: u32, fields: &[u64]) -> Result<(), NoMemory>
    ensures line { OnOk result (text.new.items
        ≡ text.old.items ++ live_line place (record { tag = tag; fields = fields.now })) }
{
    text.extend_from_slice(b"cell ")?;
    put_number(text, u64::from(place))?;
    text.extend_from_slice(b": tag ")?;
    put_number(text, u64::from(tag))?;
    text.extend_from_slice(b" fields")?;
    put_words(text, fields)?;
    text.push(b'\n')?;
    Ok(())
}

// The words, each after a space.
fn put_words(text: &mut Vec<u8>, words: &[u64]) -> Result<(), NoMemory>
    ensures words { OnOk result (text.new.items ≡ text.old.items ++ words_line words.now) }
{
    for word in words {
        text.push(b' ')?;
        put_number(text, *word)?;
    }
    Ok(())
}

fn put_number(text: &mut Vec<u8>, number: u64) -> Result<(), NoMemory>
    ensures number { OnOk result (text.new.items ≡ text.old.items ++ decimal number) }
{
    let mut buffer = Buffer::new();
    text.extend_from_slice(buffer.format(number).as_bytes())?;
    Ok(())
}
