// Writing a trace.
ghost use Rattle.std.specs.Prelude.{◌≡◌, ◌∷◌, [], ◌++◌, length, map, IfOk};
ghost use Rattle.run_loading.specs.TraceText.{big_endian, words_text, cell_text, cells_text, events_text, trace_text};
ghost use Rattle.trace_files.specs.Plain.{plain_cell, plain_event, plain_trace};

use cell_trace::{Event, LoadedCell, Trace};
use fip_base::plain::NoMemory;
use std::alloc::Global;

// The bytes with which a trace begins: its magic and its version.
const HEAD: &[u8] = b"FP2T\x00\x01";

// The operation of an event that gives a cell its words.
const PUT: u8 = 0;

// The operation of an event that releases a cell.
const RELEASE: u8 = 1;

/// The file of a trace. An error where no memory is left.
pub fn write_trace(alloc: Global, trace: &Trace) -> Result<Vec<u8>, NoMemory>
    ensures text { IfOk result (λ v. v.items ≡ trace_text (plain_trace trace.now)) }
{
    let mut text = Vec::new(alloc);
    text.extend_from_slice(HEAD)?;
    put_count(&mut text, trace.cells.len())?;
    put_cells(&mut text, trace.cells.as_slice())?;
    put_count(&mut text, trace.events.len())?;
    put_events(&mut text, trace.events.as_slice())?;
    put_u64(&mut text, trace.steps)?;
    Ok(text)
}

fn put_u32(text: &mut Vec<u8>, number: u32) -> Result<(), NoMemory>
    ensures text { IfOk result (λ _. text.new.items ≡ text.old.items ++ big_endian 4 number) }
{
    text.extend_from_slice(&number.to_be_bytes())?;
    Ok(())
}

fn put_u64(text: &mut Vec<u8>, number: u64) -> Result<(), NoMemory>
    ensures text { IfOk result (λ _. text.new.items ≡ text.old.items ++ big_endian 8 number) }
{
    text.extend_from_slice(&number.to_be_bytes())?;
    Ok(())
}

// A count, which never is more than 32 bits can hold.
fn put_count(text: &mut Vec<u8>, count: usize) -> Result<(), NoMemory>
    ensures text { IfOk result (λ _. text.new.items ≡ text.old.items ++ big_endian 4 count) }
{
    put_u32(text, (count % 4_294_967_296) as u32)?;
    Ok(())
}

fn put_words(text: &mut Vec<u8>, words: &[u64]) -> Result<(), NoMemory>
    ensures text { IfOk result (λ _. text.new.items ≡ text.old.items ++ words_text words.now) }
{
    for i in 0..words.len() {
        put_u64(text, words[i])?;
    }
    Ok(())
}

// A cell; it has at most 16 fields.
fn put_cell(text: &mut Vec<u8>, cell: &LoadedCell) -> Result<(), NoMemory>
    ensures text { IfOk result (λ _. text.new.items ≡ text.old.items ++ cell_text (plain_cell cell.now)) }
{
    put_u32(text, cell.place)?;
    put_u32(text, cell.tag)?;
    text.push((cell.fields.len() % 256) as u8)?;
    put_words(text, cell.fields.as_slice())?;
    Ok(())
}

fn put_cells(text: &mut Vec<u8>, cells: &[LoadedCell]) -> Result<(), NoMemory>
    ensures text { IfOk result (λ _. text.new.items ≡ text.old.items ++ cells_text (map plain_cell cells.now)) }
{
    for i in 0..cells.len() {
        put_cell(text, &cells[i])?;
    }
    Ok(())
}

fn put_event(text: &mut Vec<u8>, event: &Event) -> Result<(), NoMemory>
    ensures text { IfOk result (λ _. text.new.items ≡ text.old.items ++ events_text (plain_event event.now ∷ [])) }
{
    match event {
        Event::Put {
            step,
            place,
            tag,
            fields,
        } => {
            put_u64(text, *step)?;
            text.push(PUT)?;
            put_u32(text, *place)?;
            put_u32(text, *tag)?;
            put_words(text, fields.as_slice())
        }
        Event::Release { step, place } => {
            put_u64(text, *step)?;
            text.push(RELEASE)?;
            put_u32(text, *place)
        }
    }
}

fn put_events(text: &mut Vec<u8>, events: &[Event]) -> Result<(), NoMemory>
    ensures text { IfOk result (λ _. text.new.items ≡ text.old.items ++ events_text (map plain_event events.now)) }
{
    for i in 0..events.len() {
        put_event(text, &events[i])?;
    }
    Ok(())
}
