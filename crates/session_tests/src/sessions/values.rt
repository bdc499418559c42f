// Drawn values, as they are written in a line.

use crate::sessions::draws::Draws;
use fip_base::plain::NoMemory;
use fip_base::table::{Constructor, TypeTable};
use std::alloc::Global;

// The most parts of a value; and those from which on it is ended with the first constructor of each type.
const MOST_PARTS: usize = 60_000;

const FEW_PARTS: usize = 40;

const MANY_PARTS: usize = 10_000;

// What is still to be written of a value: a value of a type, or a sign.
#[derive(Clone, Copy)]
enum Part {
    Value(u32),
    Sign(&'static [u8]),
}

/// The constructors of a type; none where the table has no such type.
pub fn constructors_of(table: &TypeTable, ty: u32) -> &[Constructor] {
    if ty as usize > table.len() {
        return &[];
    }
    table.constructors_of(ty)
}

// An int: a small one mostly, sometimes one with which a sum overflows.
fn put_int(alloc: Global, draws: &mut Draws, out: &mut Vec<u8>) -> Result<(), NoMemory> {
    match draws.below(16) {
        0 => out.extend_from_slice(b"9223372036854775807")?,
        1 => out.extend_from_slice(b"-7")?,
        2 => out.extend_from_slice(b"0")?,
        _ => {
            let number = draws.below(1000);
            out.extend_from_slice(format!(in alloc; "{number}")?.as_bytes())?;
        }
    }
    Ok(())
}

// The fields wait, the first one on top, with their commas and the closing bracket.
fn put_fields(fields: &[u32], waits: &mut Vec<Part>) -> Result<(), NoMemory> {
    let count = fields.len();
    waits.push(Part::Sign(b")"))?;
    for i in 0..count {
        if i > 0 {
            waits.push(Part::Sign(b", "))?;
        }
        waits.push(Part::Value(fields[count - 1 - i]))?;
    }
    waits.push(Part::Sign(b"("))?;
    Ok(())
}

// One of so many constructors: the later ones more often.
fn drawn_constructor(count: usize, draws: &mut Draws) -> usize {
    draws
        .below(count.saturating_add(2))
        .min(count.saturating_sub(1))
}

// A constructor of a type; its fields wait.
fn put_constructor(
    constructors: &[Constructor],
    number: usize,
    waits: &mut Vec<Part>,
    out: &mut Vec<u8>,
) -> Result<(), NoMemory> {
    let Some(chosen) = constructors.get(number) else {
        return Ok(());
    };
    out.extend_from_slice(chosen.name())?;
    if !chosen.fields().is_empty() {
        put_fields(chosen.fields(), waits)?;
    }
    Ok(())
}

// The number of the constructor with which a value goes on: the last one where it is to be long.
fn next_constructor(count: usize, is_to_end: bool, is_long: bool, draws: &mut Draws) -> usize {
    if is_to_end {
        0
    } else if is_long {
        count.saturating_sub(1)
    } else {
        drawn_constructor(count, draws)
    }
}

/// Writes a drawn value of a type.
pub fn put_value(
    alloc: Global,
    table: &TypeTable,
    ty: u32,
    draws: &mut Draws,
    out: &mut Vec<u8>,
) -> Result<(), NoMemory> {
    let is_long = draws.is_long();
    let enough = if is_long { MANY_PARTS } else { FEW_PARTS };
    let mut waits = Vec::new(alloc);
    waits.push(Part::Value(ty))?;
    for turn in 0..MOST_PARTS {
        match waits.pop() {
            None => break,
            Some(Part::Sign(sign)) => out.extend_from_slice(sign)?,
            Some(Part::Value(0)) => put_int(alloc, draws, out)?,
            Some(Part::Value(ty)) => {
                let constructors = constructors_of(table, ty);
                let number = next_constructor(constructors.len(), turn > enough, is_long, draws);
                put_constructor(constructors, number, &mut waits, out)?;
            }
        }
    }
    Ok(())
}
