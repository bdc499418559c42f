// Reading all that a source has, and writing all of some bytes to a sink.
ghost use Rattle.std.specs.Prelude.{◌≡◌, ◌+◌, ◌≤◌, length, Err, IfOk, OnOk, OnErr};
ghost use Rattle.std.specs.Io.KnownBytes.{Appends, Consumes, IsAtEnd};
ghost use Rattle.fip_outside.specs.Faults.{Rose};
ghost use Rattle.fip_outside.specs.Takes.{Takes, TakesAtMost, WritesPrefix};

use crate::outside::{Sink, Source};
use std::alloc::{AllocError, Global};
use thiserror::Error;

// How many bytes are asked for in one turn.
const TURN: usize = 4096;

/// Why not all was read.
#[derive(Clone, Copy, Debug, PartialEq, Eq, Error)]
pub enum ReadError {
    /// The source failed.
    #[error("the input could not be read")]
    Fault,
    /// There are more bytes than were allowed.
    #[error("the input is too long")]
    TooLong,
    /// There was no memory for the bytes.
    #[error("out of memory")]
    NoMemory,
}

impl From<AllocError> for ReadError {
    ghost use Rattle.fip_outside.specs.declared.all.ReadError.TheVariants.{NoMemory};

    ghost from_gives = { λ _ e. e ≡ NoMemory };

    fn from(_: AllocError) -> ReadError {
        ReadError::NoMemory
    }
}

/// The sink failed before all was written.
#[derive(Clone, Copy, Debug, PartialEq, Eq, Error)]
#[error("the output could not be written")]
pub struct WriteFault;

/// Reads up to the end of a source that may have `limit` bytes. It takes at least one byte a turn, and
/// at most `limit + 1` bytes in all.
///
/// Fault: the count of faults rose before more than `limit` bytes came. TooLong: `limit + 1` bytes came.
/// NoMemory: there was no room for the bytes that came.
pub fn read_all<S: Source>(
    alloc: Global,
    source: &mut S,
    limit: usize,
) -> Result<Vec<u8>, ReadError>
    ensures all { IfOk result (λ v. Consumes (S.left source.old) (S.left source.new) v.items) }
    ensures end { OnOk result (IsAtEnd (S.left source.new)) }
    ensures within { IfOk result (λ v. length v.items ≤ limit) }
    ensures fault { result ≡ Err ReadError.Fault → Rose (S.faults source.old) (S.faults source.new) }
    ensures before { result ≡ Err ReadError.Fault → TakesAtMost (S.left source.old) (S.left source.new) limit }
    ensures long { result ≡ Err ReadError.TooLong → Takes (S.left source.old) (S.left source.new) (limit + 1) }
    ensures memory { result ≡ Err ReadError.NoMemory → TakesAtMost (S.left source.old) (S.left source.new) limit }
    ensures later { S.faults source.old ≤ S.faults source.new }
{
    let mut buffer = [0; TURN];
    let mut bytes = Vec::new(alloc);
    loop {
        let room = limit - bytes.len();
        let turn = TURN.min(room.saturating_add(1));
        let Ok(count) = source.read(&mut buffer[..turn]) else {
            return Err(ReadError::Fault);
        };
        if count == 0 {
            return Ok(bytes);
        }
        if count > room {
            return Err(ReadError::TooLong);
        }
        bytes.extend_from_slice(&buffer[..count])?;
    }
}

/// Writes all of `bytes` to a sink. It takes no memory.
///
/// WriteFault: the count of faults rose, and a front part of the bytes was written.
pub fn write_all<O: Sink>(sink: &mut O, bytes: &[u8]) -> Result<(), WriteFault>
    ensures all { OnOk result (Appends (O.written sink.old) (O.written sink.new) bytes.now) }
    ensures prefix { OnErr result (WritesPrefix (O.written sink.old) (O.written sink.new) bytes.now) }
    ensures fault { OnErr result (Rose (O.faults sink.old) (O.faults sink.new)) }
    ensures later { O.faults sink.old ≤ O.faults sink.new }
{
    let mut start = 0;
    while start < bytes.len() {
        let Ok(count) = sink.write(&bytes[start..]) else {
            return Err(WriteFault);
        };
        start += count;
    }
    Ok(())
}
