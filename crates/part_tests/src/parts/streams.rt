// Streams in memory that are read and written whole.

use fip_outside::all::{ReadError, read_all, write_all};
use fip_outside::memory::{MemSink, MemSource};
use std::alloc::{AllocError, Global};
use std::test::Fail;

// What reading `hello` gives in pieces of one byte, and the bytes left.
fn read_hello(
    alloc: Global,
    limit: usize,
    fails: &[u64],
) -> Result<(Result<Vec<u8>, ReadError>, usize), AllocError> {
    let bytes = Vec::from_slice(alloc, b"hello")?;
    let pieces = Vec::from_slice(alloc, &[1; 8])?;
    let mut source = MemSource::new(bytes, pieces, Vec::from_slice(alloc, fails)?);
    let answer = read_all(alloc, &mut source, limit);
    Ok((answer, source.bytes().len()))
}

#[test]
fn all_is_read_in_pieces_of_one_byte(rt: HostRuntime) -> Result<(), Fail> {
    for limit in [5, 6, usize::MAX] {
        let (answer, left) = read_hello(rt.alloc(), limit, &[])?;
        assert_eq!(rt; answer?.as_slice(), b"hello".as_slice());
        assert_eq!(rt; left, 0);
    }
    Ok(())
}

#[test]
fn more_than_the_limit_is_too_long_before_a_later_fault(rt: HostRuntime) -> Result<(), Fail> {
    for (limit, rest) in [(0, 4), (1, 3), (4, 0)] {
        let (answer, left) = read_hello(rt.alloc(), limit, &[6])?;
        assert_eq!(rt; answer.err(), Some(ReadError::TooLong));
        assert_eq!(rt; left, rest);
    }
    Ok(())
}

#[test]
fn a_fault_at_each_call_stops_the_read(rt: HostRuntime) -> Result<(), Fail> {
    for (call, rest) in [(1, 5), (2, 4), (3, 3), (4, 2), (5, 1), (6, 0)] {
        let (answer, left) = read_hello(rt.alloc(), 5, &[call])?;
        assert_eq!(rt; answer.err(), Some(ReadError::Fault));
        assert_eq!(rt; left, rest);
    }
    Ok(())
}

#[test]
fn a_long_input_is_read_whole(rt: HostRuntime) -> Result<(), Fail> {
    let alloc = rt.alloc();
    let mut long = Vec::new(alloc);
    long.resize(100_000, 7)?;
    let mut source = MemSource::new(long, Vec::new(alloc), Vec::new(alloc));
    assert_eq!(rt; read_all(alloc, &mut source, 100_000)?.len(), 100_000);
    Ok(())
}

#[test]
fn a_fault_or_a_full_sink_keeps_a_front_part(rt: HostRuntime) -> Result<(), Fail> {
    let alloc = rt.alloc();
    let rows: [(usize, &[u64], &[u8]); 6] = [
        (5, &[], b"hello"),
        (64, &[4], b"hello"),
        (64, &[1], b""),
        (64, &[2], b"he"),
        (64, &[3], b"hell"),
        (3, &[], b"hel"),
    ];
    for (room, fails, written) in rows {
        let pieces = Vec::from_slice(alloc, &[2, 2])?;
        let mut sink = MemSink::new(alloc, room, pieces, Vec::from_slice(alloc, fails)?)?;
        let answer = write_all(&mut sink, b"hello");
        assert_eq!(rt; answer.is_ok(), written.len() == 5);
        assert_eq!(rt; sink.bytes(), written);
    }
    Ok(())
}
