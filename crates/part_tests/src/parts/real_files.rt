// Readers, writers and files of the real thing.

use fip_outside::all::{read_all, write_all};
use fip_outside::outside::{FetchError, Folder, StoreError};
use fip_outside::real::{FileFolder, StdSink, StdSource};
use std::test::Fail;

#[test]
fn a_reader_and_a_writer_pass_bytes_on(rt: HostRuntime) -> Result<(), Fail> {
    let mut source = StdSource::new(b"hello".as_slice());
    let read = read_all(rt.alloc(), &mut source, 5)?;
    assert_eq!(rt; read.as_slice(), b"hello".as_slice());
    let mut room = [0; 6];
    let mut sink = StdSink::new(room.as_mut_slice());
    write_all(&mut sink, &read)?;
    assert_eq!(rt; room.as_slice(), b"hello\0".as_slice());
    Ok(())
}

#[test]
fn a_full_writer_is_a_fault(rt: HostRuntime) -> Result<(), Fail> {
    let mut room = [0; 3];
    let mut sink = StdSink::new(room.as_mut_slice());
    assert!(rt; write_all(&mut sink, b"hello").is_err());
    assert_eq!(rt; room.as_slice(), b"hel".as_slice());
    Ok(())
}

#[test]
fn real_files_are_read_and_written(rt: HostRuntime) -> Result<(), Fail> {
    let mut folder = FileFolder::new(rt.alloc(), &rt);
    assert_eq!(rt; folder.fetch("/dev/null", 0)?.len(), 0);
    assert_eq!(rt;
        folder.fetch("/dev/zero", 9).err(),
        Some(FetchError::TooLong)
    );
    // A file that keeps what was stored and that no test has to remove: this process's own name.
    folder.store("/proc/self/comm", b"hello")?;
    let stored = folder.fetch("/proc/self/comm", 16)?;
    assert_eq!(rt; stored.as_slice(), b"hello\n".as_slice());
    Ok(())
}

#[test]
fn a_full_device_an_empty_name_and_a_directory_are_faults(rt: HostRuntime) -> Result<(), Fail> {
    let mut folder = FileFolder::new(rt.alloc(), &rt);
    for name in ["", "/"] {
        assert_eq!(rt; folder.fetch(name, 9).err(), Some(FetchError::Failed));
        assert_eq!(rt; folder.store(name, b"").err(), Some(StoreError::Failed));
    }
    assert_eq!(rt;
        folder.store("/dev/full", b"hello").err(),
        Some(StoreError::Failed)
    );
    Ok(())
}
