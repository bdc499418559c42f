// The real thing: std's readers, writers and files, with a count of faults.
ghost use Rattle.std.specs.Prelude.{◌≡◌, ◌≤◌, ◌+◌, ◌⊎◌, None, Err, length, true, IfOk, OnOk};
ghost use Rattle.std.specs.Io.KnownBytes.{Appends, Consumes, IsAtEnd};
ghost use Rattle.fip_outside.specs.Faults.{Rose};
ghost use Rattle.fip_outside.specs.Files.{HoldsFile, IsMissing};
ghost use Rattle.fip_outside.specs.Takes.{Takes};

use crate::all::{ReadError, read_all, write_all};
use crate::outside::{Failed, FetchError, Folder, Sink, Source, StoreError};
use std::alloc::Global;
use std::fs;
use std::io::{ErrorKind, Read, Write};
use std::rt::Files;

/// A reader of std as a source. It reports the bytes that the reader reports.
#[derive(Drop)]
pub struct StdSource<R: Read> {
    inner: R,
    faults: u64,
}

impl<R: Read> StdSource<R> {
    /// The bytes that the reader gives from here on.
    pub fn new(inner: R) -> Self
        ensures inner { result.inner ≡ inner }
        ensures faults { result.faults ≡ 0 }
    {
        StdSource { inner, faults: 0 }
    }
}

impl<R: Read> Source for StdSource<R> {
    ghost left = { λ s. R.remaining s.inner };

    ghost faults = { λ s. s.faults };

    fn read(&mut self, buf: &mut [u8]) -> Result<usize, Failed> {
        match self.inner.read(buf) {
            Ok(count) => Ok(count),
            Err(_) => {
                self.faults = self.faults.saturating_add(1);
                Err(Failed)
            }
        }
    }
}

/// A writer of std as a sink. It reports the bytes that the writer reports. A write that takes none of a
/// piece that isn't empty is a fault.
#[derive(Drop)]
pub struct StdSink<W: Write> {
    inner: W,
    faults: u64,
}

impl<W: Write> StdSink<W> {
    /// A sink that writes after what the writer has.
    pub fn new(inner: W) -> Self
        ensures inner { result.inner ≡ inner }
        ensures faults { result.faults ≡ 0 }
    {
        StdSink { inner, faults: 0 }
    }
}

impl<W: Write> Sink for StdSink<W> {
    ghost written = { λ s. W.contents s.inner };

    ghost faults = { λ s. s.faults };

    fn write(&mut self, piece: &[u8]) -> Result<usize, Failed> {
        match self.inner.write(piece) {
            Ok(count) if count > 0 || piece.is_empty() => Ok(count),
            _ => {
                self.faults = self.faults.saturating_add(1);
                Err(Failed)
            }
        }
    }
}

/// The real files, which it reports nothing of. A name is a path.
#[derive(Drop)]
pub struct FileFolder<'a, F: Files> {
    alloc: Global,
    files: &'a F,
    faults: u64,
}

impl<'a, F: Files> FileFolder<'a, F> {
    /// The files that `files` reaches. What is fetched is held in memory of `alloc`.
    pub fn new(alloc: Global, files: &'a F) -> Self
        ensures { result.faults ≡ 0 }
    {
        FileFolder {
            alloc,
            files,
            faults: 0,
        }
    }
}

impl<F: Files> FileFolder<'_, F> {
    // Whether all bytes were written to an opened file: to the one beside, which took the named one's place, or to that.
    fn is_stored(&self, name: &str, beside: &str, bytes: &[u8]) -> bool
        ensures written { result ≡ true → (file filled : F.File)
            × Appends (F.File.contents file) (F.File.contents filled) bytes.now }
    {
        match self.opened(name, beside) {
            Some((file, is_beside)) => {
                let all = is_written(file, bytes);
                if is_beside {
                    self.takes_place(all, beside, name)
                } else {
                    all
                }
            }
            None => false,
        }
    }

    // A new file beside the named one, or that one, emptied; and whether it is the one beside.
    fn opened(&self, name: &str, beside: &str) -> Option<(F::File, bool)> {
        if self.is_replaced(name) {
            match fs::create(self.files, beside) {
                Ok(file) => return Some((file, true)),
                Err(e) if is_no_place(e.kind()) => {}
                Err(_) => return None,
            }
        }
        match fs::create(self.files, name) {
            Ok(file) => Some((file, false)),
            Err(_) => None,
        }
    }

    // Whether the name is of a plain file or of none.
    fn is_replaced(&self, name: &str) -> bool {
        match fs::symlink_metadata(self.files, name) {
            Ok(found) => found.is_file(),
            Err(e) => e.kind() == ErrorKind::NotFound,
        }
    }

    // Where all was written, the file beside takes the named one's place, with its permissions; else it is removed.
    fn takes_place(&self, all: bool, beside: &str, name: &str) -> bool
        ensures all { result ≡ true → all ≡ true }
    {
        if let Ok(earlier) = fs::metadata(self.files, name) {
            let _ = fs::set_permissions(self.files, beside, earlier.permissions());
        }
        if all && fs::rename(self.files, beside, name).is_ok() {
            return true;
        }
        let _ = fs::remove_file(self.files, beside);
        false
    }
}

// Whether no file may be made in the folder, as in one that may only be read.
fn is_no_place(kind: ErrorKind) -> bool {
    kind == ErrorKind::PermissionDenied || kind == ErrorKind::NotFound
}

// All that a reader has, of which there may be `limit` bytes.
fn all_of<R: Read + Drop>(alloc: Global, file: R, limit: usize) -> Result<Vec<u8>, ReadError>
    ensures read { IfOk result (λ v. (rest : R) × Consumes (R.remaining file) (R.remaining rest) v.items
        × IsAtEnd (R.remaining rest)) }
    ensures within { IfOk result (λ v. length v.items ≤ limit) }
    ensures long { result ≡ Err ReadError.TooLong → (rest : R)
        × Takes (R.remaining file) (R.remaining rest) (limit + 1) }
{
    let mut source = StdSource::new(file);
    read_all(alloc, &mut source, limit)
}

// Whether all bytes were written.
fn is_written<W: Write + Drop>(file: W, bytes: &[u8]) -> bool
    ensures written { result ≡ true → (filled : W) × Appends (W.contents file) (W.contents filled) bytes.now }
{
    let mut sink = StdSink::new(file);
    write_all(&mut sink, bytes).is_ok()
}

impl<F: Files> Folder for FileFolder<'_, F> {
    ghost files = { λ _. None };

    ghost faults = { λ s. s.faults };

    /// The bytes are all that an opened file gave.
    fn fetch(&mut self, name: &str, limit: usize) -> Result<Vec<u8>, FetchError>
        ensures found { IfOk result (λ bytes. HoldsFile None name.now bytes.items) }
        ensures read { IfOk result (λ bytes. (file rest : F.File)
            × Consumes (F.File.remaining file) (F.File.remaining rest) bytes.items × IsAtEnd (F.File.remaining rest)) }
        ensures within { IfOk result (λ bytes. length bytes.items ≤ limit) }
        // Where it answers that the file is too long, an opened file gave more than `limit` bytes.
        ensures over { result ≡ Err FetchError.TooLong → (file rest : F.File)
            × Takes (F.File.remaining file) (F.File.remaining rest) (limit + 1) }
        ensures failed { result ≡ Err FetchError.Failed → Rose self.old.faults self.new.faults
            ⊎ IsMissing None name.now }
        ensures memory { result ≡ Err FetchError.NoMemory → self.new.faults ≡ self.old.faults }
        ensures later { self.old.faults ≤ self.new.faults }
    {
        let Ok(file) = fs::open(self.files, name) else {
            self.faults = self.faults.saturating_add(1);
            return Err(FetchError::Failed);
        };
        match all_of(self.alloc, file, limit) {
            Ok(bytes) => Ok(bytes),
            Err(ReadError::TooLong) => Err(FetchError::TooLong),
            Err(ReadError::NoMemory) => Err(FetchError::NoMemory),
            Err(ReadError::Fault) => {
                self.faults = self.faults.saturating_add(1);
                Err(FetchError::Failed)
            }
        }
    }

    /// All bytes were written to an opened file. A plain file is stored whole or not at all: the bytes go to a file beside
    /// it, `NAME.part`, which then takes its place. Where there may be no file beside it, and for what is no plain file (a
    /// device, a link), they go to the file itself.
    fn store(&mut self, name: &str, bytes: &[u8]) -> Result<(), StoreError>
        ensures stored { OnOk result (HoldsFile None name.now bytes.now) }
        ensures written { OnOk result ((file filled : F.File)
            × Appends (F.File.contents file) (F.File.contents filled) bytes.now) }
        ensures failed { result ≡ Err StoreError.Failed → Rose self.old.faults self.new.faults }
        ensures memory { result ≡ Err StoreError.NoMemory → self.new.faults ≡ self.old.faults }
        ensures later { self.old.faults ≤ self.new.faults }
    {
        let Ok(beside) = format!(in self.alloc; "{name}.part") else {
            return Err(StoreError::NoMemory);
        };
        if self.is_stored(name, &beside, bytes) {
            return Ok(());
        }
        self.faults = self.faults.saturating_add(1);
        Err(StoreError::Failed)
    }
}
