// A source, a sink and a folder in memory, which move bytes in given pieces and fail at given calls.
ghost use Rattle.std.specs.Prelude.{◌≡◌, ◌<◌, ◌≤◌, ◌⊎◌, ◌↔◌, Option, Some, None, Ok, Err, length, take, IfOk, IfSome};
ghost use Rattle.std.specs.Prelude.{IsErr, OnOk, OnErr, MatchOption, position, string_bytes, bytes_eq};
ghost use Rattle.std.specs.Io.{ReadsAtMost, WritesAtMost};
ghost use Rattle.std.specs.Io.KnownBytes.{ReadConsumes, WriteAppends};
ghost use Rattle.fip_outside.specs.Faults.{Rose, one_more};
ghost use Rattle.fip_outside.specs.Files.{file_of, put_file, HoldsFile, HoldsLonger, IsMissing, KeepsOthers, has_name};
ghost use Rattle.fip_outside.specs.Entries.{file_in, files_in};
ghost use Rattle.fip_outside.specs.Objects.{no_calls, next_call, IsToFail, counted, failed, moved, new_source, given};
ghost use Rattle.fip_outside.specs.Objects.{after_read, after_failed_read, new_sink, IsFullFor, taken, after_write};
ghost use Rattle.fip_outside.specs.Objects.{after_failed_write, new_folder, after_call, after_failed_call, after_store};

use crate::outside::{Failed, FetchError, Folder, Sink, Source, StoreError};
use std::alloc::{AllocError, Global};
use std::marker::Model;

// The calls of an object: those that are to fail, how many were made, and how many faults there were.
#[derive(Drop)]
struct Calls {
    fails: Vec<u64>,
    made: u64,
    faults: u64,
}

impl Model for Calls {
    ghost use Rattle.fip_outside.specs.Objects.{CallLog};

    ghost Value = { CallLog };

    ghost view = { λ s. record { fails = s.fails.items; made = s.made; faults = s.faults } };
}

impl Calls {
    fn new(fails: Vec<u64>) -> Calls
        ensures { result ≡ no_calls fails.items }
    {
        Calls {
            fails,
            made: 0,
            faults: 0,
        }
    }

    // Counts a call and gives its number, where it isn't one that is to fail.
    fn begin(&mut self) -> Result<u64, Failed>
        ensures listed { IsErr result ↔ IsToFail self.old }
        ensures ok { IfOk result (λ number. number ≡ next_call self.old) }
        ensures counted { OnOk result (self.new ≡ counted self.old) }
        ensures failed { OnErr result (self.new ≡ failed self.old) }
        ensures later { self.old.faults ≤ self.new.faults }
    {
        let number = self.made.saturating_add(1);
        self.made = number;
        if self.fails.contains(&number) {
            self.fail();
            return Err(Failed);
        }
        Ok(number)
    }

    // Raises the count of faults.
    fn fail(&mut self)
        ensures raised { self.new ≡ record self.old { faults = one_more self.old.faults } }
        ensures later { self.old.faults ≤ self.new.faults }
    {
        self.faults = self.faults.saturating_add(1);
    }
}

// How many bytes the call of this number moves, where so many could be moved.
fn count_of(pieces: &[usize], number: u64, room: usize) -> usize
    requires { 0 < number }
    ensures count { result ≡ moved pieces.now number room }
    ensures within { result ≤ room }
    ensures some { 0 < room → 0 < result }
{
    match pieces.get((number - 1) as usize) {
        Some(most) => room.min((*most).max(1)),
        None => room,
    }
}

/// A source in memory.
#[derive(Drop)]
pub struct MemSource {
    bytes: Vec<u8>,
    start: usize,
    pieces: Vec<usize>,
    calls: Calls,
}

impl Model for MemSource {
    ghost use Rattle.std.specs.Prelude.{◌≤◌, drop, vec_len};
    ghost use Rattle.fip_outside.specs.Objects.{SourceState};

    ghost Value = { SourceState };

    ghost view = { λ s. record { bytes = drop s.start s.bytes.items; pieces = s.pieces.items; calls = s.calls } };

    ghost invariant = { λ s. s.start ≤ vec_len s.bytes };
}

impl MemSource {
    /// A source of these bytes. `pieces` gives the most bytes that the first call, the second call and so
    /// on move, at least 1 each; past its end a call moves all. `fails` has the numbers of the calls that
    /// fail, from 1.
    pub fn new(bytes: Vec<u8>, pieces: Vec<usize>, fails: Vec<u64>) -> MemSource
        ensures { result ≡ new_source bytes.items pieces.items fails.items }
    {
        MemSource {
            bytes,
            start: 0,
            pieces,
            calls: Calls::new(fails),
        }
    }

    /// The bytes that are left.
    pub fn bytes(&self) -> &[u8]
        ensures { result.now ≡ self.now.bytes }
    {
        &self.bytes[self.start..]
    }
}

impl Source for MemSource {
    ghost left = { λ s. Some s.bytes };

    ghost faults = { λ s. s.calls.faults };

    /// Failed exactly where the call's number is listed.
    fn read(&mut self, buf: &mut [u8]) -> Result<usize, Failed>
        ensures listed { IsErr result ↔ IsToFail self.old.calls }
        ensures count { IfOk result (λ n. n ≡ given self.old (length buf.old)) }
        ensures given { IfOk result (λ n. take n buf.new ≡ take n self.old.bytes) }
        ensures ok { IfOk result (λ n. self.new ≡ after_read self.old n) }
        ensures err { OnErr result (self.new ≡ after_failed_read self.old) }
        ensures bound { ReadsAtMost result buf.new }
        ensures bytes { ReadConsumes (Some self.old.bytes) (Some self.new.bytes) result buf.new }
        ensures failed { OnErr result (Rose self.old.calls.faults self.new.calls.faults) }
        ensures later { self.old.calls.faults ≤ self.new.calls.faults }
    {
        let Ok(number) = self.calls.begin() else {
            return Err(Failed);
        };
        let room = buf.len().min(self.bytes.len() - self.start);
        let count = count_of(&self.pieces, number, room);
        let end = self.start + count;
        buf[..count].copy_from_slice(&self.bytes[self.start..end]);
        self.start = end;
        Ok(count)
    }
}

/// A sink in memory.
#[derive(Drop)]
pub struct MemSink {
    bytes: Vec<u8>,
    room: usize,
    pieces: Vec<usize>,
    calls: Calls,
}

impl Model for MemSink {
    ghost use Rattle.std.specs.Prelude.{◌≤◌, vec_len, vec_capacity};
    ghost use Rattle.fip_outside.specs.Objects.{SinkState};

    ghost Value = { SinkState };

    ghost view = { λ s. record { bytes = s.bytes.items; room = s.room; pieces = s.pieces.items; calls = s.calls } };

    ghost invariant = { λ s. (vec_len s.bytes ≤ s.room) × (s.room ≤ vec_capacity s.bytes) };
}

impl MemSink {
    /// A sink for `room` bytes, for all of which it takes memory here. `pieces` and `fails` are as in
    /// `MemSource::new`. Running out of memory is the one error.
    pub fn new(
        alloc: Global,
        room: usize,
        pieces: Vec<usize>,
        fails: Vec<u64>,
    ) -> Result<MemSink, AllocError>
        ensures { IfOk result (λ sink. sink ≡ new_sink room pieces.items fails.items) }
    {
        Ok(MemSink {
            bytes: Vec::with_capacity(alloc, room)?,
            room,
            pieces,
            calls: Calls::new(fails),
        })
    }

    /// The bytes that were written.
    pub fn bytes(&self) -> &[u8]
        ensures { result.now ≡ self.now.bytes }
    {
        self.bytes.as_slice()
    }
}

impl Sink for MemSink {
    ghost written = { λ s. Some s.bytes };

    ghost faults = { λ s. s.calls.faults };

    /// Failed exactly where the call's number is listed, or where the sink is full and the piece isn't
    /// empty. It takes no memory.
    fn write(&mut self, piece: &[u8]) -> Result<usize, Failed>
        ensures refused { IsErr result ↔ (IsToFail self.old.calls ⊎ IsFullFor self.old piece.now) }
        ensures count { IfOk result (λ n. n ≡ taken self.old (length piece.now)) }
        ensures ok { IfOk result (λ n. self.new ≡ after_write self.old (take n piece.now)) }
        ensures err { OnErr result (self.new ≡ after_failed_write self.old) }
        ensures some { IfOk result (λ n. 0 < length piece.now → 0 < n) }
        ensures bound { WritesAtMost result piece.now }
        ensures bytes { WriteAppends (Some self.old.bytes) (Some self.new.bytes) result piece.now }
        ensures failed { OnErr result (Rose self.old.calls.faults self.new.calls.faults) }
        ensures later { self.old.calls.faults ≤ self.new.calls.faults }
    {
        let Ok(number) = self.calls.begin() else {
            return Err(Failed);
        };
        let free = self.room - self.bytes.len();
        if free == 0 && !piece.is_empty() {
            self.calls.fail();
            return Err(Failed);
        }
        let count = count_of(&self.pieces, number, piece.len().min(free));
        self.bytes.extend_from_slice(&piece[..count]).unwrap();
        Ok(count)
    }
}

/// A folder in memory.
#[derive(Drop)]
pub struct MemFolder {
    alloc: Global,
    files: Vec<(String, Vec<u8>)>,
    calls: Calls,
}

impl Model for MemFolder {
    ghost use Rattle.fip_outside.specs.Entries.{files_in};
    ghost use Rattle.fip_outside.specs.Objects.{FolderState};

    ghost Value = { FolderState };

    ghost view = { λ s. record { files = files_in s.files.items; calls = s.calls } };
}

// Where the first file of this name is.
fn index_of(files: &[(String, Vec<u8>)], name: &str) -> Option<usize>
    ensures { result ≡ position (λ entry. has_name name.now (file_in entry)) files.now }
{
    files.iter().position(|file| file.0.as_str() == name)
}

impl MemFolder {
    /// A folder of these files, names with their bytes; of a name that occurs twice the first counts.
    /// `fails` has the numbers of the calls that fail, from 1, fetches and stores numbered together. What
    /// is fetched or stored is held in memory of `alloc`.
    pub fn new(alloc: Global, files: Vec<(String, Vec<u8>)>, fails: Vec<u64>) -> MemFolder
        ensures { result ≡ new_folder (files_in files.items) fails.items }
    {
        MemFolder {
            alloc,
            files,
            calls: Calls::new(fails),
        }
    }

    /// The bytes of a file, None exactly where there is none of this name.
    pub fn file(&self, name: &str) -> Option<&[u8]>
        ensures { MatchOption result (file_of name.now self.now.files ≡ None)
            (λ bytes. file_of name.now self.now.files ≡ Some bytes.now) }
    {
        match index_of(&self.files, name) {
            Some(index) => Some(self.files[index].1.as_slice()),
            None => None,
        }
    }

    // Makes the bytes the file of this name. Where memory runs out nothing changes.
    fn put(&mut self, name: &str, bytes: &[u8]) -> Result<(), AllocError>
        ensures ok { OnOk result (self.new ≡ record self.old { files = put_file name.now bytes.now self.old.files }) }
        ensures err { OnErr result (self.new ≡ self.old) }
    {
        let bytes = Vec::from_slice(self.alloc, bytes)?;
        match index_of(&self.files, name) {
            Some(index) => self.files[index].1 = bytes,
            None => {
                let name = String::from_str(self.alloc, name)?;
                self.files.push((name, bytes))?;
            }
        }
        Ok(())
    }
}

impl Folder for MemFolder {
    ghost files = { λ s. Some s.files };

    ghost faults = { λ s. s.calls.faults };

    /// Failed exactly where the call's number is listed, or the name is missing, which raises no count.
    fn fetch(&mut self, name: &str, limit: usize) -> Result<Vec<u8>, FetchError>
        ensures refused { result ≡ Err FetchError.Failed ↔ (IsToFail self.old.calls
            ⊎ (file_of name.now self.old.files ≡ None)) }
        ensures listed { IsToFail self.old.calls → self.new ≡ after_failed_call self.old }
        ensures unlisted { (IsToFail self.old.calls → ⊥) → self.new ≡ after_call self.old }
        ensures found { IfOk result (λ bytes. HoldsFile (Some self.old.files) name.now bytes.items) }
        ensures within { IfOk result (λ bytes. length bytes.items ≤ limit) }
        ensures long { result ≡ Err FetchError.TooLong → HoldsLonger (Some self.old.files) name.now limit }
        ensures failed { result ≡ Err FetchError.Failed → Rose self.old.calls.faults self.new.calls.faults
            ⊎ IsMissing (Some self.old.files) name.now }
        ensures memory { result ≡ Err FetchError.NoMemory → self.new.calls.faults ≡ self.old.calls.faults }
        ensures same { Some self.new.files ≡ Some self.old.files }
        ensures later { self.old.calls.faults ≤ self.new.calls.faults }
    {
        if self.calls.begin().is_err() {
            return Err(FetchError::Failed);
        }
        let alloc = self.alloc;
        match self.file(name) {
            None => Err(FetchError::Failed),
            Some(bytes) if bytes.len() > limit => Err(FetchError::TooLong),
            Some(bytes) => Ok(Vec::from_slice(alloc, bytes)?),
        }
    }

    /// Failed exactly where the call's number is listed; then no file changes.
    fn store(&mut self, name: &str, bytes: &[u8]) -> Result<(), StoreError>
        ensures refused { result ≡ Err StoreError.Failed ↔ IsToFail self.old.calls }
        ensures ok { OnOk result (self.new ≡ after_store self.old name.now bytes.now) }
        ensures listed { IsToFail self.old.calls → self.new ≡ after_failed_call self.old }
        ensures out_of_memory { result ≡ Err StoreError.NoMemory → self.new ≡ after_call self.old }
        ensures stored { OnOk result (HoldsFile (Some self.new.files) name.now bytes.now) }
        ensures others { KeepsOthers (Some self.old.files) (Some self.new.files) name.now }
        ensures failed { result ≡ Err StoreError.Failed → Rose self.old.calls.faults self.new.calls.faults }
        ensures memory { result ≡ Err StoreError.NoMemory → Some self.new.files ≡ Some self.old.files }
        ensures uncounted { result ≡ Err StoreError.NoMemory → self.new.calls.faults ≡ self.old.calls.faults }
        ensures later { self.old.calls.faults ≤ self.new.calls.faults }
    {
        if self.calls.begin().is_err() {
            return Err(StoreError::Failed);
        }
        self.put(name, bytes)?;
        Ok(())
    }
}
