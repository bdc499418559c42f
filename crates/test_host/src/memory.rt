// What a host hands in, and what it finds afterwards.

use fip_outside::memory::{MemFolder, MemSink, MemSource};
use std::alloc::{AllocError, Global};

/// Pieces of one byte each.
pub const SINGLE: &[usize] = &[1; 2000];

// What the file `other` holds where no command is reported of it.
const OTHER: &[u8] = b"as it was\n";

/// What a run of the program ended with.
#[derive(Drop)]
pub struct Ended {
    /// The status.
    pub status: u8,
    /// How many cells of 2 fields, which aren't released, the run left; none where it left nothing.
    pub cells: Option<usize>,
}

/// The program that the tests run. A host that knows it by a type alone is below it, so that it is proved apart.
pub trait Program {
    /// Runs the program with these words, the first one its name, over these objects.
    fn run(
        alloc: Global,
        words: &[String],
        folder: &mut MemFolder,
        input: &mut MemSource,
        out: &mut MemSink,
        err: &mut MemSink,
    ) -> Ended;
}

/// What a host hands in: its folder has the files `a.fp` and `other`, and its err has room for 1,000 bytes.
#[derive(Clone, Copy)]
pub struct Host<'a> {
    /// The bytes of the file `a.fp`, a source, a code or a trace.
    pub file: &'a [u8],
    /// The bytes of the file `other`, a proof where a command is reported of it.
    pub other: &'a [u8],
    /// The bytes of the input.
    pub input: &'a [u8],
    /// The most bytes that the first, the second and so on call of each stream moves; past its end a call moves all.
    pub pieces: &'a [usize],
    /// The bytes that out has room for.
    pub room: usize,
    /// The numbers, from 1, of the folder's calls that fail, fetches and stores numbered together.
    pub folder_fails: &'a [u64],
    /// The numbers of the input's calls that fail.
    pub input_fails: &'a [u64],
    /// The numbers of out's calls that fail.
    pub out_fails: &'a [u64],
    /// The numbers of err's calls that fail.
    pub err_fails: &'a [u64],
}

/// A host of which no call fails, whose out has room for 1,000,000 bytes.
pub fn host_of<'a>(file: &'a [u8], input: &'a [u8]) -> Host<'a> {
    Host {
        file,
        other: OTHER,
        input,
        pieces: &[],
        room: 1_000_000,
        folder_fails: &[],
        input_fails: &[],
        out_fails: &[],
        err_fails: &[],
    }
}

/// What a host finds.
#[derive(Drop)]
pub struct Seen {
    /// The status that the run ended with.
    pub status: u8,
    /// What out holds.
    pub out: Vec<u8>,
    /// What err holds.
    pub err: Vec<u8>,
    /// How many bytes of the input are left.
    pub left: usize,
    /// The bytes of the file `b.fpc`, which wasn't there before.
    pub stored: Option<Vec<u8>>,
    /// Whether the files that were there before are as they were.
    pub same_files: bool,
    /// How many cells of 2 fields, which aren't released, a run left; none where none left anything.
    pub cells: Option<usize>,
}

// The words of the command line: the program's name, and these, which are parted by one blank each.
fn all_words(alloc: Global, words: &str) -> Result<Vec<String>, AllocError> {
    let mut all = Vec::new(alloc);
    all.push(String::from_str(alloc, "fp2")?)?;
    for word in words.split(' ') {
        all.push(String::from_str(alloc, word)?)?;
    }
    Ok(all)
}

// A file of this name with these bytes.
fn file_of(alloc: Global, name: &str, bytes: &[u8]) -> Result<(String, Vec<u8>), AllocError> {
    let name = String::from_str(alloc, name)?;
    let bytes = Vec::from_slice(alloc, bytes)?;
    Ok((name, bytes))
}

fn folder_of(alloc: Global, host: &Host<'_>) -> Result<MemFolder, AllocError> {
    let mut files = Vec::new(alloc);
    files.push(file_of(alloc, "a.fp", host.file)?)?;
    files.push(file_of(alloc, "other", host.other)?)?;
    let fails = Vec::from_slice(alloc, host.folder_fails)?;
    Ok(MemFolder::new(alloc, files, fails))
}

fn input_of(alloc: Global, host: &Host<'_>) -> Result<MemSource, AllocError> {
    let bytes = Vec::from_slice(alloc, host.input)?;
    let pieces = Vec::from_slice(alloc, host.pieces)?;
    let fails = Vec::from_slice(alloc, host.input_fails)?;
    Ok(MemSource::new(bytes, pieces, fails))
}

fn sink_of(
    alloc: Global,
    room: usize,
    pieces: &[usize],
    fails: &[u64],
) -> Result<MemSink, AllocError> {
    let pieces = Vec::from_slice(alloc, pieces)?;
    let fails = Vec::from_slice(alloc, fails)?;
    MemSink::new(alloc, room, pieces, fails)
}

// Whether the folder has a file of this name with these bytes.
fn has_file(folder: &MemFolder, name: &str, bytes: &[u8]) -> bool {
    match folder.file(name) {
        Some(held) => held == bytes,
        None => false,
    }
}

// The bytes of the file `b.fpc`.
fn stored_in(alloc: Global, folder: &MemFolder) -> Result<Option<Vec<u8>>, AllocError> {
    match folder.file("b.fpc") {
        Some(bytes) => Ok(Some(Vec::from_slice(alloc, bytes)?)),
        None => Ok(None),
    }
}

/// Runs the program with these words after its name, which are parted by one blank each. Running out of memory for the
/// host's objects is the one error.
pub fn run<P: Program>(alloc: Global, words: &str, host: Host<'_>) -> Result<Seen, AllocError> {
    let words = all_words(alloc, words)?;
    let mut folder = folder_of(alloc, &host)?;
    let mut input = input_of(alloc, &host)?;
    let mut out = sink_of(alloc, host.room, host.pieces, host.out_fails)?;
    let mut err = sink_of(alloc, 1000, host.pieces, host.err_fails)?;
    let ended = P::run(
        alloc,
        words.as_slice(),
        &mut folder,
        &mut input,
        &mut out,
        &mut err,
    );
    let out = Vec::from_slice(alloc, out.bytes())?;
    let err = Vec::from_slice(alloc, err.bytes())?;
    Ok(Seen {
        status: ended.status,
        out,
        err,
        left: input.bytes().len(),
        stored: stored_in(alloc, &folder)?,
        same_files: has_file(&folder, "a.fp", host.file) && has_file(&folder, "other", host.other),
        cells: ended.cells,
    })
}
