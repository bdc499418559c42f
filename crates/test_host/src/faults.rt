// Each call of each object of a host fails in turn, the streams moving one byte a call, until a run ends without a
// fault.

use crate::memory::{Host, Program, SINGLE, Seen, host_of, run};
use crate::rows::{Row, is_read_rightly, is_right, is_stored_rightly};
use command_outcome::Object;
use std::alloc::{AllocError, Global};

// More calls than any object gets in these runs.
const MOST_CALLS: usize = 1000;

// The line that says that the object failed.
fn fault_line(object: Object) -> &'static str {
    match object {
        Object::Folder => "fault: folder\n",
        Object::Input => "fault: input\n",
        Object::Out => "fault: out\n",
        Object::Err => "fault: err\n",
    }
}

// The host with this input, streams that move one byte a call, and an object of which these calls fail.
fn failing<'a>(host: Host<'a>, input: &'a [u8], object: Object, fails: &'a [u64]) -> Host<'a> {
    let host = Host {
        input,
        pieces: SINGLE,
        ..host
    };
    match object {
        Object::Folder => Host {
            folder_fails: fails,
            ..host
        },
        Object::Input => Host {
            input_fails: fails,
            ..host
        },
        Object::Out => Host {
            out_fails: fails,
            ..host
        },
        Object::Err => Host {
            err_fails: fails,
            ..host
        },
    }
}

// The front of a text, of so many bytes where it has as many.
fn front(text: &[u8], count: usize) -> &[u8] {
    &text[..count.min(text.len())]
}

// Whether err holds a text and then a line.
fn is_reported(err: &[u8], text: &[u8], line: &str) -> bool {
    err.strip_prefix(text) == Some(line.as_bytes())
}

// Whether the input is as it must be where a call of an object failed, after so many that didn't: the folder's first
// call fetches, before the input's turn.
fn is_left_rightly(seen: &Seen, row: Row<'_>, object: Object, before: usize) -> bool {
    match object {
        Object::Folder if before == 0 => seen.left == row.1.len(),
        Object::Input => seen.left == row.1.len().saturating_sub(before),
        Object::Folder | Object::Out | Object::Err => is_read_rightly(seen, row),
    }
}

// Whether a run ended as it must where a call of an object failed, after so many that didn't: a front part of the text
// is where it was being written, and after it on err the fault's line.
fn is_faulted(seen: &Seen, row: Row<'_>, object: Object, before: usize) -> bool {
    let (out, err) = match object {
        Object::Folder | Object::Input => (0, 0),
        Object::Out => (before, 0),
        Object::Err => (0, before),
    };
    let text = row.3.as_bytes();
    seen.status == 9
        && seen.out.as_slice() == front(text, out)
        && is_reported(seen.err.as_slice(), front(text, err), fault_line(object))
        && is_left_rightly(seen, row, object, before)
        && is_kept(seen, row, object)
}

// Whether the files are as they must be where a call of an object failed: what is stored is stored before the first
// write.
fn is_kept(seen: &Seen, row: Row<'_>, object: Object) -> bool {
    let stored = match object {
        Object::Folder | Object::Input => seen.stored.is_none(),
        Object::Out | Object::Err => is_stored_rightly(seen, row),
    };
    stored && seen.same_files
}

// How many runs end with a fault where call 1, 2, .. of an object fails, until one ends as the row says. None where one
// of them ends otherwise.
fn faulted_runs<P: Program>(
    alloc: Global,
    host: Host<'_>,
    row: Row<'_>,
    object: Object,
) -> Result<Option<usize>, AllocError> {
    for before in 0..MOST_CALLS {
        let fails = [before as u64 + 1];
        let seen = run::<P>(
            alloc,
            row.0,
            failing(host, row.1.as_bytes(), object, &fails),
        )?;
        if is_right(&seen, row) {
            return Ok(Some(before));
        }
        if !is_faulted(&seen, row, object, before) {
            return Ok(None);
        }
    }
    Ok(None)
}

/// A row, and how many runs end with a fault where call 1, 2, .. of one object fails, until one ends as the row says:
/// of the folder, the input, out and err.
pub type FaultRow<'a> = (Row<'a>, [usize; 4]);

// Whether the runs in which each call of each object fails in turn end as they must.
fn are_faults_right<P: Program>(
    alloc: Global,
    host: Host<'_>,
    row: Row<'_>,
    counts: [usize; 4],
) -> Result<bool, AllocError> {
    let [folder, input, out, err] = counts;
    Ok(
        faulted_runs::<P>(alloc, host, row, Object::Folder)? == Some(folder)
            && faulted_runs::<P>(alloc, host, row, Object::Input)? == Some(input)
            && faulted_runs::<P>(alloc, host, row, Object::Out)? == Some(out)
            && faulted_runs::<P>(alloc, host, row, Object::Err)? == Some(err),
    )
}

/// The words of the first row of which a run over a host's files, in which a call of an object fails, doesn't end as it
/// must: with status 9 and the object's line on err, after what was written of the row's text before. Running out of
/// memory is the one error.
pub fn first_wrong_faults<'a, P: Program>(
    alloc: Global,
    host: Host<'_>,
    rows: &[FaultRow<'a>],
) -> Result<Option<&'a str>, AllocError> {
    for (row, counts) in rows {
        if !are_faults_right::<P>(alloc, host, *row, *counts)? {
            return Ok(Some(row.0));
        }
    }
    Ok(None)
}

// Whether a run ended as it must where the first call of an object failed, and so many bytes of the fault's line were
// written.
fn is_untold(seen: &Seen, object: Object, written: usize) -> bool {
    seen.status == 9
        && seen.out.is_empty()
        && seen.err.as_slice() == front(fault_line(object).as_bytes(), written)
        && seen.same_files
}

/// How many runs can't report a fault where the first call of an object fails, and call 1, 2, .. of err, until one can.
/// None where one of them ends otherwise than with status 9 and a front part of the fault's line. Running out of memory
/// is the one error.
pub fn untold_runs<P: Program>(
    alloc: Global,
    file: &[u8],
    row: Row<'_>,
    object: Object,
) -> Result<Option<usize>, AllocError> {
    for before in 0..MOST_CALLS {
        let fails = [before as u64 + 1];
        let host = Host {
            err_fails: &fails,
            ..failing(host_of(file, b""), row.1.as_bytes(), object, &[1])
        };
        let seen = run::<P>(alloc, row.0, host)?;
        if !is_untold(&seen, object, before) {
            return Ok(None);
        }
        if before >= fault_line(object).len() {
            return Ok(Some(before));
        }
    }
    Ok(None)
}
