// Tables of runs, each with the status and the text that it must end with.

use crate::memory::{Program, Seen, host_of, run};
use crate::texts::bytes_of;
use std::alloc::{AllocError, Global};

/// A run: the words after the program's name, parted by one blank each, the input, and the status and the text that it
/// must end with. The text is out's after status 0, and err's after another.
pub type Row<'a> = (&'a str, &'a str, u8, &'a str);

// The commands that read the input.
const READERS: &[&str] = &["exec ", "run ", "eval ", "trace ", "session ", "tasks "];

// The commands that store a file.
const STORERS: &[&str] = &["compile ", "upgrade ", "derive ", "trace "];

// Whether a command line begins with one of these.
fn is_one_of(words: &str, commands: &[&str]) -> bool {
    for command in commands {
        if words.starts_with(command) {
            return true;
        }
    }
    false
}

/// Whether the input was read to its end where the row's command reads it and the words, the file and the entry are
/// right, and is untouched elsewhere.
pub(crate) fn is_read_rightly(seen: &Seen, row: Row<'_>) -> bool {
    if is_one_of(row.0, READERS) && !matches!(row.2, 1 | 2 | 8 | 9) {
        seen.left == 0
    } else {
        seen.left == row.1.len()
    }
}

/// Whether a file was stored where the row's command stores one, and none elsewhere.
pub(crate) fn is_stored_rightly(seen: &Seen, row: Row<'_>) -> bool {
    seen.stored.is_some() == (row.2 == 0 && is_one_of(row.0, STORERS))
}

// Whether out and err hold what the row says.
fn is_printed(seen: &Seen, row: Row<'_>) -> bool {
    if row.2 == 0 {
        seen.out.as_slice() == row.3.as_bytes() && seen.err.is_empty()
    } else {
        seen.out.is_empty() && seen.err.as_slice() == row.3.as_bytes()
    }
}

/// Whether a run ended as its row says, and no other file changed.
pub(crate) fn is_right(seen: &Seen, row: Row<'_>) -> bool {
    seen.status == row.2
        && is_printed(seen, row)
        && is_read_rightly(seen, row)
        && is_stored_rightly(seen, row)
        && seen.same_files
}

// Whether the run of a row over a file ends as the row says, where these words are before the row's.
fn ends_right<P: Program>(
    alloc: Global,
    before: &str,
    file: &[u8],
    row: Row<'_>,
) -> Result<bool, AllocError> {
    let words = format!(in alloc; "{}{}", before, row.0)?;
    let seen = run::<P>(alloc, words.as_str(), host_of(file, row.1.as_bytes()))?;
    Ok(is_right(&seen, (words.as_str(), row.1, row.2, row.3)))
}

/// The words of the first row whose run over a file `a.fp` doesn't end as the row says, where the words `before` are
/// before the row's. Running out of memory is the one error.
pub fn first_wrong_run<'a, P: Program>(
    alloc: Global,
    before: &str,
    file: &[u8],
    rows: &[Row<'a>],
) -> Result<Option<&'a str>, AllocError> {
    for row in rows {
        if !ends_right::<P>(alloc, before, file, *row)? {
            return Ok(Some(row.0));
        }
    }
    Ok(None)
}

// Whether each of these commands over a file ends with this status and this line on err.
fn is_refused<P: Program>(
    alloc: Global,
    commands: &[&str],
    file: &[u8],
    status: u8,
    line: &str,
) -> Result<bool, AllocError> {
    let text = format!(in alloc; "{line}\n")?;
    for words in commands {
        if !ends_right::<P>(alloc, "", file, (words, "Nil\n", status, text.as_str()))? {
            return Ok(false);
        }
    }
    Ok(true)
}

/// The first of these words, parted by one blank each, that are taken for a command over a file `a.fp`. Running out of
/// memory is the one error.
pub fn first_understood<'a, P: Program>(
    alloc: Global,
    file: &[u8],
    lines: &[&'a str],
) -> Result<Option<&'a str>, AllocError> {
    for words in lines {
        if !ends_right::<P>(
            alloc,
            "",
            file,
            (words, "Nil\n", 2, "fp2: words not understood\n"),
        )? {
            return Ok(Some(*words));
        }
    }
    Ok(None)
}

// The commands that take a source.
const SOURCE_COMMANDS: &[&str] = &[
    "check a.fp",
    "compile a.fp b.fpc",
    "exec a.fp f",
    "eval a.fp f",
];

// The commands that take a code.
const CODE_COMMANDS: &[&str] = &["verify a.fp", "upgrade a.fp b.fpc", "run a.fp f"];

/// The first row whose source isn't refused as the row says by each command that takes a source. A row is the line on
/// err, then ` | `, then the source after these first lines, without its last line feed. Running out of memory is the
/// one error.
pub fn first_wrong_refusal<'a, P: Program>(
    alloc: Global,
    first_lines: &str,
    rows: &[&'a str],
) -> Result<Option<&'a str>, AllocError> {
    for row in rows {
        let Some((line, rest)) = row.split_once(" | ") else {
            return Ok(Some(*row));
        };
        let source = format!(in alloc; "{first_lines}{rest}\n")?;
        if !is_refused::<P>(alloc, SOURCE_COMMANDS, source.as_bytes(), 1, line)? {
            return Ok(Some(*row));
        }
    }
    Ok(None)
}

/// The first row whose code isn't refused as the row says by each command that takes a code. A row is the line on err,
/// then ` | `, then the code's hexadecimal digits after those of `head`. Running out of memory is the one error.
pub fn first_wrong_code<'a, P: Program>(
    alloc: Global,
    head: &str,
    rows: &[&'a str],
) -> Result<Option<&'a str>, AllocError> {
    for row in rows {
        let Some((line, rest)) = row.split_once(" | ") else {
            return Ok(Some(*row));
        };
        let digits = format!(in alloc; "{head}{rest}")?;
        let code = bytes_of(alloc, digits.as_str())?;
        if !is_refused::<P>(alloc, CODE_COMMANDS, code.as_slice(), 8, line)? {
            return Ok(Some(*row));
        }
    }
    Ok(None)
}
