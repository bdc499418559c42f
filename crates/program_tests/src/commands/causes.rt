// Which cause is named where several are together, and what isn't read or stored then.

use crate::program::Fp2;
use std::alloc::{AllocError, Global};
use std::test::Fail;
use test_host::programs::{LISTS, NEW_REVERSE};
use test_host::{Host, Seen, bytes_of, host_of, repeated, run};

// The first command line that, over a host, doesn't end with this status and this text on err, without having read a
// byte of the input or changed a file.
fn first_other(
    alloc: Global,
    lines: &[&'static str],
    host: Host<'_>,
    status: u8,
    text: &str,
) -> Result<Option<&'static str>, AllocError> {
    for words in lines {
        let seen = run::<Fp2>(alloc, words, host)?;
        if !is_refused(&seen, host, status, text) {
            return Ok(Some(*words));
        }
    }
    Ok(None)
}

// Whether a run ended with this status and this text on err, without having read a byte of the input or changed a file.
fn is_refused(seen: &Seen, host: Host<'_>, status: u8, text: &str) -> bool {
    seen.status == status
        && seen.out.is_empty()
        && seen.err.as_slice() == text.as_bytes()
        && seen.left == host.input.len()
        && seen.stored.is_none()
        && seen.same_files
}

// Command lines that are right over any file.
const RIGHT: &[&str] = &[
    "check a.fp",
    "compile a.fp b.fpc",
    "exec a.fp f",
    "eval a.fp f",
    "verify a.fp",
    "upgrade a.fp b.fpc",
    "run a.fp f",
];

#[test]
fn wrong_words_come_before_a_fault_of_the_folder(rt: HostRuntime) -> Result<(), Fail> {
    let host = Host {
        folder_fails: &[1],
        input_fails: &[1],
        ..host_of(b"#", b"Nix")
    };
    let lines = ["exec a.fp f --calls x", "run a.fp", "compile a.fp"];
    let text = "fp2: words not understood\n";
    assert_eq!(rt; first_other(rt.alloc(), &lines, host, 2, text)?, None);
    Ok(())
}

#[test]
fn a_fault_of_the_folder_comes_before_a_wrong_file(rt: HostRuntime) -> Result<(), Fail> {
    let host = Host {
        folder_fails: &[1],
        input_fails: &[1],
        ..host_of(b"#", b"Nix")
    };
    assert_eq!(rt;
        first_other(rt.alloc(), RIGHT, host, 9, "fault: folder\n")?,
        None
    );
    Ok(())
}

#[test]
fn a_wrong_file_comes_before_its_entry_and_the_input(rt: HostRuntime) -> Result<(), Fail> {
    let alloc = rt.alloc();
    let host = Host {
        input_fails: &[1],
        ..host_of(b"#", b"Nix")
    };
    let lines = ["exec a.fp nope", "eval a.fp nope"];
    assert_eq!(rt; first_other(alloc, &lines, host, 1, "E01 at 1:1\n")?, None);
    let lines = ["run a.fp nope", "verify a.fp", "upgrade a.fp b.fpc"];
    assert_eq!(rt;
        first_other(alloc, &lines, host, 8, "bad code at 0\n")?,
        None
    );
    Ok(())
}

#[test]
fn a_wrong_entry_comes_before_the_input(rt: HostRuntime) -> Result<(), Fail> {
    let alloc = rt.alloc();
    let host = Host {
        input_fails: &[1],
        ..host_of(LISTS.as_bytes(), b"Nix")
    };
    let lines = ["exec a.fp nope", "eval a.fp nope"];
    assert_eq!(rt; first_other(alloc, &lines, host, 1, "E70: nope\n")?, None);
    assert_eq!(rt;
        first_other(alloc, &["exec a.fp dup"], host, 1, "E71: dup\n")?,
        None
    );
    let code = bytes_of(alloc, NEW_REVERSE)?;
    let host = Host {
        file: code.as_slice(),
        ..host
    };
    assert_eq!(rt;
        first_other(alloc, &["run a.fp nope"], host, 1, "E70: nope\n")?,
        None
    );
    Ok(())
}

#[test]
fn a_fault_of_the_input_comes_before_what_it_holds(rt: HostRuntime) -> Result<(), Fail> {
    let alloc = rt.alloc();
    let host = Host {
        input_fails: &[1],
        ..host_of(LISTS.as_bytes(), b"Nix")
    };
    let lines = ["exec a.fp rev --words 0", "eval a.fp rev --calls 0"];
    assert_eq!(rt;
        first_other(alloc, &lines, host, 9, "fault: input\n")?,
        None
    );
    let code = bytes_of(alloc, NEW_REVERSE)?;
    let host = Host {
        file: code.as_slice(),
        ..host
    };
    let lines = ["run a.fp rev --words 0"];
    assert_eq!(rt;
        first_other(alloc, &lines, host, 9, "fault: input\n")?,
        None
    );
    Ok(())
}

// Whether a run over an input of two empty lists and so many line feeds ends with this status, and this text on out and
// err.
fn is_padded(
    alloc: Global,
    words: &str,
    feeds: usize,
    status: u8,
    texts: (&str, &str),
) -> Result<bool, AllocError> {
    let input = repeated(alloc, &[("Nil\n", 2), ("\n", feeds)])?;
    let seen = run::<Fp2>(alloc, words, host_of(LISTS.as_bytes(), input.as_bytes()))?;
    Ok(
        seen.status == status
            && seen.out.as_slice() == texts.0.as_bytes()
            && seen.err.as_slice() == texts.1.as_bytes(),
    )
}

#[test]
fn an_input_has_at_most_sixteen_mebibytes(rt: HostRuntime) -> Result<(), Fail> {
    let alloc = rt.alloc();
    let past = ("", "bad input at 16777216\n");
    assert!(rt; is_padded(alloc, "exec a.fp rev", 16_777_208, 0, ("Nil\n", ""))?);
    assert!(rt; is_padded(alloc, "exec a.fp rev", 16_777_209, 5, past)?);
    assert!(rt; is_padded(alloc, "eval a.fp rev", 16_777_208, 0, ("Nil\n", ""))?);
    assert!(rt; is_padded(alloc, "eval a.fp rev", 16_777_209, 5, past)?);
    Ok(())
}
