// What sessions, tasks, derivations and traces answer, each command with every status that it can end with.

use crate::program::Fp2;
use std::alloc::{AllocError, Global};
use std::test::Fail;
use test_host::programs::{LISTS, NOT_UNDERSTOOD};
use test_host::{Host, Row, first_wrong_run, host_of, run};

// Over `LISTS`.
const SESSIONS: &[Row<'static>] = &[
    (
        "session a.fp",
        "a = rev(Cons(1, Cons(2, Nil)), Nil)\n? a\nb, n = sized(a)\n-b\n? b\n? n\n",
        0,
        "ok\nCons(2, Cons(1, Nil))\nok\nok\nno name b\n2\n",
    ),
    (
        "session a.fp",
        "? c\nrev\na = nope(1)\na = div(1)\na = div(1, 0)\n",
        0,
        "no name c\nbad line\nno entry nope\nwrong number\ntrap DivideByZero at 8:38\n",
    ),
    ("session a.fp", "", 0, ""),
    (
        "session a.fp --words 6",
        "a = push(1, Nil)\nb = push(2, a)\nc = push(3, b)\n? b\n? c\n-b\n",
        0,
        "ok\nok\nstore too small: 3 needed, 0 left\nCons(2, Cons(1, Nil))\nno name c\nok\n",
    ),
    (
        "session a.fp --calls 2",
        "a = rev(Cons(1, Nil), Nil)\na = rev(Nil, Nil)\n? a\n",
        0,
        "ok\nbad result a\nCons(1, Nil)\n",
    ),
    (
        "session a.fp --frames 1",
        "a = inc(Cons(1, Cons(2, Nil)))\n? a\n",
        0,
        "out of frames: 1\nno name a\n",
    ),
    ("session a.fp --frames x", "Nil\n", 2, NOT_UNDERSTOOD),
    ("session nope.fp", "Nil\n", 9, "fault: folder\n"),
];

// Over `LISTS`.
const TASKS: &[Row<'static>] = &[
    (
        "tasks a.fp 1 20",
        "rev(Cons(1, Cons(2, Nil)), Nil)\ndiv(1, 0)\ninc(Cons(4, Nil))\n",
        0,
        "0: Cons(2, Cons(1, Nil))\n1: trap DivideByZero at 8:38\n2: Cons(5, Nil)\n",
    ),
    (
        "tasks a.fp 7 0",
        "len(Cons(4, Nil), 0)\nsized(Cons(4, Nil))\n",
        0,
        "0: 1\n1: Cons(4, Nil); 1\n",
    ),
    ("tasks a.fp 1 20", "", 0, ""),
    (
        "tasks a.fp 1 20",
        "rev(Cons(1, Cons(2, Nil)), Nil)\ndiv(1)\n",
        5,
        "bad task 2\n",
    ),
    ("tasks a.fp 1 20", "dup(1, Nil)\n", 5, "bad task 1\n"),
    (
        "tasks a.fp 1 20 --words 8",
        "rev(Cons(1, Cons(2, Nil)), Nil)\nrev(Cons(3, Nil), Nil)\n",
        6,
        "store too small: 9 needed, 8 given\n",
    ),
    (
        "tasks a.fp 1 20 --words 11",
        "rev(Cons(1, Cons(2, Nil)), Nil)\nrev(Cons(3, Nil), Cons(4, Nil))\n",
        6,
        "store too small: 12 needed, 11 given\n",
    ),
    (
        "tasks a.fp 1 20 --words 12",
        "rev(Cons(1, Cons(2, Nil)), Nil)\nrev(Cons(3, Nil), Cons(4, Nil))\n",
        0,
        "0: Cons(2, Cons(1, Nil))\n1: Cons(3, Cons(4, Nil))\n",
    ),
    (
        "tasks a.fp 1 20 --calls 2",
        "rev(Cons(1, Cons(2, Nil)), Nil)\nseven()\n",
        0,
        "0: out of calls: 2\n1: 7\n",
    ),
    (
        "tasks a.fp 1 20 --frames 1",
        "inc(Cons(1, Cons(2, Nil)))\nseven()\n",
        0,
        "0: out of frames: 1\n1: 7\n",
    ),
    ("tasks a.fp 1", "seven()\n", 2, NOT_UNDERSTOOD),
];

// Over `LISTS`: what derivations and traces end with.
const STORED: &[Row<'static>] = &[
    ("derive a.fp b.fpc", "Nil\n", 0, "derived\n"),
    ("derive nope.fp b.fpc", "Nil\n", 9, "fault: folder\n"),
    (
        "trace a.fp inc b.fpc",
        "Cons(1, Nil)\n",
        0,
        "Cons(2, Nil)\n",
    ),
    ("trace a.fp len b.fpc", "Cons(7, Nil)\n0\n", 0, "1\n"),
    (
        "trace a.fp div b.fpc",
        "1\n0\n",
        3,
        "trap DivideByZero at 8:38\n",
    ),
    ("trace a.fp dup b.fpc", "1\nNil\n", 1, "E71: dup\n"),
    ("trace a.fp nope b.fpc", "1\nNil\n", 1, "E70: nope\n"),
    ("trace a.fp rev b.fpc", "Nix\n", 5, "bad input at 2\n"),
    (
        "trace a.fp rev b.fpc --words 2",
        "Cons(1, Nil)\nNil\n",
        6,
        "store too small: 3 needed, 2 given\n",
    ),
    (
        "trace a.fp rev b.fpc --calls 1",
        "Cons(1, Nil)\nNil\n",
        4,
        "out of calls: 1\n",
    ),
    (
        "trace a.fp inc b.fpc --frames 0",
        "Cons(1, Nil)\n",
        7,
        "out of frames: 0\n",
    ),
    ("audit a.fp nope", "Nil\n", 9, "fault: folder\n"),
    ("replay nope 0", "Nil\n", 9, "fault: folder\n"),
    ("replay a.fp 0", "Nil\n", 8, "bad trace at 0\n"),
    ("replay a.fp x", "Nil\n", 2, NOT_UNDERSTOOD),
];

// Whether a run over these files ends with a status and a text, out's after status 0.
fn ends(
    alloc: Global,
    words: &str,
    host: Host<'_>,
    status: u8,
    text: &str,
) -> Result<bool, AllocError> {
    let seen = run::<Fp2>(alloc, words, host)?;
    let is_printed = if status == 0 {
        seen.out.as_slice() == text.as_bytes()
    } else {
        seen.err.as_slice() == text.as_bytes()
    };
    Ok(seen.status == status && is_printed && seen.same_files)
}

// The file that a command stores over `LISTS`; no bytes where it stores none.
fn stored(alloc: Global, words: &str, input: &str) -> Result<Vec<u8>, AllocError> {
    let host = host_of(LISTS.as_bytes(), input.as_bytes());
    match &run::<Fp2>(alloc, words, host)?.stored {
        Some(bytes) => Vec::from_slice(alloc, bytes.as_slice()),
        None => Ok(Vec::new(alloc)),
    }
}

// Whether `audit` over `LISTS` and a proof ends with a status and a text.
fn is_audited(alloc: Global, proof: &[u8], status: u8, text: &str) -> Result<bool, AllocError> {
    let host = Host {
        other: proof,
        ..host_of(LISTS.as_bytes(), b"Nil\n")
    };
    ends(alloc, "audit a.fp other", host, status, text)
}

// Whether `replay` of a trace prints this before its first step and this after its last one.
fn is_replayed(alloc: Global, trace: &[u8], first: &str, last: &str) -> Result<bool, AllocError> {
    let host = host_of(trace, b"");
    Ok(
        ends(alloc, "replay a.fp 0", host, 0, first)?
            && ends(alloc, "replay a.fp 1000000", host, 0, last)?,
    )
}

#[test]
fn sessions_answer_each_line(rt: HostRuntime) -> Result<(), Fail> {
    let lists = LISTS.as_bytes();
    assert_eq!(rt;
        first_wrong_run::<Fp2>(rt.alloc(), "", lists, SESSIONS)?,
        None
    );
    let wrong = b"fip fun f(x: int): int { y }\n";
    let host = host_of(wrong, b"? a\n");
    assert!(rt; ends(rt.alloc(), "session a.fp", host, 1, "E31 at 1:26: y\n")?);
    Ok(())
}

#[test]
fn tasks_answer_each_call(rt: HostRuntime) -> Result<(), Fail> {
    let lists = LISTS.as_bytes();
    assert_eq!(rt; first_wrong_run::<Fp2>(rt.alloc(), "", lists, TASKS)?, None);
    Ok(())
}

#[test]
fn derivations_and_traces_are_stored(rt: HostRuntime) -> Result<(), Fail> {
    let lists = LISTS.as_bytes();
    assert_eq!(rt;
        first_wrong_run::<Fp2>(rt.alloc(), "", lists, STORED)?,
        None
    );
    Ok(())
}

#[test]
fn a_stored_derivation_is_audited(rt: HostRuntime) -> Result<(), Fail> {
    let alloc = rt.alloc();
    let proof = stored(alloc, "derive a.fp b.fpc", "Nil\n")?;
    assert!(rt; is_audited(alloc, proof.as_slice(), 0, "derived\n")?);
    Ok(())
}

#[test]
fn a_broken_derivation_is_refused(rt: HostRuntime) -> Result<(), Fail> {
    let alloc = rt.alloc();
    assert!(rt; is_audited(alloc, b"as it was\n", 1, "E72: 0\n")?);
    let proof = stored(alloc, "derive a.fp b.fpc", "Nil\n")?;
    let front = &proof.as_slice()[..100.min(proof.len())];
    assert!(rt; is_audited(alloc, front, 1, "E72: 100\n")?);
    assert!(rt; is_audited(alloc, b"0 SCALAR[|]\n", 1, "E73\n")?);
    Ok(())
}

#[test]
fn a_stored_trace_is_replayed(rt: HostRuntime) -> Result<(), Fail> {
    let alloc = rt.alloc();
    let trace = stored(alloc, "trace a.fp inc b.fpc", "Cons(1, Nil)\n")?;
    assert!(rt;
        is_replayed(
            alloc,
            trace.as_slice(),
            "cell 0: tag 1 fields 1 0\n",
            "cell 0: tag 1 fields 2 0\n",
        )?
    );
    let trace = stored(alloc, "trace a.fp len b.fpc", "Cons(7, Nil)\n0\n")?;
    assert!(rt;
        is_replayed(
            alloc,
            trace.as_slice(),
            "cell 0: tag 1 fields 7 0\n",
            "free 0\n",
        )?
    );
    assert!(rt;
        ends(
            alloc,
            "replay a.fp 0",
            host_of(b"", b""),
            8,
            "bad trace at 0\n"
        )?
    );
    Ok(())
}
