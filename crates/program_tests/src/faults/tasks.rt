// Each call of each object fails in turn, the streams moving one byte a call, until a run ends without a fault.

use crate::program::Fp2;
use std::alloc::{AllocError, Global};
use std::test::Fail;
use test_host::programs::LISTS;
use test_host::{FaultRow, Host, first_wrong_faults, host_of, run};

// Over `LISTS`. The counts are those of the folder, the input, out and err.
const ON_SOURCES: &[FaultRow<'static>] = &[
    (
        (
            "session a.fp",
            "a = rev(Cons(1, Cons(2, Nil)), Nil)\n? a\n",
            0,
            "ok\nCons(2, Cons(1, Nil))\n",
        ),
        [1, 41, 25, 0],
    ),
    (
        (
            "tasks a.fp 1 20",
            "div(1, 0)\nrev(Cons(1, Nil), Nil)\n",
            0,
            "0: trap DivideByZero at 8:38\n1: Cons(1, Nil)\n",
        ),
        [1, 34, 45, 0],
    ),
    (
        ("tasks a.fp 1 20", "div(1)\n", 5, "bad task 1\n"),
        [1, 8, 0, 11],
    ),
    (("derive a.fp b.fpc", "Nil\n", 0, "derived\n"), [2, 0, 8, 0]),
    (
        (
            "trace a.fp inc b.fpc",
            "Cons(1, Nil)\n",
            0,
            "Cons(2, Nil)\n",
        ),
        [2, 14, 13, 0],
    ),
    (
        (
            "trace a.fp div b.fpc",
            "1\n0\n",
            3,
            "trap DivideByZero at 8:38\n",
        ),
        [1, 5, 0, 26],
    ),
];

// Over `LISTS` and its derivation.
const ON_PROOFS: &[FaultRow<'static>] = &[(
    ("audit a.fp other", "Nil\n", 0, "derived\n"),
    [2, 0, 8, 0],
)];

// Over `LISTS` and a file that is no derivation.
const ON_NO_PROOFS: &[FaultRow<'static>] = &[(
    ("audit a.fp other", "Nil\n", 1, "E72: 0\n"),
    [2, 0, 0, 7],
)];

// Over a trace of `inc`.
const ON_TRACES: &[FaultRow<'static>] = &[(
    (
        "replay a.fp 1000000",
        "Nil\n",
        0,
        "cell 0: tag 1 fields 2 0\n",
    ),
    [1, 0, 25, 0],
)];

// The file that a command stores over `LISTS`; no bytes where it stores none.
fn stored(alloc: Global, words: &str, input: &str) -> Result<Vec<u8>, AllocError> {
    let host = host_of(LISTS.as_bytes(), input.as_bytes());
    match &run::<Fp2>(alloc, words, host)?.stored {
        Some(bytes) => Vec::from_slice(alloc, bytes.as_slice()),
        None => Ok(Vec::new(alloc)),
    }
}

#[test]
fn each_fault_of_a_command_over_a_source_is_reported(rt: HostRuntime) -> Result<(), Fail> {
    let host = host_of(LISTS.as_bytes(), b"");
    assert_eq!(rt;
        first_wrong_faults::<Fp2>(rt.alloc(), host, ON_SOURCES)?,
        None
    );
    Ok(())
}

#[test]
fn each_fault_of_an_audit_is_reported(rt: HostRuntime) -> Result<(), Fail> {
    let alloc = rt.alloc();
    let host = host_of(LISTS.as_bytes(), b"");
    assert_eq!(rt; first_wrong_faults::<Fp2>(alloc, host, ON_NO_PROOFS)?, None);
    let proof = stored(alloc, "derive a.fp b.fpc", "Nil\n")?;
    let host = Host {
        other: proof.as_slice(),
        ..host
    };
    assert_eq!(rt; first_wrong_faults::<Fp2>(alloc, host, ON_PROOFS)?, None);
    Ok(())
}

#[test]
fn each_fault_of_a_replay_is_reported(rt: HostRuntime) -> Result<(), Fail> {
    let alloc = rt.alloc();
    let trace = stored(alloc, "trace a.fp inc b.fpc", "Cons(1, Nil)\n")?;
    let host = host_of(trace.as_slice(), b"");
    assert_eq!(rt; first_wrong_faults::<Fp2>(alloc, host, ON_TRACES)?, None);
    Ok(())
}
