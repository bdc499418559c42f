// `exec` of a source that breaks no rule, and of some that do.

use crate::program::Fp2;
use std::test::Fail;
use test_host::programs::{ARGUMENTS, NOT_UNDERSTOOD, REVERSED};
use test_host::{
    FaultRow, Host, Object, Row, first_wrong_faults, first_wrong_run, host_of, run, untold_runs,
};

// The program that reverses a list in its own cells.
const REVERSE: &str = "data ints { Nil; Cons(int, ints) }
fip fun rev(xs: ints, acc: ints): ints {
  match! xs { Nil -> acc; Cons(x, t) -> rev(t, Cons(x, acc)) }
}
";

// What it prints of `ARGUMENTS`, with the gauge's lines.
const GAUGED: &str = "Cons(3, Cons(2, Cons(1, Nil)))
cells of 2: 3 to 3
stack: 0 frames, 9 words
bound: 0 frames, 9 words
";

// Over `REVERSE`.
const ROWS: &[Row<'static>] = &[
    ("rev", ARGUMENTS, 0, REVERSED),
    ("rev --gauge", ARGUMENTS, 0, GAUGED),
    (
        "rev --gauge",
        "Nil\nNil\n",
        0,
        "Nil\nstack: 0 frames, 9 words\nbound: 0 frames, 9 words\n",
    ),
    ("rev --calls 4", ARGUMENTS, 0, REVERSED),
    ("rev --calls 3", ARGUMENTS, 4, "out of calls: 3\n"),
    ("rev --calls 0", ARGUMENTS, 4, "out of calls: 0\n"),
    ("rev --calls=1000000000000", ARGUMENTS, 0, REVERSED),
    ("rev --calls 1000000000001", ARGUMENTS, 2, NOT_UNDERSTOOD),
    ("rev --frames 0", ARGUMENTS, 0, REVERSED),
    ("rev --words 9", ARGUMENTS, 0, REVERSED),
    (
        "rev --words 8",
        ARGUMENTS,
        6,
        "store too small: 9 needed, 8 given\n",
    ),
    (
        "rev --words 8 --calls 0",
        ARGUMENTS,
        6,
        "store too small: 9 needed, 8 given\n",
    ),
    ("rev --words 0", "Nil\nNil", 0, "Nil\n"),
    ("rev --words 16777216", ARGUMENTS, 0, REVERSED),
    ("rev --words 16777217", ARGUMENTS, 2, NOT_UNDERSTOOD),
    ("rev", "Nil\nNil\nNil\n", 5, "bad input at 8\n"),
    ("rev", "Cons(1, Nix)\n", 5, "bad input at 10\n"),
    ("rev", "", 5, "bad input at 0\n"),
    ("f", ARGUMENTS, 1, "E70: f\n"),
    ("", ARGUMENTS, 1, "E70\n"),
];

#[test]
fn a_source_runs(rt: HostRuntime) -> Result<(), Fail> {
    assert_eq!(rt;
        first_wrong_run::<Fp2>(rt.alloc(), "exec a.fp ", REVERSE.as_bytes(), ROWS)?,
        None
    );
    Ok(())
}

// Sources on which `exec` ends with status 1, each with the text.
const REFUSED: &[(&str, &str)] = &[
    ("", "E70: rev\n"),
    ("// nothing", "E70: rev\n"),
    ("fip fun f(): int { -9223372036854775808 }\n", "E70: rev\n"),
    (
        "fip fun f(): int { 9223372036854775808 }\n",
        "E04 at 1:20\n",
    ),
    ("fip fun f(x int): int { x }\n", "E02 at 1:13\n"),
    ("data inf { Mk(inf) }\n", "E13 at 1:6: inf\n"),
    ("#", "E01 at 1:1\n"),
];

#[test]
fn the_entry_is_looked_up_after_all_rules(rt: HostRuntime) -> Result<(), Fail> {
    for (source, text) in REFUSED {
        let rows: [Row<'_>; 1] = [("exec a.fp rev", ARGUMENTS, 1, *text)];
        assert_eq!(rt;
            first_wrong_run::<Fp2>(rt.alloc(), "", source.as_bytes(), &rows)?,
            None
        );
    }
    Ok(())
}

// Over `REVERSE`. The counts are those of the folder, the input, out and err.
const FAULTS: &[FaultRow<'static>] = &[
    (
        ("exec a.fp rev --gauge", ARGUMENTS, 0, GAUGED),
        [1, 36, 100, 0],
    ),
    (
        ("exec a.fp rev --calls 0", ARGUMENTS, 4, "out of calls: 0\n"),
        [1, 36, 0, 16],
    ),
    (("exec a.fp f", ARGUMENTS, 1, "E70: f\n"), [1, 0, 0, 7]),
];

#[test]
fn each_fault_is_reported(rt: HostRuntime) -> Result<(), Fail> {
    let alloc = rt.alloc();
    let source = REVERSE.as_bytes();
    assert_eq!(rt;
        first_wrong_faults::<Fp2>(alloc, host_of(source, b""), FAULTS)?,
        None
    );
    let row = ("exec a.fp rev", ARGUMENTS, 0, REVERSED);
    assert_eq!(rt;
        untold_runs::<Fp2>(alloc, source, row, Object::Folder)?,
        Some(14)
    );
    assert_eq!(rt;
        untold_runs::<Fp2>(alloc, source, row, Object::Input)?,
        Some(13)
    );
    assert_eq!(rt;
        untold_runs::<Fp2>(alloc, source, row, Object::Out)?,
        Some(11)
    );
    Ok(())
}

#[test]
fn out_keeps_what_came_before_its_second_call_failed(rt: HostRuntime) -> Result<(), Fail> {
    let host = Host {
        pieces: &[5],
        room: 64,
        out_fails: &[2],
        ..host_of(REVERSE.as_bytes(), ARGUMENTS.as_bytes())
    };
    let seen = run::<Fp2>(rt.alloc(), "exec a.fp rev --gauge", host)?;
    assert_eq!(rt; seen.status, 9);
    assert_eq!(rt; seen.out.as_slice(), b"Cons(".as_slice());
    assert_eq!(rt; seen.err.as_slice(), b"fault: out\n".as_slice());
    Ok(())
}

#[test]
fn a_full_sink_is_a_fault_of_out(rt: HostRuntime) -> Result<(), Fail> {
    let host = Host {
        room: 10,
        ..host_of(REVERSE.as_bytes(), ARGUMENTS.as_bytes())
    };
    let seen = run::<Fp2>(rt.alloc(), "exec a.fp rev", host)?;
    assert_eq!(rt; seen.status, 9);
    assert_eq!(rt; seen.out.as_slice(), b"Cons(3, Co".as_slice());
    assert_eq!(rt; seen.err.as_slice(), b"fault: out\n".as_slice());
    Ok(())
}
