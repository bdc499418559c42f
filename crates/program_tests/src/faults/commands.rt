// Each call of each object of a host fails in turn, the streams moving one byte a call, until a run ends without a
// fault.

use crate::program::Fp2;
use std::test::Fail;
use test_host::programs::{ARGUMENTS, FUNCTIONS, LIST, LISTS, NEW_REVERSE, NOT_UNDERSTOOD};
use test_host::{FaultRow, Object, bytes_of, first_wrong_faults, host_of, untold_runs};

// Over `LISTS`. The counts are those of the folder, the input, out and err.
const ON_SOURCES: &[FaultRow<'static>] = &[
    (
        (
            "exec a.fp len --gauge",
            "Cons(7, Cons(8, Cons(9, Nil)))\n0\n",
            0,
            "3
cells of 2: 0 to 3
stack: 0 frames, 10 words
",
        ),
        [1, 34, 47, 0],
    ),
    (
        ("exec a.fp div", "1\n0\n", 3, "trap DivideByZero at 8:38\n"),
        [1, 5, 0, 26],
    ),
    (
        ("exec a.fp rev", "Nix", 5, "bad input at 2\n"),
        [1, 4, 0, 15],
    ),
    (("exec a.fp dup", "4\nNil\n", 1, "E71: dup\n"), [1, 0, 0, 9]),
    (
        ("eval a.fp dup", "4\nNil\n", 0, "Cons(4, Cons(4, Nil))\n"),
        [1, 7, 22, 0],
    ),
    (
        ("eval a.fp inc --frames 2", LIST, 7, "out of frames: 2\n"),
        [1, 32, 0, 17],
    ),
    (("check a.fp", "Nil\n", 0, FUNCTIONS), [1, 0, 255, 0]),
    (
        ("compile a.fp b.fpc", "Nil\n", 0, FUNCTIONS),
        [2, 0, 255, 0],
    ),
];

// Commands without a file.
const ON_NO_FILE: &[FaultRow<'static>] = &[
    (
        (
            "gen 1 3",
            "Nil\n",
            0,
            "keys 3
nodes 3
least 377401575
greatest 1103527590
",
        ),
        [0, 0, 51, 0],
    ),
    (("gen 1", "", 2, NOT_UNDERSTOOD), [0, 0, 0, 26]),
];

// Over the code of list reversal.
const ON_CODES: &[FaultRow<'static>] = &[
    (
        (
            "run a.fp rev --gauge",
            ARGUMENTS,
            0,
            "Cons(3, Cons(2, Cons(1, Nil)))
cells of 2: 3 to 3
stack: 0 frames, 9 words
bound: 0 frames, 9 words
",
        ),
        [1, 36, 100, 0],
    ),
    (
        (
            "run a.fp rev --words 8",
            ARGUMENTS,
            6,
            "store too small: 9 needed, 8 given\n",
        ),
        [1, 36, 0, 35],
    ),
    (
        ("run a.fp rev --calls 3", ARGUMENTS, 4, "out of calls: 3\n"),
        [1, 36, 0, 16],
    ),
    (
        (
            "verify a.fp",
            "Nil\n",
            0,
            "rev fip stack 0 frames 9 words\n",
        ),
        [1, 0, 31, 0],
    ),
    (
        (
            "upgrade a.fp b.fpc",
            "Nil\n",
            0,
            "rev fip stack 0 frames 9 words\n",
        ),
        [2, 0, 31, 0],
    ),
    (
        ("run a.fp nope", ARGUMENTS, 1, "E70: nope\n"),
        [1, 0, 0, 10],
    ),
];

#[test]
fn each_fault_of_a_command_over_a_source_is_reported(rt: HostRuntime) -> Result<(), Fail> {
    assert_eq!(rt;
        first_wrong_faults::<Fp2>(rt.alloc(), host_of(LISTS.as_bytes(), b""), ON_SOURCES)?,
        None
    );
    Ok(())
}

#[test]
fn each_fault_of_a_command_without_a_file_is_reported(rt: HostRuntime) -> Result<(), Fail> {
    assert_eq!(rt;
        first_wrong_faults::<Fp2>(rt.alloc(), host_of(b"", b""), ON_NO_FILE)?,
        None
    );
    Ok(())
}

#[test]
fn each_fault_of_a_command_over_a_code_is_reported(rt: HostRuntime) -> Result<(), Fail> {
    let alloc = rt.alloc();
    let code = bytes_of(alloc, NEW_REVERSE)?;
    assert_eq!(rt;
        first_wrong_faults::<Fp2>(alloc, host_of(code.as_slice(), b""), ON_CODES)?,
        None
    );
    Ok(())
}

#[test]
fn a_fault_that_cannot_be_reported_stays_status_9(rt: HostRuntime) -> Result<(), Fail> {
    let alloc = rt.alloc();
    let lists = LISTS.as_bytes();
    let row = ("exec a.fp inc", LIST, 0, "Cons(2, Cons(3, Cons(4, Nil)))\n");
    assert_eq!(rt;
        untold_runs::<Fp2>(alloc, lists, row, Object::Folder)?,
        Some(14)
    );
    assert_eq!(rt;
        untold_runs::<Fp2>(alloc, lists, row, Object::Input)?,
        Some(13)
    );
    assert_eq!(rt;
        untold_runs::<Fp2>(alloc, lists, row, Object::Out)?,
        Some(11)
    );
    let row = ("compile a.fp b.fpc", "", 0, FUNCTIONS);
    assert_eq!(rt;
        untold_runs::<Fp2>(alloc, lists, row, Object::Folder)?,
        Some(14)
    );
    assert_eq!(rt;
        untold_runs::<Fp2>(alloc, lists, row, Object::Out)?,
        Some(11)
    );
    Ok(())
}
