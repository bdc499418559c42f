// What `exec`, `run` and `eval` end with, one table for all where they end alike.

use crate::program::Fp2;
use std::alloc::{AllocError, Global};
use std::test::Fail;
use test_host::programs::{ARGUMENTS, LIST, LISTS, MAPS, NOT_UNDERSTOOD, REVERSED};
use test_host::{Row, first_wrong_run, host_of, run};

// After the command and its file, over `LISTS`: what `exec`, `run` and `eval` end with.
const EVERYWHERE: &[Row<'static>] = &[
    ("rev", ARGUMENTS, 0, REVERSED),
    ("rev", "Nil\nNil", 0, "Nil\n"),
    (
        "rev",
        " Cons ( 1 ,\tCons(-2, Nil) )\r\nCons(003, Nil)\n \n",
        0,
        "Cons(-2, Cons(1, Cons(3, Nil)))\n",
    ),
    ("rev --calls 4", ARGUMENTS, 0, REVERSED),
    ("rev --calls 3", ARGUMENTS, 4, "out of calls: 3\n"),
    ("rev --calls=0", ARGUMENTS, 4, "out of calls: 0\n"),
    ("rev --calls 1000000000000", ARGUMENTS, 0, REVERSED),
    ("rev --calls 1000000000001", ARGUMENTS, 2, NOT_UNDERSTOOD),
    ("rev --calls -1", ARGUMENTS, 2, NOT_UNDERSTOOD),
    ("rev --calls x", ARGUMENTS, 2, NOT_UNDERSTOOD),
    ("rev --calls", ARGUMENTS, 2, NOT_UNDERSTOOD),
    ("rev --calls 4 --calls 4", ARGUMENTS, 2, NOT_UNDERSTOOD),
    ("rev --frames 0", ARGUMENTS, 0, REVERSED),
    ("rev --frames 1000000", ARGUMENTS, 0, REVERSED),
    ("rev --frames 1000001", ARGUMENTS, 2, NOT_UNDERSTOOD),
    ("rev more", ARGUMENTS, 2, NOT_UNDERSTOOD),
    ("rev --bogus", ARGUMENTS, 2, NOT_UNDERSTOOD),
    ("len", "Cons(7, Cons(8, Cons(9, Nil)))\n0\n", 0, "3\n"),
    ("inc", LIST, 0, "Cons(2, Cons(3, Cons(4, Nil)))\n"),
    (
        "inc --frames 3",
        LIST,
        0,
        "Cons(2, Cons(3, Cons(4, Nil)))\n",
    ),
    ("inc --frames 2", LIST, 7, "out of frames: 2\n"),
    ("inc --frames 0", LIST, 7, "out of frames: 0\n"),
    ("inc --frames 0", "Nil\n", 0, "Nil\n"),
    ("inc --calls 3 --frames 2", LIST, 4, "out of calls: 3\n"),
    ("inc --frames 2 --calls 4", LIST, 7, "out of frames: 2\n"),
    ("sized", LIST, 0, "Cons(1, Cons(2, Cons(3, Nil)))\n3\n"),
    ("push", "4\nCons(5, Nil)\n", 0, "Cons(4, Cons(5, Nil))\n"),
    ("div", "7\n-2\n", 0, "-3\n"),
    ("div", "1\n0\n", 3, "trap DivideByZero at 8:38\n"),
    (
        "div",
        "-9223372036854775808\n-1\n",
        3,
        "trap Overflow at 8:38\n",
    ),
    ("div --calls 0", "1\n0\n", 4, "out of calls: 0\n"),
    (
        "less",
        "-9223372036854775808\n9223372036854775807\n",
        0,
        "True\n",
    ),
    ("seven", "", 0, "7\n"),
    ("seven", "\n \n", 0, "7\n"),
    ("seven", "7\n", 5, "bad input at 0\n"),
    ("rev", "", 5, "bad input at 0\n"),
    ("rev", "Nil\n", 5, "bad input at 4\n"),
    ("rev", "Nil\nNil\nNil\n", 5, "bad input at 8\n"),
    ("rev", "Cons(1, Nix)\n", 5, "bad input at 10\n"),
    ("rev", "Cons(1, Nil, Nil)\nNil\n", 5, "bad input at 11\n"),
    ("rev", "Cons(- 1, Nil)\nNil\n", 5, "bad input at 6\n"),
    ("div", "9223372036854775808\n1\n", 5, "bad input at 18\n"),
    ("div", "-9223372036854775809\n1\n", 5, "bad input at 19\n"),
    ("div", "1 1\n", 5, "bad input at 2\n"),
    ("nope", ARGUMENTS, 1, "E70: nope\n"),
    ("", ARGUMENTS, 1, "E70\n"),
    ("id", "1\n", 1, "E70: id\n"),
    ("rev --calls +4", ARGUMENTS, 0, REVERSED),
    ("rev --calls 0004", ARGUMENTS, 0, REVERSED),
    ("rev --", ARGUMENTS, 0, REVERSED),
    ("rev --help", ARGUMENTS, 2, NOT_UNDERSTOOD),
];

// Over `LISTS`: what `exec` and `run` end with.
const ON_THE_MACHINE: &[Row<'static>] = &[
    (
        "rev --gauge",
        ARGUMENTS,
        0,
        "Cons(3, Cons(2, Cons(1, Nil)))
cells of 2: 3 to 3
stack: 0 frames, 9 words
bound: 0 frames, 9 words
",
    ),
    (
        "rev --gauge",
        "Nil\nNil\n",
        0,
        "Nil\nstack: 0 frames, 9 words\nbound: 0 frames, 9 words\n",
    ),
    (
        "len --gauge",
        "Cons(7, Cons(8, Cons(9, Nil)))\n0\n",
        0,
        "3\ncells of 2: 0 to 3\nstack: 0 frames, 10 words\n",
    ),
    (
        "inc --gauge",
        LIST,
        0,
        "Cons(2, Cons(3, Cons(4, Nil)))
cells of 2: 3 to 3
stack: 3 frames, 48 words
",
    ),
    (
        "sized --gauge",
        LIST,
        0,
        "Cons(1, Cons(2, Cons(3, Nil)))
3
cells of 2: 3 to 3
stack: 1 frames, 15 words
bound: 1 frames, 15 words
",
    ),
    (
        "push --gauge",
        "4\nCons(5, Nil)\n",
        0,
        "Cons(4, Cons(5, Nil))
cells of 2: 2 to 2
stack: 0 frames, 6 words
bound: 0 frames, 6 words
",
    ),
    (
        "less --gauge",
        "1\n2\n",
        0,
        "True\nstack: 0 frames, 5 words\nbound: 0 frames, 5 words\n",
    ),
    ("rev --words 9", ARGUMENTS, 0, REVERSED),
    (
        "rev --words 8",
        ARGUMENTS,
        6,
        "store too small: 9 needed, 8 given\n",
    ),
    ("rev --words 0", "Nil\nNil\n", 0, "Nil\n"),
    (
        "rev --words 0",
        ARGUMENTS,
        6,
        "store too small: 9 needed, 0 given\n",
    ),
    ("rev --words 16777216", ARGUMENTS, 0, REVERSED),
    ("rev --words 16777217", ARGUMENTS, 2, NOT_UNDERSTOOD),
    (
        "push --words 6",
        "4\nCons(5, Nil)\n",
        0,
        "Cons(4, Cons(5, Nil))\n",
    ),
    (
        "push --words 5",
        "4\nCons(5, Nil)\n",
        6,
        "store too small: 6 needed, 5 given\n",
    ),
    (
        "rev --words 8 --calls 0",
        ARGUMENTS,
        6,
        "store too small: 9 needed, 8 given\n",
    ),
    (
        "rev --words 8",
        "Cons(1, Cons(2, Cons(3, Nil)))\nNix\n",
        5,
        "bad input at 33\n",
    ),
];

// Over `MAPS`: what `exec`, `run` and `eval` end with.
const MAPPED: &[Row<'static>] = &[
    (
        "halves",
        "More(7, More(-7, End))\n",
        0,
        "More(-3, More(3, End))\n",
    ),
    (
        "bigs",
        "More(7, More(10, End))\n",
        0,
        "More(True, More(False, End))\n",
    ),
    (
        "both",
        "More(17, More(20, End))\n",
        0,
        "More(False, More(True, End))\n",
    ),
    ("map", "End\nEnd\n", 1, "E70: map\n"),
];

// Over `MAPS`: what `exec` and `run` end with.
const MAPPED_ON_THE_MACHINE: &[Row<'static>] = &[(
    "both --gauge",
    "More(17, More(20, End))\n",
    0,
    "More(False, More(True, End))
cells of 2: 2 to 2
stack: 2 frames, 19 words
bound: 2 frames, 19 words
",
)];

// Operators, one a function.
const OPERATORS: &str = "fip fun add(a: int, b: int): int { a + b }
fip fun div(a: int, b: int): int { a / b }
fip fun rem(a: int, b: int): int { a % b }
fip fun less(a: int, b: int): bool { a < b }
";

// Over `OPERATORS`: what `exec`, `run` and `eval` end with.
const OPERATED: &[Row<'static>] = &[
    (
        "add",
        "9223372036854775807\n1\n",
        3,
        "trap Overflow at 1:38\n",
    ),
    (
        "div",
        "-9223372036854775808\n-1\n",
        3,
        "trap Overflow at 2:38\n",
    ),
    ("div", "-7\n2\n", 0, "-3\n"),
    ("rem", "-9223372036854775808\n-1\n", 0, "0\n"),
    ("rem", "-7\n2\n", 0, "-1\n"),
    ("rem", "1\n0\n", 3, "trap DivideByZero at 3:38\n"),
    ("less", "1\n2\n", 0, "True\n"),
    ("less", "2\n2\n", 0, "False\n"),
];

// The code file that `compile` stores for a source; no bytes where it stores none.
fn compiled(alloc: Global, source: &str) -> Result<Vec<u8>, AllocError> {
    let seen = run::<Fp2>(alloc, "compile a.fp b.fpc", host_of(source.as_bytes(), b""))?;
    match &seen.stored {
        Some(bytes) => Vec::from_slice(alloc, bytes.as_slice()),
        None => Ok(Vec::new(alloc)),
    }
}

// What `run` ends with over the code of `LISTS`, which has no plain functions.
const PLAIN: &[Row<'static>] = &[("dup", "4\nNil\n", 1, "E70: dup\n")];

#[test]
fn exec_runs_a_source(rt: HostRuntime) -> Result<(), Fail> {
    let alloc = rt.alloc();
    let lists = LISTS.as_bytes();
    assert_eq!(rt;
        first_wrong_run::<Fp2>(alloc, "exec a.fp ", lists, EVERYWHERE)?,
        None
    );
    assert_eq!(rt;
        first_wrong_run::<Fp2>(alloc, "exec a.fp ", lists, ON_THE_MACHINE)?,
        None
    );
    let maps = MAPS.as_bytes();
    assert_eq!(rt;
        first_wrong_run::<Fp2>(alloc, "exec a.fp ", maps, MAPPED)?,
        None
    );
    assert_eq!(rt;
        first_wrong_run::<Fp2>(alloc, "exec a.fp ", maps, MAPPED_ON_THE_MACHINE)?,
        None
    );
    Ok(())
}

#[test]
fn run_runs_a_stored_code_as_exec_its_source(rt: HostRuntime) -> Result<(), Fail> {
    let alloc = rt.alloc();
    let lists = compiled(alloc, LISTS)?;
    assert_eq!(rt;
        first_wrong_run::<Fp2>(alloc, "run a.fp ", lists.as_slice(), EVERYWHERE)?,
        None
    );
    assert_eq!(rt;
        first_wrong_run::<Fp2>(alloc, "run a.fp ", lists.as_slice(), ON_THE_MACHINE)?,
        None
    );
    assert_eq!(rt;
        first_wrong_run::<Fp2>(alloc, "run a.fp ", lists.as_slice(), PLAIN)?,
        None
    );
    let maps = compiled(alloc, MAPS)?;
    assert_eq!(rt;
        first_wrong_run::<Fp2>(alloc, "run a.fp ", maps.as_slice(), MAPPED)?,
        None
    );
    assert_eq!(rt;
        first_wrong_run::<Fp2>(alloc, "run a.fp ", maps.as_slice(), MAPPED_ON_THE_MACHINE)?,
        None
    );
    Ok(())
}

#[test]
fn eval_evaluates_a_source(rt: HostRuntime) -> Result<(), Fail> {
    let alloc = rt.alloc();
    assert_eq!(rt;
        first_wrong_run::<Fp2>(alloc, "eval a.fp ", LISTS.as_bytes(), EVERYWHERE)?,
        None
    );
    assert_eq!(rt;
        first_wrong_run::<Fp2>(alloc, "eval a.fp ", MAPS.as_bytes(), MAPPED)?,
        None
    );
    Ok(())
}

#[test]
fn operators_trap_where_the_exact_result_is_outside(rt: HostRuntime) -> Result<(), Fail> {
    let alloc = rt.alloc();
    let source = OPERATORS.as_bytes();
    assert_eq!(rt;
        first_wrong_run::<Fp2>(alloc, "exec a.fp ", source, OPERATED)?,
        None
    );
    assert_eq!(rt;
        first_wrong_run::<Fp2>(alloc, "eval a.fp ", source, OPERATED)?,
        None
    );
    let code = compiled(alloc, OPERATORS)?;
    assert_eq!(rt;
        first_wrong_run::<Fp2>(alloc, "run a.fp ", code.as_slice(), OPERATED)?,
        None
    );
    Ok(())
}

// Over `LISTS`: how many cells of 2 fields a command leaves, where it leaves any.
const LEFT: &[(&str, &str, Option<usize>)] = &[
    ("exec a.fp rev", ARGUMENTS, Some(3)),
    ("exec a.fp rev --calls 3", ARGUMENTS, Some(3)),
    ("exec a.fp len", "Cons(7, Cons(8, Nil))\n0\n", Some(0)),
    ("exec a.fp inc --frames 2", LIST, Some(3)),
    ("exec a.fp div", "1\n0\n", Some(0)),
    ("exec a.fp div", "1\n", None),
    ("exec a.fp rev --words 8", ARGUMENTS, None),
    ("exec a.fp nope", ARGUMENTS, None),
    ("eval a.fp rev", ARGUMENTS, None),
    ("trace a.fp rev b.fpc", ARGUMENTS, Some(3)),
    ("check a.fp", "", None),
];

#[test]
fn a_run_that_ended_leaves_its_cells(rt: HostRuntime) -> Result<(), Fail> {
    for (words, input, cells) in LEFT {
        let host = host_of(LISTS.as_bytes(), input.as_bytes());
        assert_eq!(rt; run::<Fp2>(rt.alloc(), words, host)?.cells, *cells);
    }
    Ok(())
}
