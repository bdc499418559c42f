// Command lines: what is one, and what each command does with the words of its own.

use crate::program::Fp2;
use std::test::Fail;
use test_host::programs::{ARGUMENTS, FUNCTIONS, LISTS, MISSING};
use test_host::{Row, first_understood, first_wrong_run};

// Over `LISTS`.
const LINES: &[Row<'static>] = &[
    ("exec --calls 3 a.fp rev", ARGUMENTS, 4, "out of calls: 3\n"),
    ("exec a.fp --calls=3 rev", ARGUMENTS, 4, "out of calls: 3\n"),
    ("exec b.fp rev", ARGUMENTS, 9, MISSING),
    ("exec  rev", ARGUMENTS, 9, MISSING),
    ("eval b.fp rev", ARGUMENTS, 9, MISSING),
    ("eval a.fp dup", "4\nNil\n", 0, "Cons(4, Cons(4, Nil))\n"),
    ("exec a.fp dup", "4\nNil\n", 1, "E71: dup\n"),
    (
        "eval a.fp push --calls 1",
        "4\nCons(5, Nil)\n",
        0,
        "Cons(4, Cons(5, Nil))\n",
    ),
    ("run b.fp rev", ARGUMENTS, 9, MISSING),
    ("check b.fp", "", 9, MISSING),
    ("check a.fp", "Nil\n", 0, FUNCTIONS),
    ("compile b.fp b.fpc", "", 9, MISSING),
    ("compile a.fp b.fpc", "Nil\n", 0, FUNCTIONS),
    ("verify b.fp", "", 9, MISSING),
    ("verify a.fp", "", 8, "bad code at 0\n"),
    ("run a.fp rev", ARGUMENTS, 8, "bad code at 0\n"),
    ("upgrade a.fp b.fpc", "", 8, "bad code at 0\n"),
    ("upgrade b.fp b.fpc", "", 9, MISSING),
    (
        "gen 1 3",
        "",
        0,
        "keys 3\nnodes 3\nleast 377401575\ngreatest 1103527590\n",
    ),
    (
        "gen 2147483647 1",
        "",
        0,
        "keys 1\nnodes 1\nleast 1043980748\ngreatest 1043980748\n",
    ),
    (
        "gen 0 1",
        "",
        0,
        "keys 1\nnodes 1\nleast 12345\ngreatest 12345\n",
    ),
    (
        "gen 7 2000",
        "Nil\n",
        0,
        "keys 2000\nnodes 2000\nleast 2396126\ngreatest 2147352543\n",
    ),
    (
        "gen 12345 1",
        "",
        0,
        "keys 1\nnodes 1\nleast 1406932606\ngreatest 1406932606\n",
    ),
    ("check -- a.fp", "", 0, FUNCTIONS),
];

// No commands.
const NO_COMMANDS: &[&str] = &[
    "exec a.fp --gauge",
    "exec a.fp rev --gauge --gauge",
    "exec a.fp rev --gauge=true",
    "exec a.fp rev --cal 3",
    "exec a.fp",
    "exec",
    "EXEC a.fp rev",
    "eval a.fp",
    "eval a.fp rev --gauge",
    "eval a.fp rev --words 9",
    "run a.fp",
    "check",
    "check a.fp b.fp",
    "check a.fp --gauge",
    "compile a.fp",
    "compile a.fp b.fpc more",
    "verify",
    "verify a.fp b.fp",
    "upgrade a.fp",
    "upgrade a.fp b.fpc more",
    "library",
    "library none",
    "library List",
    "library list tree",
    "library ",
    "gen",
    "gen 1",
    "gen 1 0",
    "gen 1 100001",
    "gen -1 3",
    "gen 2147483648 3",
    "gen 1 3 3",
    "gen x 3",
    "help",
    "--help",
    "-h",
    "--version",
    "bogus",
    "",
    "help check",
    "check --help",
    "check --",
];

#[test]
fn each_command_line_ends_with_its_status_and_text(rt: HostRuntime) -> Result<(), Fail> {
    assert_eq!(rt;
        first_wrong_run::<Fp2>(rt.alloc(), "", LISTS.as_bytes(), LINES)?,
        None
    );
    Ok(())
}

#[test]
fn other_words_are_not_understood(rt: HostRuntime) -> Result<(), Fail> {
    assert_eq!(rt;
        first_understood::<Fp2>(rt.alloc(), LISTS.as_bytes(), NO_COMMANDS)?,
        None
    );
    Ok(())
}
