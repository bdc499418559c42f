// Code files from anywhere: each rule of sound code is broken, each part of a file; and `upgrade`.

use crate::program::Fp2;
use std::alloc::{AllocError, Global};
use std::test::Fail;
use test_host::programs::{ARGUMENTS, CODED_FUNCTIONS, LISTS, NEW_REVERSE, OLD_REVERSE, REVERSED};
use test_host::{Row, bytes_of, first_wrong_code, first_wrong_run, host_of, repeated, run};

// The front of a code file of version 2 with the types `bool` and `ints { Nil; Cons(int, ints) }` and one fip function
// `f`, which owns an `ints`, gives one, and has six registers.
const HEAD: &str = "46503243 0002 0002 00000002 00000005 46616c7365 00 00000004 54727565 00
00000002 00000003 4e696c 00 00000004 436f6e73 02 0000 0002 0001 00 00000001 66 0001 00 0002 00 01 0002 0006 ";

// Tables of types and of functions that break S0.
const UNSOUND_TABLES: &[&str] = &[
    "unsound function 0 instruction 0 rule S0 | 46503243 0002 0000 0000",
    "unsound function 0 instruction 0 rule S0 | 46503243 0002 0001 00000002 00000005 46616c7365 00 00000005
46616c7365 00 0000",
    "unsound function 0 instruction 0 rule S0 | 46503243 0002 0002 00000002 00000005 46616c7365 00 00000004
54727565 00 00000001 00000002 4d6b 01 0002 0000",
];

// S1 to S9 are broken after `HEAD`.
const UNSOUND: &[&str] = &[
    "unsound function 0 instruction 0 rule S1 | 00000001 0f 00000000 00000000",
    "unsound function 0 instruction 0 rule S1 | 00000001 0e 01 0006 00000000",
    "unsound function 0 instruction 0 rule S1 | 00000001 0d 00000001 0001 0000 00000000",
    "unsound function 0 instruction 0 rule S2 | 00000001 0e 01 0001 00000000",
    "unsound function 0 instruction 0 rule S2 | 00000002 08 0000 02 0001 0002 0e 01 0000 00000000",
    "unsound function 0 instruction 1 rule S2 | 00000002 03 0001 0000 0e 01 0000 00000000",
    "unsound function 0 instruction 0 rule S2 | 00000001 0d 00000000 0000 00000000",
    "unsound function 0 instruction 0 rule S3 | 00000002 02 0000 0002 00000000 0e 01 0000 00000000",
    "unsound function 0 instruction 0 rule S4 | 00000001 01 0001 0000000000000005 00000000",
    "unsound function 0 instruction 0 rule S5 | 00000003 05 0000 00000001 00000002 0e 01 0000 0e 01 0000 00000001
00000002 01 0002 0001 00000001 00 00 00 00 00",
    "unsound function 0 instruction 1 rule S6 | 00000002 02 0001 0002 00000000 0e 01 0001 00000000",
    "unsound function 0 instruction 0 rule S7 | 00000003 0a 0000 02 0001 0002 00000000 0e 01 0001 00000000",
    "unsound function 0 instruction 0 rule S8 | 00000002 0c 00000000 0001 0000 01 0001 0e 01 0001 00000000",
    "unsound function 0 instruction 0 rule S9 | 00000000 00000000",
    "unsound function 0 instruction 0 rule S9 | 00000001 0e 01 0000 00000001 00000000 00 00 00 00 00 00",
];

// After `HEAD`: the code of the row on S5 with a label that says what the test leaves, `Nil`.
const LABELLED: &str = "00000003 05 0000 00000001 00000002 0e 01 0000 0e 01 0000
00000001 00000002 01 0002 0001 00000000 00 00 00 00 00";

// The types of `HEAD`, the function `f` as there, which ends in a Tail, and the function `g` that it goes to, which gives
// an int besides.
const UNSOUND_TAILS: &[&str] = &[
    "unsound function 0 instruction 0 rule S2 | 46503243 0002 0002 00000002 00000005 46616c7365 00 00000004 54727565 00
00000002 00000003 4e696c 00 00000004 436f6e73 02 0000 0002
0002 00 00000001 66 0001 00 0002 00 01 0002 0006 00000001 0d 00000001 0001 0000 00000000
00 00000001 67 0001 00 0002 00 02 0002 0000 0002 00000002 01 0001 0000000000000005 0e 02 0000 0001 00000000",
];

// No code files: each ends at the offset, or has a byte there that can't be there.
const BROKEN: &[&str] = &[
    "bad code at 0 | ",
    "bad code at 0 | 00",
    "bad code at 2 | 4650",
    "bad code at 3 | 46503244",
    "bad code at 4 | 46503243",
    "bad code at 5 | 46503243 00",
    "bad code at 5 | 46503243 0003 0000",
    "bad code at 5 | 46503243 0000 0000",
    "bad code at 10 | 46503243 0002 0000 0000 00",
    "bad code at 10 | 46503243 0002 0001 0000",
    "bad code at 15 | 46503243 0002 0001 00000001 00000000",
    "bad code at 16 | 46503243 0002 0001 00000001 00000001 61",
    "bad code at 17 | 46503243 0002 0001 00000001 00000002 4121 00 0000",
    "bad code at 10 | 46503243 0002 0000 0001 02",
    "bad code at 15 | 46503243 0002 0000 0001 00 00000001 41",
    "bad code at 17 | 46503243 0002 0000 0001 00 00000003 66756e 0000",
    "bad code at 17 | 46503243 0002 0000 0001 00 00000000 0001 02",
    "bad code at 17 | 46503243 0002 0000 0001 00 00000000 0000 11",
    "bad code at 18 | 46503243 0002 0000 0001 00 00000000 0000 01 00",
    "bad code at 18 | 46503243 0002 0000 0001 00 00000000 0000 01 11",
];

// No code files after `HEAD`.
const BROKEN_FUNCTIONS: &[&str] = &[
    "bad code at 79 | 00000001 00",
    "bad code at 79 | 00000001 10",
    "bad code at 82 | 00000001 04 0000 0b",
    "bad code at 87 | 00000000 00000001 00000001 05",
    "bad code at 89 | 00000000 00000001 00000001 04 00",
    "bad code at 100 | 00000000 00000001 00000001 02 0002 0001 00000000 ffff ffff 01",
    "bad code at 87 | 00000001 0e 01 0000 00000000 00",
    "bad code at 75 | ",
];

#[test]
fn unsound_codes_are_refused(rt: HostRuntime) -> Result<(), Fail> {
    assert_eq!(rt;
        first_wrong_code::<Fp2>(rt.alloc(), "", UNSOUND_TABLES)?,
        None
    );
    assert_eq!(rt; first_wrong_code::<Fp2>(rt.alloc(), HEAD, UNSOUND)?, None);
    assert_eq!(rt;
        first_wrong_code::<Fp2>(rt.alloc(), "", UNSOUND_TAILS)?,
        None
    );
    Ok(())
}

#[test]
fn a_label_may_say_what_the_test_leaves(rt: HostRuntime) -> Result<(), Fail> {
    let alloc = rt.alloc();
    let digits = format!(in alloc; "{}{}", HEAD, LABELLED)?;
    let code = bytes_of(alloc, digits.as_str())?;
    let rows: [Row<'_>; 3] = [
        ("verify a.fp", "", 0, "f fip stack 0 frames 8 words\n"),
        ("run a.fp f", "Nil\n", 0, "Nil\n"),
        ("run a.fp f", "Cons(1, Nil)\n", 0, "Cons(1, Nil)\n"),
    ];
    assert_eq!(rt;
        first_wrong_run::<Fp2>(alloc, "", code.as_slice(), &rows)?,
        None
    );
    Ok(())
}

#[test]
fn broken_code_files_are_refused(rt: HostRuntime) -> Result<(), Fail> {
    assert_eq!(rt; first_wrong_code::<Fp2>(rt.alloc(), "", BROKEN)?, None);
    assert_eq!(rt;
        first_wrong_code::<Fp2>(rt.alloc(), HEAD, BROKEN_FUNCTIONS)?,
        None
    );
    Ok(())
}

// What the commands over a code end with for it.
const ON_REVERSE: &[Row<'static>] = &[
    ("verify a.fp", "", 0, "rev fip stack 0 frames 9 words\n"),
    (
        "upgrade a.fp b.fpc",
        "",
        0,
        "rev fip stack 0 frames 9 words\n",
    ),
    ("run a.fp rev", ARGUMENTS, 0, REVERSED),
    ("run a.fp rev --calls 3", ARGUMENTS, 4, "out of calls: 3\n"),
    ("run a.fp nope", ARGUMENTS, 1, "E70: nope\n"),
    ("run a.fp ", ARGUMENTS, 1, "E70\n"),
];

// Whether the commands over a code end as `ON_REVERSE` says, and `upgrade` stores these bytes.
fn is_reverse(alloc: Global, code: &[u8], upgraded: &[u8]) -> Result<bool, AllocError> {
    let seen = run::<Fp2>(alloc, "upgrade a.fp b.fpc", host_of(code, b""))?;
    let stored = match &seen.stored {
        Some(bytes) => bytes.as_slice() == upgraded,
        None => false,
    };
    Ok(stored && first_wrong_run::<Fp2>(alloc, "", code, ON_REVERSE)?.is_none())
}

#[test]
fn both_versions_are_read_and_the_second_is_stored(rt: HostRuntime) -> Result<(), Fail> {
    let alloc = rt.alloc();
    let old = bytes_of(alloc, OLD_REVERSE)?;
    let new = bytes_of(alloc, NEW_REVERSE)?;
    assert!(rt; is_reverse(alloc, old.as_slice(), new.as_slice())?);
    assert!(rt; is_reverse(alloc, new.as_slice(), new.as_slice())?);
    Ok(())
}

#[test]
fn a_compiled_code_is_verified_and_stays_when_upgraded(rt: HostRuntime) -> Result<(), Fail> {
    let alloc = rt.alloc();
    let seen = run::<Fp2>(alloc, "compile a.fp b.fpc", host_of(LISTS.as_bytes(), b""))?;
    let code = seen.stored.ok_or("not stored")?;
    let rows: [Row<'_>; 1] = [("verify a.fp", "", 0, CODED_FUNCTIONS)];
    assert_eq!(rt;
        first_wrong_run::<Fp2>(alloc, "", code.as_slice(), &rows)?,
        None
    );
    let again = run::<Fp2>(alloc, "upgrade a.fp b.fpc", host_of(code.as_slice(), b""))?;
    assert_eq!(rt;
        again.stored.ok_or("not stored")?.as_slice(),
        code.as_slice()
    );
    Ok(())
}

// The front of a code file of version 1 up to the length of the name of the one constructor of type 2.
const LONG_HEAD: &str =
    "46503243 0001 0002 00000002 00000005 46616c7365 00 00000004 54727565 00 00000001";

// What is after that name: the function `f`, which gives 5.
const LONG_TAIL: &str = "00 0001 00 00000001 66 0000 01 0000 0001
00000002 01 0000 0000000000000005 0e 01 0000 00000000";

// A code file of version 1 with a constructor's name of so many letters, whose number these digits encode.
fn long_code(alloc: Global, digits: &str, letters: usize) -> Result<Vec<u8>, AllocError> {
    let mut code = bytes_of(alloc, LONG_HEAD)?;
    code.extend_from_slice(bytes_of(alloc, digits)?.as_slice())?;
    code.extend_from_slice(repeated(alloc, &[("A", letters)])?.as_bytes())?;
    code.extend_from_slice(bytes_of(alloc, LONG_TAIL)?.as_slice())?;
    Ok(code)
}

// Version 2 has one byte more for each function.
#[test]
fn a_code_file_has_at_most_sixteen_mebibytes(rt: HostRuntime) -> Result<(), Fail> {
    let alloc = rt.alloc();
    let line = "f fip stack 0 frames 3 words\n";
    let within = long_code(alloc, "00ffffb1", 0xffffb1)?;
    let rows: [Row<'_>; 1] = [("upgrade a.fp b.fpc", "", 0, line)];
    assert_eq!(rt;
        first_wrong_run::<Fp2>(alloc, "", within.as_slice(), &rows)?,
        None
    );
    let most = long_code(alloc, "00ffffb2", 0xffffb2)?;
    let rows: [Row<'_>; 3] = [
        ("upgrade a.fp b.fpc", "", 1, "E61\n"),
        ("verify a.fp", "", 0, line),
        ("run a.fp f", "", 0, "5\n"),
    ];
    assert_eq!(rt;
        first_wrong_run::<Fp2>(alloc, "", most.as_slice(), &rows)?,
        None
    );
    let past = long_code(alloc, "00ffffb3", 0xffffb3)?;
    let rows: [Row<'_>; 3] = [
        ("upgrade a.fp b.fpc", "", 8, "bad code at 16777216\n"),
        ("verify a.fp", "", 8, "bad code at 16777216\n"),
        ("run a.fp f", "", 8, "bad code at 16777216\n"),
    ];
    assert_eq!(rt;
        first_wrong_run::<Fp2>(alloc, "", past.as_slice(), &rows)?,
        None
    );
    Ok(())
}
