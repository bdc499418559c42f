// Sources at a limit, which are taken, and one past it, which are refused.

use crate::program::Fp2;
use std::alloc::{AllocError, Global};
use std::test::Fail;
use test_host::{Row, first_wrong_run, numbered, repeated};

// Whether a command over a source ends with this status and this text.
fn answers<'a>(
    alloc: Global,
    words: &'a str,
    source: &str,
    status: u8,
    text: &'a str,
) -> Result<bool, AllocError> {
    let rows: [Row<'a>; 1] = [(words, "", status, text)];
    Ok(first_wrong_run::<Fp2>(alloc, "", source.as_bytes(), &rows)?.is_none())
}

// Whether `check` takes a source and prints this.
fn takes(alloc: Global, source: String, text: &str) -> Result<bool, AllocError> {
    answers(alloc, "check a.fp", source.as_str(), 0, text)
}

// Whether `check` refuses a source with this text.
fn refuses(alloc: Global, source: String, text: &str) -> Result<bool, AllocError> {
    answers(alloc, "check a.fp", source.as_str(), 1, text)
}

// E03: so many round brackets within a curly one.
fn in_round_brackets(alloc: Global, count: usize) -> Result<String, AllocError> {
    repeated(
        alloc,
        &[
            ("fip fun f(): int { ", 1),
            ("(", count),
            ("1", 1),
            (")", count),
            (" }\n", 1),
        ],
    )
}

// E03: so many square brackets within a round one.
fn in_square_brackets(alloc: Global, count: usize) -> Result<String, AllocError> {
    repeated(
        alloc,
        &[
            ("data box[a] { Box(a) }\nfip fun f(^x: ", 1),
            ("box[", count),
            ("int", 1),
            ("]", count),
            ("): int { 0 }\n", 1),
        ],
    )
}

// E03: so many curly brackets within one.
fn in_curly_brackets(alloc: Global, count: usize) -> Result<String, AllocError> {
    repeated(
        alloc,
        &[
            ("fun f(x: int): int { ", 1),
            ("if x < 0 { ", count),
            ("x", 1),
            (" } else { x }", count),
            (" }\n", 1),
        ],
    )
}

#[test]
fn a_hundred_brackets_may_be_open(rt: HostRuntime) -> Result<(), Fail> {
    let alloc = rt.alloc();
    let line = "f fip stack 0 frames 3 words\n";
    assert!(rt; takes(alloc, in_round_brackets(alloc, 99)?, line)?);
    assert!(rt; refuses(alloc, in_round_brackets(alloc, 100)?, "E03 at 1:119\n")?);
    let line = "f fip stack 0 frames 4 words\n";
    assert!(rt; takes(alloc, in_square_brackets(alloc, 99)?, line)?);
    assert!(rt; refuses(alloc, in_square_brackets(alloc, 100)?, "E03 at 2:414\n")?);
    assert!(rt; takes(alloc, in_curly_brackets(alloc, 99)?, "f fun\n")?);
    assert!(rt; refuses(alloc, in_curly_brackets(alloc, 100)?, "E03 at 1:1120\n")?);
    Ok(())
}

#[test]
fn a_source_has_at_most_a_mebibyte(rt: HostRuntime) -> Result<(), Fail> {
    let alloc = rt.alloc();
    assert!(rt; takes(alloc, repeated(alloc, &[(" ", 1_048_576)])?, "")?);
    assert!(rt; refuses(alloc, repeated(alloc, &[(" ", 1_048_577)])?, "E05\n")?);
    let past = repeated(alloc, &[(" ", 1_048_577)])?;
    assert!(rt; answers(alloc, "exec a.fp f", past.as_str(), 1, "E05\n")?);
    Ok(())
}

// E14: a constructor with one field and so many more.
fn wide_constructor(alloc: Global, more: usize) -> Result<String, AllocError> {
    repeated(
        alloc,
        &[("data wide { W(int", 1), (", int", more), (") }\n", 1)],
    )
}

// E34: a function with one result and so many more.
fn many_results(alloc: Global, more: usize) -> Result<String, AllocError> {
    repeated(
        alloc,
        &[
            ("fip fun f(x: int): (int", 1),
            (", int", more),
            (") { (x", 1),
            (", x", more),
            (") }\n", 1),
        ],
    )
}

// E63: so many credits of size 1.
fn many_credits(alloc: Global, count: usize) -> Result<String, AllocError> {
    repeated(
        alloc,
        &[("fbip", 1), (" +1", count), (" fun f(): int { 0 }\n", 1)],
    )
}

#[test]
fn fields_results_and_credits_are_limited(rt: HostRuntime) -> Result<(), Fail> {
    let alloc = rt.alloc();
    assert!(rt; takes(alloc, wide_constructor(alloc, 15)?, "")?);
    assert!(rt; refuses(alloc, wide_constructor(alloc, 16)?, "E14 at 1:13: W\n")?);
    let line = "f fip stack 0 frames 3 words\n";
    assert!(rt; takes(alloc, many_results(alloc, 7)?, line)?);
    assert!(rt; refuses(alloc, many_results(alloc, 8)?, "E34 at 1:20\n")?);
    let line = "f fbip +1 +1 +1 +1 +1 +1 +1 +1 +1 +1 +1 +1 +1 +1 +1 +1\n";
    assert!(rt; takes(alloc, many_credits(alloc, 16)?, line)?);
    assert!(rt; refuses(alloc, many_credits(alloc, 17)?, "E63 at 1:54\n")?);
    Ok(())
}

// E21: so many functions.
fn many_functions(alloc: Global, count: usize) -> Result<String, AllocError> {
    numbered(alloc, "fip fun f", "(): int { 0 }\n", count)
}

// E21: so many types beside `bool`, each that of a parameter.
fn many_types(alloc: Global, count: usize) -> Result<String, AllocError> {
    let mut source = String::new(alloc);
    for number in 0..count {
        let data = format!(in alloc; "data t{number} {{ A{number} }}\n")?;
        source.push_str(data.as_str())?;
    }
    source.push_str("fip fun f(")?;
    for number in 0..count {
        let comma = if number == 0 { "" } else { ", " };
        let param = format!(in alloc; "{comma}x{number}: t{number}")?;
        source.push_str(param.as_str())?;
    }
    source.push_str("): int { 0 }\n")?;
    Ok(source)
}

#[test]
fn instances_are_limited(rt: HostRuntime) -> Result<(), Fail> {
    let alloc = rt.alloc();
    let lines = numbered(alloc, "f", " fip stack 0 frames 3 words\n", 4096)?;
    assert!(rt; takes(alloc, many_functions(alloc, 4096)?, lines.as_str())?);
    assert!(rt;
        refuses(
            alloc,
            many_functions(alloc, 4097)?,
            "E21 at 1:1: functions\n"
        )?
    );
    let line = "f fip stack 0 frames 4098 words\n";
    assert!(rt; takes(alloc, many_types(alloc, 4095)?, line)?);
    assert!(rt; refuses(alloc, many_types(alloc, 4096)?, "E21 at 1:1: types\n")?);
    Ok(())
}

// E43: a match with so many clauses and one more.
fn many_clauses(alloc: Global, count: usize) -> Result<String, AllocError> {
    let mut source = String::from_str(alloc, "fip fun f(n: int): int { match n { ")?;
    source.push_str(numbered(alloc, "", " -> 0; ", count)?.as_str())?;
    source.push_str("_ -> 0 } }\n")?;
    Ok(source)
}

// E43: a match with so many clauses of five pattern nodes each, and others.
fn many_nodes(alloc: Global, count: usize, others: &str) -> Result<String, AllocError> {
    let data = "data w { V(int); W(int, int, int, int) }\n";
    let mut source = String::from_str(alloc, data)?;
    source.push_str("fip fun f(^x: w): int { match x { ")?;
    source.push_str(numbered(alloc, "W(", ", _, _, _) -> 0; ", count)?.as_str())?;
    source.push_str(others)?;
    source.push_str(" } }\n")?;
    Ok(source)
}

#[test]
fn clauses_and_pattern_nodes_are_limited(rt: HostRuntime) -> Result<(), Fail> {
    let alloc = rt.alloc();
    let line = "f fip stack 0 frames 131 words\n";
    assert!(rt; takes(alloc, many_clauses(alloc, 63)?, line)?);
    assert!(rt; refuses(alloc, many_clauses(alloc, 64)?, "E43 at 1:26\n")?);
    let line = "f fip stack 0 frames 311 words\n";
    assert!(rt; takes(alloc, many_nodes(alloc, 51, "_ -> 0")?, line)?);
    let others = "V(_) -> 0; W(_, _, _, _) -> 0";
    assert!(rt; refuses(alloc, many_nodes(alloc, 50, others)?, "E43 at 2:25\n")?);
    Ok(())
}

// E60: so many registers for the parameters, and two for each of so many sums.
fn many_registers(alloc: Global, params: &str, sums: usize) -> Result<String, AllocError> {
    repeated(
        alloc,
        &[
            ("fip fun f(", 1),
            (params, 1),
            ("): int { x", 1),
            (" + 1", sums),
            (" }\n", 1),
        ],
    )
}

// E60: a match on a type with so many constructors and one more.
fn many_constructors(alloc: Global, count: usize) -> Result<String, AllocError> {
    let mut source = String::from_str(alloc, "data t { A(int)")?;
    source.push_str(numbered(alloc, "; B", "", count)?.as_str())?;
    source.push_str(" }\nfip fun f(^x: t): int { match x { _ -> 0 } }\n")?;
    Ok(source)
}

#[test]
fn registers_and_matched_constructors_are_limited(rt: HostRuntime) -> Result<(), Fail> {
    let alloc = rt.alloc();
    let line = "f fip stack 0 frames 4098 words\n";
    assert!(rt; takes(alloc, many_registers(alloc, "x: int, y: int", 2047)?, line)?);
    assert!(rt;
        refuses(
            alloc,
            many_registers(alloc, "x: int", 2048)?,
            "E60 at 1:9: f\n"
        )?
    );
    let line = "f fip stack 0 frames 5 words\n";
    assert!(rt; takes(alloc, many_constructors(alloc, 65_534)?, line)?);
    assert!(rt; refuses(alloc, many_constructors(alloc, 65_535)?, "E60 at 2:9: f\n")?);
    Ok(())
}

// A source whose code has 3,500 types with a constructor of 5,000 letters each, which no code file of 16 MiB can
// encode.
fn long_code(alloc: Global) -> Result<String, AllocError> {
    let mut source = String::new(alloc);
    for number in 0..64 {
        let data = format!(in alloc; "data d{number} {{ A{number} }}\n")?;
        source.push_str(data.as_str())?;
    }
    let constructor = repeated(
        alloc,
        &[("data t[a, b] { ", 1), ("X", 5000), (" }\nfip fun f(", 1)],
    )?;
    source.push_str(constructor.as_str())?;
    for number in 0..3500 {
        let left = number / 64;
        let right = number % 64;
        let param = format!(in alloc; "x{number}: t[d{left}, d{right}], ")?;
        source.push_str(param.as_str())?;
    }
    source.push_str("y: int): int { y }\n")?;
    Ok(source)
}

#[test]
fn a_code_past_sixteen_mebibytes_is_not_compiled(rt: HostRuntime) -> Result<(), Fail> {
    let alloc = rt.alloc();
    let source = long_code(alloc)?;
    assert!(rt; answers(alloc, "compile a.fp b.fpc", source.as_str(), 1, "E61\n")?);
    assert!(rt; takes(alloc, source, "f fip stack 0 frames 3503 words\n")?);
    Ok(())
}
