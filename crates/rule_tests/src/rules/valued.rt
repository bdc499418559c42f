// Data types of many parameters: whether they have a value is said by which arguments suffice.

use crate::program::Fp2;
use std::alloc::{AllocError, Global};
use std::test::Fail;
use test_host::{Row, first_wrong_run};

// As many parameters, with `other` in the place of one of them.
fn arguments(alloc: Global, count: usize, place: usize, other: &str) -> Result<String, AllocError> {
    let mut text = String::new(alloc);
    for number in 0..count {
        if number > 0 {
            text.push_str(",")?;
        }
        if number == place {
            text.push_str(other)?;
        } else {
            let part = format!(in alloc; "a{number}")?;
            text.push_str(part.as_str())?;
        }
    }
    Ok(text)
}

// A type `t` of so many parameters, with a constructor for each, over `t` with `other` in its place, and one that is
// spelled by `last`.
fn nested(alloc: Global, count: usize, other: &str, last: &str) -> Result<String, AllocError> {
    let mut text = String::new(alloc);
    text.push_str("data t[")?;
    text.push_str(arguments(alloc, count, count, other)?.as_str())?;
    text.push_str("] { ")?;
    for place in 0..count {
        let name = format!(in alloc; "T{place}(t[")?;
        text.push_str(name.as_str())?;
        text.push_str(arguments(alloc, count, place, other)?.as_str())?;
        text.push_str("]); ")?;
    }
    text.push_str(last)?;
    text.push_str(" }\n")?;
    Ok(text)
}

// Types `q0`, `q1` and so on, each over the next one, and one that ends them.
fn chain(alloc: Global, count: usize) -> Result<String, AllocError> {
    let mut text = String::new(alloc);
    for number in 0..count {
        let name = format!(in alloc; "data q{number}[a] ")?;
        let next = number.saturating_add(1);
        let over = format!(in alloc; "Q{number}(q{next}[a])")?;
        text.push_str(name.as_str())?;
        text.push_str("{ ")?;
        text.push_str(over.as_str())?;
        text.push_str(" }\n")?;
    }
    let end = format!(in alloc; "data q{count}[a] ")?;
    text.push_str(end.as_str())?;
    text.push_str("{ End }\n")?;
    Ok(text)
}

// Whether `check` ends on a source with this status and this text.
fn answers<'a>(
    alloc: Global,
    parts: &[&str],
    status: u8,
    text: &'a str,
) -> Result<bool, AllocError> {
    let mut source = String::new(alloc);
    for part in parts {
        source.push_str(part)?;
    }
    let rows: [Row<'a>; 1] = [("check a.fp", "", status, text)];
    Ok(first_wrong_run::<Fp2>(alloc, "", source.as_bytes(), &rows)?.is_none())
}

#[test]
fn types_of_many_parameters_are_taken(rt: HostRuntime) -> Result<(), Fail> {
    let alloc = rt.alloc();
    let types = chain(alloc, 24)?;
    let many = nested(alloc, 20, "x", "Last(q0[x])")?;
    let parts: [&str; 3] = [types.as_str(), many.as_str(), "data x { X(q0[x]) }\n"];
    assert!(rt; answers(alloc, &parts, 0, "")?);
    let types = chain(alloc, 100)?;
    let many = nested(alloc, 60, "x", "Last(q0[x])")?;
    let parts: [&str; 3] = [types.as_str(), many.as_str(), "data x { X(q0[x]) }\n"];
    assert!(rt; answers(alloc, &parts, 0, "")?);
    Ok(())
}

#[test]
fn types_of_many_parameters_may_have_no_value(rt: HostRuntime) -> Result<(), Fail> {
    let alloc = rt.alloc();
    let refusal = "E13 at 1:6: inf\n";
    let many = nested(alloc, 20, "inf", "Last(inf)")?;
    let parts: [&str; 2] = ["data inf { Mk(inf) }\n", many.as_str()];
    assert!(rt; answers(alloc, &parts, 1, refusal)?);
    let many = nested(alloc, 60, "inf", "Last(a0)")?;
    let parts: [&str; 2] = ["data inf { Mk(inf) }\n", many.as_str()];
    assert!(rt; answers(alloc, &parts, 1, refusal)?);
    Ok(())
}
