// Sources that are no program, and sources whose declarations or static parameters are wrong.

use crate::program::Fp2;
use std::test::Fail;
use test_host::first_wrong_refusal;

// Stands before each source.
const TYPES: &str = "data ints { Nil; Cons(int, ints) } data list[a] { End; More(a, list[a]) }
";

// E01, E02 and E04; E03 and E05 are in `limits`.
const SPELLING: &[&str] = &[
    "E01 at 2:1 | #",
    "E01 at 2:28 | fip fun f(x: int): int { x ! 1 }",
    "E01 at 3:4 | // café stands in a comment
café",
    "E02 at 2:13 | fip fun f(x int): int { x }",
    "E02 at 3:1 | fip fun f(x: int): int { x",
    "E02 at 2:37 | fip fun f(x: int): int { let x = 1; }",
    "E02 at 2:32 | fip fun f(x: int): int { 0 < x < 2 }",
    "E02 at 2:33 | fip fun f(x: int): int { x[int] }",
    "E02 at 2:43 | fip fun f(x: int): int { match x { _ -> 0;; } }",
    "E02 at 2:30 | fip fun f(x: int): int { (x, let y = 1; y) }",
    "E02 at 2:18 | fip fun f(): (int) { 1 }",
    "E02 at 2:9 | fip fun match(x: int): int { x }",
    "E02 at 2:10 | data a { x }",
    "E02 at 2:5 | fip 2 fun f(): int { 1 }",
    "E04 at 2:20 | fip fun f(): int { 9223372036854775808 }",
    "E04 at 2:21 | fip fun f(): int { -9223372036854775809 }",
    "E04 at 2:30 | fip fun f(x: int): int { x - 9223372036854775808 }",
    "E04 at 2:37 | fip fun f(x: int): int { match x { -9223372036854775809 -> 0; _ -> 1 } }",
    "E04 at 2:6 | fip +9223372036854775808 fun f(): int { 0 }",
];

// E10 to E15 and E63.
const DECLARATIONS: &[&str] = &[
    "E10 at 2:13: Nil | data a { X; Nil }",
    "E10 at 2:6: ints | data ints { X }",
    "E10 at 2:6: bool | data bool { No; Yes }",
    "E10 at 2:13: True | data a { X; True }",
    "E10 at 2:14: a | data pair[a, a] { Pair(a, a) }",
    "E10 at 2:33: f | fip fun f(): int { 0 } fbip fun f(): int { 1 }",
    "E10 at 2:20: x | fip fun f(x: int, ^x: ints): int { 0 }",
    "E10 at 2:14: a | fip fun f[a, a: fun(int): int](x: int): int { x }",
    "E11 at 2:12: nat | data a { X(nat) }",
    "E11 at 2:14: nat | fip fun f(x: nat): int { 0 }",
    "E11 at 2:20: nat | fip fun f(): (int, nat) { (0, 0) }",
    "E11 at 2:18: nat | fip fun f[g: fun(nat): int](x: int): int { x }",
    "E11 at 2:33: nat | fip fun f(x: int): int { let y: nat = x; y }",
    "E12 at 2:12: list | data a { X(list[int, int]) }",
    "E12 at 2:19: a | data box[a] { Box(a[int]) }",
    "E12 at 2:15: list | fip fun f(xs: list): int { 0 }",
    "E12 at 2:14: bool | fip fun f(x: bool[int]): int { 0 }",
    "E13 at 2:6: inf | data inf { Mk(inf) }",
    "E13 at 2:6: one | data one { Box(two) } data two { Both(one, int); Either(two) }",
    "E13 at 2:31: inf | data wrap[a] { Wrap(a) } data inf { Mk(wrap[inf]) }",
    "E14 at 2:13: W | data wide { W(int, int, int, int, int, int, int, int,
  int, int, int, int, int, int, int, int, int) }",
    "E15 at 2:21: Nill | fip fun f(): ints { Nill }",
    "E15 at 2:48: Nill | fip fun f(^xs: ints): int { match xs { Cons(_, Nill) -> 1; _ -> 0 } }",
    "E63 at 2:6 | fip +17 fun f(): int { 0 }",
    "E63 at 2:10 | fbip +2 +0 fun f(): int { 0 }",
    "E63 at 2:54 | fbip +1 +1 +1 +1 +1 +1 +1 +1 +1 +1 +1 +1 +1 +1 +1 +1 +1 fun f(): int { 0 }",
];

// Stands before each source that has static parameters.
const TWICE: &str =
    "data list[a] { End; More(a, list[a]) } fip fun twice[f: fun(int): int](x: int): int { let y = f(x); f(y) }
";

// E20 to E23, and E11 and E12 in static arguments.
const STATIC_PARAMETERS: &[&str] = &[
    "E20 at 2:20: g | fip fun f(): int { g(1) }",
    "E20 at 2:26: g | fip fun f(g: int): int { g(1) }",
    "E20 at 2:32: g | fip fun f(x: int): int { twice[g](x) }",
    "E20 at 2:32: int | fip fun f(x: int): int { twice[int](x) }",
    "E21 at 1:1: functions | fip fun g[a](n: int): int { g[list[a]](n) } fip fun f(n: int): int { g[int](n) }",
    "E21 at 1:1: types | data nest[a] { Last; Deeper(a, nest[list[a]]) } fip fun f(x: nest[int]): nest[int] { x }",
    "E22 at 2:64: not | fip fun not(b: bool): int { 0 } fip fun f(x: int): int { twice[not](x) }",
    "E22 at 2:71: is_big | fip fun is_big(x: int): bool { x > 9 } fip fun f(x: int): int { twice[is_big](x) }",
    "E22 at 2:75: add | fip fun add(x: int, y: int): int { x + y } fip fun f(x: int): int { twice[add](x) }",
    "E22 at 4:38: drop | fip fun on[g: fun(^list[int]): int](^xs: list[int]): int { g(xs) }
fbip fun drop(xs: list[int]): int { 0 }
fbip fun f(^xs: list[int]): int { on[drop](xs) }",
    "E22 at 2:66: one | fip +2 fun one(x: int): int { x } fip fun f(x: int): int { twice[one](x) }",
    "E23 at 2:55: id | fip fun id[a](x: a): a { x } fip fun f(x: int): int { id(x) }",
    "E23 at 2:55: id | fip fun id[a](x: a): a { x } fip fun f(x: int): int { id[int, int](x) }",
    "E23 at 2:61: id | fip fun id[a](x: a): a { x } fip fun f(x: int): int { twice[id](x) }",
    "E23 at 2:56: id | fip fun id(x: int): int { x } fip fun f(x: int): int { id[int](x) }",
    "E11 at 2:62: nat | fip fun id[a](x: int): int { x } fip fun f(x: int): int { id[nat](x) }",
    "E12 at 2:62: list | fip fun id[a](x: int): int { x } fip fun f(x: int): int { id[list](x) }",
];

#[test]
fn what_is_no_program_is_refused(rt: HostRuntime) -> Result<(), Fail> {
    assert_eq!(rt;
        first_wrong_refusal::<Fp2>(rt.alloc(), TYPES, SPELLING)?,
        None
    );
    Ok(())
}

#[test]
fn wrong_declarations_are_refused(rt: HostRuntime) -> Result<(), Fail> {
    assert_eq!(rt;
        first_wrong_refusal::<Fp2>(rt.alloc(), TYPES, DECLARATIONS)?,
        None
    );
    Ok(())
}

#[test]
fn wrong_static_arguments_are_refused(rt: HostRuntime) -> Result<(), Fail> {
    assert_eq!(rt;
        first_wrong_refusal::<Fp2>(rt.alloc(), TWICE, STATIC_PARAMETERS)?,
        None
    );
    Ok(())
}
