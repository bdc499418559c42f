// Programs whose types or matches are wrong.

use crate::program::Fp2;
use std::test::Fail;
use test_host::first_wrong_refusal;

// Stands before each source.
const TYPES: &str = "data ints { Nil; Cons(int, ints) } data list[a] { End; More(a, list[a]) }
fip fun two(x: int): (int, int) { (x, x) }
";

// E30 to E34.
const MISTYPED: &[&str] = &[
    "E30 at 3:27 | fip fun f(x: bool): int { x }",
    "E30 at 3:29 | fip fun f(x: int): bool { x + 1 }",
    "E30 at 3:39 | fip fun f(x: int, b: bool): int { x + b }",
    "E30 at 3:38 | fip fun f(b: bool): (int, int) { two(b) }",
    "E30 at 3:26 | fip fun f(x: int): int { if x { 1 } else { 0 } }",
    "E30 at 3:36 | fip fun f(x: int): int { match x { True -> 1; _ -> 0 } }",
    "E30 at 3:37 | fip fun f(b: bool): int { match b { 0 -> 1; _ -> 0 } }",
    "E30 at 3:49 | fip fun f(x: int): int { match x { 0 -> 1; _ -> Nil } }",
    "E30 at 3:40 | fip fun f(x: int): int { let y: bool = x; 0 }",
    "E30 at 3:34 | fip fun f(x: int): int { let (y, z: bool) = two(x); y }",
    "E30 at 3:36 | fun f(xs: list[int]): list[bool] { xs }",
    "E31 at 3:26: y | fip fun f(x: int): int { y }",
    "E31 at 3:41: y | fip fun f(x: int): int { match x { 0 -> y; y -> y } }",
    "E32 at 3:29: End | fip fun f(): int { let xs = End; 0 }",
    "E32 at 3:43: More | fun f(xs: list[int]): list[int] { More(1, More(1 + 1, xs)) }",
    "E33 at 3:33: two | fip fun f(x: int): (int, int) { two(x, x) }",
    "E33 at 3:23: Cons | fun f(x: int): ints { Cons(x) }",
    "E33 at 3:21: Nil | fip fun f(): ints { Nil(1) }",
    "E33 at 3:40: Cons | fip fun f(^xs: ints): int { match xs { Cons(x) -> x; _ -> 0 } }",
    "E33 at 3:35: More | fun f(x: int): (list[int], int) { More(x) }",
    "E34 at 3:26 | fip fun f(x: int): int { two(x) }",
    "E34 at 3:33 | fip fun f(x: int): (int, int) { x }",
    "E34 at 3:33 | fip fun f(x: int): (int, int) { (x, x, x) }",
    "E34 at 3:39 | fip fun f(x: int): int { let (y, z) = x; y }",
    "E34 at 3:32 | fip fun f(x: int): int { match two(x) { _ -> 0 } }",
    "E34 at 3:26 | fip fun f(x: int): int { two(x) + 1 }",
];

// E40 to E42; E43 is in `limits`.
const MATCHES: &[&str] = &[
    "E42 at 3:53: x | fip fun f(^xs: ints): int { match xs { Cons(x, Cons(x, _)) -> x; _ -> 1 } }",
    "E42 at 3:34: y | fip fun f(x: int): int { let (y, y) = two(x); y }",
    "E40 at 3:26: 3 | fip fun f(n: int): int { match n { 0 -> 0; 1 -> 1; 2 -> 2 } }",
    "E40 at 3:26: 0 | fip fun f(n: int): int { match n { -1 -> 0; 1 -> 1 } }",
    "E40 at 3:27: False | fip fun f(b: bool): int { match b { True -> 0 } }",
    "E40 at 3:29: Cons(_, _) | fip fun f(^xs: ints): int { match xs { Nil -> 0 } }",
    "E40 at 3:29: Cons(1, _) | fip fun f(^xs: ints): int { match xs { Cons(0, _) -> 0; Nil -> 1; Cons(-1, _) -> 2 } }",
    "E40 at 3:29: Cons(_, Cons(_, _)) | fip fun f(^xs: ints): int { match xs { Cons(_, Nil) -> 0; Nil -> 1 } }",
    "E40 at 3:29: Cons(_, Nil) | fip fun f(^xs: ints): int { match xs { Nil -> 0; Cons(_, Cons(_, _)) -> 2 } }",
    "E40 at 3:29: Cons(1, Cons(_, _)) | fip fun f(^xs: ints): int { match xs { Nil -> 0; Cons(0, _) -> 1;
  Cons(_, Nil) -> 2 } }",
    "E40 at 4:27: Red(1, True) | data rgb { Red(int, bool); Green(bool) }
fip fun f(^c: rgb): int { match c { Green(_) -> 0; Red(0, _) -> 1; Red(_, False) -> 2 } }",
    "E41 at 3:44 | fip fun f(n: int): int { match n { _ -> 0; 1 -> 1 } }",
    "E41 at 3:44 | fip fun f(n: int): int { match n { 1 -> 0; 1 -> 1; _ -> 2 } }",
    "E41 at 3:60 | fip fun f(b: bool): int { match b { False -> 0; True -> 1; _ -> 2 } }",
    "E41 at 4:69 | fip fun f(^xs: ints): int {
  match xs { Cons(_, Nil) -> 1; Cons(_, Cons(_, _)) -> 2; Nil -> 0; Cons(x, _) -> x } }",
];

#[test]
fn wrong_types_are_refused(rt: HostRuntime) -> Result<(), Fail> {
    assert_eq!(rt;
        first_wrong_refusal::<Fp2>(rt.alloc(), TYPES, MISTYPED)?,
        None
    );
    Ok(())
}

#[test]
fn wrong_matches_are_refused(rt: HostRuntime) -> Result<(), Fail> {
    assert_eq!(rt;
        first_wrong_refusal::<Fp2>(rt.alloc(), TYPES, MATCHES)?,
        None
    );
    Ok(())
}
