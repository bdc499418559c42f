// Programs that aren't in place: ownership, credits and calls.

use crate::program::Fp2;
use std::test::Fail;
use test_host::first_wrong_refusal;

// Stands before each source.
const TYPES: &str = "data ints { Nil; Cons(int, ints) } data list[a] { End; More(a, list[a]) }
";

// Stands before each source that borrows.
const LENGTH: &str = "data ints { Nil; Cons(int, ints) } data list[a] { End; More(a, list[a]) }
fip fun len(^xs: ints, n: int): int { match xs { Nil -> n; Cons(_, t) -> len(t, n + 1) } }
";

// E50 to E55.
const OWNERSHIP: &[&str] = &[
    "E50 at 3:42: xs | fip fun f(xs: ints): (ints, ints) { (xs, xs) }",
    "E50 at 3:67: xs | fip fun f(xs: ints, b: bool): (ints, ints) { let ys = xs; if b { (xs, ys) } else { (ys, xs) } }",
    "E50 at 3:49: xs | fbip fun f(xs: ints): ints { match! xs { Nil -> xs; Cons(_, t) -> t } }",
    "E51 at 3:61: xs | fip fun f(xs: ints): (ints, int) { let ys = xs; let n = len(xs, 0); (ys, n) }",
    "E51 at 3:63: xs | fip fun f(xs: ints): (ints, int) { let ys = xs; let n = match xs { _ -> 0 }; (ys, n) }",
    "E52 at 3:11: xs | fip fun f(xs: ints): int { 0 }",
    "E52 at 3:61: _ | fip fun f(xs: ints): ints { match! xs { Nil -> Nil; Cons(x, _) -> Cons(x, Nil) } }",
    "E52 at 3:21: ys | fip fun f(xs: ints, ys: ints, b: bool): (ints, ints) { if b { (xs, ys) } else { (xs, Nil) } }",
    "E52 at 3:40: _ | fip fun f(xs: ints): (ints, int) { let _ = Nil; (xs, 0) }",
    "E53 at 3:30: xs | fip fun f(^xs: ints): ints { xs }",
    "E53 at 3:67: t | fip fun f(^xs: ints): ints { match xs { Nil -> Nil; Cons(_, t) -> t } }",
    "E53 at 3:37: xs | fbip fun f(^xs: ints): int { match! xs { _ -> 0 } }",
    "E54 at 3:33: xs | fbip fun f(xs: ints): int { len(xs, 0) }",
    "E54 at 3:30: Nil | fip fun f(x: int): int { len(Nil, x) }",
    "E54 at 3:79: x | fip fun g(^a: ints, b: ints): ints { b } fip fun f(x: ints): ints { let r = g(x, x); r }",
    "E55 at 3:56: g | fbip fun g(x: int): int { x } fip fun f(x: int): int { g(x) }",
    "E55 at 3:51: g | fun g(x: int): int { x } fip fun f(x: int): int { g(x) }",
    "E55 at 3:52: g | fun g(x: int): int { x } fbip fun f(x: int): int { g(x) }",
];

// E56 to E58 and E62.
const CREDITS: &[&str] = &[
    "E56 at 2:9 size 2 | fip fun f(x: int): ints { Cons(x, Nil) }",
    "E56 at 2:10 size 2 | fbip fun f(x: int): ints { Cons(x, Nil) }",
    "E56 at 2:12 size 2 | fip +2 fun f(x: int): ints { Cons(x, Cons(x, Nil)) }",
    "E56 at 2:55 size 2 | fip +2 fun one(x: int): ints { Cons(x, Nil) } fip fun f(x: int): ints { one(x) }",
    "E56 at 3:10 size 1 | data box { Box(int) }
fbip fun f(xs: ints): box { match! xs { Nil -> Box(0); Cons(x, _) -> Box(x) } }",
    "E57 at 2:58 size 2 | fip fun f(xs: ints, n: int): int { match! xs { Nil -> n; Cons(_, t) -> f(t, n + 1) } }",
    "E57 at 3:67 size 2 | data some { No; One(int); Two(int, int) }
fip fun f(x: some): some { match! x { No -> No; One(n) -> One(n); Two(_, _) -> No } }",
    "E58 at 3:41 size 2 | fip fun f(b: bool, xs: ints): ints {
  match! xs { Nil -> Nil; Cons(x, t) -> if b { Cons(x, t) } else { t } } }",
    "E58 at 2:32 size 2 | fip +2 fun f(xs: ints): ints { match! xs { Nil -> Nil; Cons(x, t) -> Cons(x, Cons(x, t)) } }",
    "E62 at 2:12 size 2 | fip +2 fun f(x: int): int { x }",
    "E62 at 2:15 size 3 | fip +3 +2 fun f(x: int): ints { Cons(x, Nil) }",
    "E62 at 2:15 size 2 | fip +2 +2 fun f(x: int): ints { Cons(x, Nil) }",
];

// E59.
const TAIL_CALLS: &[&str] = &[
    "E59 at 2:79: f | fip fun f(xs: ints): ints { match! xs { Nil -> Nil; Cons(x, t) -> Cons(x + 1, f(t)) } }",
    "E59 at 3:35: f | fip fun f(n: int): bool { if n == 0 { True } else { g(n - 1) } }
fip fun g(n: int): bool { let b = f(n); b }",
];

#[test]
fn wrong_ownership_is_refused(rt: HostRuntime) -> Result<(), Fail> {
    assert_eq!(rt;
        first_wrong_refusal::<Fp2>(rt.alloc(), LENGTH, OWNERSHIP)?,
        None
    );
    Ok(())
}

#[test]
fn wrong_credits_are_refused(rt: HostRuntime) -> Result<(), Fail> {
    assert_eq!(rt;
        first_wrong_refusal::<Fp2>(rt.alloc(), TYPES, CREDITS)?,
        None
    );
    Ok(())
}

#[test]
fn calls_of_the_own_group_are_refused(rt: HostRuntime) -> Result<(), Fail> {
    assert_eq!(rt;
        first_wrong_refusal::<Fp2>(rt.alloc(), TYPES, TAIL_CALLS)?,
        None
    );
    Ok(())
}
