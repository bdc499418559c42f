// The core forms of programs, one line a function: each binder with its number and place, each occurrence with its
// binder's number. The lines are from outside.

use crate::core_text::bodies;
use fip_syntax::{core_of, parse};
use std::alloc::Global;
use std::test::Fail;

// Whether the core form of a source has these lines.
fn has_bodies(alloc: Global, source: &[u8], lines: &[u8]) -> Result<bool, Fail> {
    let Ok(program) = parse(alloc, source) else {
        return Ok(false);
    };
    let core = core_of(alloc, program)?;
    Ok(bodies(alloc, &core)?.as_slice() == lines)
}

#[test]
fn operators_group_to_the_left(rt: HostRuntime) -> Result<(), Fail> {
    let source = b"fip fun f(a: int, b: int, c: int): int { a - b - c * a / b % 2 }\n";
    let lines =
        b"let _.3@1:44 = a.0@1:42 -@1:44 b.1@1:46; let _.4@1:52 = c.2@1:50 *@1:52 a.0@1:54; let _.5@1:56 = \
        _.4@1:52 /@1:56 b.1@1:58; let _.6@1:60 = _.5@1:56 %@1:60 2@1:62; let _.7@1:48 = _.3@1:44 -@1:48 \
        _.6@1:60; _.7@1:48\n";
    assert!(rt; has_bodies(rt.alloc(), source, lines)?);
    Ok(())
}

#[test]
fn brackets_vanish(rt: HostRuntime) -> Result<(), Fail> {
    let source = b"fip fun f(a: int, b: int): int { (((a)) - (b - (a + 1))) }\n";
    let lines =
        b"let _.2@1:51 = a.0@1:49 +@1:51 1@1:53; let _.3@1:46 = b.1@1:44 -@1:46 _.2@1:51; let _.4@1:41 = \
        a.0@1:37 -@1:41 _.3@1:46; _.4@1:41\n";
    assert!(rt; has_bodies(rt.alloc(), source, lines)?);
    Ok(())
}

#[test]
fn an_operator_bound_by_a_let_stays(rt: HostRuntime) -> Result<(), Fail> {
    let source = b"fip fun f(a: int): int { let x = a * -3; let _ = x; (x) }\n";
    let lines = b"let x.1@1:30 = a.0@1:34 *@1:36 -3@1:38; let _.2@1:46 = x.1@1:50; x.1@1:54\n";
    assert!(rt; has_bodies(rt.alloc(), source, lines)?);
    Ok(())
}

#[test]
fn a_comparison_is_bound_for_if(rt: HostRuntime) -> Result<(), Fail> {
    let source =
        b"fip fun f(a: int, b: int): int { if a + 1 < b { a } else { if b == 0 { 1 } else { b } } }\n";
    let lines =
        b"let _.2@1:39 = a.0@1:37 +@1:39 1@1:41; let _.3@1:43 = _.2@1:39 <@1:43 b.1@1:45; match@1:34 _.3@1:43 \
        { True -> a.0@1:49; False -> let _.4@1:65 = b.1@1:63 ==@1:65 0@1:68; match@1:60 _.4@1:65 { True -> \
        1@1:72; False -> b.1@1:83 } }\n";
    assert!(rt; has_bodies(rt.alloc(), source, lines)?);
    Ok(())
}

#[test]
fn a_literal_scrutinee_is_bound(rt: HostRuntime) -> Result<(), Fail> {
    let source = b"fip fun f(a: int): int { match 7 { 0 -> a; -5 -> 1; _ -> a + a } }\n";
    let lines =
        b"let _.1@1:32 = 7@1:32; match@1:26 _.1@1:32 { 0 -> a.0@1:41; -5 -> 1@1:50; _.2 -> let _.3@1:60 = \
        a.0@1:58 +@1:60 a.0@1:62; _.3@1:60 }\n";
    assert!(rt; has_bodies(rt.alloc(), source, lines)?);
    Ok(())
}

#[test]
fn parts_are_bound_from_left_to_right(rt: HostRuntime) -> Result<(), Fail> {
    let source =
        b"data ints { Nil; Cons(int, ints) }\nfip fun g(a: int, b: int): int { a + b }\nfip fun f(a: int, b: \
        int): int { g(g(a + 1, 2), g(b, a * b)) }\n";
    let lines =
        b"let _.2@2:36 = a.0@2:34 +@2:36 b.1@2:38; _.2@2:36\nlet _.2@3:40 = a.0@3:38 +@3:40 1@3:42; let \
        _.3@3:36 = g@3:36(_.2@3:40, 2@3:45); let _.4@3:56 = a.0@3:54 *@3:56 b.1@3:58; let _.5@3:49 = \
        g@3:49(b.1@3:51, _.4@3:56); g@3:34(_.3@3:36, _.5@3:49)\n";
    assert!(rt; has_bodies(rt.alloc(), source, lines)?);
    Ok(())
}

#[test]
fn a_constructor_with_a_bound_part_is_bound(rt: HostRuntime) -> Result<(), Fail> {
    let source =
        b"data ints { Nil; Cons(int, ints) }\nfun f(xs: ints): ints { match! xs { Nil -> Nil; Cons(x, t) -> \
        Cons(x + 1, Cons(x * 2, t)) } }\n";
    let lines =
        b"match!@2:25 xs.0@2:32 { Nil -> Nil@2:44(); Cons(x.1, t.2) -> let _.3@2:70 = x.1@2:68 +@2:70 1@2:72; \
        let _.4@2:82 = x.1@2:80 *@2:82 2@2:84; let _.5@2:75 = Cons@2:75(_.4@2:82, t.2@2:87); \
        Cons@2:63(_.3@2:70, _.5@2:75) }\n";
    assert!(rt; has_bodies(rt.alloc(), source, lines)?);
    Ok(())
}

#[test]
fn tuples_and_binders_without_a_name(rt: HostRuntime) -> Result<(), Fail> {
    let source =
        b"data ints { Nil; Cons(int, ints) }\nfip fun g(a: int): (int, int, bool) { (a, a + 1, a < 0) }\nfip \
        fun f(a: int): int { let (x, _, b) = g(a); let (_, _: int) = (b, x); x }\n";
    let lines =
        b"let _.1@2:45 = a.0@2:43 +@2:45 1@2:47; let _.2@2:52 = a.0@2:50 <@2:52 0@2:54; @2:39(a.0@2:40, \
        _.1@2:45, _.2@2:52)\nlet x.1@3:31, _.2@3:34, b.3@3:37 = g@3:42(a.0@3:44); let _.4@3:53, _.5@3:56 = \
        @3:66(b.3@3:67, x.1@3:70); x.1@3:74\n";
    assert!(rt; has_bodies(rt.alloc(), source, lines)?);
    Ok(())
}

#[test]
fn a_later_binder_hides_an_earlier_one(rt: HostRuntime) -> Result<(), Fail> {
    let source =
        b"fip fun f(a: int): int { let a = a + 1; let a: int = a * a; let b = (let a = 5; a - 1); a + b }\n";
    let lines =
        b"let a.1@1:30 = a.0@1:34 +@1:36 1@1:38; let a.2@1:45 = a.1@1:54 *@1:56 a.1@1:58; let b.5@1:65 = let \
        a.3@1:74 = 5@1:78; let _.4@1:83 = a.3@1:81 -@1:83 1@1:85; _.4@1:83; let _.6@1:91 = a.2@1:89 +@1:91 \
        b.5@1:93; _.6@1:91\n";
    assert!(rt; has_bodies(rt.alloc(), source, lines)?);
    Ok(())
}

#[test]
fn a_block_bound_by_a_let_goes_before_it(rt: HostRuntime) -> Result<(), Fail> {
    let source = b"fip fun f(a: int): int { let b = (let c = a + 2; c * c); (let d = b - 1; d) }\n";
    let lines =
        b"let b.3@1:30 = let c.1@1:39 = a.0@1:43 +@1:45 2@1:47; let _.2@1:52 = c.1@1:50 *@1:52 c.1@1:54; \
        _.2@1:52; let d.4@1:63 = b.3@1:67 -@1:69 1@1:71; d.4@1:74\n";
    assert!(rt; has_bodies(rt.alloc(), source, lines)?);
    Ok(())
}

#[test]
fn a_match_in_an_argument_is_bound(rt: HostRuntime) -> Result<(), Fail> {
    let source =
        b"data ints { Nil; Cons(int, ints) }\nfip fun g(a: int, b: int): int { a + b }\nfip fun f(n: int, c: \
        bool): int { g(match n { 0 -> 1; k -> k + n }, if c { n } else { 2 }) }\n";
    let lines =
        b"let _.2@2:36 = a.0@2:34 +@2:36 b.1@2:38; _.2@2:36\nlet _.4@3:37 = match@3:37 n.0@3:43 { 0 -> 1@3:52; \
        k.2 -> let _.3@3:62 = k.2@3:60 +@3:62 n.0@3:64; _.3@3:62 }; let _.5@3:69 = match@3:69 c.1@3:72 { True \
        -> n.0@3:76; False -> 2@3:87 }; g@3:35(_.4@3:37, _.5@3:69)\n";
    assert!(rt; has_bodies(rt.alloc(), source, lines)?);
    Ok(())
}

#[test]
fn clauses_and_their_binders(rt: HostRuntime) -> Result<(), Fail> {
    let source =
        b"data ints { Nil; Cons(int, ints) }\nfip fun f(xs: ints, acc: ints): ints { match! xs { Cons(a, \
        Cons(_, t)) -> f(t, Cons(a, Cons(a, acc))); Cons(b, Nil) -> Cons(b, acc); Nil -> acc } }\n";
    let lines =
        b"match!@2:40 xs.0@2:47 { Cons(a.2, Cons(_.3, t.4)) -> f@2:75(t.4@2:77, Cons@2:80(a.2@2:85, \
        Cons@2:88(a.2@2:93, acc.1@2:96))); Cons(b.5, Nil) -> Cons@2:120(b.5@2:125, acc.1@2:128); Nil -> \
        acc.1@2:141 }\n";
    assert!(rt; has_bodies(rt.alloc(), source, lines)?);
    Ok(())
}
