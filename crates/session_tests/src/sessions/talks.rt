// Sessions of drawn lines.
use crate::sessions::cells::count_of_names;
use crate::sessions::draws::Draws;
use crate::sessions::lines::{Drawn, drawn_line};
use command_source::{Front, front};
use fip_base::plain::NoMemory;
use fip_room::Room;
use fip_session::Session;
use std::alloc::Global;
use std::process::Abort;
use std::test::Fail;

// Lists, trees, and pairs of them; borrowed parameters, credits in headers, functions that free, one that holds a frame
// for each item, and ones that trap.
const PROGRAM: &[u8] = b"data ints { Nil; Cons(int, ints) }
data tree { Leaf; Node(tree, int, tree) }
data pair { Pair(ints, tree) }
fip fun rev(xs: ints, done: ints): ints {
  match! xs { Nil -> done; Cons(x, rest) -> rev(rest, Cons(x, done)) }
}
fip +2 fun push(x: int, xs: ints): ints { Cons(x, xs) }
fip +2 fun push_total(^xs: ints, sum: int, ys: ints): ints { let n = total(xs, sum); Cons(n, ys) }
fip +3 fun grow(l: tree, x: int, r: tree): tree { Node(l, x, r) }
fip +2 fun pack(xs: ints, t: tree): pair { Pair(xs, t) }
fip fun turn(p: pair): pair { match! p { Pair(xs, t) -> Pair(rev(xs, Nil), t) } }
fip fun total(^xs: ints, sum: int): int { match xs { Nil -> sum; Cons(x, rest) -> total(rest, sum + x) } }
fip fun share(xs: ints, n: int): (ints, int) { let sum = total(xs, 0); (xs, sum / n) }
fip fun least(^t: tree, otherwise: int): int { match t { Leaf -> otherwise; Node(l, x, _) -> least(l, x) } }
fip fun both(^t: tree, xs: ints): (ints, int) { let n = least(t, 0); (xs, n) }
fip fun is_less(^xs: ints, ^ys: ints): bool { total(xs, 0) < total(ys, 0) }
fbip fun parts(t: tree): (tree, int, tree) { match! t { Leaf -> (Leaf, 0, Leaf); Node(l, x, r) -> (l, x, r) } }
fbip fun unpack(p: pair): (ints, tree) { match! p { Pair(xs, t) -> (xs, t) } }
fbip fun len(xs: ints, n: int): int { match! xs { Nil -> n; Cons(_, rest) -> len(rest, n + 1) } }
fbip fun inc(xs: ints): ints { match! xs { Nil -> Nil; Cons(x, rest) -> Cons(x + 1, inc(rest)) } }
";

// How the replies begin that aren't values.
const REPLIES: &[&[u8]] = &[
    b"ok",
    b"bad line",
    b"no name ",
    b"no entry ",
    b"wrong number",
    b"bad argument ",
    b"bad result ",
    b"store too small: ",
    b"trap Overflow ",
    b"trap DivideByZero ",
    b"out of calls: ",
    b"out of frames: ",
];

// Counts a reply.
fn count(reply: &[u8], counts: &mut Vec<usize>) {
    for (count, begin) in counts.iter_mut().zip(REPLIES.iter()) {
        if reply.starts_with(begin) {
            *count = count.saturating_add(1);
        }
    }
}

// Whether a run ended without a value.
fn is_without_value(reply: &[u8]) -> bool {
    reply.starts_with(b"trap ") || reply.starts_with(b"out of ")
}

// Whether each of these names is held, or none of them.
fn are_held(session: &Session, names: &[u8], want: bool) -> bool {
    for name in names {
        if session.held(&[*name]).is_some() != want {
            return false;
        }
    }
    true
}

// Whether the names of a line hold what they have to after it: a value if they name results of a run that gave some,
// and nothing where the run ended without a value.
fn has_names(session: &Session, line: &Drawn, reply: &[u8]) -> bool {
    if is_without_value(reply) {
        return are_held(session, line.used.as_slice(), false)
            && are_held(session, line.results.as_slice(), false);
    }
    reply != b"ok".as_slice() || are_held(session, line.results.as_slice(), true)
}

// A session of drawn lines, so many of a hundred of whose values are long, after each of which the names and the cells are
// looked at: how often each reply came.
fn talk(
    rt: &impl Abort,
    alloc: Global,
    known: &Front,
    room: Room,
    long: usize,
    seed: u64,
    lines: usize,
) -> Result<Vec<usize>, NoMemory> {
    let mut counts = Vec::from_elem(alloc, 0, REPLIES.len())?;
    let mut draws = Draws::of(seed, long);
    let mut session = Session::new(alloc, &known.typed, &known.verified, room)?;
    for number in 0..lines {
        let line = drawn_line(alloc, &session, known.verified.code(), &mut draws)?;
        let (after, reply) = session.line(line.text.as_slice())?;
        session = after;
        let reply = reply.as_slice();
        count(reply, &mut counts);
        assert!(rt;
            has_names(&session, &line, reply),
            "names, seed {seed}, line {number}"
        );
        let found = count_of_names(alloc, &known.typed.program.types, &session)?;
        assert!(rt; found.is_some(), "cells, seed {seed}, line {number}");
    }
    Ok(counts)
}

#[test]
fn the_cells_are_those_of_the_held_names(rt: HostRuntime) -> Result<(), Fail> {
    let alloc = rt.alloc();
    let Ok(known) = front(alloc, PROGRAM) else {
        assert!(rt; false, "the program is refused");
        return Ok(());
    };
    let room = Room {
        words: 60_000,
        calls: 3000,
        frames: 1000,
    };
    let counts = talk(&rt, alloc, &known, room, 3, 1, 400)?;
    assert!(rt; counts.first().copied().unwrap_or(0) > 100, "too few runs");
    Ok(())
}

// A line that reverses a list of so many items into the name b.
fn long_line(alloc: Global, items: usize) -> Result<Vec<u8>, NoMemory> {
    let mut text = Vec::from_slice(alloc, b"b = rev(")?;
    for _ in 0..items {
        text.extend_from_slice(b"Cons(1, ")?;
    }
    text.extend_from_slice(b"Nil")?;
    for _ in 0..items {
        text.push(b')')?;
    }
    text.extend_from_slice(b", Nil)")?;
    Ok(text)
}

// Past 2,048 cells that a run uses up, a session looks through its whole store for those that it must keep.
#[test]
fn the_cells_of_a_long_run_without_a_value_are_released(rt: HostRuntime) -> Result<(), Fail> {
    let alloc = rt.alloc();
    let Ok(known) = front(alloc, PROGRAM) else {
        assert!(rt; false, "the program is refused");
        return Ok(());
    };
    let types = &known.typed.program.types;
    let room = Room {
        words: 60_000,
        calls: 100,
        frames: 0,
    };
    let session = Session::new(alloc, &known.typed, &known.verified, room)?;
    let (session, reply) = session.line(b"a = push(1, Cons(2, Nil))")?;
    assert_eq!(rt; reply.as_slice(), b"ok".as_slice());
    let line = long_line(alloc, 3000)?;
    let (session, reply) = session.line(line.as_slice())?;
    assert_eq!(rt; reply.as_slice(), b"out of calls: 100".as_slice());
    assert_eq!(rt; count_of_names(alloc, types, &session)?, Some(2));
    Ok(())
}

#[test]
fn nothing_stays_where_runs_end_without_a_value(rt: HostRuntime) -> Result<(), Fail> {
    let alloc = rt.alloc();
    let Ok(known) = front(alloc, PROGRAM) else {
        assert!(rt; false, "the program is refused");
        return Ok(());
    };
    let room = Room {
        words: 120,
        calls: 5,
        frames: 2,
    };
    let counts = talk(&rt, alloc, &known, room, 0, 1, 400)?;
    for (i, count) in counts.iter().enumerate() {
        assert!(rt; *count > 0, "reply {i}");
    }
    Ok(())
}

// No drawn line has the name z, so its cells aren't looked for.
#[test]
fn a_cell_of_another_name_is_reported(rt: HostRuntime) -> Result<(), Fail> {
    let alloc = rt.alloc();
    let Ok(known) = front(alloc, PROGRAM) else {
        assert!(rt; false, "the program is refused");
        return Ok(());
    };
    let types = &known.typed.program.types;
    let room = Room {
        words: 100,
        calls: 10,
        frames: 0,
    };
    let session = Session::new(alloc, &known.typed, &known.verified, room)?;
    let (session, reply) = session.line(b"z = push(1, Cons(2, Nil))")?;
    assert_eq!(rt; reply.as_slice(), b"ok".as_slice());
    assert_eq!(rt; count_of_names(alloc, types, &session)?, None);
    let (session, reply) = session.line(b"a = push(3, z)")?;
    assert_eq!(rt; reply.as_slice(), b"ok".as_slice());
    assert_eq!(rt; count_of_names(alloc, types, &session)?, Some(3));
    Ok(())
}
