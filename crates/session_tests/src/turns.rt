// Tasks that are turned one by one.
ghost use Rattle.std.specs.Prelude.{◌≡◌, ◌<◌, length};

use cell_store::Loader;
use command_source::{Front, front};
use fip_base::plain::NoMemory;
use fip_room::Room;
use fip_tasks::{Tasks, Turned};
use std::alloc::Global;
use std::test::Fail;
use task_lines::TaskList;
use value_text::print_value;

const PROGRAM: &[u8] = b"data ints { Nil; Cons(int, ints) }
fip fun rev(xs: ints, done: ints): ints {
  match! xs { Nil -> done; Cons(x, rest) -> rev(rest, Cons(x, done)) }
}
";

// The number of the type `ints`.
const INTS: u32 = 2;

const CALLS: &[u8] = b"rev(Cons(1, Cons(2, Nil)), Nil)\nrev(Cons(3, Nil), Cons(4, Nil))\n";

// The words of the cells of both.
const WORDS: usize = 12;

// More turns than one of them takes.
const MOST_TURNS: usize = 40;

// So many turns of a task.
fn take_turns(tasks: &mut Tasks, k: usize, turns: usize)
    requires there { k < length tasks.old.tasks }
    ensures number { length tasks.new.tasks ≡ length tasks.old.tasks }
{
    for _ in 0..turns {
        tasks.turn(k);
    }
}

// Whether a task has ended with a value that is printed so.
fn gives(
    alloc: Global,
    known: &Front,
    tasks: &mut Tasks,
    k: usize,
    text: &[u8],
) -> Result<bool, NoMemory>
    requires there { k < length tasks.old.tasks }
    ensures number { length tasks.new.tasks ≡ length tasks.old.tasks }
{
    let has_value = tasks.turn(k) == Turned::Value;
    let types = &known.verified.code().types;
    match tasks.results(k).first() {
        Some(word) => {
            let printed = print_value(alloc, types, tasks.cells(), INTS, *word)?;
            Ok(has_value && printed.as_slice() == text)
        }
        None => Ok(false),
    }
}

// Whether the second task gives its value where the first one has taken so many turns, and the first one gives its own
// after that.
fn are_apart(
    alloc: Global,
    known: &Front,
    tasks: &mut Tasks,
    before: usize,
) -> Result<bool, NoMemory>
    requires both { 1 < length tasks.old.tasks }
{
    take_turns(tasks, 0, before);
    let goes_on = tasks.answer(0).is_none();
    take_turns(tasks, 1, MOST_TURNS);
    let second = gives(alloc, known, tasks, 1, b"Cons(3, Cons(4, Nil))")?;
    let stays = tasks.answer(0).is_none() == goes_on;
    take_turns(tasks, 0, MOST_TURNS);
    let first = gives(alloc, known, tasks, 0, b"Cons(2, Cons(1, Nil))")?;
    Ok(stays && second && first && gives(alloc, known, tasks, 1, b"Cons(3, Cons(4, Nil))")?)
}

// The same for new tasks.
fn are_apart_anew(alloc: Global, known: &Front, before: usize) -> Result<bool, NoMemory> {
    let verified = &known.verified;
    let Ok(list) = TaskList::of(alloc, verified, CALLS) else {
        return Ok(false);
    };
    let room = Room {
        calls: 100,
        frames: 10,
        words: WORDS,
    };
    let loader = Loader::new(alloc, room.words);
    let (loader, starts) = list.starts(alloc, verified, room, loader)?;
    let mut tasks = Tasks::new(alloc, verified, loader, starts.as_slice())?;
    if tasks.len() != 2 {
        return Ok(false);
    }
    are_apart(alloc, known, &mut tasks, before)
}

#[test]
fn a_task_ends_between_two_turns_of_another(rt: HostRuntime) -> Result<(), Fail> {
    let alloc = rt.alloc();
    let Ok(known) = front(alloc, PROGRAM) else {
        assert!(rt; false, "the program is refused");
        return Ok(());
    };
    for before in 0..MOST_TURNS {
        assert!(rt;
            are_apart_anew(alloc, &known, before)?,
            "behind {before} turns"
        );
    }
    Ok(())
}
