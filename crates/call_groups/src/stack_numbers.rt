// What runs of functions hold of the stack at the most.
ghost use Rattle.std.specs.Prelude.{◌≡◌, IfOk, OnOk, None, Some, get_or, set, length, replicate};
ghost use Rattle.call_groups.specs.CallGraph.{rows, group_number};
ghost use Rattle.call_groups.specs.CallGraph as G;
ghost use Rattle.call_groups.specs.Stacks.{AreAsked, AreStacks};
ghost use Rattle.call_groups.specs.Raises.{over_calls, over_functions, with_function, one_call, start, entry, entries};
ghost use Rattle.call_groups.specs.Raises.{raised};
ghost use Rattle.call_groups.specs.Raises as R;

use crate::search::{Call, Partition, calls_of};
use fip_base::plain::{NoMemory, Stack};
use std::alloc::Global;

/// What a run of each function holds of the stack at the most, given the words of its frame; none for a function
/// without a frame. These are the least numbers such that a function holds its frame, and what each of its calls holds,
/// together with its frame where that waits. `groups` are those of these calls; a function with a frame must
/// call such ones alone, and wait for none of its group. There is one entry for each entry of `frames`. NoMemory: no
/// memory is left, or a number can't be held.
pub fn stacks(
    alloc: Global,
    calls: &[Vec<Call>],
    groups: &Partition,
    frames: &[Option<usize>],
) -> Result<Vec<Option<Stack>>, NoMemory>
    ensures stacks { IfOk result (λ ss. AreAsked (rows calls.now) groups.now frames.now
        → AreStacks (rows calls.now) frames.now ss.items) }
    ensures size { IfOk result (λ ss. length ss.items ≡ length frames.now) }
{
    let of_groups = stacks_of_groups(alloc, calls, groups, frames)?;
    stacks_of_functions(alloc, &of_groups, groups, frames)
}

// What runs of the functions hold, by what those of each group hold.
fn stacks_of_functions(
    alloc: Global,
    of_groups: &[Option<Stack>],
    groups: &Partition,
    frames: &[Option<usize>],
) -> Result<Vec<Option<Stack>>, NoMemory>
    ensures { IfOk result (λ ss. ss.items ≡ entries groups.now of_groups.now 0 frames.now) }
{
    let mut stacks = Vec::new(alloc);
    let mut function = 0;
    for frame in frames {
        stacks.push(entry_of(*frame, stack_in(of_groups, groups.group_of(function))))?;
        function += 1;
    }
    Ok(stacks)
}

// What a function with this frame holds, in a group that holds so much.
fn entry_of(frame: Option<usize>, of_group: Option<Stack>) -> Option<Stack>
    ensures { result ≡ entry frame of_group }
{
    match frame {
        Some(_) => of_group,
        None => None,
    }
}

// What runs of the functions of each group hold. In a group it is the same for all, since each reaches the others
// without a call that waits.
fn stacks_of_groups(
    alloc: Global,
    calls: &[Vec<Call>],
    groups: &Partition,
    frames: &[Option<usize>],
) -> Result<Vec<Option<Stack>>, NoMemory>
    ensures { IfOk result (λ ss. ss.items ≡ over_functions (rows calls.now) groups.now frames.now
        (replicate (length (rows calls.now)) None) groups.now.order.items) }
{
    let mut found = none_of(alloc, calls.len())?;
    for function in groups.order() {
        let frame = frame_of(frames, *function);
        add(&mut found, calls, groups, *function, frame)?;
    }
    Ok(found)
}

// Nothing is known of so many groups yet.
fn none_of(alloc: Global, count: usize) -> Result<Vec<Option<Stack>>, NoMemory>
    ensures { IfOk result (λ v. v.items ≡ replicate count None) }
{
    let mut found = Vec::new(alloc);
    found.resize(count, None)?;
    Ok(found)
}

// The words of a function's frame.
fn frame_of(frames: &[Option<usize>], function: usize) -> Option<usize>
    ensures { result ≡ get_or frames.now function None }
{
    match frames.get(function) {
        Some(frame) => *frame,
        None => None,
    }
}

// A function with a frame raises what its group holds.
fn add(
    found: &mut Vec<Option<Stack>>,
    calls: &[Vec<Call>],
    groups: &Partition,
    function: usize,
    frame: Option<usize>,
) -> Result<(), NoMemory>
    ensures { OnOk result (found.new.items ≡
        with_function (rows calls.now) groups.now found.old.items function frame) }
{
    match frame {
        None => Ok(()),
        Some(words) => {
            let group = groups.group_of(function);
            let row = calls_of(calls, function);
            let stack = stack_from(row, words, group, groups, found)?;
            raise(found, group, stack);
            Ok(())
        }
    }
}

// What a function holds by its frame and by its calls out of its group, callees' groups being known.
fn stack_from(
    calls: &[Call],
    frame: usize,
    group: usize,
    groups: &Partition,
    found: &[Option<Stack>],
) -> Result<Stack, NoMemory>
    ensures { IfOk result (λ s. s ≡ over_calls groups.now found.now group frame (start frame) calls.now) }
{
    let mut stack = Stack {
        frames: 0,
        words: frame,
    };
    for call in calls {
        stack = stack_with(stack, *call, frame, group, groups, found)?;
    }
    Ok(stack)
}

// What it holds with one more of its calls.
fn stack_with(
    stack: Stack,
    call: Call,
    frame: usize,
    group: usize,
    groups: &Partition,
    found: &[Option<Stack>],
) -> Result<Stack, NoMemory>
    ensures { IfOk result (λ s. s ≡ one_call groups.now found.now group frame stack call) }
{
    let called = groups.group_of(call.callee);
    if called == group {
        return Ok(stack);
    }
    match stack_in(found, called) {
        Some(callee) => Ok(greater(stack, with_frame(callee, call.waits, frame)?)),
        None => Ok(stack),
    }
}

// What a call holds, with the frame that waits for it. Both numbers are at most those of all functions' frames.
fn with_frame(callee: Stack, waits: bool, frame: usize) -> Result<Stack, NoMemory>
    ensures { IfOk result (λ s. s ≡ R.with_frame callee waits frame) }
{
    if !waits {
        return Ok(callee);
    }
    Ok(Stack {
        frames: callee.frames.checked_add(1).ok_or(NoMemory)?,
        words: callee.words.checked_add(frame).ok_or(NoMemory)?,
    })
}

fn greater(one: Stack, other: Stack) -> Stack
    ensures { result ≡ R.greater one other }
{
    Stack {
        frames: one.frames.max(other.frames),
        words: one.words.max(other.words),
    }
}

fn stack_in(found: &[Option<Stack>], group: usize) -> Option<Stack>
    ensures { result ≡ get_or found.now group None }
{
    match found.get(group) {
        Some(stack) => *stack,
        None => None,
    }
}

// A group holds at least this.
fn raise(found: &mut Vec<Option<Stack>>, group: usize, stack: Stack)
    ensures { found.new.items ≡ set found.old.items group (Some (raised (get_or found.old.items group None) stack)) }
{
    if group < found.len() {
        found[group] = Some(raise_by(found[group], stack));
    }
}

fn raise_by(before: Option<Stack>, stack: Stack) -> Stack
    ensures { result ≡ raised before stack }
{
    match before {
        Some(before) => greater(before, stack),
        None => stack,
    }
}
