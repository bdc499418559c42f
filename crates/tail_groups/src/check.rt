// Groups of instances, the rule on calls within a group, and what instances hold of the stack.
ghost use Rattle.std.specs.Prelude.{◌≡◌, IfOk, IfErr, None, get_or, map, option_and_then, slice_get};
ghost use Rattle.call_groups.specs.CallGraph.{rows};
ghost use Rattle.fip_trees.specs.TreeView as V;
ghost use Rattle.fip_trees.specs.declared.least.Violation.{Violation};
ghost use Rattle.tail_groups.specs.Found.{AreFound, counted, frame_by, member, members_from};
ghost use Rattle.tail_groups.specs.Members.{AreMembers};
ghost use Rattle.tail_groups.specs.Notes.{IsNoted};
ghost use Rattle.tail_groups.specs.Rules.{Violates, Says};
ghost use Rattle.tail_groups.specs.Sites.{call_rows};

use crate::calls::add_block;
use crate::count::registers;
use crate::notes::note_all;
use call_groups::{Call, Partition, partition_of, stacks};
use fip_base::plain::{FunKind, NoMemory, Stack};
use fip_base::refusal::PhaseError;
use fip_language::limits::FRAME_WORDS;
use fip_trees::groups::{Groups, Member};
use fip_trees::least::Least;
use fip_trees::program::{Instance, Typed};
use std::alloc::Global;

/// The call groups of a program, with the registers of each instance, and what a run of each fip instance holds of the
/// stack at the most. The program must break no rule on ownership: then fip instances call fip ones alone, and
/// what runs hold of the stack are the least numbers.
///
/// Refused exactly where E59 is broken, for the least violation by place, instance and name: a fip instance calls one
/// of its own group outside tail position. NoMemory: no memory is left.
pub fn groups(alloc: Global, typed: &Typed) -> Result<Groups, PhaseError>
    ensures members { IfOk result (λ ms. AreMembers (V.program typed.now.program).instances ms) }
    ensures tail { IfOk result (λ _. (v : Violation) → Violates (V.program typed.now.program) v → ⊥) }
    ensures least { IfErr result (λ e. Says (V.program typed.now.program) e) }
{
    let instances = typed.program.instances.as_slice();
    match found(alloc, instances) {
        Err(NoMemory) => Err(PhaseError::NoMemory),
        Ok((groups, least)) => match least.into_refusal() {
            None => Ok(groups),
            Some(refusal) => Err(PhaseError::Refused(refusal)),
        },
    }
}

/// What a run of an instance holds of the stack at the most; none exactly for an instance that isn't fip.
pub fn stack_of(groups: &Groups, f: usize) -> Option<Stack>
    ensures held { result ≡ option_and_then (λ m. m.stack) (slice_get groups.now f) }
{
    groups.stack_of(f)
}

// The groups, and the least violation.
fn found(alloc: Global, instances: &[Instance]) -> Result<(Groups, Least), NoMemory>
    ensures noted { IfOk result (λ f. IsNoted (V.instances instances.now) f.1) }
    ensures found { IfOk result (λ f. AreFound (V.instances instances.now) f.0) }
{
    let calls = calls_of(alloc, instances)?;
    let partition = partition_of(alloc, &calls)?;
    let least = note_all(alloc, instances, &partition)?;
    let counts = registers_of(alloc, instances)?;
    let frames = frames_of(alloc, &counts)?;
    let stacks = stacks(alloc, &calls, &partition, &frames)?;
    let members = members_of(alloc, &partition, &counts, &stacks)?;
    Ok((Groups::new(members), least))
}

// The calls of each instance.
#[tactic(auto, using(crate::proofs::Shared::calling))]
fn calls_of(alloc: Global, instances: &[Instance]) -> Result<Vec<Vec<Call>>, NoMemory>
    ensures { IfOk result (λ calls. rows calls.items ≡ call_rows (V.instances instances.now)) }
{
    let mut all = Vec::new(alloc);
    for instance in instances {
        let mut calls = Vec::new(alloc);
        add_block(&mut calls, true, &instance.body)?;
        all.push(calls)?;
    }
    Ok(all)
}

// An instance's kind and its registers.
#[derive(Clone, Copy)]
struct Counted {
    kind: FunKind,
    registers: usize,
}

// The kind and the registers of each instance.
fn registers_of(alloc: Global, instances: &[Instance]) -> Result<Vec<Counted>, NoMemory>
    ensures { IfOk result (λ counts. counts.items ≡ map counted (V.instances instances.now)) }
{
    let mut counts = Vec::new(alloc);
    for instance in instances {
        counts.push(count_of(instance)?)?;
    }
    Ok(counts)
}

fn count_of(instance: &Instance) -> Result<Counted, NoMemory>
    ensures { IfOk result (λ c. c ≡ counted (V.instance_of instance.now)) }
{
    Ok(Counted {
        kind: instance.kind,
        registers: registers(instance)?,
    })
}

// The words of each fip instance's frame; none for the others.
fn frames_of(alloc: Global, counts: &[Counted]) -> Result<Vec<Option<usize>>, NoMemory>
    ensures { IfOk result (λ frames. frames.items ≡ map frame_by counts.now) }
{
    let mut frames = Vec::new(alloc);
    for count in counts {
        frames.push(frame_of(*count)?)?;
    }
    Ok(frames)
}

fn frame_of(count: Counted) -> Result<Option<usize>, NoMemory>
    ensures { IfOk result (λ words. words ≡ frame_by count) }
{
    if !count.kind.is_fip() {
        return Ok(None);
    }
    let words = count.registers.checked_add(FRAME_WORDS).ok_or(NoMemory)?;
    Ok(Some(words))
}

// What is known of each instance.
fn members_of(
    alloc: Global,
    partition: &Partition,
    counts: &[Counted],
    stacks: &[Option<Stack>],
) -> Result<Vec<Member>, NoMemory>
    ensures { IfOk result (λ members. members.items ≡ members_from partition.now stacks.now 0 counts.now) }
{
    let mut members = Vec::new(alloc);
    let mut number = 0;
    for count in counts {
        members.push(member_of(partition, stacks, number, *count))?;
        number += 1;
    }
    Ok(members)
}

fn member_of(
    partition: &Partition,
    stacks: &[Option<Stack>],
    number: usize,
    count: Counted,
) -> Member
    ensures { result ≡ member partition.now stacks.now number count }
{
    Member {
        group: partition.group_of(number),
        registers: count.registers,
        stack: stack_at(stacks, number),
    }
}

fn stack_at(stacks: &[Option<Stack>], number: usize) -> Option<Stack>
    ensures { result ≡ get_or stacks.now number None }
{
    match stacks.get(number) {
        Some(stack) => *stack,
        None => None,
    }
}
