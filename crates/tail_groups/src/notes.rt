// The calls within a group outside tail position.
ghost use Rattle.std.specs.Prelude.{◌≡◌, None, true, IfOk, OnOk};
ghost use Rattle.fip_trees.specs.Least.{after};
ghost use Rattle.fip_trees.specs.TreeView as V;
ghost use Rattle.tail_groups.specs.Notes.{site_notes, expression_notes, block_notes, clauses_notes};
ghost use Rattle.tail_groups.specs.Notes.{instance_notes, all_notes};
ghost use Rattle.tail_groups.specs.Rules as R;
ghost use Rattle.tail_groups.specs.Sites.{site};

use call_groups::Partition;
use fip_base::plain::{FunKind, NoMemory, Place};
use fip_base::refusal::Rule;
use fip_trees::least::Least;
use fip_trees::program::{Block, Clause, Expression, Instance};
use std::alloc::Global;

/// The least violation of E59: a fip instance calls one of its own group outside tail position.
#[tactic(auto, using(crate::proofs::Shared::noting))]
pub fn note_all(
    alloc: Global,
    instances: &[Instance],
    groups: &Partition,
) -> Result<Least, NoMemory>
    ensures noted { IfOk result (λ l. l ≡ after None (all_notes groups.now 0 (V.instances instances.now))) }
{
    let mut least = Least::new(alloc);
    let mut number = 0;
    for instance in instances {
        note_instance(&mut least, groups, number, instance)?;
        number += 1;
    }
    Ok(least)
}

// Those of one instance.
fn note_instance(
    least: &mut Least,
    groups: &Partition,
    number: usize,
    instance: &Instance,
) -> Result<(), NoMemory>
    ensures { OnOk result (least.new ≡ after least.old
        (instance_notes groups.now number (V.instance_of instance.now))) }
{
    if !instance.kind.is_fip() {
        return Ok(());
    }
    let caller = Caller { groups, number };
    note_block(least, &caller, true, &instance.body)
}

// The instance whose calls are looked at, and the groups.
#[derive(Clone, Copy)]
struct Caller<'a> {
    groups: &'a Partition,
    number: usize,
}

#[cycle(block)]
#[tactic(auto, using(crate::proofs::Shared::noting))]
fn note_block(
    least: &mut Least,
    caller: &Caller<'_>,
    is_tail: bool,
    block: &Block,
) -> Result<(), NoMemory>
    ensures noted { OnOk result (least.new ≡ after least.old
        (block_notes caller.now.groups.now caller.now.number is_tail (V.block block.now))) }
{
    for binding in &block.bindings {
        note_expression(least, caller, false, &binding.bound)?;
    }
    note_expression(least, caller, is_tail, &block.last)
}

#[cycle(block)]
#[tactic(auto, using(crate::proofs::Shared::noting))]
fn note_expression(
    least: &mut Least,
    caller: &Caller<'_>,
    is_tail: bool,
    expression: &Expression,
) -> Result<(), NoMemory>
    ensures noted { OnOk result (least.new ≡ after least.old
        (expression_notes caller.now.groups.now caller.now.number is_tail (V.expression expression.now))) }
{
    match expression {
        Expression::Give(_) => Ok(()),
        Expression::Tuple { .. } => Ok(()),
        Expression::Operation { .. } => Ok(()),
        Expression::Call {
            callee,
            name,
            place,
            ..
        } => note_call(
            least,
            caller,
            is_tail,
            *callee as usize,
            name.as_slice(),
            *place,
        ),
        Expression::Match { first, others, .. } => {
            note_block(least, caller, is_tail, &first.body)?;
            note_clauses(least, caller, is_tail, others)
        }
        Expression::Nested(block) => note_block(least, caller, is_tail, block),
    }
}

#[cycle(block)]
#[tactic(auto, using(crate::proofs::Shared::noting))]
fn note_clauses(
    least: &mut Least,
    caller: &Caller<'_>,
    is_tail: bool,
    clauses: &[Clause],
) -> Result<(), NoMemory>
    ensures noted { OnOk result (least.new ≡ after least.old
        (clauses_notes caller.now.groups.now caller.now.number is_tail (V.clauses clauses.now))) }
{
    for next in clauses {
        note_block(least, caller, is_tail, &next.body)?;
    }
    Ok(())
}

// A call of this instance, named so in this place.
fn note_call(
    least: &mut Least,
    caller: &Caller<'_>,
    is_tail: bool,
    callee: usize,
    name: &[u8],
    place: Place,
) -> Result<(), NoMemory>
    ensures { OnOk result (least.new ≡ after least.old
        (site_notes caller.now.groups.now caller.now.number (site callee name.now place is_tail))) }
{
    if is_tail {
        return Ok(());
    }
    if caller.groups.group_of(callee) == caller.groups.group_of(caller.number) {
        least.note(Rule::E59, place, caller.number, 0, name)?;
    }
    Ok(())
}
