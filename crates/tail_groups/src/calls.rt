// The calls of an instance, in text order, and which of them are in tail position: the body is, a block's last
// expression and a clause's body are where the whole is, and what a binding binds never is.
ghost use Rattle.std.specs.Prelude.{◌≡◌, ◌++◌, map, OnOk, true};
ghost use Rattle.fip_trees.specs.TreeView as V;
ghost use Rattle.tail_groups.specs.Sites.{called, sites, block_sites, clauses_sites};

use call_groups::Call;
use fip_base::plain::NoMemory;
use fip_trees::program::{Block, Clause, Expression};

/// Puts the calls of a block after others.
#[cycle(block)]
#[tactic(auto, using(crate::proofs::Shared::calling))]
pub fn add_block(calls: &mut Vec<Call>, is_tail: bool, block: &Block) -> Result<(), NoMemory>
    ensures added { OnOk result (calls.new.items ≡
        calls.old.items ++ map called (block_sites is_tail (V.block block.now))) }
{
    for binding in &block.bindings {
        add_expression(calls, false, &binding.bound)?;
    }
    add_expression(calls, is_tail, &block.last)
}

#[cycle(block)]
#[tactic(auto, using(crate::proofs::Shared::calling))]
fn add_expression(
    calls: &mut Vec<Call>,
    is_tail: bool,
    expression: &Expression,
) -> Result<(), NoMemory>
    ensures added { OnOk result (calls.new.items ≡
        calls.old.items ++ map called (sites is_tail (V.expression expression.now))) }
{
    match expression {
        Expression::Give(_) => Ok(()),
        Expression::Tuple { .. } => Ok(()),
        Expression::Operation { .. } => Ok(()),
        Expression::Call { callee, .. } => {
            calls.push(Call {
                callee: *callee as usize,
                waits: !is_tail,
            })?;
            Ok(())
        }
        Expression::Match { first, others, .. } => {
            add_block(calls, is_tail, &first.body)?;
            add_clauses(calls, is_tail, others)
        }
        Expression::Nested(block) => add_block(calls, is_tail, block),
    }
}

#[cycle(block)]
#[tactic(auto, using(crate::proofs::Shared::calling))]
fn add_clauses(calls: &mut Vec<Call>, is_tail: bool, clauses: &[Clause]) -> Result<(), NoMemory>
    ensures added { OnOk result (calls.new.items ≡
        calls.old.items ++ map called (clauses_sites is_tail (V.clauses clauses.now))) }
{
    for next in clauses {
        add_block(calls, is_tail, &next.body)?;
    }
    Ok(())
}
