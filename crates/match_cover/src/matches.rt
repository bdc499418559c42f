// The matches of a body, and its lets.
ghost use Rattle.std.specs.Prelude.{◌≡◌, ◌++◌, map, OnOk};
ghost use Rattle.match_cover.specs.FoundView.{found_matches, found_lets};
ghost use Rattle.match_cover.specs.Matches.{arm, below_arms, block_matches, expression_matches};
ghost use Rattle.match_cover.specs.Lets.{block_lets, clause_lets, expression_lets};
ghost use Rattle.match_cover.specs.PatternView.{joined};

use fip_base::plain::{NoMemory, Place};
use fip_trees::program::{Binder, Block, Clause, Expression};

/// A match in a body: its place, the type of what is matched, and its clauses.
#[derive(Drop)]
pub(crate) struct Found<'a> {
    pub(crate) place: Place,
    pub(crate) ty: u32,
    pub(crate) first: &'a Clause,
    pub(crate) others: &'a [Clause],
}

/// Appends the matches of a block. An error where no memory is left.
#[cycle(find)]
pub(crate) fn find_in_block<'a>(
    block: &'a Block,
    found: &mut Vec<Found<'a>>,
) -> Result<(), NoMemory>
    ensures { OnOk result (found_matches found.new.items ≡ found_matches found.old.items ++ block_matches block.now) }
{
    for binding in &block.bindings {
        find_in_expression(&binding.bound, found)?;
    }
    find_in_expression(&block.last, found)
}

#[cycle(find)]
fn find_in_expression<'a>(
    expression: &'a Expression,
    found: &mut Vec<Found<'a>>,
) -> Result<(), NoMemory>
    ensures { OnOk result (found_matches found.new.items ≡
        found_matches found.old.items ++ expression_matches expression.now) }
{
    match expression {
        Expression::Give(_) => Ok(()),
        Expression::Tuple { .. } => Ok(()),
        Expression::Operation { .. } => Ok(()),
        Expression::Call { .. } => Ok(()),
        Expression::Match {
            ty,
            place,
            first,
            others,
            ..
        } => {
            found.push(Found {
                place: *place,
                ty: *ty,
                first,
                others,
            })?;
            find_in_block(&first.body, found)?;
            find_in_bodies(others, found)
        }
        Expression::Nested(block) => find_in_block(block, found),
    }
}

#[cycle(find)]
fn find_in_bodies<'a>(clauses: &'a [Clause], found: &mut Vec<Found<'a>>) -> Result<(), NoMemory>
    ensures { OnOk result (found_matches found.new.items ≡
        found_matches found.old.items ++ below_arms (map arm clauses.now)) }
{
    for clause in clauses {
        find_in_block(&clause.body, found)?;
    }
    Ok(())
}

/// Appends the binders of each let of a block. An error where no memory is left.
#[cycle(lets)]
pub(crate) fn lets_in_block<'a>(
    block: &'a Block,
    found: &mut Vec<&'a [Binder]>,
) -> Result<(), NoMemory>
    ensures { OnOk result (found_lets found.new.items ≡ found_lets found.old.items ++ block_lets block.now) }
{
    for binding in &block.bindings {
        found.push(&binding.binders)?;
        lets_in_expression(&binding.bound, found)?;
    }
    lets_in_expression(&block.last, found)
}

#[cycle(lets)]
fn lets_in_expression<'a>(
    expression: &'a Expression,
    found: &mut Vec<&'a [Binder]>,
) -> Result<(), NoMemory>
    ensures { OnOk result (found_lets found.new.items ≡
        found_lets found.old.items ++ expression_lets expression.now) }
{
    match expression {
        Expression::Give(_) => Ok(()),
        Expression::Tuple { .. } => Ok(()),
        Expression::Operation { .. } => Ok(()),
        Expression::Call { .. } => Ok(()),
        Expression::Match { first, others, .. } => {
            lets_in_block(&first.body, found)?;
            lets_in_bodies(others, found)
        }
        Expression::Nested(block) => lets_in_block(block, found),
    }
}

#[cycle(lets)]
fn lets_in_bodies<'a>(clauses: &'a [Clause], found: &mut Vec<&'a [Binder]>) -> Result<(), NoMemory>
    ensures { OnOk result (found_lets found.new.items ≡
        found_lets found.old.items ++ joined (map clause_lets clauses.now)) }
{
    for clause in clauses {
        lets_in_block(&clause.body, found)?;
    }
    Ok(())
}
