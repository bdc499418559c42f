// One walk over the body of an instance: what each expression needs, and the least violation of the rules on it.
ghost use Rattle.std.specs.Prelude.{◌≡◌, ◌<◌, ◌-◌, ◌∷◌, [], ◌++◌, length, set, IfOk, OnOk};
ghost use Rattle.fip_trees.specs.Least.{after};
ghost use Rattle.fip_trees.specs.Sizes.{no_sizes};
ghost use Rattle.fip_trees.specs.TreeView as V;
ghost use Rattle.credit_check.specs.Tallies as L;

use crate::context::Context;
use crate::needs::{add_argument, add_arguments, add_asked, given};
use crate::notes::{note_different, note_unused};
use fip_base::plain::{NoMemory, Place};
use fip_trees::least::Least;
use fip_trees::needs::Need;
use fip_trees::program::{Argument, Block, Clause, Expression};
use fip_trees::sizes::Sizes;

// Keeps what an expression without expressions in it needs.
fn leaf(needs: &mut Vec<Need>, sizes: Sizes) -> Result<(), NoMemory>
    ensures kept { OnOk result (needs.new.items ≡ needs.old.items ++ L.above_need sizes []) }
{
    needs.push(Need { sizes, span: 1 })?;
    Ok(())
}

// Gives an expression its number, before those in it; what it needs isn't known yet.
fn open(needs: &mut Vec<Need>) -> Result<usize, NoMemory>
    ensures number { IfOk result (λ n. n ≡ length needs.old.items) }
    ensures kept { OnOk result (needs.new.items ≡ needs.old.items ++ L.above_need no_sizes []) }
{
    let at = needs.len();
    leaf(needs, Sizes::none())?;
    Ok(at)
}

// Keeps what the expression of this number needs, after those in it.
fn close(needs: &mut Vec<Need>, at: usize, sizes: Sizes)
    requires { at < length needs.old.items }
    ensures kept { needs.new.items ≡
        set needs.old.items at record { sizes = sizes; span = length needs.old.items - at } }
{
    let span = needs.len() - at;
    needs[at] = Need { sizes, span };
}

fn give(needs: &mut Vec<Need>, argument: &Argument) -> Result<Sizes, NoMemory>
    ensures sizes { IfOk result (λ s. s ≡ L.made_from no_sizes (V.argument argument.now)) }
    ensures kept { OnOk result (needs.new.items ≡
        needs.old.items ++ L.above_need (L.made_from no_sizes (V.argument argument.now)) []) }
{
    let mut sizes = Sizes::none();
    add_argument(&mut sizes, argument)?;
    leaf(needs, sizes)?;
    Ok(sizes)
}

fn tuple(needs: &mut Vec<Need>, arguments: &[Argument]) -> Result<Sizes, NoMemory>
    ensures sizes { IfOk result (λ s. s ≡ L.made_all_from no_sizes (V.arguments arguments.now)) }
    ensures kept { OnOk result (needs.new.items ≡
        needs.old.items ++ L.above_need (L.made_all_from no_sizes (V.arguments arguments.now)) []) }
{
    let mut sizes = Sizes::none();
    add_arguments(&mut sizes, arguments)?;
    leaf(needs, sizes)?;
    Ok(sizes)
}

fn operation(needs: &mut Vec<Need>, left: &Argument, right: &Argument) -> Result<Sizes, NoMemory>
    ensures sizes { IfOk result (λ s. s ≡
        L.made_from (L.made_from no_sizes (V.argument left.now)) (V.argument right.now)) }
    ensures kept { OnOk result (needs.new.items ≡ needs.old.items
        ++ L.above_need (L.made_from (L.made_from no_sizes (V.argument left.now)) (V.argument right.now)) []) }
{
    let mut sizes = Sizes::none();
    add_argument(&mut sizes, left)?;
    add_argument(&mut sizes, right)?;
    leaf(needs, sizes)?;
    Ok(sizes)
}

// A call needs the credits of its callee's header too.
fn call(
    context: &Context<'_>,
    needs: &mut Vec<Need>,
    callee: u32,
    arguments: &[Argument],
) -> Result<Sizes, NoMemory>
    ensures sizes { IfOk result (λ s. s ≡
        L.call_sizes (V.program context.now.program.now) callee (V.arguments arguments.now)) }
    ensures kept { OnOk result (needs.new.items ≡ needs.old.items ++ L.above_need
        (L.call_sizes (V.program context.now.program.now) callee (V.arguments arguments.now)) []) }
{
    let mut sizes = Sizes::none();
    add_arguments(&mut sizes, arguments)?;
    add_asked(&mut sizes, &context.program.instances, callee)?;
    leaf(needs, sizes)?;
    Ok(sizes)
}

#[cycle(block)]
fn expression(
    context: &Context<'_>,
    needs: &mut Vec<Need>,
    least: &mut Least,
    expression: &Expression,
) -> Result<Sizes, NoMemory>
    ensures sizes { IfOk result (λ s. s ≡
        L.sizes (V.program context.now.program.now) (V.expression expression.now)) }
    ensures kept { OnOk result (needs.new.items ≡
        needs.old.items ++ L.needs (V.program context.now.program.now) (V.expression expression.now)) }
    ensures noted { OnOk result (least.new ≡ after least.old (L.notes (V.program context.now.program.now)
        context.now.instance context.now.is_fip (V.expression expression.now))) }
{
    match expression {
        Expression::Give(argument) => give(needs, argument),
        Expression::Tuple { arguments, .. } => tuple(needs, arguments),
        Expression::Operation { left, right, .. } => operation(needs, left, right),
        Expression::Call {
            callee,
            arguments,
            ..
        } => call(context, needs, *callee, arguments),
        Expression::Match {
            kind,
            ty,
            place,
            first,
            others,
            ..
        } => {
            let at = open(needs)?;
            let is_taken = context.takes(*kind, *ty);
            let most = clause(context, needs, least, is_taken, first)?;
            let sizes = other_clauses(context, needs, least, is_taken, *place, most, others)?;
            close(needs, at, sizes);
            Ok(sizes)
        }
        Expression::Nested(nested) => block(context, needs, least, nested),
    }
}

// What a clause needs less what its pattern gives.
#[cycle(block)]
fn clause(
    context: &Context<'_>,
    needs: &mut Vec<Need>,
    least: &mut Least,
    is_taken: bool,
    clause: &Clause,
) -> Result<Sizes, NoMemory>
    ensures sizes { IfOk result (λ s. s ≡ L.clause_sizes (V.program context.now.program.now) is_taken
        (V.clause clause.now).pattern (V.clause clause.now).body) }
    ensures kept { OnOk result (needs.new.items ≡
        needs.old.items ++ L.block_needs (V.program context.now.program.now) (V.clause clause.now).body) }
    ensures noted { OnOk result (least.new ≡ after least.old (L.clause_notes (V.program context.now.program.now)
        context.now.instance context.now.is_fip is_taken (V.clause clause.now).pattern (V.clause clause.now).body)) }
{
    let mut sizes = block(context, needs, least, &clause.body)?;
    let given = given(is_taken, &clause.pattern)?;
    note_unused(
        least,
        context.instance,
        context.is_fip,
        clause.pattern.place(),
        &sizes,
        &given,
    )?;
    sizes.less(&given);
    Ok(sizes)
}

// The greatest of what the first clause needs and what the others need, all less what their patterns give.
#[cycle(block)]
fn other_clauses(
    context: &Context<'_>,
    needs: &mut Vec<Need>,
    least: &mut Least,
    is_taken: bool,
    place: Place,
    first: Sizes,
    clauses: &[Clause],
) -> Result<Sizes, NoMemory>
    ensures sizes { IfOk result (λ s. s ≡
        L.clauses_sizes (V.program context.now.program.now) is_taken first (V.clauses clauses.now)) }
    ensures kept { OnOk result (needs.new.items ≡
        needs.old.items ++ L.clauses_needs (V.program context.now.program.now) (V.clauses clauses.now)) }
    ensures noted { OnOk result (least.new ≡ after least.old (L.clauses_notes (V.program context.now.program.now)
        context.now.instance context.now.is_fip is_taken place first (V.clauses clauses.now))) }
{
    let mut most = first;
    for next in clauses {
        let sizes = clause(context, needs, least, is_taken, next)?;
        note_different(
            least,
            context.instance,
            context.is_fip,
            place,
            &first,
            &sizes,
        )?;
        most.at_least(&sizes);
    }
    Ok(most)
}

// What a block's parts need together.
#[cycle(block)]
fn parts(
    context: &Context<'_>,
    needs: &mut Vec<Need>,
    least: &mut Least,
    block: &Block,
) -> Result<Sizes, NoMemory>
    ensures sizes { IfOk result (λ s. s ≡
        L.block_sizes (V.program context.now.program.now) no_sizes (V.block block.now)) }
    ensures kept { OnOk result (needs.new.items ≡
        needs.old.items ++ L.parts_needs (V.program context.now.program.now) (V.block block.now)) }
    ensures noted { OnOk result (least.new ≡ after least.old (L.block_notes (V.program context.now.program.now)
        context.now.instance context.now.is_fip (V.block block.now))) }
{
    let mut sizes = Sizes::none();
    for binding in &block.bindings {
        let need = expression(context, needs, least, &binding.bound)?;
        sizes.try_add(&need)?;
    }
    let last = expression(context, needs, least, &block.last)?;
    sizes.try_add(&last)?;
    Ok(sizes)
}

/// What a block needs; keeps what it and its parts need, and notes the violations in it.
#[cycle(block)]
pub fn block(
    context: &Context<'_>,
    needs: &mut Vec<Need>,
    least: &mut Least,
    block: &Block,
) -> Result<Sizes, NoMemory>
    ensures sizes { IfOk result (λ s. s ≡
        L.block_sizes (V.program context.now.program.now) no_sizes (V.block block.now)) }
    ensures kept { OnOk result (needs.new.items ≡
        needs.old.items ++ L.block_needs (V.program context.now.program.now) (V.block block.now)) }
    ensures noted { OnOk result (least.new ≡ after least.old (L.block_notes (V.program context.now.program.now)
        context.now.instance context.now.is_fip (V.block block.now))) }
{
    let at = open(needs)?;
    let sizes = parts(context, needs, least, block)?;
    close(needs, at, sizes);
    Ok(sizes)
}
