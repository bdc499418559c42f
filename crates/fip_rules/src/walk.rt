// One walk over the body of an instance, in the order of the core form: what is bound before what follows, arguments
// from left to right.
ghost use Rattle.std.specs.Prelude.{◌≡◌, true, not, OnOk, IfOk};
ghost use Rattle.fip_trees.specs.TreeView as V;
ghost use Rattle.fip_rules.specs.Shape as S;
ghost use Rattle.fip_rules.specs.Shapes.{owning, owning_all, lending, passing, passing_all, called, taking, binders};
ghost use Rattle.fip_rules.specs.Shapes.{binders_all, clause_shape, shape, shape_block};
ghost use Rattle.fip_rules.specs.Stands.{marks, names, go, went, entered_all, others};
ghost use Rattle.fip_rules.specs.Views.{world_of};

use crate::state::{Kept, State, Ways};
use crate::world::World;
use fip_base::plain::{NoMemory, Place};
use fip_base::refusal::Rule;
use fip_trees::program::{Argument, Binder, Binding, Block, Clause, Expression, Pattern};

// An argument in an owned position.
#[cycle(argument)]
#[tactic(auto, using(crate::proofs::Theorems::going))]
fn own<'a>(state: &mut State<'a>, argument: &'a Argument) -> Result<(), NoMemory>
    ensures { OnOk result (state.new ≡ go state.old (owning (marks state.old) (V.argument argument.now))) }
{
    match argument {
        Argument::Variable {
            binder,
            name,
            place,
        } => state.own(*binder, *place, name.as_slice()),
        Argument::Literal { .. } => Ok(()),
        Argument::Constructor { arguments, .. } => own_all(state, arguments),
    }
}

#[cycle(argument)]
#[tactic(auto, using(crate::proofs::Theorems::going))]
fn own_all<'a>(state: &mut State<'a>, arguments: &'a [Argument]) -> Result<(), NoMemory>
    ensures { OnOk result (state.new ≡ go state.old (owning_all (marks state.old) (V.arguments arguments.now))) }
{
    for argument in arguments {
        own(state, argument)?;
    }
    Ok(())
}

// An argument in a borrowed position. E54: it is a constructor of a type that isn't scalar.
#[tactic(auto, using(crate::proofs::Theorems::going))]
fn lend<'a>(
    state: &mut State<'a>,
    world: &World<'_>,
    argument: &'a Argument,
) -> Result<(), NoMemory>
    ensures { OnOk result (state.new ≡
        go state.old (lending (world_of world.now) (marks state.old) (V.argument argument.now))) }
{
    match argument {
        Argument::Variable {
            binder,
            name,
            place,
        } => state.lend(*binder, *place, name.as_slice()),
        Argument::Literal { .. } => Ok(()),
        Argument::Constructor {
            ty,
            name,
            place,
            arguments,
            ..
        } => {
            if world.is_scalar(*ty) {
                return Ok(());
            }
            state.fault(Rule::E54, *place, name.as_slice())?;
            own_all(state, arguments)?;
            Ok(())
        }
    }
}

// An argument in the position that this says.
fn pass<'a>(
    state: &mut State<'a>,
    world: &World<'_>,
    is_lent: bool,
    argument: &'a Argument,
) -> Result<(), NoMemory>
    ensures { OnOk result (state.new ≡
        go state.old (passing (world_of world.now) (marks state.old) is_lent (V.argument argument.now))) }
{
    if is_lent {
        lend(state, world, argument)
    } else {
        own(state, argument)
    }
}

// The arguments of a call.
#[tactic(auto, using(crate::proofs::Theorems::going))]
fn pass_all<'a>(
    state: &mut State<'a>,
    world: &World<'_>,
    callee: u32,
    arguments: &'a [Argument],
) -> Result<(), NoMemory>
    ensures { OnOk result (state.new ≡
        go state.old (passing_all (world_of world.now) (marks state.old) callee 0 (V.arguments arguments.now))) }
{
    let mut place = 0;
    for argument in arguments {
        pass(state, world, world.lends(callee, place), argument)?;
        place += 1;
    }
    Ok(())
}

// The callee of a call. E55: it is of a weaker kind.
#[tactic(auto, using(crate::proofs::Theorems::going))]
fn note_callee(
    state: &mut State<'_>,
    world: &World<'_>,
    callee: u32,
    place: Place,
    name: &[u8],
) -> Result<(), NoMemory>
    ensures { OnOk result (state.new ≡ go state.old (called (world_of world.now) callee place name.now)) }
{
    if world.is_weaker(callee) {
        state.fault(Rule::E55, place, name)?;
    }
    Ok(())
}

fn call<'a>(
    state: &mut State<'a>,
    world: &World<'_>,
    callee: u32,
    place: Place,
    name: &[u8],
    arguments: &'a [Argument],
) -> Result<(), NoMemory>
    ensures { OnOk result (state.new ≡ go state.old (S.Then (called (world_of world.now) callee place name.now)
        (passing_all (world_of world.now) (marks state.old) callee 0 (V.arguments arguments.now)))) }
{
    note_callee(state, world, callee, place, name)?;
    pass_all(state, world, callee, arguments)?;
    Ok(())
}

fn operation<'a>(
    state: &mut State<'a>,
    left: &'a Argument,
    right: &'a Argument,
) -> Result<(), NoMemory>
    ensures { OnOk result (state.new ≡ go state.old (S.Then (owning (marks state.old) (V.argument left.now))
        (owning (marks state.old) (V.argument right.now)))) }
{
    own(state, left)?;
    own(state, right)?;
    Ok(())
}

// The binders of a let come into scope.
fn bind_all<'a>(
    state: &mut State<'a>,
    world: &World<'_>,
    binders: &'a [Binder],
) -> Result<(), NoMemory>
    ensures { OnOk result (state.new ≡ entered_all state.old (taking (world_of world.now) true binders.now)) }
{
    for binder in binders {
        state.enter(world.ownership(true, binder.ty), binder)?;
    }
    Ok(())
}

// The binders of a pattern come into scope.
#[cycle(pattern)]
fn bind_pattern<'a>(
    state: &mut State<'a>,
    world: &World<'_>,
    is_taken: bool,
    pattern: &'a Pattern,
) -> Result<(), NoMemory>
    ensures { OnOk result (state.new ≡
        entered_all state.old (taking (world_of world.now) is_taken (binders (V.pattern pattern.now)))) }
{
    match pattern {
        Pattern::Binder(binder) => state.enter(world.ownership(is_taken, binder.ty), binder),
        Pattern::Literal { .. } => Ok(()),
        Pattern::Constructor { patterns, .. } => bind_patterns(state, world, is_taken, patterns),
    }
}

#[cycle(pattern)]
fn bind_patterns<'a>(
    state: &mut State<'a>,
    world: &World<'_>,
    is_taken: bool,
    patterns: &'a [Pattern],
) -> Result<(), NoMemory>
    ensures { OnOk result (state.new ≡
        entered_all state.old (taking (world_of world.now) is_taken (binders_all (V.patterns patterns.now)))) }
{
    for pattern in patterns {
        bind_pattern(state, world, is_taken, pattern)?;
    }
    Ok(())
}

#[cycle(block)]
#[tactic(auto, using(crate::proofs::Theorems::going))]
fn expression<'a>(
    state: &mut State<'a>,
    world: &World<'_>,
    expression: &'a Expression,
) -> Result<(), NoMemory>
    ensures { OnOk result (state.new ≡
        go state.old (shape (world_of world.now) (names state.old) (V.expression expression.now))) }
{
    match expression {
        Expression::Give(argument) => own(state, argument),
        Expression::Tuple { arguments, .. } => own_all(state, arguments),
        Expression::Operation { left, right, .. } => operation(state, left, right),
        Expression::Call {
            callee,
            name,
            place,
            arguments,
        } => call(state, world, *callee, *place, name.as_slice(), arguments),
        Expression::Match {
            kind,
            ty,
            scrutinee,
            first,
            others,
            ..
        } => {
            let is_taken = world.takes(*kind, *ty);
            pass(state, world, !is_taken, scrutinee)?;
            let kept = state.kept();
            clause(state, world, is_taken, first)?;
            if others.is_empty() {
                return Ok(());
            }
            let ways = state.first_way(kept)?;
            other_clauses(state, world, is_taken, kept, ways, others)?;
            Ok(())
        }
        Expression::Nested(nested) => block(state, world, nested),
    }
}

#[cycle(block)]
fn clause<'a>(
    state: &mut State<'a>,
    world: &World<'_>,
    is_taken: bool,
    clause: &'a Clause,
) -> Result<(), NoMemory>
    ensures { OnOk result (state.new ≡
        went state.old (taking (world_of world.now) is_taken (binders (V.clause clause.now).pattern))
        (λ c. shape_block (world_of world.now) c (V.clause clause.now).body)) }
{
    let kept = state.in_scope();
    bind_pattern(state, world, is_taken, &clause.pattern)?;
    block(state, world, &clause.body)?;
    state.leave(kept)?;
    Ok(())
}

// The clauses after the first one, with what those before them use up.
#[cycle(block)]
fn other_clauses<'a>(
    state: &mut State<'a>,
    world: &World<'_>,
    is_taken: bool,
    kept: Kept,
    ways: Ways,
    clauses: &'a [Clause],
) -> Result<(), NoMemory>
    ensures { OnOk result (state.new ≡ others (world_of world.now) is_taken kept.used kept.always state.old
        ways.used.items ways.always.items (V.clauses clauses.now)) }
{
    let mut ways = ways;
    for next in clauses {
        clause(state, world, is_taken, next)?;
        ways = state.further_way(kept, ways)?;
    }
    state.join(&ways)
}

#[cycle(block)]
fn bound<'a>(
    state: &mut State<'a>,
    world: &World<'_>,
    bound: &'a Expression,
) -> Result<(), NoMemory>
    ensures { OnOk result (state.new ≡
        go state.old (S.Bound (shape (world_of world.now) (names state.old) (V.expression bound.now)))) }
{
    let kept = state.kept();
    state.deepen()?;
    expression(state, world, bound)?;
    state.surface(kept)?;
    Ok(())
}

#[cycle(block)]
fn binding<'a>(
    state: &mut State<'a>,
    world: &World<'_>,
    binding: &'a Binding,
) -> Result<(), NoMemory>
    ensures { OnOk result (state.new ≡ entered_all
        (go state.old (S.Bound (shape (world_of world.now) (names state.old) (V.binding binding.now).bound)))
        (taking (world_of world.now) true (V.binding binding.now).binders)) }
{
    bound(state, world, &binding.bound)?;
    bind_all(state, world, &binding.binders)
}

/// A block: what its bindings bind, and its last expression. Its variables are in scope up to its end.
#[cycle(block)]
pub fn block<'a>(state: &mut State<'a>, world: &World<'_>, block: &'a Block) -> Result<(), NoMemory>
    ensures walked { OnOk result (state.new ≡
        go state.old (shape_block (world_of world.now) (names state.old) (V.block block.now))) }
{
    let kept = state.in_scope();
    for next in &block.bindings {
        binding(state, world, next)?;
    }
    expression(state, world, &block.last)?;
    state.leave(kept)?;
    Ok(())
}
