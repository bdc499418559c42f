// The variables of an instance, and where they occur.
ghost use Rattle.std.specs.Prelude.{◌≡◌, IfOk, OnOk};
ghost use Rattle.fip_trees.specs.TreeView as V;
ghost use Rattle.derivation_walk.specs.Seen as S;
ghost use Rattle.derivation_walk.specs.Seen.{seen_of, world_of};

use crate::context::Context;
use fip_base::plain::{NoMemory, Param};
use fip_trees::program::{Argument, Binder, Binding, Block, Clause, Expression, Instance, Pattern};
use std::alloc::Global;

/// A variable: the number of its binder in the program, and whether it is scalar.
#[derive(Clone, Copy)]
pub struct Bound {
    pub binder: usize,
    pub is_scalar: bool,
}

/// An occurrence of a variable, by its binder, in the expression of a number.
#[derive(Clone, Copy)]
pub struct Occurrence {
    pub binder: usize,
    pub expression: usize,
    pub is_lent: bool,
}

/// What is found in an instance.
///
/// Variables have their numbers in a derivation: parameters first, then the binders in the order of the core form, a
/// let's before those inside what it binds. Expressions are numbered as needs are held (`fip_trees::needs`).
#[derive(Drop)]
pub struct Found {
    /// In the order of their numbers.
    pub variables: Vec<Bound>,
    /// Those in one expression are together, before those in the parts of this expression.
    pub occurrences: Vec<Occurrence>,
    /// The number of the next expression.
    pub next: usize,
}

/// Walks through an instance; an error where no memory is left.
pub fn found_in(
    alloc: Global,
    context: &Context<'_>,
    instance: &Instance,
) -> Result<Found, NoMemory>
    ensures found { IfOk result (λ f. seen_of f ≡ S.see_instance (world_of context.now) (V.instance_of instance.now)) }
{
    let mut found = Found {
        variables: Vec::new(alloc),
        occurrences: Vec::new(alloc),
        next: 0,
    };
    bind_parameters(context, &mut found, instance.params.as_slice())?;
    block(context, &mut found, &instance.body)?;
    Ok(found)
}

// The next variable.
fn bind(context: &Context<'_>, found: &mut Found, binder: usize, ty: u32) -> Result<(), NoMemory>
    ensures { OnOk result (seen_of found.new ≡ S.bind (world_of context.now) (seen_of found.old) binder ty) }
{
    let is_scalar = context.is_scalar(ty);
    found.variables.push(Bound { binder, is_scalar })?;
    Ok(())
}

fn bind_parameters(
    context: &Context<'_>,
    found: &mut Found,
    params: &[Param],
) -> Result<(), NoMemory>
    ensures { OnOk result (seen_of found.new ≡
        S.bind_parameters (world_of context.now) (seen_of found.old) 0 params.now) }
{
    let mut binder: usize = 0;
    for param in params {
        bind(context, found, binder, param.ty)?;
        binder += 1;
    }
    Ok(())
}

fn bind_all(context: &Context<'_>, found: &mut Found, binders: &[Binder]) -> Result<(), NoMemory>
    ensures { OnOk result (seen_of found.new ≡ S.bind_all (world_of context.now) (seen_of found.old) binders.now) }
{
    for binder in binders {
        bind(context, found, binder.number, binder.ty)?;
    }
    Ok(())
}

#[cycle(pattern)]
fn bind_pattern(context: &Context<'_>, found: &mut Found, pattern: &Pattern) -> Result<(), NoMemory>
    ensures { OnOk result (seen_of found.new ≡
        S.bind_pattern (world_of context.now) (seen_of found.old) (V.pattern pattern.now)) }
{
    match pattern {
        Pattern::Binder(binder) => bind(context, found, binder.number, binder.ty),
        Pattern::Literal { .. } => Ok(()),
        Pattern::Constructor { patterns, .. } => bind_patterns(context, found, patterns),
    }
}

#[cycle(pattern)]
fn bind_patterns(
    context: &Context<'_>,
    found: &mut Found,
    patterns: &[Pattern],
) -> Result<(), NoMemory>
    ensures { OnOk result (seen_of found.new ≡
        S.bind_patterns (world_of context.now) (seen_of found.old) (V.patterns patterns.now)) }
{
    for pattern in patterns {
        bind_pattern(context, found, pattern)?;
    }
    Ok(())
}

// A variable occurs, where it is one.
fn occur(
    found: &mut Found,
    expression: usize,
    is_lent: bool,
    binder: Option<usize>,
) -> Result<(), NoMemory>
    ensures { OnOk result (seen_of found.new ≡ S.occur expression is_lent (seen_of found.old) binder) }
{
    match binder {
        None => Ok(()),
        Some(binder) => {
            found.occurrences.push(Occurrence {
                binder,
                expression,
                is_lent,
            })?;
            Ok(())
        }
    }
}

// An argument in an owned position.
#[cycle(argument)]
fn own(found: &mut Found, expression: usize, argument: &Argument) -> Result<(), NoMemory>
    ensures { OnOk result (seen_of found.new ≡ S.own expression (seen_of found.old) (V.argument argument.now)) }
{
    match argument {
        Argument::Variable { binder, .. } => occur(found, expression, false, *binder),
        Argument::Literal { .. } => Ok(()),
        Argument::Constructor { arguments, .. } => own_all(found, expression, arguments),
    }
}

#[cycle(argument)]
fn own_all(found: &mut Found, expression: usize, arguments: &[Argument]) -> Result<(), NoMemory>
    ensures { OnOk result (seen_of found.new ≡ S.own_all expression (seen_of found.old) (V.arguments arguments.now)) }
{
    for argument in arguments {
        own(found, expression, argument)?;
    }
    Ok(())
}

// An argument in a borrowed position, or in an owned one.
fn pass(
    found: &mut Found,
    expression: usize,
    is_lent: bool,
    argument: &Argument,
) -> Result<(), NoMemory>
    ensures { OnOk result (seen_of found.new ≡
        S.pass expression is_lent (seen_of found.old) (V.argument argument.now)) }
{
    if !is_lent {
        return own(found, expression, argument);
    }
    match argument {
        Argument::Variable { binder, .. } => occur(found, expression, true, *binder),
        Argument::Literal { .. } => Ok(()),
        Argument::Constructor { arguments, .. } => own_all(found, expression, arguments),
    }
}

// The arguments of a call.
fn pass_all(
    context: &Context<'_>,
    found: &mut Found,
    expression: usize,
    callee: u32,
    arguments: &[Argument],
) -> Result<(), NoMemory>
    ensures { OnOk result (seen_of found.new ≡ S.pass_all (world_of context.now) expression callee 0
        (seen_of found.old) (V.arguments arguments.now)) }
{
    let mut place: usize = 0;
    for argument in arguments {
        let is_lent = context.lends(callee, place);
        pass(found, expression, is_lent, argument)?;
        place += 1;
    }
    Ok(())
}

// The number of the next expression.
fn number(found: &mut Found) -> Result<usize, NoMemory>
    ensures is { IfOk result (λ n. n ≡ found.old.next) }
    ensures numbered { OnOk result (seen_of found.new ≡ S.number (seen_of found.old)) }
{
    let number = found.next;
    found.next = number.checked_add(1).ok_or(NoMemory)?;
    Ok(number)
}

#[cycle(block)]
fn expression(
    context: &Context<'_>,
    found: &mut Found,
    expression: &Expression,
) -> Result<(), NoMemory>
    ensures { OnOk result (seen_of found.new ≡
        S.see (world_of context.now) (seen_of found.old) (V.expression expression.now)) }
{
    match expression {
        Expression::Give(argument) => {
            let at = number(found)?;
            own(found, at, argument)
        }
        Expression::Tuple { arguments, .. } => {
            let at = number(found)?;
            own_all(found, at, arguments)
        }
        Expression::Operation { left, right, .. } => {
            let at = number(found)?;
            own(found, at, left)?;
            own(found, at, right)
        }
        Expression::Call {
            callee,
            arguments,
            ..
        } => {
            let at = number(found)?;
            pass_all(context, found, at, *callee, arguments)
        }
        Expression::Match {
            kind,
            ty,
            scrutinee,
            first,
            others,
            ..
        } => {
            let at = number(found)?;
            let is_taken = context.takes(*kind, *ty);
            pass(found, at, !is_taken, scrutinee)?;
            clause(context, found, first)?;
            clauses(context, found, others)
        }
        Expression::Nested(nested) => block(context, found, nested),
    }
}

#[cycle(block)]
fn clause(context: &Context<'_>, found: &mut Found, clause: &Clause) -> Result<(), NoMemory>
    ensures { OnOk result (seen_of found.new ≡
        S.see_clause (world_of context.now) (seen_of found.old) (V.clause clause.now)) }
{
    bind_pattern(context, found, &clause.pattern)?;
    block(context, found, &clause.body)
}

#[cycle(block)]
fn clauses(context: &Context<'_>, found: &mut Found, clauses: &[Clause]) -> Result<(), NoMemory>
    ensures { OnOk result (seen_of found.new ≡
        S.see_clauses (world_of context.now) (seen_of found.old) (V.clauses clauses.now)) }
{
    for next in clauses {
        clause(context, found, next)?;
    }
    Ok(())
}

#[cycle(block)]
fn block(context: &Context<'_>, found: &mut Found, block: &Block) -> Result<(), NoMemory>
    ensures { OnOk result (seen_of found.new ≡
        S.see_block (world_of context.now) (seen_of found.old) (V.block block.now)) }
{
    number(found)?;
    for binding in &block.bindings {
        bind_all(context, found, &binding.binders)?;
        expression(context, found, &binding.bound)?;
    }
    expression(context, found, &block.last)
}
