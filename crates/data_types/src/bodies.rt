// The bodies of functions: the types that are written in them, and the constructors that they name.
ghost use Rattle.std.specs.Prelude.{◌≡◌, ◌++◌, map, option_map, OnOk};
ghost use Rattle.fip_base.specs.CoreView as V;
ghost use Rattle.fip_trees.specs.Least.{after};
ghost use Rattle.data_types.specs.Faults.{annotation_faults, argument_faults, arguments_faults, binders_faults};
ghost use Rattle.data_types.specs.Faults.{block_faults, clauses_faults, constructor_faults, expression_faults};
ghost use Rattle.data_types.specs.Faults.{pattern_faults, patterns_faults};

use crate::notes::note_if;
use crate::written::Scope;
use fip_base::core_form::{Argument, Binder, Binding, Block, Clause, Expression, Pattern, Written};
use fip_base::plain::{NoMemory, Place};
use fip_base::refusal::Rule;
use fip_trees::least::Least;
use std::alloc::Global;

/// Notes the violations of E11, E12 and E15 in a block.
#[cycle(blocks)]
#[tactic(auto, using(crate::proofs::Shared::noting))]
pub fn check_block(
    alloc: Global,
    scope: &Scope<'_, '_>,
    block: &Block,
    least: &mut Least,
) -> Result<(), NoMemory>
    ensures { OnOk result (least.new ≡ after least.old (block_faults scope.now (V.block block.now))) }
{
    for binding in &block.bindings {
        check_binding(alloc, scope, binding, least)?;
    }
    check_expression(alloc, scope, &block.last, least)
}

#[cycle(blocks)]
#[tactic(auto, using(crate::proofs::Shared::noting))]
fn check_binding(
    alloc: Global,
    scope: &Scope<'_, '_>,
    binding: &Binding,
    least: &mut Least,
) -> Result<(), NoMemory>
    ensures { OnOk result (least.new ≡ after least.old (binders_faults scope.now (V.binding binding.now).binders ++
        expression_faults scope.now (V.binding binding.now).bound)) }
{
    check_binders(alloc, scope, &binding.binders, least)?;
    check_expression(alloc, scope, &binding.bound, least)
}

#[cycle(blocks)]
#[tactic(auto, using(crate::proofs::Shared::noting))]
fn check_expression(
    alloc: Global,
    scope: &Scope<'_, '_>,
    expression: &Expression,
    least: &mut Least,
) -> Result<(), NoMemory>
    ensures { OnOk result (least.new ≡
        after least.old (expression_faults scope.now (V.expression expression.now))) }
{
    match expression {
        Expression::Give(argument) => check_argument(scope, argument, least),
        Expression::Tuple { arguments, .. } => check_arguments(scope, arguments, least),
        Expression::Operation { left, right, .. } => {
            check_argument(scope, left, least)?;
            check_argument(scope, right, least)
        }
        Expression::Call { arguments, .. } => check_arguments(scope, arguments, least),
        Expression::Match {
            scrutinee,
            clauses,
            ..
        } => {
            check_argument(scope, scrutinee, least)?;
            check_clauses(alloc, scope, clauses, least)
        }
        Expression::Nested(block) => check_block(alloc, scope, block, least),
    }
}

#[cycle(blocks)]
#[tactic(auto, using(crate::proofs::Shared::noting))]
fn check_clauses(
    alloc: Global,
    scope: &Scope<'_, '_>,
    clauses: &[Clause],
    least: &mut Least,
) -> Result<(), NoMemory>
    ensures { OnOk result (least.new ≡ after least.old (clauses_faults scope.now (V.clauses clauses.now))) }
{
    for clause in clauses {
        check_clause(alloc, scope, clause, least)?;
    }
    Ok(())
}

#[cycle(blocks)]
#[tactic(auto, using(crate::proofs::Shared::noting))]
fn check_clause(
    alloc: Global,
    scope: &Scope<'_, '_>,
    clause: &Clause,
    least: &mut Least,
) -> Result<(), NoMemory>
    ensures { OnOk result (least.new ≡ after least.old (pattern_faults scope.now (V.clause clause.now).pattern ++
        block_faults scope.now (V.clause clause.now).body)) }
{
    check_pattern(scope, &clause.pattern, least)?;
    check_block(alloc, scope, &clause.body, least)
}

#[tactic(auto, using(crate::proofs::Shared::noting))]
fn check_binders(
    alloc: Global,
    scope: &Scope<'_, '_>,
    binders: &[Binder],
    least: &mut Least,
) -> Result<(), NoMemory>
    ensures { OnOk result (least.new ≡ after least.old (binders_faults scope.now (V.binders binders.now))) }
{
    for binder in binders {
        check_annotation(alloc, scope, &binder.annotation, least)?;
    }
    Ok(())
}

fn check_annotation(
    alloc: Global,
    scope: &Scope<'_, '_>,
    annotation: &Option<Written>,
    least: &mut Least,
) -> Result<(), NoMemory>
    ensures { OnOk result (least.new ≡
        after least.old (annotation_faults scope.now (option_map V.written annotation.now))) }
{
    if let Some(written) = annotation {
        scope.look_up(alloc, written, least)?;
    }
    Ok(())
}

// A constructor that is unknown is E15.
fn check_name(
    scope: &Scope<'_, '_>,
    name: &[u8],
    place: Place,
    least: &mut Least,
) -> Result<(), NoMemory>
    ensures { OnOk result (least.new ≡ after least.old (constructor_faults scope.now name.now place)) }
{
    let is_broken = scope.names.find_constructor(name).is_none();
    note_if(least, is_broken, Rule::E15, place, name)
}

#[cycle(arguments)]
#[tactic(auto, using(crate::proofs::Shared::noting))]
fn check_argument(
    scope: &Scope<'_, '_>,
    argument: &Argument,
    least: &mut Least,
) -> Result<(), NoMemory>
    ensures { OnOk result (least.new ≡ after least.old (argument_faults scope.now (V.argument argument.now))) }
{
    match argument {
        Argument::Variable { .. } => Ok(()),
        Argument::Literal { .. } => Ok(()),
        Argument::Constructor {
            name,
            place,
            arguments,
        } => {
            check_name(scope, name.as_slice(), *place, least)?;
            check_arguments(scope, arguments, least)
        }
    }
}

#[cycle(arguments)]
#[tactic(auto, using(crate::proofs::Shared::noting))]
fn check_arguments(
    scope: &Scope<'_, '_>,
    arguments: &[Argument],
    least: &mut Least,
) -> Result<(), NoMemory>
    ensures { OnOk result (least.new ≡ after least.old (arguments_faults scope.now (V.arguments arguments.now))) }
{
    for argument in arguments {
        check_argument(scope, argument, least)?;
    }
    Ok(())
}

#[cycle(patterns)]
#[tactic(auto, using(crate::proofs::Shared::noting))]
fn check_pattern(
    scope: &Scope<'_, '_>,
    pattern: &Pattern,
    least: &mut Least,
) -> Result<(), NoMemory>
    ensures { OnOk result (least.new ≡ after least.old (pattern_faults scope.now (V.pattern pattern.now))) }
{
    match pattern {
        Pattern::Binder(_) => Ok(()),
        Pattern::Literal { .. } => Ok(()),
        Pattern::Constructor {
            name,
            place,
            patterns,
        } => {
            check_name(scope, name.as_slice(), *place, least)?;
            check_patterns(scope, patterns, least)
        }
    }
}

#[cycle(patterns)]
#[tactic(auto, using(crate::proofs::Shared::noting))]
fn check_patterns(
    scope: &Scope<'_, '_>,
    patterns: &[Pattern],
    least: &mut Least,
) -> Result<(), NoMemory>
    ensures { OnOk result (least.new ≡
        after least.old (patterns_faults scope.now (V.patterns_of (map V.pattern patterns.now)))) }
{
    for pattern in patterns {
        check_pattern(scope, pattern, least)?;
    }
    Ok(())
}
