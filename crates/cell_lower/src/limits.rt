// E60: a function has too many registers, or matches where a type has more constructors than a code file can tell.
ghost use Rattle.std.specs.Prelude.{◌≡◌, None, IfOk, OnOk};
ghost use Rattle.fip_trees.specs.Least.{after};
ghost use Rattle.fip_trees.specs.TreeView as V;
ghost use Rattle.cell_lower.specs.Limits as L;
ghost use Rattle.cell_lower.specs.LimitNotes.{instance_notes, notes_from};

use fip_base::plain::{FunKind, NoMemory, Param};
use fip_base::refusal::Rule;
use fip_base::table::TypeTable;
use fip_language::limits::{MOST_MATCHED_CONSTRUCTORS, MOST_REGISTERS};
use fip_trees::groups::Groups;
use fip_trees::least::Least;
use fip_trees::program::{Binder, Block, Clause, Expression, Instance, Pattern, Program};
use std::alloc::Global;

/// Notes each instance that isn't plain and breaks E60, at its name; an error where no memory is left.
#[tactic(auto, using(crate::proofs::ExceededLimits::noting))]
pub fn note_limits(alloc: Global, program: &Program, groups: &Groups) -> Result<Least, NoMemory>
    ensures noted { IfOk result (λ l. l ≡
        after None (notes_from program.now.types groups.now 0 (V.program program.now).instances)) }
{
    let mut least = Least::new(alloc);
    let mut number = 0;
    for instance in &program.instances {
        let registers = groups.registers_of(number).unwrap_or(0);
        note_instance(&mut least, &program.types, registers, number, instance)?;
        number += 1;
    }
    Ok(least)
}

// Notes an instance of this number and with so many registers, where it breaks the rule.
fn note_instance(
    least: &mut Least,
    types: &TypeTable,
    registers: usize,
    number: usize,
    instance: &Instance,
) -> Result<(), NoMemory>
    ensures noted { OnOk result (least.new ≡ after least.old
        (instance_notes types.now registers number (V.instance_of instance.now))) }
{
    if exceeds(types, registers, instance) {
        let name = instance.name.as_slice();
        least.note(Rule::E60, instance.place, number, 0, name)?;
    }
    Ok(())
}

// Whether an instance with so many registers breaks the rule.
fn exceeds(types: &TypeTable, registers: usize, instance: &Instance) -> bool
    ensures { result ≡ L.exceeds types.now registers (V.instance_of instance.now) }
{
    instance.kind.is_ruled() && (registers > MOST_REGISTERS || matches_wide(types, instance))
}

// Whether an instance has a match, and a type with cells that has too many constructors.
fn matches_wide(types: &TypeTable, instance: &Instance) -> bool
    ensures { result ≡ L.matches_wide types.now (V.instance_of instance.now) }
{
    matches_block(&instance.body)
        && (any_wide_param(types, instance.params.as_slice()) || wide_block(types, &instance.body))
}

fn is_wide(types: &TypeTable, ty: u32) -> bool
    ensures { result ≡ L.is_wide types.now ty }
{
    if ty as usize > types.len() {
        return false;
    }
    types.constructors_of(ty).len() > MOST_MATCHED_CONSTRUCTORS && !types.is_scalar(ty)
}

fn any_wide(types: &TypeTable, binders: &[Binder]) -> bool
    ensures { result ≡ L.any_wide types.now binders.now }
{
    for binder in binders {
        if is_wide(types, binder.ty) {
            return true;
        }
    }
    false
}

fn any_wide_param(types: &TypeTable, params: &[Param]) -> bool
    ensures { result ≡ L.any_wide_param types.now params.now }
{
    for param in params {
        if is_wide(types, param.ty) {
            return true;
        }
    }
    false
}

#[cycle(pattern)]
fn wide_pattern(types: &TypeTable, pattern: &Pattern) -> bool
    ensures { result ≡ L.wide_pattern types.now (V.pattern pattern.now) }
{
    match pattern {
        Pattern::Binder(binder) => is_wide(types, binder.ty),
        Pattern::Literal { .. } => false,
        Pattern::Constructor { ty, patterns, .. } => {
            is_wide(types, *ty) || wide_patterns(types, patterns)
        }
    }
}

#[cycle(pattern)]
fn wide_patterns(types: &TypeTable, patterns: &[Pattern]) -> bool
    ensures { result ≡ L.wide_patterns types.now (V.patterns patterns.now) }
{
    for pattern in patterns {
        if wide_pattern(types, pattern) {
            return true;
        }
    }
    false
}

#[cycle(block)]
fn wide_block(types: &TypeTable, block: &Block) -> bool
    ensures { result ≡ L.wide_block types.now (V.block block.now) }
{
    for binding in &block.bindings {
        if any_wide(types, &binding.binders) || wide_expression(types, &binding.bound) {
            return true;
        }
    }
    wide_expression(types, &block.last)
}

#[cycle(block)]
fn wide_expression(types: &TypeTable, expression: &Expression) -> bool
    ensures { result ≡ L.wide_expression types.now (V.expression expression.now) }
{
    match expression {
        Expression::Give(_) => false,
        Expression::Tuple { .. } => false,
        Expression::Operation { .. } => false,
        Expression::Call { .. } => false,
        Expression::Match { first, others, .. } => {
            wide_clause(types, first) || wide_clauses(types, others)
        }
        Expression::Nested(block) => wide_block(types, block),
    }
}

#[cycle(block)]
fn wide_clauses(types: &TypeTable, clauses: &[Clause]) -> bool
    ensures { result ≡ L.wide_clauses types.now (V.clauses clauses.now) }
{
    for clause in clauses {
        if wide_clause(types, clause) {
            return true;
        }
    }
    false
}

#[cycle(block)]
fn wide_clause(types: &TypeTable, clause: &Clause) -> bool
    ensures { result ≡ L.wide_case types.now (V.clause clause.now) }
{
    wide_pattern(types, &clause.pattern) || wide_block(types, &clause.body)
}

#[cycle(matches)]
fn matches_block(block: &Block) -> bool
    ensures { result ≡ L.matches_block (V.block block.now) }
{
    for binding in &block.bindings {
        if matches_expression(&binding.bound) {
            return true;
        }
    }
    matches_expression(&block.last)
}

#[cycle(matches)]
fn matches_expression(expression: &Expression) -> bool
    ensures { result ≡ L.matches_expression (V.expression expression.now) }
{
    match expression {
        Expression::Give(_) => false,
        Expression::Tuple { .. } => false,
        Expression::Operation { .. } => false,
        Expression::Call { .. } => false,
        Expression::Match { .. } => true,
        Expression::Nested(block) => matches_block(block),
    }
}
