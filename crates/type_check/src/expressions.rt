// Expressions and blocks.
ghost use Rattle.std.specs.Prelude.{◌≡◌, ◌++◌, true, IfOk, OnOk};
ghost use Rattle.fip_trees.specs.Least.{after};
ghost use Rattle.fip_trees.specs.Tree as T;
ghost use Rattle.fip_trees.specs.TreeView as V;
ghost use Rattle.type_check.specs.Bound.{found_bound, fill_bound, entries_bound, bound_faults};
ghost use Rattle.type_check.specs.Faults.{found_arguments, fill_arguments};
ghost use Rattle.type_check.specs.Faults.{arguments_faults, fill_pattern, fill_binders};
ghost use Rattle.type_check.specs.Faults.{pattern_faults, fill, fill_block};
ghost use Rattle.type_check.specs.Faults.{fill_clauses, found, found_block, faults, block_faults, clauses_faults};
ghost use Rattle.type_check.specs.Found.{wanted_next};
ghost use Rattle.type_check.specs.Typing.{bound_by};
ghost use Rattle.type_check.specs.Wanted.{expects, types_of};
ghost use Rattle.type_check.specs.World as W;

use crate::arguments::{check_argument, check_arguments, count_of};
use crate::expected::{BOOL, Found, INT, Results, Wants, slot};
use crate::lets::{all_annotated, annotations, enter_binders};
use crate::patterns::check_pattern;
use crate::results::{all_known, as_expected, note_results};
use crate::scope::Scope;
use crate::walk::Walk;
use fip_base::plain::{Name, NoMemory, Operator, Place};
use fip_base::refusal::Rule;
use fip_language::limits::MOST_RESULTS;
use fip_trees::least::Least;
use fip_trees::program::{Argument, Binding, Block, Clause, Expression};

// An argument as the whole of an expression.
#[tactic(auto, using(crate::proofs::Shared::noting))]
fn check_give(
    walk: &Walk,
    scope: &Scope,
    results: Results,
    argument: &mut Argument,
    least: &mut Least,
) -> Result<Vec<Found>, NoMemory>
    ensures tree { OnOk result (T.Give (V.argument argument.new) ≡
        fill walk.now.tables.now scope.now results.entry.expected results.entry.types.now
        (T.Give (V.argument argument.old))) }
    ensures found { IfOk result (λ v. v.items ≡
        found walk.now.tables.now scope.now results.entry.expected results.entry.types.now
        (T.Give (V.argument argument.old))) }
    ensures faults { OnOk result (least.new ≡ after least.old (faults walk.now.tables.now walk.now.instance scope.now
        results.entry.expected results.entry.types.now (T.Give (V.argument argument.old)))) }
{
    walk.note_if(
        1 != results.count(),
        Rule::E34,
        place_of(argument),
        b"",
        least,
    )?;
    let found = check_argument(walk, scope, results.wants(1).at(0), argument, least)?;
    let mut types = Vec::new(walk.alloc);
    types.push(found)?;
    as_expected(walk.alloc, types, results)
}

// The place of an argument's head.
fn place_of(argument: &Argument) -> Place
    ensures { result ≡ T.place_of (V.argument argument.now) }
{
    match argument {
        Argument::Variable { place, .. } => *place,
        Argument::Literal { place, .. } => *place,
        Argument::Constructor { place, .. } => *place,
    }
}

// The arguments of a tuple; their types.
fn check_values(
    walk: &Walk,
    scope: &Scope,
    wants: Wants,
    arguments: &mut [Argument],
    least: &mut Least,
) -> Result<Vec<Found>, NoMemory>
    ensures tree { OnOk result (V.arguments arguments.new ≡
        fill_arguments walk.now.tables.now (expects wants.entry) (types_of wants.entry) (V.arguments arguments.old)) }
    ensures found { IfOk result (λ v. v.items ≡ found_arguments walk.now.tables.now scope.now
        (expects wants.entry) (types_of wants.entry) (V.arguments arguments.old)) }
    ensures faults { OnOk result (least.new ≡
        after least.old (arguments_faults walk.now.tables.now walk.now.instance scope.now
        (expects wants.entry) (types_of wants.entry) (V.arguments arguments.old))) }
{
    let mut types = Vec::new(walk.alloc);
    let mut index = 0;
    for argument in arguments.iter_mut() {
        types.push(check_argument(walk, scope, wants.at(index), argument, least)?)?;
        index += 1;
    }
    Ok(types)
}

#[tactic(auto, using(crate::proofs::Shared::noting))]
fn check_tuple(
    walk: &Walk,
    scope: &Scope,
    results: Results,
    place: Place,
    arguments: &mut [Argument],
    least: &mut Least,
) -> Result<Vec<Found>, NoMemory>
    ensures tree { OnOk result (T.Tuple place (V.arguments arguments.new) ≡
        fill walk.now.tables.now scope.now results.entry.expected results.entry.types.now
        (T.Tuple place (V.arguments arguments.old))) }
    ensures found { IfOk result (λ v. v.items ≡
        found walk.now.tables.now scope.now results.entry.expected results.entry.types.now
        (T.Tuple place (V.arguments arguments.old))) }
    ensures faults { OnOk result (least.new ≡ after least.old (faults walk.now.tables.now walk.now.instance scope.now
        results.entry.expected results.entry.types.now (T.Tuple place (V.arguments arguments.old)))) }
{
    let count = count_of(arguments);
    walk.note_if(MOST_RESULTS < count, Rule::E34, place, b"", least)?;
    walk.note_if(count != results.count(), Rule::E34, place, b"", least)?;
    let types = check_values(walk, scope, results.wants(count), arguments, least)?;
    as_expected(walk.alloc, types, results)
}

// The type of an operator's result.
fn result_of(operator: Operator) -> u32
    ensures { result ≡ W.result_of operator }
{
    match operator {
        Operator::Add
        | Operator::Subtract
        | Operator::Multiply
        | Operator::Divide
        | Operator::Remainder => INT,
        Operator::Equal
        | Operator::NotEqual
        | Operator::Less
        | Operator::LessOrEqual
        | Operator::Greater
        | Operator::GreaterOrEqual => BOOL,
    }
}

#[tactic(auto, using(crate::proofs::Shared::noting))]
fn check_operation(
    walk: &Walk,
    scope: &Scope,
    results: Results,
    operator: Operator,
    place: Place,
    left: &mut Argument,
    right: &mut Argument,
    least: &mut Least,
) -> Result<Vec<Found>, NoMemory>
    ensures tree { OnOk result (T.Operation operator place (V.argument left.new) (V.argument right.new) ≡
        fill walk.now.tables.now scope.now results.entry.expected results.entry.types.now
        (T.Operation operator place (V.argument left.old) (V.argument right.old))) }
    ensures found { IfOk result (λ v. v.items ≡
        found walk.now.tables.now scope.now results.entry.expected results.entry.types.now
        (T.Operation operator place (V.argument left.old) (V.argument right.old))) }
    ensures faults { OnOk result (least.new ≡ after least.old (faults walk.now.tables.now walk.now.instance scope.now
        results.entry.expected results.entry.types.now (T.Operation operator place (V.argument left.old) (V.argument
        right.old)))) }
{
    check_argument(walk, scope, Some(Some(INT)), left, least)?;
    check_argument(walk, scope, Some(Some(INT)), right, least)?;
    let types = [result_of(operator)];
    note_results(walk, results, &types, place, least)?;
    as_expected(walk.alloc, all_known(walk.alloc, &types)?, results)
}

#[tactic(auto, using(crate::proofs::Shared::noting))]
fn check_call(
    walk: &Walk,
    scope: &Scope,
    results: Results,
    callee: u32,
    name: &Name,
    place: Place,
    arguments: &mut [Argument],
    least: &mut Least,
) -> Result<Vec<Found>, NoMemory>
    ensures tree { OnOk result (T.Call callee name.now place (V.arguments arguments.new) ≡
        fill walk.now.tables.now scope.now results.entry.expected results.entry.types.now
        (T.Call callee name.now place (V.arguments arguments.old))) }
    ensures found { IfOk result (λ v. v.items ≡
        found walk.now.tables.now scope.now results.entry.expected results.entry.types.now
        (T.Call callee name.now place (V.arguments arguments.old))) }
    ensures faults { OnOk result (least.new ≡ after least.old (faults walk.now.tables.now walk.now.instance scope.now
        results.entry.expected results.entry.types.now (T.Call callee name.now place (V.arguments arguments.old)))) }
{
    let parameters = walk.tables.parameters(callee);
    walk.note_count(count_of(arguments), parameters.len(), name, place, least)?;
    check_arguments(walk, scope, Wants::Known(parameters), arguments, least)?;
    let types = walk.tables.results(callee);
    note_results(walk, results, types, place, least)?;
    as_expected(walk.alloc, all_known(walk.alloc, types)?, results)
}

// What is expected of the clauses after the first: what is expected of the match, else the types of the first.
fn types_after<'a>(results: Results<'a>, first: &'a [Found]) -> &'a [Found]
    ensures { result.now ≡ wanted_next results.entry.expected results.entry.types.now first.now }
{
    if results.expected {
        results.types
    } else {
        first
    }
}

/// Checks an expression of which results are expected; as many types, those of the results.
#[cycle(expression)]
#[tactic(auto, using(crate::proofs::Shared::noting))]
pub(crate) fn check_expression(
    walk: &Walk,
    scope: &mut Scope,
    results: Results,
    expression: &mut Expression,
    least: &mut Least,
) -> Result<Vec<Found>, NoMemory>
    ensures scope { OnOk result (scope.new ≡ scope.old) }
    ensures tree { OnOk result (V.expression expression.new ≡
        fill walk.now.tables.now scope.old results.entry.expected results.entry.types.now
        (V.expression expression.old)) }
    ensures found { IfOk result (λ v. v.items ≡
        found walk.now.tables.now scope.old results.entry.expected results.entry.types.now
        (V.expression expression.old)) }
    ensures faults { OnOk result (least.new ≡ after least.old (faults walk.now.tables.now walk.now.instance scope.old
        results.entry.expected results.entry.types.now (V.expression expression.old))) }
{
    match expression {
        Expression::Give(argument) => check_give(walk, scope, results, argument, least),
        Expression::Tuple { place, arguments } => {
            check_tuple(walk, scope, results, *place, arguments, least)
        }
        Expression::Operation {
            operator,
            place,
            left,
            right,
        } => check_operation(walk, scope, results, *operator, *place, left, right, least),
        Expression::Call {
            callee,
            name,
            place,
            arguments,
        } => check_call(
            walk, scope, results, *callee, name, *place, arguments, least,
        ),
        Expression::Match {
            kind,
            ty,
            place,
            scrutinee,
            first,
            others,
        } => {
            // They stay as they are; the proof knows of them what is read.
            let _kept = (*kind, *place);
            let found = check_argument(walk, scope, None, scrutinee, least)?;
            *ty = slot(found);
            let types = check_clause(walk, scope, found, results, first, least)?;
            let following = types_after(results, &types);
            check_clauses(walk, scope, found, following, others, least)?;
            Ok(types)
        }
        Expression::Nested(block) => check_nested(walk, scope, results, block, least),
    }
}

// A block in brackets.
#[cycle(expression)]
fn check_nested(
    walk: &Walk,
    scope: &mut Scope,
    results: Results,
    block: &mut Box<Block>,
    least: &mut Least,
) -> Result<Vec<Found>, NoMemory>
    ensures scope { OnOk result (scope.new ≡ scope.old) }
    ensures tree { OnOk result (V.block block.new.value ≡
        fill_block walk.now.tables.now scope.old results.entry.expected
        results.entry.types.now (V.block block.old.value)) }
    ensures found { IfOk result (λ v. v.items ≡ found_block walk.now.tables.now scope.old results.entry.expected
        results.entry.types.now (V.block block.old.value)) }
    ensures faults { OnOk result (least.new ≡
        after least.old (block_faults walk.now.tables.now walk.now.instance scope.old
        results.entry.expected results.entry.types.now (V.block block.old.value))) }
{
    let types = check_block(walk, scope, results, block, least)?;
    Ok(types)
}

// A clause of a match on a scrutinee of a type; the types of its results.
#[cycle(expression)]
#[tactic(auto, using(crate::proofs::Shared::noting))]
fn check_clause(
    walk: &Walk,
    scope: &mut Scope,
    ty: Found,
    results: Results,
    clause: &mut Clause,
    least: &mut Least,
) -> Result<Vec<Found>, NoMemory>
    ensures scope { OnOk result (scope.new ≡ scope.old) }
    ensures pattern { OnOk result ((V.clause clause.new).pattern ≡
        fill_pattern walk.now.tables.now ty (V.clause clause.old).pattern) }
    ensures body { OnOk result ((V.clause clause.new).body ≡ fill_block walk.now.tables.now
        (scope.old ++ bound_by walk.now.tables.now ty (V.clause clause.old).pattern)
        results.entry.expected results.entry.types.now (V.clause clause.old).body) }
    ensures found { IfOk result (λ v. v.items ≡ found_block walk.now.tables.now
        (scope.old ++ bound_by walk.now.tables.now ty (V.clause clause.old).pattern)
        results.entry.expected results.entry.types.now (V.clause clause.old).body) }
    ensures faults { OnOk result (least.new ≡ after least.old
        (pattern_faults walk.now.tables.now walk.now.instance ty (V.clause clause.old).pattern ++
        block_faults walk.now.tables.now walk.now.instance
        (scope.old ++ bound_by walk.now.tables.now ty (V.clause clause.old).pattern)
        results.entry.expected results.entry.types.now (V.clause clause.old).body)) }
{
    let kept = scope.len();
    check_pattern(walk, ty, &mut clause.pattern, scope, least)?;
    let types = check_block(walk, scope, results, &mut clause.body, least)?;
    scope.leave(kept);
    Ok(types)
}

// The clauses after the first, of which types are expected.
#[cycle(expression)]
#[tactic(auto, using(crate::proofs::Shared::noting))]
fn check_clauses(
    walk: &Walk,
    scope: &mut Scope,
    ty: Found,
    types: &[Found],
    clauses: &mut [Clause],
    least: &mut Least,
) -> Result<(), NoMemory>
    ensures scope { OnOk result (scope.new ≡ scope.old) }
    ensures tree { OnOk result (V.clauses clauses.new ≡
        fill_clauses walk.now.tables.now scope.old ty types.now (V.clauses clauses.old)) }
    ensures faults { OnOk result (least.new ≡
        after least.old (clauses_faults walk.now.tables.now walk.now.instance scope.old
        ty types.now (V.clauses clauses.old))) }
{
    let results = Results {
        expected: true,
        types,
    };
    for clause in clauses.iter_mut() {
        check_clause(walk, scope, ty, results, clause, least)?;
    }
    Ok(())
}

// A let: its bound expression, and then its binders.
#[cycle(expression)]
#[tactic(auto, using(crate::proofs::Shared::noting))]
fn check_binding(
    walk: &Walk,
    scope: &mut Scope,
    binding: &mut Binding,
    least: &mut Least,
) -> Result<(), NoMemory>
    ensures binders { OnOk result ((V.binding binding.new).binders ≡
        fill_binders (found_bound walk.now.tables.now scope.old (V.binding binding.old)) (V.binding
        binding.old).binders) }
    ensures bound { OnOk result ((V.binding binding.new).bound ≡
        fill_bound walk.now.tables.now scope.old (V.binding binding.old)) }
    ensures scope { OnOk result (scope.new ≡ scope.old ++
        entries_bound walk.now.tables.now scope.old (V.binding binding.old)) }
    ensures faults { OnOk result (least.new ≡ after least.old
        (bound_faults walk.now.tables.now walk.now.instance scope.old (V.binding binding.old))) }
{
    let expected = all_annotated(&binding.binders);
    let types = annotations(walk.alloc, &binding.binders)?;
    let results = Results {
        expected,
        types: &types,
    };
    let found = check_expression(walk, scope, results, &mut binding.bound, least)?;
    enter_binders(walk, expected, &found, &mut binding.binders, scope, least)?;
    Ok(())
}

/// Checks a block of which results are expected; as many types, those of the results.
#[cycle(expression)]
#[tactic(auto, using(crate::proofs::Shared::noting))]
pub(crate) fn check_block(
    walk: &Walk,
    scope: &mut Scope,
    results: Results,
    block: &mut Block,
    least: &mut Least,
) -> Result<Vec<Found>, NoMemory>
    ensures scope { OnOk result (scope.new ≡ scope.old) }
    ensures tree { OnOk result (V.block block.new ≡
        fill_block walk.now.tables.now scope.old results.entry.expected results.entry.types.now
        (V.block block.old)) }
    ensures found { IfOk result (λ v. v.items ≡
        found_block walk.now.tables.now scope.old results.entry.expected results.entry.types.now
        (V.block block.old)) }
    ensures faults { OnOk result (least.new ≡
        after least.old (block_faults walk.now.tables.now walk.now.instance scope.old
        results.entry.expected results.entry.types.now (V.block block.old))) }
{
    let kept = scope.len();
    for binding in block.bindings.iter_mut() {
        check_binding(walk, scope, binding, least)?;
    }
    let types = check_expression(walk, scope, results, &mut block.last, least)?;
    scope.leave(kept);
    Ok(types)
}
