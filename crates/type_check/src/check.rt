// Instances, and the program.
ghost use Rattle.std.specs.Prelude.{◌≡◌, ◌++◌, None, map, drop, IfOk, IfErr, OnOk};
ghost use Rattle.fip_trees.specs.Least.{after};
ghost use Rattle.fip_trees.specs.SoundProgram.{IsSoundProgram};
ghost use Rattle.fip_trees.specs.TreeView as V;
ghost use Rattle.type_check.specs.Faults.{fill_instance, fill_parameters, instance_faults, instances_faults};
ghost use Rattle.type_check.specs.Faults.{header_faults, tuples_faults, type_faults, filled, or_place};
ghost use Rattle.type_check.specs.Parameters.{fill_first, entry_first};
ghost use Rattle.type_check.specs.Answers.{Says};
ghost use Rattle.type_check.specs.Typing.{parameter_entries, IsTyped, IsFilled};
ghost use Rattle.type_check.specs.World.{world};

use crate::expected::Results;
use crate::expressions::check_block;
use crate::patterns::enter_binder;
use crate::results::all_known;
use crate::scope::Scope;
use crate::tables::{Tables, heads, plain_types};
use crate::walk::Walk;
use fip_base::plain::{NoMemory, Param, Place};
use fip_base::refusal::{PhaseError, Rule};
use fip_language::limits::MOST_RESULTS;
use fip_trees::least::Least;
use fip_trees::program::{Binder, Flat, Instance, Program, TupleResult, Typed};
use std::alloc::Global;

/// The program with the type of each node in its slot. It is refused by the least violation of these rules:
///
/// - E30: an argument, a call, an operator or a pattern has another type than the one expected, or a binder of a let of
///   which only some binders have annotations has another than the type found;
/// - E31: a variable isn't in scope;
/// - E32: a constructor of a data type with parameters occurs where no type is expected;
/// - E33: a call, a constructor or a pattern has the wrong number of parts;
/// - E34: a tuple or a header has more than eight results, or there are more or fewer results than expected.
///
/// Where it is not refused, all of it is typed, the slots hold these types, and it is as sound as it was. An error also
/// where no memory is left.
pub fn check_types(alloc: Global, flat: Flat) -> Result<Typed, PhaseError>
    ensures typed { IfOk result (λ t. IsTyped (V.program flat)) }
    ensures tree { IfOk result (λ t. V.program t.program ≡ filled (V.program flat)) }
    ensures slots { IfOk result (λ t. IsFilled (V.program t.program)) }
    ensures sound { IfOk result (λ t. IsSoundProgram (V.program t.program)) }
    ensures least { IfErr result (λ e. Says (V.program flat) e) }
{
    checked(alloc, flat.into_program())
}

// The program with the type of each node in its slot, or the least violation.
fn checked(alloc: Global, program: Program) -> Result<Typed, PhaseError>
    requires sound { IsSoundProgram (V.program program) }
    ensures typed { IfOk result (λ t. IsTyped (V.program program)) }
    ensures tree { IfOk result (λ t. V.program t.program ≡ filled (V.program program)) }
    ensures slots { IfOk result (λ t. IsFilled (V.program t.program)) }
    ensures sound { IfOk result (λ t. IsSoundProgram (V.program t.program)) }
    ensures least { IfErr result (λ e. Says (V.program program) e) }
{
    let mut least = Least::new(alloc);
    match check_program(alloc, program, &mut least) {
        Err(NoMemory) => Err(PhaseError::NoMemory),
        Ok(program) => match least.into_refusal() {
            Some(refusal) => Err(PhaseError::Refused(refusal)),
            None => Ok(typed_of(program)),
        },
    }
}

// A program that breaks no rule, with its slots filled.
fn typed_of(program: Program) -> Typed
    requires sound { IsSoundProgram (V.program program) }
    ensures same { result.program ≡ program }
{
    Typed { program }
}

// The program with its slots filled, whatever rules it breaks.
fn check_program(alloc: Global, program: Program, least: &mut Least) -> Result<Program, NoMemory>
    ensures tree { IfOk result (λ p. V.program p ≡ filled (V.program program)) }
    ensures faults { OnOk result (least.new ≡ after least.old (type_faults (V.program program))) }
{
    let Program {
        types,
        declaring,
        arities,
        field_counts,
        mut instances,
    } = program;
    let plain_types = plain_types(alloc, &declaring, &arities)?;
    let heads = heads(alloc, &instances)?;
    let tables = Tables {
        types,
        declaring,
        arities,
        field_counts,
        plain_types,
        heads,
    };
    check_instances(alloc, &tables, &mut instances, least)?;
    Ok(Program {
        types: tables.types,
        declaring: tables.declaring,
        arities: tables.arities,
        field_counts: tables.field_counts,
        instances,
    })
}

fn check_instances(
    alloc: Global,
    tables: &Tables,
    instances: &mut [Instance],
    least: &mut Least,
) -> Result<(), NoMemory>
    ensures tree { OnOk result (map V.instance_of instances.new ≡
        map (fill_instance tables.now) (map V.instance_of instances.old)) }
    ensures faults { OnOk result (least.new ≡
        after least.old (instances_faults tables.now 0 (map V.instance_of instances.old))) }
{
    let mut number = 0;
    for instance in instances.iter_mut() {
        let walk = Walk {
            alloc,
            tables,
            instance: number,
        };
        check_instance(&walk, instance, least)?;
        number += 1;
    }
    Ok(())
}

#[tactic(auto, using(crate::proofs::Shared::noting))]
fn check_instance(walk: &Walk, instance: &mut Instance, least: &mut Least) -> Result<(), NoMemory>
    ensures tree { OnOk result (V.instance_of instance.new ≡
        fill_instance walk.now.tables.now (V.instance_of instance.old)) }
    ensures faults { OnOk result (least.new ≡ after least.old
        (instance_faults walk.now.tables.now walk.now.instance (V.instance_of instance.old))) }
{
    note_header(walk, instance, least)?;
    let mut scope = Scope::new(walk.alloc);
    enter_parameters(
        instance.params.as_slice(),
        &mut instance.binders,
        &mut scope,
    )?;
    let types = all_known(walk.alloc, instance.results.as_slice())?;
    let results = Results {
        expected: true,
        types: &types,
    };
    check_block(walk, &mut scope, results, &mut instance.body, least)?;
    Ok(())
}

// Notes where the header has a tuple of too many results.
#[tactic(auto, using(crate::proofs::Shared::noting))]
fn note_header(walk: &Walk, instance: &Instance, least: &mut Least) -> Result<(), NoMemory>
    ensures { OnOk result (least.new ≡ after least.old (header_faults walk.now.instance (V.instance_of instance.now))) }
{
    let place = results_place(instance.results_place, instance.place);
    let is_broken = MOST_RESULTS < instance.results.as_slice().len();
    walk.note_if(is_broken, Rule::E34, place, b"", least)?;
    note_tuples(walk, &instance.signature_tuples, least)
}

// The place of a header's results: its tuple's bracket, else the function's name.
fn results_place(bracket: Option<Place>, name: Place) -> Place
    ensures { result ≡ or_place bracket name }
{
    match bracket {
        None => name,
        Some(place) => place,
    }
}

#[tactic(auto, using(crate::proofs::Shared::noting))]
fn note_tuples(walk: &Walk, tuples: &[TupleResult], least: &mut Least) -> Result<(), NoMemory>
    ensures { OnOk result (least.new ≡ after least.old (tuples_faults walk.now.instance tuples.now)) }
{
    for tuple in tuples {
        let is_broken = MOST_RESULTS < tuple.count;
        walk.note_if(is_broken, Rule::E34, tuple.place, b"", least)?;
    }
    Ok(())
}

// Gives the parameters' binders their types, and enters their variables.
fn enter_parameters(
    params: &[Param],
    binders: &mut [Binder],
    scope: &mut Scope,
) -> Result<(), NoMemory>
    ensures binders { OnOk result (binders.new ≡ fill_parameters params.now binders.old) }
    ensures scope { OnOk result (scope.new ≡ scope.old ++ parameter_entries params.now binders.old) }
{
    let mut index = 0;
    for binder in binders.iter_mut() {
        enter_parameter(params, index, binder, scope)?;
        index += 1;
    }
    Ok(())
}

// The same of one binder. One without a parameter stays as it is, and isn't in scope.
fn enter_parameter(
    params: &[Param],
    index: usize,
    binder: &mut Binder,
    scope: &mut Scope,
) -> Result<(), NoMemory>
    ensures binder { OnOk result (binder.new ≡ fill_first (drop index params.now) binder.old) }
    ensures scope { OnOk result (scope.new ≡ scope.old ++ entry_first (drop index params.now) binder.old) }
{
    if index < params.len() {
        enter_binder(Some(params[index].ty), binder, scope)?;
    }
    Ok(())
}
