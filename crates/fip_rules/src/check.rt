// The rules on ownership, over all instances.
ghost use Rattle.std.specs.Prelude.{◌≡◌, None, map, drop, IfOk, IfErr, OnOk};
ghost use Rattle.fip_trees.specs.Least.{after};
ghost use Rattle.fip_trees.specs.TreeView as V;
ghost use Rattle.fip_trees.specs.declared.least.Violation.{Violation};
ghost use Rattle.fip_rules.specs.Checks.{Violates, Says};
ghost use Rattle.fip_rules.specs.Marks.{reported};
ghost use Rattle.fip_rules.specs.Noted.{instance_notes, all_notes, program_notes, first_parameter};
ghost use Rattle.fip_rules.specs.Shapes.{parameters};
ghost use Rattle.fip_rules.specs.Stands.{entered_all};
ghost use Rattle.fip_rules.specs.Views.{flag, world_of};
ghost use Rattle.fip_rules.specs.World as W;

use crate::state::State;
use crate::walk::block;
use crate::world::World;
use fip_base::plain::{FunKind, NoMemory, Param};
use fip_base::refusal::PhaseError;
use fip_trees::least::Least;
use fip_trees::program::{Binder, Instance, Program, Typed};
use fip_trees::scalars::Scalars;
use std::alloc::Global;

/// Checks that each fip and fbip instance of a typed program uses what it owns once, and borrows it only while it has
/// it. A path takes one clause at each match. An argument in a borrowed position and the scrutinee of a `match` are
/// borrowed, each other occurrence of a variable uses it up.
///
/// Refused exactly where one of these rules is broken, for the least violation by place, rule, instance and name:
/// - E50: an owned variable is used up with an earlier use on a path through both.
/// - E51: it is borrowed with an earlier use on a path through both.
/// - E52: in a fip instance, some path through its scope doesn't use it up.
/// - E53: a borrowed variable that isn't scalar is used up.
/// - E54: an owned variable is borrowed, but in no bound expression of a let within its scope that doesn't use it up;
///   or a constructor of a type that isn't scalar is in a borrowed position.
/// - E55: a call of a weaker kind.
///
/// NoMemory: no memory is left.
pub fn check_owned(alloc: Global, typed: &Typed) -> Result<(), PhaseError>
    ensures owned { IfOk result (λ _. (v : Violation) → Violates (V.program typed.now.program) v → ⊥) }
    ensures least { IfErr result (λ e. Says (V.program typed.now.program) e) }
{
    match check_all(alloc, &typed.program) {
        Err(NoMemory) => Err(PhaseError::NoMemory),
        Ok(least) => match least.into_refusal() {
            None => Ok(()),
            Some(refusal) => Err(PhaseError::Refused(refusal)),
        },
    }
}

// The least violation.
fn check_all(alloc: Global, program: &Program) -> Result<Least, NoMemory>
    ensures { IfOk result (λ l. l ≡ after None (map reported (program_notes (V.program program.now)))) }
{
    let scalars = Scalars::of(alloc, &program.types)?;
    let least = check_instances(alloc, &scalars, &program.instances)?;
    Ok(least)
}

// The least violation in some instances, whose scalar types are these.
#[tactic(auto, using(crate::proofs::Shared::noting))]
fn check_instances(
    alloc: Global,
    scalars: &Scalars,
    instances: &[Instance],
) -> Result<Least, NoMemory>
    ensures { IfOk result (λ l. l ≡ after None (map reported
        (all_notes (flag scalars.now) (V.instances instances.now) 0 (V.instances instances.now)))) }
{
    let mut least = Least::new(alloc);
    let mut number = 0;
    for instance in instances {
        let world = World {
            instances,
            scalars,
            kind: instance.kind,
        };
        least = check_instance(alloc, &world, number, instance, least)?;
        number += 1;
    }
    Ok(least)
}

// The least violation, after one more instance; a plain one breaks none of these rules.
fn check_instance(
    alloc: Global,
    world: &World<'_>,
    number: usize,
    instance: &Instance,
    least: Least,
) -> Result<Least, NoMemory>
    requires { world.now.kind ≡ instance.now.kind }
    ensures { IfOk result (λ l. l ≡
        after least (map reported (instance_notes (world_of world.now) number (V.instance_of instance.now)))) }
{
    if !instance.kind.is_ruled() {
        return Ok(least);
    }
    let mut state = State::new(alloc, number, instance.kind.is_fip(), least);
    bind_parameters(
        &mut state,
        world,
        instance.params.as_slice(),
        &instance.binders,
    )?;
    block(&mut state, world, &instance.body)?;
    state.leave(0)?;
    Ok(state.into_least())
}

// The parameters come into scope.
fn bind_parameters<'a>(
    state: &mut State<'a>,
    world: &World<'_>,
    params: &[Param],
    binders: &'a [Binder],
) -> Result<(), NoMemory>
    ensures { OnOk result (state.new ≡ entered_all state.old (parameters (world_of world.now) params.now binders.now)) }
{
    let mut place = 0;
    for binder in binders {
        bind_parameter(state, world, params, place, binder)?;
        place += 1;
    }
    Ok(())
}

// The binder of the parameter in this place comes into scope, if there is one.
fn bind_parameter<'a>(
    state: &mut State<'a>,
    world: &World<'_>,
    params: &[Param],
    place: usize,
    binder: &'a Binder,
) -> Result<(), NoMemory>
    ensures { OnOk result (state.new ≡
        entered_all state.old (first_parameter (world_of world.now) (drop place params.now) binder.now)) }
{
    if place < params.len() {
        let param = params[place];
        state.enter(world.ownership(!param.lent, param.ty), binder)?;
    }
    Ok(())
}
