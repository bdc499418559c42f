// The rules on credits, over all instances.
ghost use Rattle.std.specs.Prelude.{◌≡◌, ℕ, None, map, true, get_or, IfOk, IfErr, OnOk};
ghost use Rattle.fip_trees.specs.fip_language.Table.{is_scalar};
ghost use Rattle.fip_trees.specs.Least.{after};
ghost use Rattle.fip_trees.specs.NeedsView.{needs_row};
ghost use Rattle.fip_trees.specs.TreeView as V;
ghost use Rattle.fip_trees.specs.declared.least.Violation.{Violation};
ghost use Rattle.credit_check.specs.Credits.{Violates, Says};
ghost use Rattle.credit_check.specs.Held.{Holds};
ghost use Rattle.credit_check.specs.Tallies as L;

use crate::context::Context;
use crate::needs::marked;
use crate::notes::note_below;
use crate::walk::block;
use fip_base::plain::{FunKind, NoMemory};
use fip_base::refusal::{PhaseError, Rule};
use fip_trees::least::Least;
use fip_trees::needs::{Need, Needs};
use fip_trees::program::{Instance, Program, Typed};
use fip_trees::scalars::Scalars;
use fip_trees::sizes::Sizes;
use std::alloc::Global;

/// What each expression of a typed program needs: the sum over its parts, where a constructor with `k` fields adds a
/// credit of size `k`, and a call the credits of its callee's header; for a match the greatest over its clauses of what
/// the clause needs less what its pattern gives, never below 0. Plain instances are left out.
///
/// Refused exactly where one of these rules is broken, for the least violation by place, rule, instance and size:
/// - E56: the body needs more of a size than the header marks.
/// - E62: in a fip instance it needs less.
/// - E57: in a fip instance a clause needs less of a size than its pattern gives.
/// - E58: in a fip instance the clauses of a match differ in what they need beyond that.
///
/// NoMemory: no memory is left, or a number of credits has no room in 32 bits.
pub fn check_credits(alloc: Global, typed: &Typed) -> Result<Needs, PhaseError>
    ensures needs { IfOk result (λ n. Holds (V.program typed.now.program) n) }
    ensures exact { IfOk result (λ n. n ≡
        L.all_needs (V.program typed.now.program) (V.program typed.now.program).instances) }
    ensures credited { IfOk result (λ _. (v : Violation) → Violates (V.program typed.now.program) v → ⊥) }
    ensures least { IfErr result (λ e. Says (V.program typed.now.program) e) }
{
    match check_all(alloc, &typed.program) {
        Err(NoMemory) => Err(PhaseError::NoMemory),
        Ok(checked) => match checked.least.into_refusal() {
            None => Ok(Needs::new(checked.needs)),
            Some(refusal) => Err(PhaseError::Refused(refusal)),
        },
    }
}

// What the expressions of the instances need, and the least violation.
#[derive(Drop)]
struct Checked {
    needs: Vec<Vec<Need>>,
    least: Least,
}

#[tactic(auto, using(crate::proofs::Shared::noting))]
fn check_all(alloc: Global, program: &Program) -> Result<Checked, NoMemory>
    ensures needs { IfOk result (λ c. map needs_row c.needs.items ≡
        L.all_needs (V.program program.now) (V.program program.now).instances) }
    ensures noted { IfOk result (λ c. c.least ≡
        after None (L.all_notes (V.program program.now) 0 (V.program program.now).instances)) }
{
    let scalars = Scalars::of(alloc, &program.types)?;
    let mut needs = Vec::new(alloc);
    let mut least = Least::new(alloc);
    let mut number = 0;
    for instance in &program.instances {
        let held = check_instance(alloc, program, &scalars, number, instance, &mut least)?;
        needs.push(held)?;
        number += 1;
    }
    Ok(Checked { needs, least })
}

// An instance; a plain one has no needs.
fn check_instance(
    alloc: Global,
    program: &Program,
    scalars: &Scalars,
    number: usize,
    instance: &Instance,
    least: &mut Least,
) -> Result<Vec<Need>, NoMemory>
    requires { (t : ℕ) → get_or scalars.now t true ≡ is_scalar program.now.types t }
    ensures kept { IfOk result (λ v. v.items ≡
        L.instance_needs (V.program program.now) instance.now.kind (V.instance_of instance.now)) }
    ensures noted { OnOk result (least.new ≡ after least.old
        (L.instance_notes (V.program program.now) number instance.now.kind (V.instance_of instance.now))) }
{
    let is_fip = match instance.kind {
        FunKind::Fip => true,
        FunKind::Fbip => false,
        FunKind::Fun => return Ok(Vec::new(alloc)),
    };
    let context = Context {
        program,
        scalars,
        instance: number,
        is_fip,
    };
    check_body(alloc, &context, instance, least)
}

// The body of an instance that isn't plain.
#[tactic(auto, using(crate::proofs::Shared::noting))]
fn check_body(
    alloc: Global,
    context: &Context<'_>,
    instance: &Instance,
    least: &mut Least,
) -> Result<Vec<Need>, NoMemory>
    ensures kept { IfOk result (λ v. v.items ≡
        L.block_needs (V.program context.now.program.now) (V.block instance.now.body)) }
    ensures noted { OnOk result (least.new ≡ after least.old (L.body_notes (V.program context.now.program.now)
        context.now.instance context.now.is_fip (V.instance_of instance.now))) }
{
    let mut needs = Vec::new(alloc);
    let need = block(context, &mut needs, least, &instance.body)?;
    let marked = marked(&instance.credits)?;
    note_header(context, instance, &need, &marked, least)?;
    Ok(needs)
}

// E56 and E62: what the body needs is not what the header marks.
#[tactic(auto, using(crate::proofs::Shared::noting))]
fn note_header(
    context: &Context<'_>,
    instance: &Instance,
    need: &Sizes,
    marked: &Sizes,
    least: &mut Least,
) -> Result<(), NoMemory>
    ensures noted { OnOk result (least.new ≡ after least.old (L.header_below context.now.instance context.now.is_fip
        instance.now.place marked.now need.now)) }
{
    let place = instance.place;
    note_below(least, Rule::E56, place, context.instance, marked, need)?;
    if context.is_fip {
        note_below(least, Rule::E62, place, context.instance, need, marked)?;
    }
    Ok(())
}
