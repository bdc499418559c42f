// The headers of functions.
ghost use Rattle.std.specs.Prelude.{◌≡◌, [], ◌∷◌, map, slice_get, IfOk, OnOk};
ghost use Rattle.fip_base.specs.CoreView as V;
ghost use Rattle.fip_trees.specs.Least.{after};
ghost use Rattle.fip_trees.specs.Names.{with_meanings};
ghost use Rattle.fip_language.specs.declared.limits.TheConstants.{MOST_CREDITS};
ghost use Rattle.data_types.specs.Declarations.{static_meanings};
ghost use Rattle.data_types.specs.Faults.{credit_faults, header_faults, mark_faults, parameter_mentions};
ghost use Rattle.data_types.specs.Faults.{parameters_faults, repeats, result_faults, signature_faults};
ghost use Rattle.data_types.specs.Faults.{signature_parameters_faults, signatures_faults, static_mention};
ghost use Rattle.data_types.specs.Faults.{static_mentions, place_faults};

use crate::names::next;
use crate::notes::{note, note_if};
use crate::written::{Scope, TypeParameters};
use fip_base::core_form::{Function, Parameter, ResultType, SignatureParameter, Static};
use fip_base::plain::{CreditMark, NoMemory, Place};
use fip_base::refusal::Rule;
use fip_language::limits::{MOST_CREDITS, MOST_FIELDS};
use fip_trees::least::Least;
use fip_trees::meanings::Meanings;
use std::alloc::Global;

/// The type parameters of a function's header, each numbered by its place among the static parameters. They are in
/// scope in the whole header and the body.
pub fn type_parameters<'a>(
    alloc: Global,
    statics: &'a [Static],
) -> Result<TypeParameters<'a>, NoMemory>
    ensures { IfOk result (λ ps. ps ≡ with_meanings [] (static_meanings 0 (map V.static statics.now))) }
{
    let mut parameters = Meanings::new(alloc);
    add_type_parameters(statics, &mut parameters)?;
    Ok(parameters)
}

fn add_type_parameters<'a>(
    statics: &'a [Static],
    parameters: &mut TypeParameters<'a>,
) -> Result<(), NoMemory>
    ensures { OnOk result (parameters.new ≡
        with_meanings parameters.old (static_meanings 0 (map V.static statics.now))) }
{
    let mut number = 0;
    for parameter in statics {
        add_type_parameter(parameter, number, parameters)?;
        number = next(number)?;
    }
    Ok(())
}

fn add_type_parameter<'a>(
    parameter: &'a Static,
    number: u32,
    parameters: &mut TypeParameters<'a>,
) -> Result<(), NoMemory>
    ensures { OnOk result (parameters.new ≡
        with_meanings parameters.old (static_meanings number (V.static parameter.now ∷ []))) }
{
    match parameter {
        Static::Type { name, .. } => {
            parameters.add(name.as_slice(), number)?;
            Ok(())
        }
        Static::Function { .. } => Ok(()),
    }
}

/// A mark of a size that no cell has is E63, and the seventeenth mark too.
#[tactic(auto, using(crate::proofs::Shared::noting))]
pub fn check_credits(credits: &[CreditMark], least: &mut Least) -> Result<(), NoMemory>
    ensures { OnOk result (least.new ≡ after least.old (credit_faults credits.now)) }
{
    check_sizes(credits, least)?;
    check_count(credits, least)?;
    Ok(())
}

#[tactic(auto, using(crate::proofs::Shared::noting))]
fn check_sizes(credits: &[CreditMark], least: &mut Least) -> Result<(), NoMemory>
    ensures { OnOk result (least.new ≡ after least.old (mark_faults credits.now)) }
{
    for mark in credits {
        let is_broken = mark.size == 0 || mark.size > MOST_FIELDS as u64;
        note_if(least, is_broken, Rule::E63, mark.size_place, b"")?;
    }
    Ok(())
}

fn check_count(credits: &[CreditMark], least: &mut Least) -> Result<(), NoMemory>
    ensures { OnOk result (least.new ≡ after least.old (place_faults (slice_get credits.now MOST_CREDITS))) }
{
    if let Some(mark) = credits.get(MOST_CREDITS) {
        note(least, Rule::E63, mark.place, b"")?;
    }
    Ok(())
}

fn name_of(parameter: &Static) -> &[u8]
    ensures { result.now ≡ (static_mention (V.static parameter.now)).name }
{
    match parameter {
        Static::Type { name, .. } => name.as_slice(),
        Static::Function { name, .. } => name.as_slice(),
    }
}

fn place_of(parameter: &Static) -> Place
    ensures { result ≡ (static_mention (V.static parameter.now)).place }
{
    match parameter {
        Static::Type { place, .. } => *place,
        Static::Function { place, .. } => *place,
    }
}

/// A second static parameter of a name is E10, be it a type or a function.
pub fn check_static_names(
    alloc: Global,
    statics: &[Static],
    least: &mut Least,
) -> Result<(), NoMemory>
    ensures { OnOk result (least.new ≡ after least.old (repeats [] (static_mentions (map V.static statics.now)))) }
{
    let mut seen = Meanings::new(alloc);
    note_static_repeats(statics, &mut seen, least)
}

fn note_static_repeats<'a>(
    statics: &'a [Static],
    seen: &mut Meanings<'a, ()>,
    least: &mut Least,
) -> Result<(), NoMemory>
    requires empty { seen.now ≡ [] }
    ensures { OnOk result (least.new ≡ after least.old (repeats [] (static_mentions (map V.static statics.now)))) }
{
    for parameter in statics {
        let name = name_of(parameter);
        let is_new = seen.add(name, ())?;
        note_if(least, !is_new, Rule::E10, place_of(parameter), name)?;
    }
    Ok(())
}

/// A second parameter of a name is E10.
pub fn check_parameter_names(
    alloc: Global,
    parameters: &[Parameter],
    least: &mut Least,
) -> Result<(), NoMemory>
    ensures { OnOk result (least.new ≡
        after least.old (repeats [] (parameter_mentions (map V.parameter parameters.now)))) }
{
    let mut seen = Meanings::new(alloc);
    note_parameter_repeats(parameters, &mut seen, least)
}

fn note_parameter_repeats<'a>(
    parameters: &'a [Parameter],
    seen: &mut Meanings<'a, ()>,
    least: &mut Least,
) -> Result<(), NoMemory>
    requires empty { seen.now ≡ [] }
    ensures { OnOk result (least.new ≡
        after least.old (repeats [] (parameter_mentions (map V.parameter parameters.now)))) }
{
    for parameter in parameters {
        let name = parameter.binder.name.as_slice();
        let is_new = seen.add(name, ())?;
        note_if(least, !is_new, Rule::E10, parameter.binder.place, name)?;
    }
    Ok(())
}

/// Notes the violations of E11 and E12 in a header.
#[tactic(auto, using(crate::proofs::Shared::noting))]
pub fn check_header(
    alloc: Global,
    scope: &Scope<'_, '_>,
    function: &Function,
    least: &mut Least,
) -> Result<(), NoMemory>
    ensures { OnOk result (least.new ≡ after least.old (header_faults scope.now (V.function function.now))) }
{
    check_signatures(alloc, scope, &function.statics, least)?;
    check_parameters(alloc, scope, &function.parameters, least)?;
    check_result(alloc, scope, &function.result, least)?;
    Ok(())
}

#[tactic(auto, using(crate::proofs::Shared::noting))]
fn check_signatures(
    alloc: Global,
    scope: &Scope<'_, '_>,
    statics: &[Static],
    least: &mut Least,
) -> Result<(), NoMemory>
    ensures { OnOk result (least.new ≡ after least.old (signatures_faults scope.now (map V.static statics.now))) }
{
    for parameter in statics {
        check_signature(alloc, scope, parameter, least)?;
    }
    Ok(())
}

#[tactic(auto, using(crate::proofs::Shared::noting))]
fn check_signature(
    alloc: Global,
    scope: &Scope<'_, '_>,
    parameter: &Static,
    least: &mut Least,
) -> Result<(), NoMemory>
    ensures { OnOk result (least.new ≡ after least.old (signature_faults scope.now (V.static parameter.now))) }
{
    match parameter {
        Static::Type { .. } => Ok(()),
        Static::Function {
            parameters,
            result,
            ..
        } => {
            check_signature_parameters(alloc, scope, parameters, least)?;
            check_result(alloc, scope, result, least)?;
            Ok(())
        }
    }
}

#[tactic(auto, using(crate::proofs::Shared::noting))]
fn check_signature_parameters(
    alloc: Global,
    scope: &Scope<'_, '_>,
    parameters: &[SignatureParameter],
    least: &mut Least,
) -> Result<(), NoMemory>
    ensures { OnOk result (least.new ≡ after least.old
        (signature_parameters_faults scope.now (map V.signature_parameter parameters.now))) }
{
    for parameter in parameters {
        scope.look_up(alloc, &parameter.ty, least)?;
    }
    Ok(())
}

#[tactic(auto, using(crate::proofs::Shared::noting))]
fn check_parameters(
    alloc: Global,
    scope: &Scope<'_, '_>,
    parameters: &[Parameter],
    least: &mut Least,
) -> Result<(), NoMemory>
    ensures { OnOk result (least.new ≡
        after least.old (parameters_faults scope.now (map V.parameter parameters.now))) }
{
    for parameter in parameters {
        scope.look_up(alloc, &parameter.ty, least)?;
    }
    Ok(())
}

#[tactic(auto, using(crate::proofs::Shared::noting))]
fn check_result(
    alloc: Global,
    scope: &Scope<'_, '_>,
    given: &ResultType,
    least: &mut Least,
) -> Result<(), NoMemory>
    ensures { OnOk result (least.new ≡ after least.old (result_faults scope.now (V.result_type given.now))) }
{
    match given {
        ResultType::One(written) => {
            scope.look_up(alloc, written, least)?;
            Ok(())
        }
        ResultType::Tuple(_, list) => {
            scope.look_up_all(alloc, list, least)?;
            Ok(())
        }
    }
}
