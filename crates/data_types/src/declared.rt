// The declarations of a program, or their least violation.
ghost use Rattle.std.specs.Prelude.{◌≡◌, ◌<◌, ◌++◌, ℕ, Bool, List, Option, true, length, map, IfOk, IfErr, OnOk};
ghost use Rattle.fip_language.specs.Declarations.{data_types};
ghost use Rattle.fip_base.specs.CoreView as V;
ghost use Rattle.fip_trees.specs.Least.{after};
ghost use Rattle.fip_trees.specs.declared.least.Violation.{Violation};
ghost use Rattle.data_types.specs.Answers.{IsWalked, Says, Violates, declared_row_names, value_faults};
ghost use Rattle.data_types.specs.DeclaredProgram.{AreDeclared};
ghost use Rattle.data_types.specs.Declarations.{declarations, declared_names, row_names, written_names};
ghost use Rattle.data_types.specs.Faults.{all_function_faults, block_faults, function_faults, header_faults};
ghost use Rattle.data_types.specs.Faults.{name_faults};
ghost use Rattle.data_types.specs.Numbered.{types_numbered};
ghost use Rattle.data_types.specs.Steps.{ReportsValued};
ghost use Rattle.data_types.specs.Types.{IsValued};
ghost use Rattle.data_types.specs.View as v;

use crate::bits::is_true;
use crate::bodies::check_block;
use crate::headers::{
    check_credits, check_header, check_parameter_names, check_static_names, type_parameters,
};
use crate::names::names_of;
use crate::notes::note_if;
use crate::program::DeclaredProgram;
use crate::types::types_of;
use crate::valued::are_valued;
use crate::written::Scope;
use fip_base::core_form::{Core, Data, Function};
use fip_base::plain::NoMemory;
use fip_base::refusal::{PhaseError, Rule};
use fip_trees::decls::{DeclaredNames, DeclaredType, Decls};
use fip_trees::least::Least;
use std::alloc::Global;

/// What a program declares: its names, and its data types with bool before them. It is refused by the least violation
/// of these rules:
///
/// - E10: a second data type, constructor or function of a name, or a second type parameter, static parameter or
///   parameter of a name in one header;
/// - E11: a type that is written has an unknown name;
/// - E12: it has more or fewer arguments than type parameters;
/// - E13: a data type has no finite value;
/// - E14: a constructor has more than 16 fields;
/// - E15: an expression or a pattern names an unknown constructor;
/// - E63: a header has a credit of a size that no cell has, or more than 16 credits.
///
/// An error also where no memory is left.
pub fn declare<'a>(alloc: Global, core: &'a Core) -> Result<DeclaredProgram<'a>, PhaseError>
    ensures core { IfOk result (λ d. d.core ≡ core.now) }
    ensures declared { IfOk result (λ d. AreDeclared d.core d.decls) }
    ensures accepted { IfOk result (λ d. (w : Violation) → Violates (V.core core.now) w → ⊥) }
    ensures names { IfOk result (λ d. d.decls.names ≡ written_names (V.core core.now)) }
    ensures types { IfOk result (λ d. v.declarations d.decls.types.items ≡ declarations (V.core core.now)) }
    ensures constructors { IfOk result (λ d. map declared_row_names d.decls.types.items ≡
        map row_names (data_types (V.core core.now))) }
    ensures numbered { IfOk result (λ d. types_numbered d.decls.types.items ≡ true) }
    ensures valued { IfOk result (λ d. (n : ℕ) → n < length (data_types (V.core core.now)) →
        IsValued (declarations (V.core core.now)) n) }
    ensures least { IfErr result (λ e. Says (V.core core.now) e) }
{
    let mut least = Least::new(alloc);
    match declarations(alloc, core, &mut least) {
        Err(NoMemory) => Err(PhaseError::NoMemory),
        Ok(decls) => match least.into_refusal() {
            Some(refusal) => Err(PhaseError::Refused(refusal)),
            None => Ok(DeclaredProgram::new(core, decls)),
        },
    }
}

// The declarations, in which a name that is declared twice means its first one; notes all violations.
fn declarations<'a>(alloc: Global, core: &'a Core, least: &mut Least) -> Result<Decls<'a>, NoMemory>
    ensures names { IfOk result (λ d. d.names ≡ declared_names (V.core core.now)) }
    ensures types { IfOk result (λ d. v.declarations d.types.items ≡ declarations (V.core core.now)) }
    ensures constructors { IfOk result (λ d. map declared_row_names d.types.items ≡
        map row_names (data_types (V.core core.now))) }
    ensures numbered { IfOk result (λ d. types_numbered d.types.items ≡ true) }
    ensures faults { OnOk result (IsWalked (V.core core.now) least.old least.new) }
{
    let names = names_of(alloc, core, least)?;
    let types = checked_types(alloc, core, &names, least)?;
    Ok(Decls { names, types })
}

// The data types; notes all violations of the program after those of its names.
#[tactic(auto, using(crate::proofs::Shared::noting))]
fn checked_types<'a>(
    alloc: Global,
    core: &'a Core,
    names: &DeclaredNames<'a>,
    least: &mut Least,
) -> Result<Vec<DeclaredType<'a>>, NoMemory>
    requires names { names.now ≡ declared_names (V.core core.now) }
    ensures types { IfOk result (λ ts. v.declarations ts.items ≡ declarations (V.core core.now)) }
    ensures constructors { IfOk result (λ ts. map declared_row_names ts.items ≡
        map row_names (data_types (V.core core.now))) }
    ensures numbered { IfOk result (λ ts. types_numbered ts.items ≡ true) }
    ensures faults { OnOk result ((o : Option Violation) → least.old ≡ after o (name_faults (V.core core.now)) →
        IsWalked (V.core core.now) o least.new) }
{
    let types = types_of(alloc, names, &core.types, least)?;
    check_functions(alloc, names, &core.functions, least)?;
    check_values(alloc, &core.types, &types, least)?;
    Ok(types)
}

// A data type without a finite value is E13.
fn check_values(
    alloc: Global,
    declared: &[Data],
    types: &[DeclaredType<'_>],
    least: &mut Least,
) -> Result<(), NoMemory>
    ensures { OnOk result ((flags : List Bool) × ReportsValued (v.declarations types.now) flags ×
        (least.new ≡ after least.old (value_faults 1 flags (map V.data_type declared.now)))) }
{
    let valued = are_valued(alloc, types)?;
    note_unvalued(declared, &valued, least)?;
    Ok(())
}

// Notes the data types without a finite value. The first of the flags is that of bool.
fn note_unvalued(declared: &[Data], valued: &[bool], least: &mut Least) -> Result<(), NoMemory>
    ensures { OnOk result (least.new ≡
        after least.old (value_faults 1 valued.now (map V.data_type declared.now))) }
{
    let mut place = 1;
    for data in declared {
        let is_broken = !is_true(valued, place);
        note_if(
            least,
            is_broken,
            Rule::E13,
            data.place,
            data.name.as_slice(),
        )?;
        place += 1;
    }
    Ok(())
}

#[tactic(auto, using(crate::proofs::Shared::noting))]
fn check_functions(
    alloc: Global,
    names: &DeclaredNames<'_>,
    functions: &[Function],
    least: &mut Least,
) -> Result<(), NoMemory>
    ensures { OnOk result (least.new ≡
        after least.old (all_function_faults names.now (map V.function functions.now))) }
{
    for function in functions {
        check_function(alloc, names, function, least)?;
    }
    Ok(())
}

#[tactic(auto, using(crate::proofs::Shared::noting))]
fn check_function(
    alloc: Global,
    names: &DeclaredNames<'_>,
    function: &Function,
    least: &mut Least,
) -> Result<(), NoMemory>
    ensures { OnOk result (least.new ≡ after least.old (function_faults names.now (V.function function.now))) }
{
    check_credits(&function.credits, least)?;
    check_static_names(alloc, &function.statics, least)?;
    check_parameter_names(alloc, &function.parameters, least)?;
    let parameters = type_parameters(alloc, &function.statics)?;
    let scope = Scope {
        names,
        parameters: &parameters,
    };
    check_mentions(alloc, &scope, function, least)?;
    Ok(())
}

// What a function mentions in its header and its body.
#[tactic(auto, using(crate::proofs::Shared::noting))]
fn check_mentions(
    alloc: Global,
    scope: &Scope<'_, '_>,
    function: &Function,
    least: &mut Least,
) -> Result<(), NoMemory>
    ensures { OnOk result (least.new ≡ after least.old
        (header_faults scope.now (V.function function.now) ++ block_faults scope.now (V.function function.now).body)) }
{
    check_header(alloc, scope, function, least)?;
    check_block(alloc, scope, &function.body, least)?;
    Ok(())
}
