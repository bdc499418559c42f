// The data types of a program, the names in their fields looked up.
ghost use Rattle.std.specs.Prelude.{◌≡◌, true, [], ◌∷◌, ◌++◌, length, map, IfOk, OnOk};
ghost use Rattle.fip_language.specs.Declarations.{bool_type};
ghost use Rattle.fip_base.specs.CoreView as V;
ghost use Rattle.fip_trees.specs.Least.{after};
ghost use Rattle.fip_trees.specs.Names as N;
ghost use Rattle.fip_trees.specs.Names.{with_meanings};
ghost use Rattle.data_types.specs.Answers.{declared_row_names};
ghost use Rattle.data_types.specs.Declarations.{constructor_fields, constructor_name, data_declared};
ghost use Rattle.data_types.specs.Declarations.{data_scope, parameter_meanings, row_names};
ghost use Rattle.data_types.specs.Faults.{data_faults, field_faults, repeats, size_faults, type_name_mentions};
ghost use Rattle.data_types.specs.Faults.{all_data_faults};
ghost use Rattle.data_types.specs.Numbered.{all_true, row_numbered, type_numbered, types_numbered, HasNumbers};
ghost use Rattle.data_types.specs.Types.{NoTys};
ghost use Rattle.data_types.specs.View as v;

use crate::names::next;
use crate::notes::note_if;
use crate::written::{Scope, TypeParameters};
use fip_base::core_form::{Data, DataConstructor, TypeName};
use fip_base::plain::NoMemory;
use fip_base::refusal::Rule;
use fip_language::limits::MOST_FIELDS;
use fip_trees::decls::{DeclaredConstructor, DeclaredNames, DeclaredType};
use fip_trees::least::Least;
use fip_trees::meanings::Meanings;
use std::alloc::Global;

/// Bool, and after it the data types of a program in text order; notes their violations of E10 to E12 and E14.
#[tactic(auto, using(crate::proofs::Shared::noting))]
pub fn types_of<'a>(
    alloc: Global,
    names: &DeclaredNames<'a>,
    declared: &'a [Data],
    least: &mut Least,
) -> Result<Vec<DeclaredType<'a>>, NoMemory>
    ensures types { IfOk result (λ ts. v.declarations ts.items ≡
        map (data_declared names.now) (bool_type ∷ map V.data_type declared.now)) }
    ensures names { IfOk result (λ ts. map declared_row_names ts.items ≡
        map row_names (bool_type ∷ map V.data_type declared.now)) }
    ensures numbered { HasNumbers names.now → IfOk result (λ ts. types_numbered ts.items ≡ true) }
    ensures faults { OnOk result (least.new ≡
        after least.old (all_data_faults names.now (map V.data_type declared.now))) }
{
    let mut types = Vec::new(alloc);
    types.push(declared_bool(alloc)?)?;
    for data in declared {
        types.push(type_of(alloc, names, data, least)?)?;
    }
    Ok(types)
}

fn declared_bool<'a>(alloc: Global) -> Result<DeclaredType<'a>, NoMemory>
    ensures declared { IfOk result (λ t. v.declared t ≡ record { arity = 0; constructors = NoTys ∷ NoTys ∷ [] }) }
    ensures names { IfOk result (λ t. declared_row_names t ≡ row_names bool_type) }
    ensures numbered { IfOk result (λ t. type_numbered t ≡ true) }
{
    let mut constructors = Vec::new(alloc);
    constructors.push(DeclaredConstructor {
        name: b"False",
        fields: Vec::new(alloc),
    })?;
    constructors.push(DeclaredConstructor {
        name: b"True",
        fields: Vec::new(alloc),
    })?;
    Ok(DeclaredType {
        arity: 0,
        constructors,
    })
}

// The type parameters of a data type, by number. A second one of a name is E10.
fn parameters_of<'a>(
    alloc: Global,
    list: &'a [TypeName],
    least: &mut Least,
) -> Result<TypeParameters<'a>, NoMemory>
    ensures parameters { IfOk result (λ ps. ps ≡
        with_meanings [] (parameter_meanings 0 (map V.type_name list.now))) }
    ensures faults { OnOk result (least.new ≡
        after least.old (repeats [] (type_name_mentions (map V.type_name list.now)))) }
{
    let mut parameters = Meanings::new(alloc);
    add_parameters(list, &mut parameters, least)?;
    Ok(parameters)
}

fn add_parameters<'a>(
    list: &'a [TypeName],
    parameters: &mut TypeParameters<'a>,
    least: &mut Least,
) -> Result<(), NoMemory>
    ensures parameters { OnOk result (parameters.new ≡
        with_meanings parameters.old (parameter_meanings 0 (map V.type_name list.now))) }
    ensures faults { OnOk result (least.new ≡
        after least.old (repeats (N.names parameters.old) (type_name_mentions (map V.type_name list.now)))) }
{
    let mut number = 0;
    for parameter in list {
        let name = parameter.name.as_slice();
        let is_new = parameters.add(name, number)?;
        note_if(least, !is_new, Rule::E10, parameter.place, name)?;
        number = next(number)?;
    }
    Ok(())
}

#[tactic(auto, using(crate::proofs::Shared::noting))]
fn type_of<'a>(
    alloc: Global,
    names: &DeclaredNames<'a>,
    written: &'a Data,
    least: &mut Least,
) -> Result<DeclaredType<'a>, NoMemory>
    ensures declared { IfOk result (λ t. v.declared t ≡ data_declared names.now (V.data_type written.now)) }
    ensures names { IfOk result (λ t. declared_row_names t ≡ row_names (V.data_type written.now)) }
    ensures numbered { HasNumbers names.now → IfOk result (λ t. type_numbered t ≡ true) }
    ensures faults { OnOk result (least.new ≡ after least.old (data_faults names.now (V.data_type written.now))) }
{
    let parameters = parameters_of(alloc, &written.parameters, least)?;
    let scope = Scope {
        names,
        parameters: &parameters,
    };
    type_within(alloc, &scope, written, least)
}

// A data type, its type parameters in scope.
#[tactic(auto, using(crate::proofs::Shared::noting))]
fn type_within<'a>(
    alloc: Global,
    scope: &Scope<'_, 'a>,
    written: &'a Data,
    least: &mut Least,
) -> Result<DeclaredType<'a>, NoMemory>
    requires scope { scope.now ≡ data_scope scope.now.names (V.data_type written.now) }
    ensures declared { IfOk result (λ t. v.declared t ≡ data_declared scope.now.names (V.data_type written.now)) }
    ensures names { IfOk result (λ t. declared_row_names t ≡ row_names (V.data_type written.now)) }
    ensures numbered { HasNumbers scope.now.names → IfOk result (λ t. type_numbered t ≡ true) }
    ensures faults { OnOk result (least.new ≡ after least.old
        (field_faults scope.now (V.data_type written.now).constructors ++
        size_faults (V.data_type written.now).constructors)) }
{
    let constructors = constructors_of(alloc, scope, &written.constructors, least)?;
    note_sizes(&written.constructors, least)?;
    Ok(DeclaredType {
        arity: written.parameters.len(),
        constructors,
    })
}

#[tactic(auto, using(crate::proofs::Shared::noting))]
fn constructors_of<'a>(
    alloc: Global,
    scope: &Scope<'_, 'a>,
    list: &'a [DataConstructor],
    least: &mut Least,
) -> Result<Vec<DeclaredConstructor<'a>>, NoMemory>
    ensures fields { IfOk result (λ ks. map v.fields ks.items ≡
        map (constructor_fields scope.now) (map V.data_constructor list.now)) }
    ensures names { IfOk result (λ ks. map (λ k. k.name.now) ks.items ≡
        map constructor_name (map V.data_constructor list.now)) }
    ensures numbered { HasNumbers scope.now.names →
        IfOk result (λ ks. all_true (map row_numbered ks.items) ≡ true) }
    ensures faults { OnOk result (least.new ≡
        after least.old (field_faults scope.now (map V.data_constructor list.now))) }
{
    let mut constructors = Vec::new(alloc);
    for constructor in list {
        let fields = scope.look_up_all(alloc, &constructor.fields, least)?;
        constructors.push(DeclaredConstructor {
            name: constructor.name.as_slice(),
            fields,
        })?;
    }
    Ok(constructors)
}

// A constructor with more fields than a cell has is E14.
#[tactic(auto, using(crate::proofs::Shared::noting))]
fn note_sizes(constructors: &[DataConstructor], least: &mut Least) -> Result<(), NoMemory>
    ensures { OnOk result (least.new ≡
        after least.old (size_faults (map V.data_constructor constructors.now))) }
{
    for constructor in constructors {
        let is_broken = MOST_FIELDS < constructor.fields.len();
        note_if(
            least,
            is_broken,
            Rule::E14,
            constructor.place,
            constructor.name.as_slice(),
        )?;
    }
    Ok(())
}
