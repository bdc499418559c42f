// The names of a program, and the violations of E10 among them.
ghost use Rattle.std.specs.Prelude.{◌≡◌, ◌+◌, [], map, IfOk, OnOk};
ghost use Rattle.fip_base.specs.CoreView as V;
ghost use Rattle.fip_trees.specs.Least.{after};
ghost use Rattle.fip_trees.specs.Names as N;
ghost use Rattle.fip_trees.specs.Names.{with_meanings};
ghost use Rattle.data_types.specs.Declarations.{constructor_meanings, declared_names, function_meanings};
ghost use Rattle.data_types.specs.Declarations.{predeclared, row_meanings, type_meanings};
ghost use Rattle.data_types.specs.Faults.{broken, constructor_mentions, function_mentions, name_faults, repeats};
ghost use Rattle.data_types.specs.Faults.{row_mentions, type_mentions};

use crate::notes::note_if;
use fip_base::core_form::{Core, Data, DataConstructor, Function};
use fip_base::plain::{NoMemory, Place};
use fip_base::refusal::Rule;
use fip_trees::decls::{ConstructorId, DeclaredNames, TypeHead};
use fip_trees::least::Least;
use std::alloc::Global;

/// The number after a number. There are never more than memory holds.
pub fn next(number: u32) -> Result<u32, NoMemory>
    ensures { IfOk result (λ n. n ≡ number + 1) }
{
    number.checked_add(1).ok_or(NoMemory)
}

/// What the names of a program mean: bool, False and True are declared before all others. Notes each second name.
pub fn names_of<'a>(
    alloc: Global,
    core: &'a Core,
    least: &mut Least,
) -> Result<DeclaredNames<'a>, NoMemory>
    ensures names { IfOk result (λ ns. ns ≡ declared_names (V.core core.now)) }
    ensures faults { OnOk result (least.new ≡ after least.old (name_faults (V.core core.now))) }
{
    let mut names = DeclaredNames::new(alloc);
    declare_names(core, &mut names, least)?;
    Ok(names)
}

// bool, False and True, and after them the names of the program.
#[tactic(auto, using(crate::proofs::Shared::noting))]
fn declare_names<'a>(
    core: &'a Core,
    names: &mut DeclaredNames<'a>,
    least: &mut Least,
) -> Result<(), NoMemory>
    requires empty { names.now ≡ record { types = []; constructors = []; functions = [] } }
    ensures names { OnOk result (names.new ≡ declared_names (V.core core.now)) }
    ensures faults { OnOk result (least.new ≡ after least.old (name_faults (V.core core.now))) }
{
    predeclare(names)?;
    add_types(&core.types, names, least)?;
    add_constructors(&core.types, names, least)?;
    add_functions(&core.functions, names, least)?;
    Ok(())
}

// bool, False and True.
fn predeclare(names: &mut DeclaredNames<'_>) -> Result<(), NoMemory>
    requires empty { names.now ≡ record { types = []; constructors = []; functions = [] } }
    ensures { OnOk result (names.new ≡ predeclared) }
{
    names.add_type(
        b"bool",
        TypeHead {
            number: 1,
            arity: 0,
        },
    )?;
    names.add_constructor(b"False", ConstructorId { data: 1, number: 0 })?;
    names.add_constructor(b"True", ConstructorId { data: 1, number: 1 })?;
    Ok(())
}

// The data types of the program are numbered from 2 on.
fn add_types<'a>(
    types: &'a [Data],
    names: &mut DeclaredNames<'a>,
    least: &mut Least,
) -> Result<(), NoMemory>
    ensures types { OnOk result (names.new.types ≡
        with_meanings names.old.types (type_meanings 2 (map V.data_type types.now))) }
    ensures constructors { OnOk result (names.new.constructors ≡ names.old.constructors) }
    ensures functions { OnOk result (names.new.functions ≡ names.old.functions) }
    ensures faults { OnOk result (least.new ≡ after least.old
        (repeats (N.names names.old.types) (type_mentions (map V.data_type types.now)))) }
{
    let mut number = 2;
    for data in types {
        let name = data.name.as_slice();
        let head = TypeHead {
            number,
            arity: data.parameters.len(),
        };
        let is_new = names.add_type(name, head)?;
        note_if(least, !is_new, Rule::E10, data.place, name)?;
        number = next(number)?;
    }
    Ok(())
}

fn add_constructors<'a>(
    types: &'a [Data],
    names: &mut DeclaredNames<'a>,
    least: &mut Least,
) -> Result<(), NoMemory>
    ensures constructors { OnOk result (names.new.constructors ≡
        with_meanings names.old.constructors (constructor_meanings 2 (map V.data_type types.now))) }
    ensures types { OnOk result (names.new.types ≡ names.old.types) }
    ensures functions { OnOk result (names.new.functions ≡ names.old.functions) }
    ensures faults { OnOk result (least.new ≡ after least.old
        (repeats (N.names names.old.constructors) (constructor_mentions (map V.data_type types.now)))) }
{
    let mut number = 2;
    for data in types {
        add_row(number, &data.constructors, names, least)?;
        number = next(number)?;
    }
    Ok(())
}

// The constructors of a data type.
fn add_row<'a>(
    owner: u32,
    constructors: &'a [DataConstructor],
    names: &mut DeclaredNames<'a>,
    least: &mut Least,
) -> Result<(), NoMemory>
    ensures constructors { OnOk result (names.new.constructors ≡
        with_meanings names.old.constructors (row_meanings owner 0 (map V.data_constructor constructors.now))) }
    ensures types { OnOk result (names.new.types ≡ names.old.types) }
    ensures functions { OnOk result (names.new.functions ≡ names.old.functions) }
    ensures faults { OnOk result (least.new ≡ after least.old
        (repeats (N.names names.old.constructors) (row_mentions (map V.data_constructor constructors.now)))) }
{
    let mut number = 0;
    for constructor in constructors {
        let name = constructor.name.as_slice();
        let id = ConstructorId {
            data: owner,
            number,
        };
        let is_new = names.add_constructor(name, id)?;
        note_if(least, !is_new, Rule::E10, constructor.place, name)?;
        number = next(number)?;
    }
    Ok(())
}

fn add_functions<'a>(
    functions: &'a [Function],
    names: &mut DeclaredNames<'a>,
    least: &mut Least,
) -> Result<(), NoMemory>
    ensures functions { OnOk result (names.new.functions ≡
        with_meanings names.old.functions (function_meanings 0 (map V.function functions.now))) }
    ensures types { OnOk result (names.new.types ≡ names.old.types) }
    ensures constructors { OnOk result (names.new.constructors ≡ names.old.constructors) }
    ensures faults { OnOk result (least.new ≡ after least.old
        (repeats (N.names names.old.functions) (function_mentions (map V.function functions.now)))) }
{
    let mut place = 0;
    for function in functions {
        let name = function.name.as_slice();
        let is_new = names.add_function(name, place)?;
        note_if(least, !is_new, Rule::E10, function.place, name)?;
        place += 1;
    }
    Ok(())
}
