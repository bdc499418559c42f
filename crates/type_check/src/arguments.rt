// Arguments.
ghost use Rattle.std.specs.Prelude.{◌≡◌, IfOk, OnOk};
ghost use Rattle.fip_trees.specs.Least.{after};
ghost use Rattle.fip_trees.specs.Tree as T;
ghost use Rattle.fip_trees.specs.TreeView as V;
ghost use Rattle.type_check.specs.Faults.{found_argument, fill_argument, fill_arguments, argument_faults};
ghost use Rattle.type_check.specs.Faults.{arguments_faults, variable_faults, constructor_faults};
ghost use Rattle.type_check.specs.Found as F;
ghost use Rattle.type_check.specs.Wanted.{expects, types_of};

use crate::expected::{Found, INT, Want, Wants, misfits, slot};
use crate::scope::Scope;
use crate::walk::Walk;
use fip_base::plain::{Name, NoMemory, Place};
use fip_base::refusal::Rule;
use fip_trees::least::Least;
use fip_trees::program::Argument;

/// Checks an argument of which a type is expected or not; its type.
#[cycle(argument)]
pub(crate) fn check_argument(
    walk: &Walk,
    scope: &Scope,
    want: Want,
    argument: &mut Argument,
    least: &mut Least,
) -> Result<Found, NoMemory>
    ensures tree { OnOk result (V.argument argument.new ≡
        fill_argument walk.now.tables.now want (V.argument argument.old)) }
    ensures found { IfOk result (λ t. t ≡ found_argument walk.now.tables.now scope.now want (V.argument argument.old)) }
    ensures faults { OnOk result (least.new ≡ after least.old
        (argument_faults walk.now.tables.now walk.now.instance scope.now want (V.argument argument.old))) }
{
    match argument {
        Argument::Variable {
            binder,
            name,
            place,
        } => check_variable(walk, want, scope.look_binder(*binder), name, *place, least),
        Argument::Literal { place, .. } => {
            walk.note_if(misfits(want, Some(INT)), Rule::E30, *place, b"", least)?;
            Ok(Some(INT))
        }
        Argument::Constructor {
            ty,
            data,
            number,
            name,
            place,
            arguments,
        } => {
            let found = walk.tables.chosen(want, *data);
            let count = walk.tables.field_count(found, *data, *number);
            note_constructor(walk, want, *data, name, *place, least)?;
            walk.note_count(count_of(arguments), count, name, *place, least)?;
            let wants = walk.tables.wants(found, *number);
            check_arguments(walk, scope, wants, arguments, least)?;
            *ty = slot(found);
            Ok(found)
        }
    }
}

/// Checks arguments of which types are expected or not.
#[cycle(argument)]
pub(crate) fn check_arguments(
    walk: &Walk,
    scope: &Scope,
    wants: Wants,
    arguments: &mut [Argument],
    least: &mut Least,
) -> Result<(), NoMemory>
    ensures tree { OnOk result (V.arguments arguments.new ≡
        fill_arguments walk.now.tables.now (expects wants.entry) (types_of wants.entry) (V.arguments arguments.old)) }
    ensures faults { OnOk result (least.new ≡
        after least.old (arguments_faults walk.now.tables.now walk.now.instance scope.now
        (expects wants.entry) (types_of wants.entry) (V.arguments arguments.old))) }
{
    let mut index = 0;
    for argument in arguments.iter_mut() {
        check_argument(walk, scope, wants.at(index), argument, least)?;
        index += 1;
    }
    Ok(())
}

/// How many arguments there are.
#[tactic(auto, using(crate::proofs::Shared::counting))]
pub(crate) fn count_of(arguments: &[Argument]) -> usize
    ensures { result ≡ T.count (V.arguments arguments.now) }
{
    arguments.len()
}

// Checks a variable of whose type something is reported, or nothing where it isn't in scope; its type.
fn check_variable(
    walk: &Walk,
    want: Want,
    reported: Option<Found>,
    name: &Name,
    place: Place,
    least: &mut Least,
) -> Result<Found, NoMemory>
    ensures found { IfOk result (λ t. t ≡ F.known reported) }
    ensures faults { OnOk result (least.new ≡
        after least.old (variable_faults walk.now.instance want reported name.now place)) }
{
    match reported {
        None => {
            walk.note(Rule::E31, place, name.as_slice(), least)?;
            Ok(None)
        }
        Some(found) => {
            walk.note_if(misfits(want, found), Rule::E30, place, b"", least)?;
            Ok(found)
        }
    }
}

/// Notes where a constructor's data type doesn't declare the type expected, and where it has parameters and no type is
/// expected.
pub(crate) fn note_constructor(
    walk: &Walk,
    want: Want,
    data_type: u32,
    name: &Name,
    place: Place,
    least: &mut Least,
) -> Result<(), NoMemory>
    ensures { OnOk result (least.new ≡ after least.old
        (constructor_faults walk.now.tables.now walk.now.instance want data_type name.now place)) }
{
    match want {
        None => {
            let is_broken = walk.tables.plain_type(data_type).is_none();
            walk.note_if(is_broken, Rule::E32, place, name.as_slice(), least)
        }
        Some(None) => Ok(()),
        Some(Some(ty)) => {
            let is_broken = !walk.tables.is_of(ty, data_type);
            walk.note_if(is_broken, Rule::E30, place, b"", least)
        }
    }
}
