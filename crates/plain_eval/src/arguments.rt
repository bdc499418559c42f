// The values of arguments.
ghost use Rattle.std.specs.Prelude.{◌≡◌, Some, OnOk};
ghost use Rattle.fip_trees.specs.fip_language.Values.{Value as Tree};
ghost use Rattle.fip_trees.specs.fip_language.Meaning.{Environment, binder_value};
ghost use Rattle.fip_trees.specs.TreeView as T;
ghost use Rattle.instance_semantics.specs.Meaning.{argument_value, argument_values};
ghost use Rattle.plain_rows.specs.Rows.{More, Stands};
ghost use Rattle.plain_eval.specs.Slots.{CoversNow};
ghost use Rattle.plain_eval.specs.Giving.{GivesOne, GivesAll};

use crate::variables::Variables;
use fip_base::plain::NoMemory;
use fip_trees::program::Argument;
use plain_rows::{Store, Value};

/// Puts the value of an argument after those that were given. A constructor with fields is a new row.
#[cycle(give)]
pub fn give(
    variables: &Variables,
    argument: &Argument,
    store: &mut Store,
    given: &mut Vec<Value>,
) -> Result<(), NoMemory>
    ensures gives { OnOk result ((env : Environment) → CoversNow store.old variables.now env →
        GivesOne (argument_value env (T.argument argument.now)) given.old.items store.new given.new.items) }
    ensures kept { OnOk result (More store.old store.new) }
{
    match argument {
        Argument::Variable { binder, .. } => {
            given.push(variable(variables, *binder))?;
            Ok(())
        }
        Argument::Literal { value, .. } => {
            given.push(Value::Int(*value))?;
            Ok(())
        }
        Argument::Constructor {
            number,
            arguments,
            ..
        } => {
            give_all(variables, arguments.as_slice(), store, given)?;
            store.fold(*number, arguments.len(), given)
        }
    }
}

/// Puts the values of arguments after those that were given.
#[cycle(give)]
pub fn give_all(
    variables: &Variables,
    arguments: &[Argument],
    store: &mut Store,
    given: &mut Vec<Value>,
) -> Result<(), NoMemory>
    ensures gives { OnOk result ((env : Environment) → CoversNow store.old variables.now env →
        GivesAll (argument_values env (T.arguments arguments.now)) given.old.items store.new given.new.items) }
    ensures kept { OnOk result (More store.old store.new) }
{
    for argument in arguments {
        give(variables, argument, store, given)?;
    }
    Ok(())
}

// The value of a variable; none where nothing of its name is in scope.
fn variable(variables: &Variables, binder: Option<usize>) -> Value
    ensures stands { (s : Store) (env : Environment) (v : Tree) → CoversNow s variables.now env →
        binder_value env binder ≡ Some v → Stands s result v }
{
    match binder {
        Some(number) => variables.value(number),
        None => Value::Unbound,
    }
}
