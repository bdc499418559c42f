// Patterns.
ghost use Rattle.std.specs.Prelude.{◌≡◌, ◌++◌, ◌∷◌, [], drop, OnOk};
ghost use Rattle.fip_trees.specs.Least.{after};
ghost use Rattle.fip_trees.specs.Tree as T;
ghost use Rattle.fip_trees.specs.TreeView as V;
ghost use Rattle.type_check.specs.Binders.{typed, entry};
ghost use Rattle.type_check.specs.Faults.{fill_pattern, fill_patterns, pattern_faults, patterns_faults};
ghost use Rattle.type_check.specs.Found.{first_type};
ghost use Rattle.type_check.specs.Typing.{bound_by, bound_by_all};
ghost use Rattle.type_check.specs.Wanted.{types_of};

use crate::arguments::note_constructor;
use crate::expected::{Found, INT, Wants, differ, slot};
use crate::scope::{Entry, Scope};
use crate::walk::Walk;
use fip_base::plain::NoMemory;
use fip_base::refusal::Rule;
use fip_trees::least::Least;
use fip_trees::program::{Binder, Pattern};

/// Checks a pattern for values of a type, and enters its variables.
#[cycle(pattern)]
#[tactic(auto, using(crate::proofs::Shared::noting))]
pub(crate) fn check_pattern(
    walk: &Walk,
    ty: Found,
    pattern: &mut Pattern,
    scope: &mut Scope,
    least: &mut Least,
) -> Result<(), NoMemory>
    ensures tree { OnOk result (V.pattern pattern.new ≡ fill_pattern walk.now.tables.now ty (V.pattern pattern.old)) }
    ensures scope { OnOk result (scope.new ≡ scope.old ++ bound_by walk.now.tables.now ty (V.pattern pattern.old)) }
    ensures faults { OnOk result (least.new ≡ after least.old
        (pattern_faults walk.now.tables.now walk.now.instance ty (V.pattern pattern.old))) }
{
    match pattern {
        Pattern::Binder(binder) => enter_binder(ty, binder, scope),
        Pattern::Literal { place, .. } => {
            walk.note_if(differ(ty, Some(INT)), Rule::E30, *place, b"", least)
        }
        Pattern::Constructor {
            ty: filled,
            data,
            number,
            name,
            place,
            patterns,
        } => {
            let found = walk.tables.chosen(Some(ty), *data);
            let count = walk.tables.field_count(found, *data, *number);
            note_constructor(walk, Some(ty), *data, name, *place, least)?;
            walk.note_count(count_of(patterns), count, name, *place, least)?;
            let wants = walk.tables.wants(found, *number);
            check_patterns(walk, wants, patterns, scope, least)?;
            *filled = slot(found);
            Ok(())
        }
    }
}

// How many patterns there are.
#[tactic(auto, using(crate::proofs::Shared::counting))]
fn count_of(patterns: &[Pattern]) -> usize
    ensures { result ≡ T.count_patterns (V.patterns patterns.now) }
{
    patterns.len()
}

// Checks the patterns of a constructor's fields.
#[cycle(pattern)]
#[tactic(auto, using(crate::proofs::Shared::noting))]
fn check_patterns(
    walk: &Walk,
    wants: Wants,
    patterns: &mut [Pattern],
    scope: &mut Scope,
    least: &mut Least,
) -> Result<(), NoMemory>
    ensures tree { OnOk result (V.patterns patterns.new ≡
        fill_patterns walk.now.tables.now (types_of wants.entry) (V.patterns patterns.old)) }
    ensures scope { OnOk result (scope.new ≡
        scope.old ++ bound_by_all walk.now.tables.now (types_of wants.entry) (V.patterns patterns.old)) }
    ensures faults { OnOk result (least.new ≡ after least.old
        (patterns_faults walk.now.tables.now walk.now.instance (types_of wants.entry) (V.patterns patterns.old))) }
{
    let mut index = 0;
    for pattern in patterns.iter_mut() {
        let ty = type_at(wants, index);
        check_pattern(walk, ty, pattern, scope, least)?;
        index += 1;
    }
    Ok(())
}

// The type expected at an index; it isn't known where none is expected.
#[tactic(auto, using(crate::proofs::Steps::known_wanted))]
fn type_at(wants: Wants, index: usize) -> Found
    ensures { result ≡ first_type (drop index (types_of wants.entry)) }
{
    match wants.at(index) {
        None => None,
        Some(found) => found,
    }
}

/// Gives a binder its type, and enters its variable.
pub(crate) fn enter_binder(
    ty: Found,
    binder: &mut Binder,
    scope: &mut Scope,
) -> Result<(), NoMemory>
    ensures binder { OnOk result (binder.new ≡ typed ty binder.old) }
    ensures scope { OnOk result (scope.new ≡ scope.old ++ entry ty binder.old ∷ []) }
{
    binder.ty = slot(ty);
    scope.enter(Entry {
        number: binder.number,
        ty,
    })
}
