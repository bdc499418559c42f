// The binders of a let.
ghost use Rattle.std.specs.Prelude.{◌≡◌, ◌++◌, ◌&&◌, not, IfOk, OnOk};
ghost use Rattle.type_check.specs.Binders.{all_annotated, annotations, entries};
ghost use Rattle.type_check.specs.Found.{differ};
ghost use Rattle.type_check.specs.Faults.{binders_faults, fill_binders};
ghost use Rattle.fip_trees.specs.Least.{after};

use crate::expected::{Found, differ, found_at, or_found};
use crate::patterns::enter_binder;
use crate::scope::Scope;
use crate::walk::Walk;
use fip_base::plain::NoMemory;
use fip_base::refusal::Rule;
use fip_trees::least::Least;
use fip_trees::program::Binder;
use std::alloc::Global;

/// Whether each binder has an annotation.
pub(crate) fn all_annotated(binders: &[Binder]) -> bool
    ensures { result ≡ all_annotated binders.now }
{
    for binder in binders {
        if binder.annotation.is_none() {
            return false;
        }
    }
    true
}

/// The annotations of binders.
pub(crate) fn annotations(alloc: Global, binders: &[Binder]) -> Result<Vec<Found>, NoMemory>
    ensures { IfOk result (λ v. v.items ≡ annotations binders.now) }
{
    let mut types = Vec::new(alloc);
    for binder in binders {
        types.push(binder.annotation)?;
    }
    Ok(types)
}

// Whether an annotation that wasn't expected isn't the type found.
fn is_misfit(all: bool, annotation: Option<u32>, found: Found) -> bool
    ensures { result ≡ (not all && differ annotation found) }
{
    !all && differ(annotation, found)
}

/// Gives binders their types and enters their variables. It notes each annotation that isn't the type found, unless all
/// of them were expected.
pub(crate) fn enter_binders(
    walk: &Walk,
    all: bool,
    found: &[Found],
    binders: &mut [Binder],
    scope: &mut Scope,
    least: &mut Least,
) -> Result<(), NoMemory>
    ensures binders { OnOk result (binders.new ≡ fill_binders found.now binders.old) }
    ensures scope { OnOk result (scope.new ≡ scope.old ++ entries binders.old found.now) }
    ensures faults { OnOk result (least.new ≡
        after least.old (binders_faults walk.now.instance all binders.old found.now)) }
{
    let mut index = 0;
    for binder in binders.iter_mut() {
        let ty = found_at(found, index);
        let is_broken = is_misfit(all, binder.annotation, ty);
        walk.note_if(is_broken, Rule::E30, binder.place, b"", least)?;
        enter_binder(or_found(binder.annotation, ty), binder, scope)?;
        index += 1;
    }
    Ok(())
}
