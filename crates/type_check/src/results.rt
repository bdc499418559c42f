// Results: types found, and types that are expected of them.
ghost use Rattle.std.specs.Prelude.{◌≡◌, None, Some, map, IfOk, OnOk};
ghost use Rattle.fip_trees.specs.Least.{after};
ghost use Rattle.type_check.specs.Faults.{results_faults};
ghost use Rattle.type_check.specs.Found.{as_many, unknowns, some_differ};

use crate::expected::{Found, Results, differ, found_at};
use crate::walk::Walk;
use fip_base::plain::{NoMemory, Place};
use fip_base::refusal::Rule;
use fip_trees::least::Least;
use std::alloc::Global;

/// As many types, all known.
pub(crate) fn all_known(alloc: Global, types: &[u32]) -> Result<Vec<Found>, NoMemory>
    ensures { IfOk result (λ v. v.items ≡ map Some types.now) }
{
    let mut found = Vec::new(alloc);
    for ty in types {
        found.push(Some(*ty))?;
    }
    Ok(found)
}

// A type that isn't known.
fn hidden(_ty: Found) -> Found
    ensures { result ≡ None }
{
    None
}

// As many types, none of them known.
fn unknowns(alloc: Global, types: &[Found]) -> Result<Vec<Found>, NoMemory>
    ensures { IfOk result (λ v. v.items ≡ unknowns types.now) }
{
    let mut found = Vec::new(alloc);
    for ty in types {
        found.push(hidden(*ty))?;
    }
    Ok(found)
}

/// The types found, where they are as many as expected; else as many as expected, none of them known.
pub(crate) fn as_expected(
    alloc: Global,
    found: Vec<Found>,
    results: Results,
) -> Result<Vec<Found>, NoMemory>
    ensures { IfOk result (λ v. v.items ≡ as_many found.items results.entry.types.now) }
{
    if found.len() == results.count() {
        Ok(found)
    } else {
        unknowns(alloc, results.types)
    }
}

// Whether another type than expected is among the types found.
fn some_differ(expected: &[Found], types: &[u32]) -> bool
    ensures { result ≡ some_differ expected.now types.now }
{
    let mut index = 0;
    for ty in types {
        if differ(found_at(expected, index), Some(*ty)) {
            return true;
        }
        index += 1;
    }
    false
}

/// Notes where there are more or fewer results of these types than expected, or one is of another type.
#[tactic(auto, using(crate::proofs::Shared::noting))]
pub(crate) fn note_results(
    walk: &Walk,
    results: Results,
    types: &[u32],
    place: Place,
    least: &mut Least,
) -> Result<(), NoMemory>
    ensures { OnOk result (least.new ≡ after least.old (results_faults walk.now.instance place results.entry.expected
        results.entry.types.now types.now)) }
{
    let is_count = types.len() == results.count();
    let differs = results.expected && (is_count && some_differ(results.types, types));
    walk.note_if(!is_count, Rule::E34, place, b"", least)?;
    walk.note_if(differs, Rule::E30, place, b"", least)
}
