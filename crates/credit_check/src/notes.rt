// Notes of sizes.
ghost use Rattle.std.specs.Prelude.{◌≡◌, [], OnOk};
ghost use Rattle.fip_trees.specs.Least.{after, violation};
ghost use Rattle.credit_check.specs.Tallies as L;

use fip_base::plain::{NoMemory, Place};
use fip_base::refusal::Rule;
use fip_trees::least::Least;
use fip_trees::sizes::Sizes;

// Notes the rule of a size where it is broken.
fn note_if(
    least: &mut Least,
    is_broken: bool,
    rule: Rule,
    place: Place,
    instance: usize,
    size: u8,
) -> Result<(), NoMemory>
    ensures { OnOk result (least.new ≡
        after least.old (L.when is_broken (violation rule place instance size []))) }
{
    if is_broken {
        least.note(rule, place, instance, size, b"")?;
    }
    Ok(())
}

/// Notes the rule for each size of which one has fewer than the other.
#[tactic(auto, using(crate::proofs::Shared::noting))]
pub fn note_below(
    least: &mut Least,
    rule: Rule,
    place: Place,
    instance: usize,
    one: &Sizes,
    other: &Sizes,
) -> Result<(), NoMemory>
    ensures noted { OnOk result (least.new ≡ after least.old (L.below rule place instance one.now other.now)) }
{
    for size in 1..17 {
        let is_less = one.of(size) < other.of(size);
        note_if(least, is_less, rule, place, instance, size as u8)?;
    }
    Ok(())
}

/// E57: in a fip instance a clause needs less than its pattern gives.
pub fn note_unused(
    least: &mut Least,
    instance: usize,
    is_fip: bool,
    place: Place,
    need: &Sizes,
    given: &Sizes,
) -> Result<(), NoMemory>
    ensures noted { OnOk result (least.new ≡
        after least.old (L.unused_notes instance is_fip place need.now given.now)) }
{
    if is_fip {
        note_below(least, Rule::E57, place, instance, need, given)?;
    }
    Ok(())
}

/// E58: in a fip instance two clauses differ in what they need beyond their patterns.
#[tactic(auto, using(crate::proofs::Shared::noting))]
pub fn note_different(
    least: &mut Least,
    instance: usize,
    is_fip: bool,
    place: Place,
    one: &Sizes,
    other: &Sizes,
) -> Result<(), NoMemory>
    ensures noted { OnOk result (least.new ≡
        after least.old (L.differ_notes instance is_fip place one.now other.now)) }
{
    if is_fip {
        note_below(least, Rule::E58, place, instance, one, other)?;
        note_below(least, Rule::E58, place, instance, other, one)?;
    }
    Ok(())
}
