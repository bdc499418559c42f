// How the walks of this crate note what they find. A rule on declarations speaks of no instance and of no size.
ghost use Rattle.std.specs.Prelude.{◌≡◌, OnOk};
ghost use Rattle.fip_trees.specs.Least.{after, better};
ghost use Rattle.data_types.specs.Faults.{broken, when};

use fip_base::plain::{NoMemory, Place};
use fip_base::refusal::Rule;
use fip_trees::least::Least;

/// Notes a rule that is broken, with the name that it speaks of (empty where it names nothing).
pub fn note(least: &mut Least, rule: Rule, place: Place, name: &[u8]) -> Result<(), NoMemory>
    ensures { OnOk result (least.new ≡ better least.old (broken rule place name.now)) }
{
    least.note(rule, place, 0, 0, name)
}

/// Notes a rule where it is broken.
pub fn note_if(
    least: &mut Least,
    is_broken: bool,
    rule: Rule,
    place: Place,
    name: &[u8],
) -> Result<(), NoMemory>
    ensures { OnOk result (least.new ≡ after least.old (when is_broken (broken rule place name.now))) }
{
    if is_broken {
        note(least, rule, place, name)?;
    }
    Ok(())
}
