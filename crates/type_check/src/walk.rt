// What a walk over one instance's body needs everywhere.
ghost use Rattle.std.specs.Prelude.{◌≡◌, OnOk};
ghost use Rattle.fip_trees.specs.Least.{after, better};
ghost use Rattle.type_check.specs.Faults.{broken, when, count_faults};

use crate::tables::Tables;
use fip_base::plain::{Name, NoMemory, Place};
use fip_base::refusal::Rule;
use fip_trees::least::Least;
use std::alloc::Global;

/// The body that is walked: what its numbers mean, and the number of its instance.
#[derive(Drop)]
pub(crate) struct Walk<'a> {
    pub(crate) alloc: Global,
    pub(crate) tables: &'a Tables,
    pub(crate) instance: usize,
}

impl Walk<'_> {
    /// Notes a rule that is broken, with the name that it speaks of (empty where it names nothing).
    pub(crate) fn note(
        &self,
        rule: Rule,
        place: Place,
        name: &[u8],
        least: &mut Least,
    ) -> Result<(), NoMemory>
        ensures { OnOk result (least.new ≡ better least.old (broken rule place self.now.instance name.now)) }
    {
        least.note(rule, place, self.instance, 0, name)
    }

    /// Notes a rule where it is broken.
    pub(crate) fn note_if(
        &self,
        is_broken: bool,
        rule: Rule,
        place: Place,
        name: &[u8],
        least: &mut Least,
    ) -> Result<(), NoMemory>
        ensures { OnOk result (least.new ≡
            after least.old (when is_broken (broken rule place self.now.instance name.now))) }
    {
        if is_broken {
            self.note(rule, place, name, least)?;
        }
        Ok(())
    }

    /// Notes where there are more or fewer parts than expected.
    pub(crate) fn note_count(
        &self,
        count: usize,
        wanted: usize,
        name: &Name,
        place: Place,
        least: &mut Least,
    ) -> Result<(), NoMemory>
        ensures { OnOk result (least.new ≡
            after least.old (count_faults self.now.instance count wanted name.now place)) }
    {
        self.note_if(count != wanted, Rule::E33, place, name.as_slice(), least)
    }
}
