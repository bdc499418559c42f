// Sets of names.
ghost use Rattle.std.specs.Prelude.{◌≡◌, not, IfOk, OnOk};
ghost use Rattle.code_tables.specs.Apart.{none_met, also_met, met_in};

use fip_base::plain::NoMemory;
use std::alloc::Global;
use std::collections::BTreeSet;

/// The names that were met.
#[derive(Drop)]
pub struct Names<'a> {
    names: BTreeSet<&'a [u8]>,
}

impl<'a> Names<'a> {
    /// None was met.
    pub fn new(alloc: Global) -> Self
        ensures none { met_in result.names ≡ none_met }
    {
        Names {
            names: BTreeSet::new(alloc),
        }
    }

    /// Meets a name, and says whether it is new. NoMemory: no memory is left.
    pub fn meet(&mut self, name: &'a [u8]) -> Result<bool, NoMemory>
        ensures new { IfOk result (λ new. new ≡ not (met_in self.old.names name.now)) }
        ensures met { OnOk result (met_in self.new.names ≡ also_met (met_in self.old.names) name.now) }
    {
        let new = self.names.insert(name)?;
        Ok(new)
    }
}
