// Names, each with what it means.
ghost use Rattle.std.specs.Prelude.{◌≡◌, ℕ, List, [], map, not, IfOk, OnOk};
ghost use Rattle.fip_trees.specs.Names.{is_among, meaning, names, with_meaning};

use fip_base::plain::NoMemory;
use indexmap::IndexMap;
use std::alloc::Global;
use std::marker::Model;

/// Names, each once, in the order in which they were added, with what each means.
#[derive(Drop)]
pub struct Meanings<'a, T: Copy> {
    meanings: IndexMap<&'a [u8], T>,
}

impl<'a, T: Copy> Model for Meanings<'a, T> {
    ghost Value = { List (List ℕ × T) };

    ghost view = { λ m. map (λ e. (e.0.now, e.1)) m.meanings.entries };
}

impl<'a, T: Copy> Meanings<'a, T> {
    /// No names.
    pub fn new(alloc: Global) -> Self
        ensures empty { result ≡ [] }
    {
        Meanings {
            meanings: IndexMap::new(alloc),
        }
    }

    /// Adds a name, and says whether it is new; one that is there keeps its meaning. An error where no memory is left.
    pub fn add(&mut self, name: &'a [u8], meaning: T) -> Result<bool, NoMemory>
        ensures new { IfOk result (λ new. new ≡ not (is_among name.now (names self.old))) }
        ensures added { OnOk result (self.new ≡ with_meaning self.old name.now meaning) }
    {
        if self.meanings.contains_key(&name) {
            return Ok(false);
        }
        self.meanings.insert(name, meaning)?;
        Ok(true)
    }

    /// What a name means; none where it means nothing.
    pub fn find(&self, name: &[u8]) -> Option<T>
        ensures meaning { result ≡ meaning name.now self.now }
    {
        self.meanings.get(&name).copied()
    }
}
