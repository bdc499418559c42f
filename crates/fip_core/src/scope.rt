// The names in scope. A map finds the latest binding of a name, and a list of the bindings undoes them. Both keep names
// of their own, since the tree that is numbered takes its names along.
ghost use Rattle.std.specs.Prelude.{◌≡◌, List, [], ◌∷◌, ◌++◌, ◌-◌, map, take, length, OnOk, OnErr};
ghost use Rattle.fip_base.specs.fip_language.CoreForm.{lookup};

use fip_base::plain::NoMemory;
use std::alloc::Global;
use std::collections::BTreeMap;
use std::marker::Model;

/// A binding: a name, the number of its binder, and the number that the name had before it.
#[derive(Drop)]
pub struct Entry {
    name: Vec<u8>,
    number: usize,
    hidden: Option<usize>,
}

/// The names in scope, each with the number of its binder; a later binding hides the earlier ones of its name.
#[derive(Drop)]
pub struct Scope {
    numbers: BTreeMap<Vec<u8>, usize>,
    entries: Vec<Entry>,
}

impl Model for Scope {
    ghost use Rattle.std.specs.Prelude.{List, map};
    ghost use Rattle.std.specs.Cmp.Lexicographic.{slice_cmp};
    ghost use Rattle.std.specs.Ordering.{nat_cmp};
    ghost use Rattle.std.specs.BTreeMap.{get_by};
    ghost use Rattle.fip_base.specs.fip_language.CoreForm.{Named};
    ghost use Rattle.fip_core.specs.ScopeView.{named, IsKept};

    ghost Value = { List Named };

    ghost view = { λ s. map named s.entries.items };

    ghost invariant = { λ s. IsKept s.entries.items (λ x. get_by (λ k. slice_cmp nat_cmp x k.items) s.numbers) };
}

impl Scope {
    /// The empty scope.
    pub fn new(alloc: Global) -> Self
        ensures empty { result ≡ [] }
    {
        Scope {
            numbers: BTreeMap::new(alloc),
            entries: Vec::new(alloc),
        }
    }

    /// How many bindings there are.
    pub fn len(&self) -> usize
        ensures count { result ≡ length self.now }
    {
        self.entries.len()
    }

    /// The number of the latest binding of a name.
    pub fn find(&self, name: &[u8]) -> Option<usize>
        ensures latest { result ≡ lookup self.now name.now }
    {
        self.numbers.get(name).copied()
    }

    /// One more binding. Where no memory is left, nothing changes.
    pub fn bind(&mut self, alloc: Global, name: &[u8], number: usize) -> Result<(), NoMemory>
        ensures bound { OnOk result (self.new ≡ self.old ++ record { name = name.now; number = number } ∷ []) }
        ensures unchanged { OnErr result (self.new ≡ self.old) }
    {
        let hidden = self.numbers.get(name).copied();
        let key = Vec::from_slice(alloc, name)?;
        let name = Vec::from_slice(alloc, name)?;
        self.entries.push(Entry {
            name,
            number,
            hidden,
        })?;
        match self.numbers.insert(key, number) {
            Ok(_) => Ok(()),
            Err(_) => {
                self.entries.pop();
                Err(NoMemory)
            }
        }
    }

    /// The first `kept` bindings stay; the later ones are undone.
    pub fn release(&mut self, kept: usize)
        ensures first { self.new ≡ take kept self.old }
    {
        while self.entries.len() > kept {
            self.undo();
        }
    }

    // The latest binding is undone, if there is one.
    fn undo(&mut self)
        ensures first { self.new ≡ take (length self.old - 1) self.old }
    {
        if let Some(entry) = self.entries.pop() {
            match entry.hidden {
                None => {
                    self.numbers.remove(&entry.name);
                }
                Some(number) => {
                    // The name is in the map, so this takes no memory.
                    let _ = self.numbers.insert(entry.name, number);
                }
            }
        }
    }
}
