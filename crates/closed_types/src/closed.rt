// Closed types and functions: those without parameters, as trees that share their parts. A tree of arguments may have
// far more nodes than memory holds bytes; its parts are few.
ghost use Rattle.std.specs.Prelude.{◌≡◌, ◌⊎◌, ◌+◌, ◌-◌, ◌<◌, ◌≤◌, Bool, [], None, Some, slice_get, true};
ghost use Rattle.std.specs.Prelude.{length, IfOk, IfSome, MatchOption, OnOk};
ghost use Rattle.fip_base.specs.fip_language.Every.{Every};
ghost use Rattle.closed_types.specs.Closed.{Applied, arguments_of, head_of, same_closed};
ghost use Rattle.closed_types.specs.SharedTrees.{AreShared, AreWithin, Grows, IsNoted, tree_at, trees, trees_at};
ghost use Rattle.closed_types.specs.Numbering.{with_new};

use fip_base::plain::NoMemory;
use indexmap::{IndexMap, IndexSet};
use std::alloc::Global;
use std::marker::Model;

/// What stands at the head of a closed tree: a data type by its number, or a function by its place in the core form.
#[derive(Clone, Copy, PartialEq, Eq, Hash)]
pub enum Head {
    Type(u32),
    Function(usize),
}

/// A closed tree: its head, and the places of its arguments.
#[derive(Drop, PartialEq, Eq, Hash)]
pub struct Closed {
    pub head: Head,
    pub arguments: Vec<usize>,
}

/// A closed function in the place of a function parameter. What is given for the type parameters beside it stands in
/// the tree at `there`, in which the functions are left out.
#[derive(Clone, Copy, PartialEq, Eq, Hash)]
pub struct Passing {
    pub there: usize,
    pub parameter: usize,
    pub passed: usize,
}

/// Closed trees, each once, after its arguments. The tree at place 0 is int.
#[derive(Drop)]
pub struct Shared {
    trees: IndexSet<Closed>,
    // Whether a function that was passed fits its signature, where that was asked.
    fits: IndexMap<Passing, bool>,
}

impl Model for Shared {
    ghost use Rattle.closed_types.specs.SharedTrees.{AreShared, Kept};

    ghost Value = { Kept };

    ghost use Rattle.closed_types.specs.BranchView.{branches};

    ghost view = { λ s. record { branches = branches s.trees.keys; fits = s.fits.entries } };

    ghost invariant = { λ s. AreShared (branches s.trees.keys) };
}

impl Shared {
    ghost use Rattle.closed_types.specs.BranchView.{branch};
    ghost use Rattle.closed_types.specs.declared.closed.Passing.{Passing};

    /// Int alone.
    pub fn new(alloc: Global) -> Self
        ensures int { result.branches ≡ [] }
        ensures fits { result.fits ≡ [] }
    {
        Shared {
            trees: IndexSet::new(alloc),
            fits: IndexMap::new(alloc),
        }
    }

    /// Nothing; what holds of the trees.
    pub fn hold(&self)
        ensures shared { AreShared self.now.branches }
    {
        let _ = &self.trees;
    }

    /// The place of a tree, which is put after the others where it is new. Where an argument is no place of a tree it
    /// is int.
    pub fn share(&mut self, head: Head, arguments: Vec<usize>) -> Result<usize, NoMemory>
        ensures grows { OnOk result (Grows self.old.branches self.new.branches) }
        ensures fits { OnOk result (self.new.fits ≡ self.old.fits) }
        ensures within { IfOk result (λ i. i < length self.new.branches + 1) }
        ensures place { AreWithin self.old.branches arguments.items → IfOk result (λ i.
            tree_at (trees self.new.branches) i ≡
            Applied head (trees_at (trees self.old.branches) arguments.items)) }
    {
        if !self.are_within(&arguments) {
            return Ok(0);
        }
        let place = self.put(head, arguments)?;
        Ok(place)
    }

    // Whether trees stand at all of these places.
    fn are_within(&self, places: &[usize]) -> bool
        ensures yes { result ≡ true → AreWithin self.now.branches places.now }
        ensures no { AreWithin self.now.branches places.now → result ≡ true }
    {
        are_below(self.trees.len(), places)
    }

    fn put(&mut self, head: Head, arguments: Vec<usize>) -> Result<usize, NoMemory>
        requires within { AreWithin self.old.branches arguments.items }
        ensures grows { OnOk result (Grows self.old.branches self.new.branches) }
        ensures fits { OnOk result (self.new.fits ≡ self.old.fits) }
        ensures within { IfOk result (λ i. i < length self.new.branches + 1) }
        ensures place { IfOk result (λ i. tree_at (trees self.new.branches) i ≡
            Applied head (trees_at (trees self.old.branches) arguments.items)) }
    {
        let _before = self.trees.len();
        let (at, _) = self.trees.insert_full(Closed { head, arguments })?;
        Ok(at + 1)
    }

    /// The tree at a place; none at that of int.
    pub fn at(&self, place: usize) -> Option<&Closed>
        ensures { MatchOption result ((place ≡ 0) ⊎ (slice_get self.now.branches (place - 1) ≡ None))
            (λ c. (1 ≤ place) × (slice_get self.now.branches (place - 1) ≡ Some (branch c.now))) }
    {
        match place.checked_sub(1) {
            Some(index) => self.trees.get_index(index),
            None => None,
        }
    }

    /// The head of the tree at a place; none at that of int.
    pub fn head_at(&self, place: usize) -> Option<Head>
        ensures { result ≡ head_of (tree_at (trees self.now.branches) place) }
    {
        self.hold();
        match self.at(place) {
            Some(tree) => Some(tree.head),
            None => None,
        }
    }

    /// The places of the arguments of the tree at a place; int has none.
    pub fn arguments_at(&self, alloc: Global, place: usize) -> Result<Vec<usize>, NoMemory>
        ensures within { IfOk result (λ v. AreWithin self.now.branches v.items) }
        ensures trees { IfOk result (λ v. trees_at (trees self.now.branches) v.items ≡
            arguments_of (tree_at (trees self.now.branches) place)) }
    {
        self.hold();
        match self.at(place) {
            Some(tree) => {
                let arguments = copied(alloc, &tree.arguments)?;
                Ok(arguments)
            }
            None => Ok(Vec::new(alloc)),
        }
    }

    /// Whether a function fits its signature, where that is known.
    pub fn known_fit(&self, passing: Passing) -> Option<bool>
        ensures { IfSome result (λ b. IsNoted passing b self.now.fits) }
    {
        self.fits.get(&passing).copied()
    }

    /// Notes whether a function fits its signature.
    pub fn note_fit(&mut self, passing: Passing, fits: bool) -> Result<(), NoMemory>
        ensures branches { OnOk result (self.new.branches ≡ self.old.branches) }
        ensures noted { OnOk result ((p : Passing) (b : Bool) → IsNoted p b self.new.fits →
            ((p ≡ passing) × (b ≡ fits)) ⊎ IsNoted p b self.old.fits) }
    {
        self.fits.insert(passing, fits)?;
        Ok(())
    }
}

// Whether these places are at most n.
fn are_below(n: usize, places: &[usize]) -> bool
    ensures yes { result ≡ true → Every (λ i. i < n + 1) places.now }
    ensures no { Every (λ i. i < n + 1) places.now → result ≡ true }
{
    for place in places {
        if *place > n {
            return false;
        }
    }
    true
}

/// A copy of places.
pub fn copied(alloc: Global, places: &[usize]) -> Result<Vec<usize>, NoMemory>
    ensures { IfOk result (λ v. v.items ≡ places.now) }
{
    let mut copy = Vec::new(alloc);
    copy.extend_from_slice(places)?;
    Ok(copy)
}
