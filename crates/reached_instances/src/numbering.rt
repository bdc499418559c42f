// Numbers for what is reached: first what is there at the start, and then, in order of number, what each leads to that
// has no number yet.
ghost use Rattle.std.specs.Prelude.{◌≡◌, ℕ, ◌<◌, ◌≤◌, ◌^◌, List, [], length, nat_eq, slice_get, get_or, None};
ghost use Rattle.std.specs.Prelude.{IfOk, IfSome, OnOk, false, true};
ghost use Rattle.std.specs.List.{position};
ghost use Rattle.fip_trees.specs.Least.{after};
ghost use Rattle.fip_trees.specs.declared.least.Violation.{Violation};
ghost use Rattle.closed_types.specs.Closed.{Closed, same_closed};
ghost use Rattle.closed_types.specs.Numbering.{AreMore, AreNumbered, numbered_of, with_all};
ghost use Rattle.closed_types.specs.SharedTrees.{AreShared, AreWithin, Grows, Kept, Started, all_at, tree_at};
ghost use Rattle.closed_types.specs.SharedTrees.{trees};

use closed_types::closed::Shared;
use fip_base::plain::NoMemory;
use fip_trees::least::Least;
use indexmap::IndexSet;
use std::alloc::Global;
use std::marker::Model;

/// What is numbered.
pub trait Reaching {
    /// That what it reads is right, and what is known of trees.
    ghost is_right: { Self → Kept → Type 0 };

    /// What is there at the start.
    ghost starts: { Self → Kept → List Closed };

    /// What each leads to.
    ghost next: { Self → Closed → List Closed };

    /// Which rules each breaks, by its number.
    ghost breaks: { Self → ℕ → Closed → List Violation };

    /// The places of what is there at the start.
    fn starts(&self, alloc: Global, shared: &mut Shared) -> Result<Vec<usize>, NoMemory>
        ensures started { Self.is_right self.now shared.old → IfOk result (λ v. Started (Self.is_right self.now)
            (Self.starts self.now shared.old) shared.old shared.new v.items) };

    /// The places of what the tree at a place leads to; notes the rules that it breaks, by its number.
    fn visit(
        &self,
        alloc: Global,
        shared: &mut Shared,
        number: usize,
        place: usize,
        least: &mut Least,
    ) -> Result<Vec<usize>, NoMemory>
        ensures visited { Self.is_right self.now shared.old → IfOk result (λ v. Started (Self.is_right self.now)
            (Self.next self.now (tree_at (trees shared.old.branches) place)) shared.old shared.new v.items) }
        ensures least { Self.is_right self.now shared.old → OnOk result (least.new ≡
            after least.old (Self.breaks self.now number (tree_at (trees shared.old.branches) place))) };
}

/// Places, each once, in the order in which they came.
#[derive(Drop)]
pub struct Places {
    set: IndexSet<usize>,
}

impl Model for Places {
    ghost Value = { List ℕ };

    ghost view = { λ s. s.set.keys };
}

impl Places {
    fn new(alloc: Global) -> Self
        ensures empty { result ≡ [] }
    {
        Places {
            set: IndexSet::new(alloc),
        }
    }

    fn add_all(&mut self, places: &[usize]) -> Result<(), NoMemory>
        ensures added { OnOk result (self.new ≡ with_all nat_eq self.old places.now) }
    {
        for place in places {
            self.set.insert(*place)?;
        }
        Ok(())
    }

    /// The places, in order.
    pub fn as_slice(&self) -> &[usize]
        ensures same { result.now ≡ self.now }
    {
        self.set.as_slice()
    }

    /// How many there are.
    pub fn len(&self) -> usize
        ensures count { result ≡ length self.now }
        ensures small { result < 2 ^ 63 }
    {
        self.set.len()
    }

    /// The place of a number.
    pub fn at(&self, number: usize) -> Option<usize>
        ensures { result ≡ slice_get self.now number }
    {
        self.set.get_index(number).copied()
    }

    /// The number of a place; none where it has none.
    pub fn number_of(&self, place: usize) -> Option<usize>
        ensures number { result ≡ position (nat_eq place) self.now }
        ensures within { IfSome result (λ i. i < length self.now) }
    {
        self.set.get_index_of(&place)
    }
}

/// All that is reached, in the order of the numbers; none where it is more than the most. It is never 2^63 places.
pub fn number<R: Reaching>(
    alloc: Global,
    reaching: &R,
    most: usize,
    shared: &mut Shared,
    least: &mut Least,
) -> Result<Option<Places>, NoMemory>
    ensures few { IfOk result (λ o. IfSome o (λ v. length v ≤ most)) }
    ensures small { IfOk result (λ o. o ≡ None → most < 2 ^ 63) }
    ensures right { R.is_right reaching.now shared.old → OnOk result (R.is_right reaching.now shared.new) }
    ensures grows { R.is_right reaching.now shared.old →
        OnOk result (Grows shared.old.branches shared.new.branches) }
    ensures within { R.is_right reaching.now shared.old →
        IfOk result (λ o. IfSome o (λ v. AreWithin shared.new.branches v)) }
    ensures numbered { R.is_right reaching.now shared.old → IfOk result (λ o. IfSome o (λ v.
        AreNumbered same_closed (R.starts reaching.now shared.old) (R.next reaching.now)
        (all_at (trees shared.new.branches) v))) }
    ensures many { R.is_right reaching.now shared.old → IfOk result (λ o. o ≡ None →
        AreMore most (R.starts reaching.now shared.old) (R.next reaching.now)) }
    ensures least { R.is_right reaching.now shared.old → IfOk result (λ o. IfSome o (λ v. least.new ≡
        after least.old (numbered_of (R.breaks reaching.now) 0 (all_at (trees shared.new.branches) v)))) }
{
    let mut places = Places::new(alloc);
    let all = reach(alloc, reaching, most, shared, &mut places, least)?;
    if all { Ok(Some(places)) } else { Ok(None) }
}

// Puts all that is reached after one another, and says whether it is no more than the most; else only some of it.
fn reach<R: Reaching>(
    alloc: Global,
    reaching: &R,
    most: usize,
    shared: &mut Shared,
    places: &mut Places,
    least: &mut Least,
) -> Result<bool, NoMemory>
    requires empty { places.now ≡ [] }
    ensures few { IfOk result (λ all. all ≡ true → length places.new ≤ most) }
    ensures small { IfOk result (λ all. all ≡ false → most < 2 ^ 63) }
    ensures right { R.is_right reaching.now shared.old → OnOk result (R.is_right reaching.now shared.new) }
    ensures grows { R.is_right reaching.now shared.old →
        OnOk result (Grows shared.old.branches shared.new.branches) }
    ensures within { R.is_right reaching.now shared.old →
        IfOk result (λ all. all ≡ true → AreWithin shared.new.branches places.new) }
    ensures numbered { R.is_right reaching.now shared.old → IfOk result (λ all. all ≡ true →
        AreNumbered same_closed (R.starts reaching.now shared.old) (R.next reaching.now)
        (all_at (trees shared.new.branches) places.new)) }
    ensures many { R.is_right reaching.now shared.old → IfOk result (λ all. all ≡ false →
        AreMore most (R.starts reaching.now shared.old) (R.next reaching.now)) }
    ensures least { R.is_right reaching.now shared.old → IfOk result (λ all. all ≡ true → least.new ≡
        after least.old (numbered_of (R.breaks reaching.now) 0 (all_at (trees shared.new.branches) places.new))) }
{
    add_starts(alloc, reaching, shared, places)?;
    if places.len() > most {
        return Ok(false);
    }
    for i in 0..most {
        match places.at(i) {
            None => return Ok(true),
            Some(place) => add_next(alloc, reaching, i, place, shared, places, least)?,
        }
        if places.len() > most {
            return Ok(false);
        }
    }
    Ok(true)
}

// Puts the places of what is there at the start after the others.
fn add_starts<R: Reaching>(
    alloc: Global,
    reaching: &R,
    shared: &mut Shared,
    places: &mut Places,
) -> Result<(), NoMemory>
    ensures started { R.is_right reaching.now shared.old → OnOk result ((starts : List ℕ) ×
        Started (R.is_right reaching.now) (R.starts reaching.now shared.old) shared.old shared.new starts ×
        (places.new ≡ with_all nat_eq places.old starts)) }
    ensures shared { OnOk result (AreShared shared.new.branches) }
{
    let starts = reaching.starts(alloc, shared)?;
    shared.hold();
    places.add_all(&starts)?;
    Ok(())
}

// Puts the places of what the tree at a place leads to after the others.
fn add_next<R: Reaching>(
    alloc: Global,
    reaching: &R,
    number: usize,
    place: usize,
    shared: &mut Shared,
    places: &mut Places,
    least: &mut Least,
) -> Result<(), NoMemory>
    ensures visited { R.is_right reaching.now shared.old → OnOk result ((next : List ℕ) ×
        Started (R.is_right reaching.now) (R.next reaching.now (tree_at (trees shared.old.branches) place))
        shared.old shared.new next × (places.new ≡ with_all nat_eq places.old next)) }
    ensures shared { OnOk result (AreShared shared.new.branches) }
    ensures least { R.is_right reaching.now shared.old → OnOk result (least.new ≡
        after least.old (R.breaks reaching.now number (tree_at (trees shared.old.branches) place))) }
{
    let next = reaching.visit(alloc, shared, number, place, least)?;
    shared.hold();
    places.add_all(&next)?;
    Ok(())
}
