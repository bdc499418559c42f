// The instances of a program: the functions without static parameters, and what is called from instances.
ghost use Rattle.std.specs.Prelude.{◌≡◌, ℕ, ◌+◌, ◌<◌, [], ◌∷◌, false, length, map, slice_get, true, IfOk, OnOk};
ghost use Rattle.fip_base.specs.CoreView as V;
ghost use Rattle.fip_trees.specs.Least.{after};
ghost use Rattle.closed_types.specs.Instances.{all_reached, all_use_faults, calls_from, calls_in, faults_in};
ghost use Rattle.closed_types.specs.Instances.{faults_of};
ghost use Rattle.closed_types.specs.declared.closed.Head.TheVariants as H;
ghost use Rattle.closed_types.specs.Closed.{Applied, MoreClosed, NoClosed};
ghost use Rattle.closed_types.specs.Instances.{functions_among, passed_to, root_if, roots};
ghost use Rattle.reached_instances.specs.KnownFits.{AreRoots, IsRight};
ghost use Rattle.closed_types.specs.MentionsView.{use_of};
ghost use Rattle.closed_types.specs.PutView.{Put};
ghost use Rattle.closed_types.specs.SharedTrees.{AreWithin, Grows, all_at, tree_at, trees, trees_at};
ghost use Rattle.reached_instances.specs.SourceView as S;
ghost use Rattle.closed_types.specs.UsesView.{with_place};

use crate::numbering::{Places, Reaching};
use crate::source::{Here, Source};
use closed_types::closed::{Head, Shared, copied};
use closed_types::mentions::CallSite;
use fip_base::core_form::Static;
use fip_base::plain::NoMemory;
use fip_trees::least::Least;
use std::alloc::Global;

/// The instances: at the start the functions without static parameters, in text order; each leads to those that it
/// calls, in the text order of their names.
#[derive(Clone, Copy)]
pub struct Instances<'r, 's, 'a> {
    pub source: &'r Source<'s, 'a>,
}

impl<'r, 's, 'a> Reaching for Instances<'r, 's, 'a> {
    ghost is_right = { λ i k. IsRight i.source.now k };

    ghost starts = { λ i k. roots (S.source i.source.now) };

    ghost next = { λ i. calls_from (S.source i.source.now) };

    ghost breaks = { λ i. faults_of (S.source i.source.now) };

    fn starts(&self, alloc: Global, shared: &mut Shared) -> Result<Vec<usize>, NoMemory> {
        let mut places = Vec::new(alloc);
        let mut number = 0;
        for found in &self.source.functions {
            put_root(alloc, shared, number, &found.function.statics, &mut places)?;
            number += 1;
        }
        Ok(places)
    }

    fn visit(
        &self,
        alloc: Global,
        shared: &mut Shared,
        number: usize,
        place: usize,
        least: &mut Least,
    ) -> Result<Vec<usize>, NoMemory> {
        match self.source.here(shared, place, number)? {
            Some(here) => {
                let places = self.source.callees(shared, &here, least)?;
                Ok(places)
            }
            None => Ok(Vec::new(alloc)),
        }
    }
}

impl<'s, 'a> Source<'s, 'a> {
    // The places of what an instance calls, in the text order of the names; notes the rules that it breaks.
    fn callees(
        &self,
        shared: &mut Shared,
        here: &Here,
        least: &mut Least,
    ) -> Result<Vec<usize>, NoMemory>
        ensures grows { OnOk result (Grows shared.old.branches shared.new.branches) }
        ensures right { IsRight self.now shared.old → AreWithin shared.old.branches here.now.given.items →
            OnOk result (IsRight self.now shared.new) }
        ensures within { IsRight self.now shared.old → AreWithin shared.old.branches here.now.given.items →
            IfOk result (λ v. AreWithin shared.new.branches v.items) }
        ensures trees { IsRight self.now shared.old → AreWithin shared.old.branches here.now.given.items →
            IfOk result (λ v. all_at (trees shared.new.branches) v.items ≡ calls_in (S.source self.now)
            (S.instance (trees shared.old.branches) here.now)
            (slice_get (S.source self.now).functions here.now.function)) }
        ensures faults { IsRight self.now shared.old → AreWithin shared.old.branches here.now.given.items →
            OnOk result (least.new ≡ after least.old (faults_in (S.source self.now) here.now.number
            (S.instance (trees shared.old.branches) here.now)
            (slice_get (S.source self.now).functions here.now.function))) }
    {
        match self.functions.get(here.function) {
            Some(found) => {
                let places = self.reached(shared, here, &found.mentions.sites, least)?;
                Ok(places)
            }
            None => Ok(Vec::new(self.alloc)),
        }
    }

    fn reached(
        &self,
        shared: &mut Shared,
        here: &Here,
        sites: &[CallSite<'_>],
        least: &mut Least,
    ) -> Result<Vec<usize>, NoMemory>
        ensures grows { OnOk result (Grows shared.old.branches shared.new.branches) }
        ensures right { IsRight self.now shared.old → AreWithin shared.old.branches here.now.given.items →
            OnOk result (IsRight self.now shared.new) }
        ensures within { IsRight self.now shared.old → AreWithin shared.old.branches here.now.given.items →
            IfOk result (λ v. AreWithin shared.new.branches v.items) }
        ensures trees { IsRight self.now shared.old → AreWithin shared.old.branches here.now.given.items →
            IfOk result (λ v. all_at (trees shared.new.branches) v.items ≡
            all_reached (S.source self.now) (S.instance (trees shared.old.branches) here.now)
            (map use_of sites.now)) }
        ensures faults { IsRight self.now shared.old → AreWithin shared.old.branches here.now.given.items →
            OnOk result (least.new ≡ after least.old (all_use_faults (S.source self.now) here.now.number
            (S.instance (trees shared.old.branches) here.now) (map use_of sites.now))) }
    {
        let mut places = Vec::new(self.alloc);
        for site in sites {
            let callee = self.closed_use(shared, here, site.name, site.place, site.statics, least)?;
            put_some(&mut places, callee)?;
        }
        Ok(places)
    }
}

// Puts a function after the others where it has no static parameters.
fn put_root(
    alloc: Global,
    shared: &mut Shared,
    number: usize,
    statics: &[Static],
    places: &mut Vec<usize>,
) -> Result<(), NoMemory>
    ensures { AreWithin shared.old.branches places.old.items → OnOk result (Put shared.old shared.new
        places.old.items places.new.items (root_if (map V.static statics.now) number)) }
{
    if has_statics(statics) {
        return Ok(());
    }
    let place = shared.share(Head::Function(number), Vec::new(alloc))?;
    places.push(place)?;
    Ok(())
}

fn has_statics(statics: &[Static]) -> bool
    ensures some { result ≡ true → (n : ℕ) → [] ≡ root_if (map V.static statics.now) n }
    ensures none { result ≡ false → (n : ℕ) →
        Applied (H.Function n) NoClosed ∷ [] ≡ root_if (map V.static statics.now) n }
{
    match statics {
        [] => false,
        [_, ..] => true,
    }
}

fn put_some(places: &mut Vec<usize>, place: Option<usize>) -> Result<(), NoMemory>
    ensures { OnOk result (places.new.items ≡ with_place places.old.items place) }
{
    if let Some(place) = place {
        places.push(place)?;
    }
    Ok(())
}

/// The functions that are given to instances: at the start the instances themselves; each leads to those among its
/// static arguments.
#[derive(Clone, Copy)]
pub struct Passed<'r, 's, 'a> {
    pub source: &'r Source<'s, 'a>,
    pub instances: &'r Places,
}

impl<'r, 's, 'a> Reaching for Passed<'r, 's, 'a> {
    ghost is_right = { λ i k. AreRoots i.source.now i.instances.now [] k };

    ghost starts = { λ i k. all_at (trees k.branches) i.instances.now };

    ghost next = { λ i. passed_to };

    ghost breaks = { λ i n c. [] };

    fn starts(&self, alloc: Global, _: &mut Shared) -> Result<Vec<usize>, NoMemory> {
        let places = copied(alloc, self.instances.as_slice())?;
        Ok(places)
    }

    fn visit(
        &self,
        alloc: Global,
        shared: &mut Shared,
        _: usize,
        place: usize,
        _: &mut Least,
    ) -> Result<Vec<usize>, NoMemory> {
        let arguments = shared.arguments_at(alloc, place)?;
        let places = functions_among(alloc, shared, &arguments)?;
        Ok(places)
    }
}

// Those of the places at which a function stands.
fn functions_among(alloc: Global, shared: &Shared, list: &[usize]) -> Result<Vec<usize>, NoMemory>
    ensures { AreWithin shared.now.branches list.now → IfOk result (λ v. Put shared.now shared.now [] v.items
        (functions_among (trees_at (trees shared.now.branches) list.now))) }
{
    let mut places = Vec::new(alloc);
    for argument in list {
        put_function(shared, *argument, &mut places)?;
    }
    Ok(places)
}

// Puts a function after the others; int and data types aren't put.
fn put_function(shared: &Shared, place: usize, places: &mut Vec<usize>) -> Result<(), NoMemory>
    ensures { place < length shared.now.branches + 1 → AreWithin shared.now.branches places.old.items →
        OnOk result (Put shared.now shared.now places.old.items places.new.items
        (functions_among (MoreClosed (tree_at (trees shared.now.branches) place) NoClosed))) }
{
    match shared.head_at(place) {
        Some(Head::Function(_)) => {
            places.push(place)?;
            Ok(())
        }
        Some(Head::Type(_)) => Ok(()),
        None => Ok(()),
    }
}
