// The types of a program.
ghost use Rattle.std.specs.Prelude.{◌≡◌, ◌+◌, ◌<◌, [], get_or, length, map, slice_get, IfOk, OnOk};
ghost use Rattle.fip_base.specs.fip_language.Mentions.{all_of};
ghost use Rattle.fip_base.specs.CoreView as V;
ghost use Rattle.closed_types.specs.declared.closed.Head.TheVariants as H;
ghost use Rattle.closed_types.specs.Closed.{Applied, MoreClosed, NoClosed};
ghost use Rattle.reached_instances.specs.KnownFits.{AreRoots};
ghost use Rattle.closed_types.specs.PutView.{Put, with_unless_int};
ghost use Rattle.closed_types.specs.SharedTrees.{AreWithin, Grows, all_at, tree_at, trees, trees_at};
ghost use Rattle.closed_types.specs.Source.{declared_at};
ghost use Rattle.reached_instances.specs.SourceView as S;
ghost use Rattle.closed_types.specs.TypeInstances as T;
ghost use Rattle.closed_types.specs.Uses.{declared_type};

use crate::numbering::{Places, Reaching};
use crate::source::{Here, Source};
use closed_types::closed::{Head, Shared};
use fip_base::core_form::Written;
use fip_base::plain::NoMemory;
use fip_trees::decls::{DeclaredConstructor, FieldType};
use fip_trees::least::Least;
use std::alloc::Global;

/// The types but int: at the start bool, and what instances mention; each leads to its arguments and to the types of
/// its constructors' fields. Instances mention the types in their headers, signatures included, in annotations and
/// among their static arguments, also of functions that are passed, and the types without parameters whose constructors
/// they name.
#[derive(Clone, Copy)]
pub struct TypeInstances<'r, 's, 'a> {
    pub source: &'r Source<'s, 'a>,
    pub instances: &'r Places,
    /// The instances and the functions that are given to them.
    pub passed: &'r Places,
}

/// The place of a field's type, where these are given for the type parameters.
#[cycle(fields)]
pub fn field_place(
    alloc: Global,
    shared: &mut Shared,
    given: &[usize],
    ty: &FieldType,
) -> Result<usize, NoMemory>
    ensures grows { AreWithin shared.old.branches given.now →
        OnOk result (Grows shared.old.branches shared.new.branches) }
    ensures fits { AreWithin shared.old.branches given.now → OnOk result (shared.new.fits ≡ shared.old.fits) }
    ensures within { AreWithin shared.old.branches given.now →
        IfOk result (λ i. i < length shared.new.branches + 1) }
    ensures tree { AreWithin shared.old.branches given.now → IfOk result (λ i.
        tree_at (trees shared.new.branches) i ≡
        T.field_type (trees_at (trees shared.old.branches) given.now) (S.ty ty.now)) }
{
    match ty {
        FieldType::Int => Ok(0),
        FieldType::Parameter(k) => Ok(given_at(given, *k)),
        FieldType::Applied(number, arguments) => {
            let places = field_places(alloc, shared, given, arguments)?;
            let place = shared.share(Head::Type(*number), places)?;
            Ok(place)
        }
    }
}

/// The same of each type of a list.
#[cycle(fields)]
pub fn field_places(
    alloc: Global,
    shared: &mut Shared,
    given: &[usize],
    types: &[FieldType],
) -> Result<Vec<usize>, NoMemory>
    ensures { AreWithin shared.old.branches given.now → IfOk result (λ v. Put shared.old shared.new [] v.items
        (map (T.field_type (trees_at (trees shared.old.branches) given.now)) (map S.ty types.now))) }
{
    let mut places = Vec::new(alloc);
    for ty in types {
        let place = field_place(alloc, shared, given, ty)?;
        places.push(place)?;
    }
    Ok(places)
}

// What is given for a type parameter.
fn given_at(given: &[usize], k: u32) -> usize
    ensures { result ≡ get_or given.now k 0 }
{
    match given.get(k as usize) {
        Some(place) => *place,
        None => 0,
    }
}

// Puts a type after the others, unless it is int.
fn put(places: &mut Vec<usize>, place: usize) -> Result<(), NoMemory>
    ensures { OnOk result (places.new.items ≡ with_unless_int places.old.items place) }
{
    if place != 0 {
        places.push(place)?;
    }
    Ok(())
}

fn put_all(shared: &Shared, places: &mut Vec<usize>, more: &[usize]) -> Result<(), NoMemory>
    ensures { AreWithin shared.now.branches places.old.items → AreWithin shared.now.branches more.now →
        OnOk result (Put shared.now shared.now places.old.items places.new.items
        (all_of T.unless_int (all_at (trees shared.now.branches) more.now))) }
{
    for place in more {
        put(places, *place)?;
    }
    Ok(())
}

impl<'s, 'a> Source<'s, 'a> {
    fn put_written(
        &self,
        shared: &mut Shared,
        here: &Here,
        written: &Written,
        places: &mut Vec<usize>,
    ) -> Result<(), NoMemory>
        ensures { S.IsReady self.now shared.old.branches here.now → AreWithin shared.old.branches places.old.items →
            OnOk result (Put shared.old shared.new places.old.items places.new.items (T.unless_int
            (declared_type (S.source self.now) (S.instance (trees shared.old.branches) here.now)
            (V.written written.now)))) }
    {
        let place = self.declared_type(shared, here, written)?;
        put(places, place)?;
        Ok(())
    }

    fn put_writtens(
        &self,
        shared: &mut Shared,
        here: &Here,
        list: &[&Written],
        places: &mut Vec<usize>,
    ) -> Result<(), NoMemory>
        ensures { S.IsReady self.now shared.old.branches here.now → AreWithin shared.old.branches places.old.items →
            OnOk result (Put shared.old shared.new places.old.items places.new.items (T.types_written
            (S.source self.now) (S.instance (trees shared.old.branches) here.now)
            (map (λ w. V.written w.now) list.now))) }
    {
        for written in list {
            self.put_written(shared, here, written, places)?;
        }
        Ok(())
    }

    // The types of data types without parameters.
    fn put_named(
        &self,
        shared: &mut Shared,
        numbers: &[u32],
        places: &mut Vec<usize>,
    ) -> Result<(), NoMemory>
        ensures { AreWithin shared.old.branches places.old.items → OnOk result (Put shared.old shared.new
            places.old.items places.new.items (map (λ n. Applied (H.«Type» n) NoClosed) numbers.now)) }
    {
        for number in numbers {
            let place = shared.share(Head::Type(*number), Vec::new(self.alloc))?;
            places.push(place)?;
        }
        Ok(())
    }

    // The types in a header, signatures included, in the annotations of a body, and those without parameters whose
    // constructors it names.
    fn put_mentioned(
        &self,
        shared: &mut Shared,
        here: &Here,
        places: &mut Vec<usize>,
    ) -> Result<(), NoMemory>
        ensures { S.IsReady self.now shared.old.branches here.now → AreWithin shared.old.branches places.old.items →
            OnOk result (Put shared.old shared.new places.old.items places.new.items (T.types_in
            (S.source self.now) (S.instance (trees shared.old.branches) here.now)
            (slice_get (S.source self.now).functions here.now.function))) }
    {
        match self.functions.get(here.function) {
            Some(found) => {
                self.put_writtens(shared, here, &found.header, places)?;
                self.put_writtens(shared, here, &found.mentions.annotations, places)?;
                self.put_named(shared, found.mentions.named.as_slice(), places)?;
                Ok(())
            }
            None => Ok(()),
        }
    }

    fn put_instance(
        &self,
        shared: &mut Shared,
        place: usize,
        places: &mut Vec<usize>,
    ) -> Result<(), NoMemory>
        ensures { S.IsLookedUp self.now → AreWithin shared.old.branches places.old.items → OnOk result
            (Put shared.old shared.new places.old.items places.new.items
            (T.types_of_instance (S.source self.now) (tree_at (trees shared.old.branches) place))) }
    {
        match self.here(shared, place, 0)? {
            Some(here) => {
                self.put_mentioned(shared, &here, places)?;
                Ok(())
            }
            None => Ok(()),
        }
    }

    fn put_instances(
        &self,
        shared: &mut Shared,
        instances: &[usize],
        places: &mut Vec<usize>,
    ) -> Result<(), NoMemory>
        ensures { S.IsLookedUp self.now → AreWithin shared.old.branches instances.now →
            AreWithin shared.old.branches places.old.items → OnOk result
            (Put shared.old shared.new places.old.items places.new.items
            (all_of (T.types_of_instance (S.source self.now)) (all_at (trees shared.old.branches) instances.now))) }
    {
        for place in instances {
            self.put_instance(shared, *place, places)?;
        }
        Ok(())
    }

    // The types of the fields of a data type.
    fn put_fields(
        &self,
        shared: &mut Shared,
        number: u32,
        given: &[usize],
        places: &mut Vec<usize>,
    ) -> Result<(), NoMemory>
        ensures { AreWithin shared.old.branches given.now → AreWithin shared.old.branches places.old.items →
            OnOk result (Put shared.old shared.new places.old.items places.new.items
            (T.fields_of (trees_at (trees shared.old.branches) given.now) (declared_at (S.source self.now) number))) }
    {
        match self.data_type(number) {
            Some(declared) => {
                put_constructors(self.alloc, shared, given, &declared.constructors, places)?;
                Ok(())
            }
            None => Ok(()),
        }
    }
}

fn put_constructors(
    alloc: Global,
    shared: &mut Shared,
    given: &[usize],
    constructors: &[DeclaredConstructor<'_>],
    places: &mut Vec<usize>,
) -> Result<(), NoMemory>
    ensures { AreWithin shared.old.branches given.now → AreWithin shared.old.branches places.old.items →
        OnOk result (Put shared.old shared.new places.old.items places.new.items
        (all_of (T.types_of_fields (trees_at (trees shared.old.branches) given.now))
        (map S.constructor constructors.now))) }
{
    for constructor in constructors {
        put_constructor(alloc, shared, given, constructor, places)?;
    }
    Ok(())
}

fn put_constructor(
    alloc: Global,
    shared: &mut Shared,
    given: &[usize],
    constructor: &DeclaredConstructor<'_>,
    places: &mut Vec<usize>,
) -> Result<(), NoMemory>
    ensures { AreWithin shared.old.branches given.now → AreWithin shared.old.branches places.old.items →
        OnOk result (Put shared.old shared.new places.old.items places.new.items
        (T.types_of_fields (trees_at (trees shared.old.branches) given.now) (S.constructor constructor.now))) }
{
    let fields = field_places(alloc, shared, given, &constructor.fields)?;
    put_all(shared, places, &fields)?;
    Ok(())
}

// The types among these.
fn put_types(shared: &Shared, arguments: &[usize], places: &mut Vec<usize>) -> Result<(), NoMemory>
    ensures { AreWithin shared.now.branches arguments.now → AreWithin shared.now.branches places.old.items →
        OnOk result (Put shared.now shared.now places.old.items places.new.items
        (T.types_among (trees_at (trees shared.now.branches) arguments.now))) }
{
    for argument in arguments {
        put_type(shared, *argument, places)?;
    }
    Ok(())
}

// Puts a type after the others; int and functions aren't put.
fn put_type(shared: &Shared, place: usize, places: &mut Vec<usize>) -> Result<(), NoMemory>
    ensures { place < length shared.now.branches + 1 → AreWithin shared.now.branches places.old.items →
        OnOk result (Put shared.now shared.now places.old.items places.new.items
        (T.types_among (MoreClosed (tree_at (trees shared.now.branches) place) NoClosed))) }
{
    match shared.head_at(place) {
        Some(Head::Type(_)) => {
            places.push(place)?;
            Ok(())
        }
        Some(Head::Function(_)) => Ok(()),
        None => Ok(()),
    }
}

// The types among the static arguments of a function.
fn put_given(
    alloc: Global,
    shared: &Shared,
    place: usize,
    places: &mut Vec<usize>,
) -> Result<(), NoMemory>
    ensures { AreWithin shared.now.branches places.old.items →
        OnOk result (Put shared.now shared.now places.old.items places.new.items
        (T.types_given (tree_at (trees shared.now.branches) place))) }
{
    let arguments = shared.arguments_at(alloc, place)?;
    put_types(shared, &arguments, places)?;
    Ok(())
}

fn put_passed(
    alloc: Global,
    shared: &Shared,
    passed: &[usize],
    places: &mut Vec<usize>,
) -> Result<(), NoMemory>
    ensures { AreWithin shared.now.branches places.old.items →
        OnOk result (Put shared.now shared.now places.old.items places.new.items
        (all_of T.types_given (all_at (trees shared.now.branches) passed.now))) }
{
    for place in passed {
        put_given(alloc, shared, *place, places)?;
    }
    Ok(())
}

impl<'r, 's, 'a> Reaching for TypeInstances<'r, 's, 'a> {
    ghost is_right = { λ i k. AreRoots i.source.now i.instances.now i.passed.now k };

    ghost starts = { λ i k. T.type_roots (S.source i.source.now) (all_at (trees k.branches) i.instances.now)
        (all_at (trees k.branches) i.passed.now) };

    ghost next = { λ i. T.parts_of (S.source i.source.now) };

    ghost breaks = { λ i n c. [] };

    fn starts(&self, alloc: Global, shared: &mut Shared) -> Result<Vec<usize>, NoMemory> {
        let mut places = Vec::new(alloc);
        let bool_place = shared.share(Head::Type(1), Vec::new(alloc))?;
        places.push(bool_place)?;
        self.source
            .put_instances(shared, self.instances.as_slice(), &mut places)?;
        put_passed(alloc, shared, self.passed.as_slice(), &mut places)?;
        Ok(places)
    }

    fn visit(
        &self,
        alloc: Global,
        shared: &mut Shared,
        _: usize,
        place: usize,
        _: &mut Least,
    ) -> Result<Vec<usize>, NoMemory> {
        let given = shared.arguments_at(alloc, place)?;
        let mut places = Vec::new(alloc);
        put_all(shared, &mut places, &given)?;
        match shared.head_at(place) {
            Some(Head::Type(number)) => {
                self.source.put_fields(shared, number, &given, &mut places)?;
                Ok(places)
            }
            Some(Head::Function(_)) => Ok(places),
            None => Ok(places),
        }
    }
}
