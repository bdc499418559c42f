// The numbers of types and instances, and the table of types.
ghost use Rattle.std.specs.Prelude.{◌≡◌, ◌+◌, ◌<◌, ◌≤◌, ◌^◌, ◌++◌, length, map, nat_eq, IfOk, OnOk};
ghost use Rattle.std.specs.List.{position};
ghost use Rattle.fip_language.specs.Mentions.{all_of};
ghost use Rattle.fip_language.specs.declared.limits.TheConstants.{MOST_INSTANCES};
ghost use Rattle.reached_instances.specs.closed_types.Closed.{arguments_of};
ghost use Rattle.static_params.specs.FlatProgram as P;
ghost use Rattle.static_params.specs.FlatView.{AreNumbers, numbers_at};
ghost use Rattle.reached_instances.specs.closed_types.SharedTrees.{AreWithin, Grows, tree_at, trees, trees_at};
ghost use Rattle.reached_instances.specs.closed_types.Source.{declared_at};
ghost use Rattle.reached_instances.specs.SourceView as S;

use fip_base::plain::{Name, NoMemory, Types};
use fip_base::table::{Constructor, DataType, TypeTable};
use fip_trees::decls::{DeclaredConstructor, DeclaredType};
use reached_instances::closed::{Head, Shared};
use reached_instances::numbering::Places;
use reached_instances::source::Source;
use reached_instances::type_instances::field_places;
use std::alloc::Global;

/// The numbers of what is reached.
#[derive(Drop)]
pub struct Numbers {
    pub instances: Places,
    pub types: Places,
}

// The number of a type from 1.
fn from_one(number: usize) -> u32
    ensures { number < 4096 → result ≡ number + 1 }
{
    match narrow(number).checked_add(1) {
        Some(next) => next,
        None => 0,
    }
}

// A number of a type or of an instance, none of which passes the limit.
fn narrow(number: usize) -> u32
    ensures { number < 2 ^ 32 → result ≡ number }
{
    match u32::try_from(number) {
        Ok(number) => number,
        Err(_) => 0,
    }
}

impl Numbers {
    /// The number of the closed type at a place, that of int being 0.
    pub fn type_number(&self, place: usize) -> u32
        ensures { length self.now.types ≤ MOST_INSTANCES →
            result ≡ P.from_one (position (nat_eq place) self.now.types) }
    {
        match self.types.number_of(place) {
            Some(number) => from_one(number),
            None => 0,
        }
    }

    /// The numbers of closed types.
    pub fn type_numbers(&self, alloc: Global, places: &[usize]) -> Result<Types, NoMemory>
        ensures { length self.now.types ≤ MOST_INSTANCES → IfOk result (λ ns.
            ns ≡ map (λ i. P.from_one (position (nat_eq i) self.now.types)) places.now) }
    {
        let mut numbers = Vec::new(alloc);
        for place in places {
            numbers.push(self.type_number(*place))?;
        }
        Ok(Types::new(numbers))
    }

    /// The number of the closed function at a place.
    pub fn instance_number(&self, place: usize) -> u32
        ensures { length self.now.instances ≤ MOST_INSTANCES →
            result ≡ P.or_zero (position (nat_eq place) self.now.instances) }
    {
        match self.instances.number_of(place) {
            Some(number) => narrow(number),
            None => 0,
        }
    }
}

/// The table of types.
pub fn table_of(
    source: &Source<'_, '_>,
    shared: &mut Shared,
    numbers: &Numbers,
) -> Result<TypeTable, NoMemory>
    ensures grows { AreNumbers shared.old numbers.now → OnOk result (Grows shared.old.branches shared.new.branches) }
    ensures fits { AreNumbers shared.old numbers.now → OnOk result (shared.new.fits ≡ shared.old.fits) }
    ensures table { AreNumbers shared.old numbers.now → IfOk result (λ t. t ≡ all_of
        (P.rows_of (S.source source.now) (numbers_at (trees shared.old.branches) numbers.now))
        (numbers_at (trees shared.old.branches) numbers.now).types) }
{
    let mut table = TypeTable::new(source.alloc);
    for place in numbers.types.as_slice() {
        put_row(source, shared, numbers, *place, &mut table)?;
    }
    Ok(table)
}

// The constructors of the type at a place.
fn put_row(
    source: &Source<'_, '_>,
    shared: &mut Shared,
    numbers: &Numbers,
    place: usize,
    table: &mut TypeTable,
) -> Result<(), NoMemory>
    ensures grows { AreNumbers shared.old numbers.now → OnOk result (Grows shared.old.branches shared.new.branches) }
    ensures fits { AreNumbers shared.old numbers.now → OnOk result (shared.new.fits ≡ shared.old.fits) }
    ensures row { AreNumbers shared.old numbers.now → OnOk result (table.new ≡ table.old ++ P.rows_of
        (S.source source.now) (numbers_at (trees shared.old.branches) numbers.now)
        (tree_at (trees shared.old.branches) place)) }
{
    match shared.head_at(place) {
        Some(Head::Type(number)) => {
            put_row_of(source, shared, numbers, place, number, table)?;
            Ok(())
        }
        Some(Head::Function(_)) => Ok(()),
        None => Ok(()),
    }
}

// The constructors of the type at a place, whose data type has this number.
fn put_row_of(
    source: &Source<'_, '_>,
    shared: &mut Shared,
    numbers: &Numbers,
    place: usize,
    number: u32,
    table: &mut TypeTable,
) -> Result<(), NoMemory>
    ensures grows { AreNumbers shared.old numbers.now → OnOk result (Grows shared.old.branches shared.new.branches) }
    ensures fits { AreNumbers shared.old numbers.now → OnOk result (shared.new.fits ≡ shared.old.fits) }
    ensures row { AreNumbers shared.old numbers.now → OnOk result (table.new ≡ table.old ++ P.row_if
        (numbers_at (trees shared.old.branches) numbers.now)
        (arguments_of (tree_at (trees shared.old.branches) place)) (declared_at (S.source source.now) number)) }
{
    match source.data_type(number) {
        Some(found) => {
            let given = shared.arguments_at(source.alloc, place)?;
            let row = data_type(source.alloc, shared, numbers, &given, found)?;
            table.push(row)?;
            Ok(())
        }
        None => Ok(()),
    }
}

/// For each type the number of the data type that declares it.
pub fn declaring_of(
    source: &Source<'_, '_>,
    shared: &Shared,
    numbers: &Numbers,
) -> Result<Vec<u32>, NoMemory>
    ensures { IfOk result (λ v. v.items ≡ all_of (P.declaring_of (S.source source.now))
        (numbers_at (trees shared.now.branches) numbers.now).types) }
{
    let mut declaring = Vec::new(source.alloc);
    for place in numbers.types.as_slice() {
        put_declaring(source, shared, *place, &mut declaring)?;
    }
    Ok(declaring)
}

fn put_declaring(
    source: &Source<'_, '_>,
    shared: &Shared,
    place: usize,
    declaring: &mut Vec<u32>,
) -> Result<(), NoMemory>
    ensures { OnOk result (declaring.new.items ≡ declaring.old.items ++ P.declaring_of (S.source source.now)
        (tree_at (trees shared.now.branches) place)) }
{
    match shared.head_at(place) {
        Some(Head::Type(number)) => {
            put_number(source, number, declaring)?;
            Ok(())
        }
        Some(Head::Function(_)) => Ok(()),
        None => Ok(()),
    }
}

// Puts a number after the others where it has a data type.
fn put_number(
    source: &Source<'_, '_>,
    number: u32,
    declaring: &mut Vec<u32>,
) -> Result<(), NoMemory>
    ensures { OnOk result (declaring.new.items ≡ declaring.old.items ++
        P.number_if number (declared_at (S.source source.now) number)) }
{
    match source.data_type(number) {
        Some(_) => {
            declaring.push(number)?;
            Ok(())
        }
        None => Ok(()),
    }
}

fn data_type(
    alloc: Global,
    shared: &mut Shared,
    numbers: &Numbers,
    given: &[usize],
    declared: &DeclaredType<'_>,
) -> Result<DataType, NoMemory>
    ensures grows { AreNumbers shared.old numbers.now → AreWithin shared.old.branches given.now →
        OnOk result (Grows shared.old.branches shared.new.branches) }
    ensures fits { AreNumbers shared.old numbers.now → AreWithin shared.old.branches given.now →
        OnOk result (shared.new.fits ≡ shared.old.fits) }
    ensures row { AreNumbers shared.old numbers.now → AreWithin shared.old.branches given.now →
        IfOk result (λ d. d ≡ map (P.flat_constructor (numbers_at (trees shared.old.branches) numbers.now)
        (trees_at (trees shared.old.branches) given.now)) (S.declared declared.now).constructors) }
{
    let mut constructors = Vec::new(alloc);
    for constructor in &declared.constructors {
        let made = closed_constructor(alloc, shared, numbers, given, constructor)?;
        constructors.push(made)?;
    }
    if constructors.len() >= u32::MAX as usize {
        return Err(NoMemory);
    }
    Ok(DataType::new(constructors))
}

fn closed_constructor(
    alloc: Global,
    shared: &mut Shared,
    numbers: &Numbers,
    given: &[usize],
    declared: &DeclaredConstructor<'_>,
) -> Result<Constructor, NoMemory>
    ensures grows { AreNumbers shared.old numbers.now → AreWithin shared.old.branches given.now →
        OnOk result (Grows shared.old.branches shared.new.branches) }
    ensures fits { AreNumbers shared.old numbers.now → AreWithin shared.old.branches given.now →
        OnOk result (shared.new.fits ≡ shared.old.fits) }
    ensures made { AreNumbers shared.old numbers.now → AreWithin shared.old.branches given.now →
        IfOk result (λ k. k ≡ P.flat_constructor (numbers_at (trees shared.old.branches) numbers.now)
        (trees_at (trees shared.old.branches) given.now) (S.constructor declared.now)) }
{
    let name = named(alloc, declared.name)?;
    let places = field_places(alloc, shared, given, &declared.fields)?;
    shared.hold();
    let fields = numbers.type_numbers(alloc, &places)?;
    let constructor = Constructor::new(name, fields);
    Ok(constructor)
}

fn named(alloc: Global, bytes: &[u8]) -> Result<Name, NoMemory>
    ensures { IfOk result (λ name. name ≡ bytes.now) }
{
    let mut name = Vec::new(alloc);
    name.extend_from_slice(bytes)?;
    Ok(Name::new(name))
}
