// What the search for values finds of types, and sets of arguments.
ghost use Rattle.std.specs.Prelude.{◌≡◌, true, false, IfOk};
ghost use Rattle.data_types.specs.Marks as m;
ghost use Rattle.data_types.specs.Steps as s;

use crate::bits::bit;
use fip_base::plain::NoMemory;
use std::alloc::Global;

/// Whether a type is known to have a value.
#[derive(Drop)]
pub struct Found {
    pub has_value: bool,
    /// Where it is, the places of parameters that suffice: it has a value wherever these have one.
    pub needs: Vec<usize>,
}

/// A type has a value, and needs no parameter for it.
pub fn always(alloc: Global) -> Found
    ensures { result.has_value ≡ true }
{
    Found {
        has_value: true,
        needs: Vec::new(alloc),
    }
}

/// Nothing is found.
pub fn nothing(alloc: Global) -> Found
    ensures { result.has_value ≡ false }
{
    Found {
        has_value: false,
        needs: Vec::new(alloc),
    }
}

/// At the place of an argument whether it is found to have a value.
pub fn values_of(alloc: Global, found: &[Found]) -> Result<Vec<bool>, NoMemory>
    ensures { IfOk result (λ bs. bs.items ≡ s.has_values found.now) }
{
    let mut values = Vec::new(alloc);
    for one in found {
        values.push(one.has_value)?;
    }
    Ok(values)
}

/// What the arguments of a set need.
pub fn gather(alloc: Global, set: &[bool], found: &[Found]) -> Result<Vec<usize>, NoMemory>
    ensures { IfOk result (λ ks. ks.items ≡ s.gathered 0 set.now found.now) }
{
    let mut needs = Vec::new(alloc);
    let mut place = 0;
    for one in found {
        if bit(set, place) {
            needs.extend_from_slice(&one.needs)?;
        }
        place += 1;
    }
    Ok(needs)
}

/// Whether all arguments of a set are in another of as many.
pub fn is_below(set: &[bool], other: &[bool]) -> bool
    ensures { result ≡ true → m.Below set.now other.now }
{
    for place in 0..other.len() {
        if bit(set, place) && !bit(other, place) {
            return false;
        }
    }
    true
}

/// The set of the arguments at these places, of so many arguments.
pub fn set_of(alloc: Global, count: usize, places: &[usize]) -> Result<Vec<bool>, NoMemory>
    ensures { IfOk result (λ bs. m.HasAll bs.items places.now) }
{
    let mut set = Vec::new(alloc);
    for _ in 0..count {
        set.push(false)?;
    }
    add_all(&mut set, places);
    Ok(set)
}

fn add_all(set: &mut [bool], places: &[usize])
    ensures { m.HasAll set.new places.now }
{
    for place in places {
        add(set, *place);
    }
}

// Adds an argument to a set; past its end there is none.
fn add(set: &mut [bool], place: usize)
    ensures added { m.bit set.new place ≡ true }
    ensures kept { m.Below set.old set.new }
{
    if place < set.len() {
        set[place] = true;
    }
}
