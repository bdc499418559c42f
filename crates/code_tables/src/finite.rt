// Which types have a finite value: the least set with int and each type that has a constructor all of whose fields'
// types are in it. A type of the set is marked. A constructor with a field without a mark waits for that field's type,
// and is looked at again once that is marked. So each constructor is looked at once for each of its few fields. What
// waits only makes the search fast: that it is complete rests on a last pass in which nothing changes. (The algorithm
// is that of W. F. Dowling and J. H. Gallier, Linear-time algorithms for testing the satisfiability of propositional
// Horn formulae, Journal of Logic Programming 1, 1984.)
ghost use Rattle.std.specs.Prelude.{◌≡◌, ◌↔◌, ◌≤◌, ◌<◌, ◌∷◌, length, true, false, set, replicate, IfOk, OnOk};
ghost use Rattle.std.specs.Prelude.{IfSome, IfNone};
ghost use Rattle.std.specs.Prelude.{IsTrue};
ghost use Rattle.code_tables.specs.Marks.{is_marked, all_marked, has_marked, AreMarks, IsClosed, HaveValues, unmarked};
ghost use Rattle.code_tables.specs.Marks.{IsFieldsOf, IsClosedAt, all_true};

use fip_base::plain::NoMemory;
use fip_base::table::{Constructor, TypeTable};
use fip_language::limits::MOST_INSTANCES;
use std::alloc::Global;
use std::mem;

/// Whether each type has a finite value. NoMemory: no memory is left.
pub fn have_values(alloc: Global, types: &TypeTable) -> Result<bool, NoMemory>
    requires few { length types.now ≤ MOST_INSTANCES }
    ensures exact { IfOk result (λ all. IsTrue all ↔ HaveValues types.now) }
{
    let mut marks = search(alloc, types)?;
    complete(types, &mut marks);
    Ok(are_all(&marks))
}

// Whether a type is marked.
fn is_marked(marks: &[bool], ty: u32) -> bool
    ensures { result ≡ is_marked marks.now ty }
{
    match marks.get(ty as usize) {
        Some(mark) => *mark,
        None => false,
    }
}

// Whether all types are marked.
fn are_all(marks: &[bool]) -> bool
    ensures { result ≡ all_true marks.now }
{
    for mark in marks {
        if !*mark {
            return false;
        }
    }
    true
}

// The first of these types that isn't marked.
fn first_unmarked(marks: &[bool], types: &[u32]) -> Option<u32>
    ensures none { IfNone result (all_marked marks.now types.now ≡ true) }
    ensures some { IfSome result (λ t. all_marked marks.now types.now ≡ false) }
{
    for ty in types {
        if !is_marked(marks, *ty) {
            return Some(*ty);
        }
    }
    None
}

// Whether all of these types are marked.
fn are_marked(marks: &[bool], types: &[u32]) -> bool
    ensures { result ≡ all_marked marks.now types.now }
{
    first_unmarked(marks, types).is_none()
}

// Whether one of these constructors has only fields of marked types.
fn has_marked(marks: &[bool], constructors: &[Constructor]) -> bool
    ensures { result ≡ has_marked marks.now constructors.now }
{
    for constructor in constructors {
        if are_marked(marks, constructor.fields()) {
            return true;
        }
    }
    false
}

fn mark(marks: &mut Vec<bool>, ty: u32)
    ensures { marks.new.items ≡ set marks.old.items ty true }
{
    let place = ty as usize;
    if place < marks.len() {
        marks[place] = true;
    }
}

// Marks what has a value but no mark yet.
fn complete(types: &TypeTable, marks: &mut Vec<bool>)
    requires few { length types.now ≤ MOST_INSTANCES }
    requires marks { AreMarks types.now marks.old.items }
    ensures marks { AreMarks types.now marks.new.items }
    ensures closed { IsClosed types.now marks.new.items }
{
    loop {
        if !mark_more(types, marks) {
            return;
        }
    }
}

// Marks each type that has a constructor with only fields of marked types. Whether there was one without a mark.
fn mark_more(types: &TypeTable, marks: &mut Vec<bool>) -> bool
    requires few { length types.now ≤ MOST_INSTANCES }
    requires marks { AreMarks types.now marks.old.items }
    ensures marks { AreMarks types.now marks.new.items }
    ensures closed { result ≡ false → IsClosed types.now marks.new.items }
    ensures fewer { result ≡ true → unmarked marks.new.items < unmarked marks.old.items }
{
    let mut found = false;
    for place in 0..types.len() {
        if mark_if_valued(types, marks, place as u32 + 1) {
            found = true;
        }
    }
    found
}

// Marks a type that has a constructor with only fields of marked types. Whether it had no mark.
fn mark_if_valued(types: &TypeTable, marks: &mut Vec<bool>, ty: u32) -> bool
    requires there { (0 < ty) × (ty ≤ length types.now) }
    requires marks { AreMarks types.now marks.old.items }
    ensures marks { AreMarks types.now marks.new.items }
    ensures same { result ≡ false → marks.new.items ≡ marks.old.items }
    ensures closed { result ≡ false → IsClosedAt types.now marks.new.items ty }
    ensures fewer { result ≡ true → unmarked marks.new.items < unmarked marks.old.items }
{
    if is_marked(marks, ty) || !has_marked(marks, types.constructors_of(ty)) {
        return false;
    }
    mark(marks, ty);
    true
}

// A constructor of a type.
#[derive(Clone, Copy)]
struct Place {
    ty: u32,
    constructor: u32,
}

// What the search keeps beside the marks.
#[derive(Drop)]
struct Waits {
    alloc: Global,
    // For each type, the constructors that wait for it.
    waiting: Vec<Vec<Place>>,
    // Types that were marked, whose constructors weren't looked at again yet.
    fresh: Vec<u32>,
}

impl Waits {
    fn new(alloc: Global, types: usize) -> Result<Waits, NoMemory> {
        let mut waiting = Vec::new(alloc);
        waiting.push(Vec::new(alloc))?;
        for _ in 0..types {
            waiting.push(Vec::new(alloc))?;
        }
        Ok(Waits {
            alloc,
            waiting,
            fresh: Vec::new(alloc),
        })
    }

    // A constructor waits for a type.
    fn wait(&mut self, ty: u32, place: Place) -> Result<(), NoMemory> {
        let number = ty as usize;
        if number < self.waiting.len() {
            self.waiting[number].push(place)?;
        }
        Ok(())
    }

    // The constructors that wait for a type; none does any more.
    fn take(&mut self, ty: u32) -> Vec<Place> {
        let number = ty as usize;
        if number < self.waiting.len() {
            mem::replace(&mut self.waiting[number], Vec::new(self.alloc))
        } else {
            Vec::new(self.alloc)
        }
    }
}

// Marks types that have a value: all of them, though no contract says so.
fn search(alloc: Global, types: &TypeTable) -> Result<Vec<bool>, NoMemory>
    requires few { length types.now ≤ MOST_INSTANCES }
    ensures marks { IfOk result (λ v. AreMarks types.now v.items) }
{
    let mut marks = unmarked(alloc, types.len())?;
    let mut waits = Waits::new(alloc, types.len())?;
    for place in 0..types.len() {
        look_at_all(types, &mut marks, &mut waits, place as u32 + 1)?;
    }
    for _ in 0..types.len() {
        match waits.fresh.pop() {
            Some(ty) => look_again(types, &mut marks, &mut waits, ty)?,
            None => break,
        }
    }
    Ok(marks)
}

// Marks for int and so many data types, of which none has one.
fn unmarked(alloc: Global, types: usize) -> Result<Vec<bool>, NoMemory>
    requires few { types ≤ MOST_INSTANCES }
    ensures { IfOk result (λ v. v.items ≡ true ∷ replicate types false) }
{
    let mut marks = Vec::new(alloc);
    marks.push(true)?;
    marks.resize(types + 1, false)?;
    Ok(marks)
}

// Looks at the constructors of a type.
fn look_at_all(
    types: &TypeTable,
    marks: &mut Vec<bool>,
    waits: &mut Waits,
    ty: u32,
) -> Result<(), NoMemory>
    requires there { ty ≤ length types.now }
    requires marks { AreMarks types.now marks.old.items }
    ensures marks { OnOk result (AreMarks types.now marks.new.items) }
{
    for constructor in 0..types.constructors_of(ty).len() {
        let constructor = constructor as u32;
        look_at(types, marks, waits, Place { ty, constructor })?;
    }
    Ok(())
}

// Looks again at the constructors that waited for a type.
fn look_again(
    types: &TypeTable,
    marks: &mut Vec<bool>,
    waits: &mut Waits,
    ty: u32,
) -> Result<(), NoMemory>
    requires marks { AreMarks types.now marks.old.items }
    ensures marks { OnOk result (AreMarks types.now marks.new.items) }
{
    for place in waits.take(ty) {
        look_at(types, marks, waits, place)?;
    }
    Ok(())
}

// Looks at a constructor: marks its type, or lets it wait.
fn look_at(
    types: &TypeTable,
    marks: &mut Vec<bool>,
    waits: &mut Waits,
    place: Place,
) -> Result<(), NoMemory>
    requires marks { AreMarks types.now marks.old.items }
    ensures marks { OnOk result (AreMarks types.now marks.new.items) }
{
    if is_marked(marks, place.ty) {
        return Ok(());
    }
    let Some(fields) = fields_of(types, place) else {
        return Ok(());
    };
    match first_unmarked(marks, fields) {
        Some(field) => waits.wait(field, place),
        None => {
            mark(marks, place.ty);
            waits.fresh.push(place.ty)?;
            Ok(())
        }
    }
}

// The types of a constructor's fields; none where it isn't there.
fn fields_of(types: &TypeTable, place: Place) -> Option<&[u32]>
    ensures { IfSome result (λ fs. IsFieldsOf types.now place.ty place.constructor fs.now) }
{
    if place.ty as usize > types.len() {
        return None;
    }
    match types
        .constructors_of(place.ty)
        .get(place.constructor as usize)
    {
        Some(constructor) => Some(constructor.fields()),
        None => None,
    }
}
