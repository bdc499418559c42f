// The search for claims that are true. A constructor of an asked claim's type that has a field without a value, as far
// as is known, waits for the claims that this field leads to; what waits for a claim is looked at again once that is
// marked. What waits only makes the search fast: that it is complete rests on a last pass in which nothing changes.
ghost use Rattle.std.specs.Prelude.{◌≡◌, ℕ, true, false, OnOk, IfOk};
ghost use Rattle.data_types.specs.Marks as m;
ghost use Rattle.data_types.specs.Steps as s;
ghost use Rattle.data_types.specs.View as v;

use crate::bits::{bit, count_of, either, fields_of};
use crate::claims::{Claims, Waiter};
use crate::found::{Found, always, nothing, set_of, values_of};
use fip_base::plain::NoMemory;
use fip_trees::decls::{DeclaredType, FieldType};
use indexmap::IndexSet;
use std::alloc::Global;

// Whether a type is known to have a value; else all claims that would give it one are asked.
#[cycle(look)]
fn look(
    claims: &mut Claims,
    alloc: Global,
    waiter: Waiter,
    bits: &[bool],
    ty: &FieldType,
) -> Result<Found, NoMemory>
    ensures { IfOk result (λ f. s.IsLooked claims.old claims.new bits.now (v.ty ty.now) f) }
{
    match ty {
        FieldType::Int => Ok(always(alloc)),
        FieldType::Parameter(k) => look_parameter(alloc, bits, *k as usize),
        FieldType::Applied(number, arguments) => {
            let found = look_all(claims, alloc, waiter, bits, arguments)?;
            let ty = (*number as usize).saturating_sub(1);
            let applied = look_applied(claims, alloc, waiter, ty, &found)?;
            Ok(applied)
        }
    }
}

#[cycle(look)]
fn look_all(
    claims: &mut Claims,
    alloc: Global,
    waiter: Waiter,
    bits: &[bool],
    types: &[FieldType],
) -> Result<Vec<Found>, NoMemory>
    ensures { IfOk result (λ fs. s.AreLooked claims.old claims.new bits.now (v.tys types.now) fs.items) }
{
    let mut all = Vec::new(alloc);
    for ty in types {
        let found = look(claims, alloc, waiter, bits, ty)?;
        all.push(found)?;
    }
    Ok(all)
}

// A parameter that has a value needs itself alone.
fn look_parameter(alloc: Global, bits: &[bool], k: usize) -> Result<Found, NoMemory>
    ensures { IfOk result (λ f. s.IsParameter bits.now k f) }
{
    if !bit(bits, k) {
        return Ok(nothing(alloc));
    }
    let mut needs = Vec::new(alloc);
    needs.push(k)?;
    Ok(Found {
        has_value: true,
        needs,
    })
}

// A data type at arguments of which this was found.
fn look_applied(
    claims: &mut Claims,
    alloc: Global,
    waiter: Waiter,
    ty: usize,
    found: &[Found],
) -> Result<Found, NoMemory>
    ensures { IfOk result (λ f. s.IsApplied claims.old claims.new ty found.now f) }
{
    let arguments = values_of(alloc, found)?;
    match claims.marked_below(ty, arguments.as_slice()) {
        Some(place) => {
            let needs = claims.needs_at(alloc, place, found)?;
            Ok(Found {
                has_value: true,
                needs,
            })
        }
        None => {
            claims.ask(alloc, waiter, ty, arguments)?;
            Ok(nothing(alloc))
        }
    }
}

// Whether all fields are known to have a value, and what they need.
fn try_fields(
    claims: &mut Claims,
    alloc: Global,
    waiter: Waiter,
    bits: &[bool],
    fields: &[FieldType],
) -> Result<Found, NoMemory>
    ensures { IfOk result (λ f. s.AreTried claims.old claims.new bits.now (v.tys fields.now) f) }
{
    let mut needs = Vec::new(alloc);
    for ty in fields {
        let found = look(claims, alloc, waiter, bits, ty)?;
        if !found.has_value {
            return Ok(nothing(alloc));
        }
        needs.extend_from_slice(&found.needs)?;
    }
    Ok(Found {
        has_value: true,
        needs,
    })
}

// Looks at a constructor, and says whether something changed.
fn visit(
    claims: &mut Claims,
    alloc: Global,
    declared: &[DeclaredType<'_>],
    waiter: Waiter,
) -> Result<bool, NoMemory>
    ensures step { IfOk result (λ b. s.IsStep (v.declarations declared.now) claims.old claims.new b) }
    ensures done { IfOk result (λ b. b ≡ false → m.IsDone (v.declarations declared.now)
        claims.new waiter.place waiter.number) }
{
    let claim = match claims.asked_at(waiter.place)? {
        Some(claim) => claim,
        None => return Ok(false),
    };
    let fields = match fields_of(declared, claim.ty, waiter.number) {
        Some(fields) => fields,
        None => return Ok(false),
    };
    let before = claims.count();
    let found = try_fields(claims, alloc, waiter, claim.arguments.as_slice(), fields)?;
    if found.has_value {
        let arguments = set_of(alloc, claim.arguments.len(), &found.needs)?;
        claims.settle(alloc, waiter.place, claim.ty, arguments)?;
        return Ok(true);
    }
    let listed = differ(claims.count(), before);
    Ok(listed)
}

// Looks at each constructor of the claim at a place.
fn visit_claim(
    claims: &mut Claims,
    alloc: Global,
    declared: &[DeclaredType<'_>],
    place: usize,
) -> Result<bool, NoMemory>
    ensures step { IfOk result (λ b. s.IsStep (v.declarations declared.now) claims.old claims.new b) }
    ensures done { IfOk result (λ b. b ≡ false → (c : ℕ) →
        m.IsDone (v.declarations declared.now) claims.new place c) }
{
    let claim = match claims.asked_at(place)? {
        Some(claim) => claim,
        None => return Ok(false),
    };
    let count = count_of(declared, claim.ty);
    let mut changed = false;
    for number in 0..count {
        let visited = visit(claims, alloc, declared, Waiter { place, number })?;
        changed = either(changed, visited);
    }
    Ok(changed)
}

fn visit_all(
    claims: &mut Claims,
    alloc: Global,
    declared: &[DeclaredType<'_>],
    waiters: &IndexSet<Waiter>,
) -> Result<(), NoMemory>
    ensures { OnOk result (s.Goes (v.declarations declared.now) claims.old claims.new) }
{
    for i in 0..waiters.len() {
        match waiters.get_index(i) {
            Some(waiter) => {
                visit(claims, alloc, declared, *waiter)?;
            }
            None => return Ok(()),
        }
    }
    Ok(())
}

// Looks at what waits for marked claims, until nothing waits for one.
fn drain(claims: &mut Claims, alloc: Global, declared: &[DeclaredType<'_>]) -> Result<(), NoMemory>
    ensures { OnOk result (s.Goes (v.declarations declared.now) claims.old claims.new) }
{
    while let Some(place) = claims.next() {
        let waiters = claims.take(alloc, place);
        visit_all(claims, alloc, declared, &waiters)?;
    }
    Ok(())
}

/// Looks at the claim at a place and, where something changed, at what waits for marked claims; whether it did.
pub fn settle(
    claims: &mut Claims,
    alloc: Global,
    declared: &[DeclaredType<'_>],
    place: usize,
) -> Result<bool, NoMemory>
    ensures step { IfOk result (λ b. s.IsStep (v.declarations declared.now) claims.old claims.new b) }
    ensures done { IfOk result (λ b. b ≡ false → (c : ℕ) →
        m.IsDone (v.declarations declared.now) claims.new place c) }
{
    let changed = visit_claim(claims, alloc, declared, place)?;
    if !changed {
        return Ok(false);
    }
    drain(claims, alloc, declared)?;
    Ok(true)
}

// Looks at all claims, and says whether something changed.
fn pass(claims: &mut Claims, alloc: Global, declared: &[DeclaredType<'_>]) -> Result<bool, NoMemory>
    ensures step { IfOk result (λ b. s.IsStep (v.declarations declared.now) claims.old claims.new b) }
    ensures done { IfOk result (λ b. b ≡ false → m.AllDone (v.declarations declared.now) claims.new) }
{
    let mut changed = false;
    let mut place: usize = 0;
    while place < claims.count() {
        let visited = settle(claims, alloc, declared, place)?;
        changed = either(changed, visited);
        place += 1;
    }
    Ok(changed)
}

/// Marks claims until no more can be marked.
pub fn run(
    claims: &mut Claims,
    alloc: Global,
    declared: &[DeclaredType<'_>],
) -> Result<(), NoMemory>
    ensures goes { OnOk result (s.Goes (v.declarations declared.now) claims.old claims.new) }
    ensures done { OnOk result (m.AllDone (v.declarations declared.now) claims.new) }
{
    loop {
        let changed = pass(claims, alloc, declared)?;
        if !changed {
            return Ok(());
        }
    }
}

fn differ(a: usize, b: usize) -> bool
    ensures same { result ≡ false → a ≡ b }
    ensures not_same { result ≡ true → a ≡ b → ⊥ }
{
    a != b
}
