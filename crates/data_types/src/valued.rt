// Which data types have a finite value, their parameters taken to have one.
ghost use Rattle.std.specs.Prelude.{◌≡◌, ◌<◌, [], length, IfOk, OnOk};
ghost use Rattle.data_types.specs.Marks as m;
ghost use Rattle.data_types.specs.Steps as s;
ghost use Rattle.data_types.specs.View as v;

use crate::claims::Claims;
use crate::marking::{run, settle};
use crate::order::order_of;
use fip_base::plain::NoMemory;
use fip_trees::decls::DeclaredType;
use std::alloc::Global;

/// Which data types have a finite value, in the order of their places.
pub fn are_valued(alloc: Global, declared: &[DeclaredType<'_>]) -> Result<Vec<bool>, NoMemory>
    ensures { IfOk result (λ f. s.ReportsValued (v.declarations declared.now) f.items) }
{
    let mut claims = Claims::new(alloc);
    marks_of(alloc, declared, &mut claims)
}

// What a search that begins with no claims finds.
fn marks_of(
    alloc: Global,
    declared: &[DeclaredType<'_>],
    claims: &mut Claims,
) -> Result<Vec<bool>, NoMemory>
    requires empty { claims.now ≡ record { claims = []; todo = [] } }
    ensures { IfOk result (λ f. s.ReportsValued (v.declarations declared.now) f.items) }
{
    list_roots(alloc, declared, claims)?;
    settle_in_order(alloc, declared, claims)?;
    run(claims, alloc, declared)?;
    let found = root_marks(alloc, declared, claims)?;
    Ok(found)
}

fn trues(alloc: Global, n: usize) -> Result<Vec<bool>, NoMemory>
    ensures { IfOk result (λ f. f.items ≡ m.trues n) }
{
    let mut bits = Vec::new(alloc);
    for _ in 0..n {
        bits.push(true)?;
    }
    Ok(bits)
}

// All arguments of a data type.
fn root(alloc: Global, declared: &[DeclaredType<'_>], t: usize) -> Result<Vec<bool>, NoMemory>
    requires within { t < length declared.now }
    ensures { IfOk result (λ f. f.items ≡ m.root (v.declarations declared.now) t) }
{
    let bits = trues(alloc, declared[t].arity)?;
    Ok(bits)
}

// At the place of each data type the claim that it has a value, its parameters taken to have one.
fn list_roots(
    alloc: Global,
    declared: &[DeclaredType<'_>],
    claims: &mut Claims,
) -> Result<(), NoMemory>
    requires empty { claims.now ≡ record { claims = []; todo = [] } }
    ensures { OnOk result (s.HasRoots (v.declarations declared.now) claims.new (length declared.now)) }
{
    for t in 0..declared.len() {
        let arguments = root(alloc, declared, t)?;
        claims.list(alloc, t, arguments)?;
    }
    Ok(())
}

fn settle_in_order(
    alloc: Global,
    declared: &[DeclaredType<'_>],
    claims: &mut Claims,
) -> Result<(), NoMemory>
    ensures { OnOk result (s.Goes (v.declarations declared.now) claims.old claims.new) }
{
    let order = order_of(alloc, declared)?;
    for place in &order {
        settle(claims, alloc, declared, *place)?;
    }
    Ok(())
}

fn root_marks(
    alloc: Global,
    declared: &[DeclaredType<'_>],
    claims: &Claims,
) -> Result<Vec<bool>, NoMemory>
    ensures all { IfOk result (λ f. length f.items ≡ length declared.now) }
    ensures marks { IfOk result (λ f. s.Reports claims.now f.items) }
{
    let mut found = Vec::new(alloc);
    for t in 0..declared.len() {
        found.push(claims.is_marked_at(t))?;
    }
    Ok(found)
}
