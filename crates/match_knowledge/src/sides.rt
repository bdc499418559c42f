// The two sides of a pattern's first open test.
ghost use Rattle.std.specs.Prelude.{◌≡◌, ◌∷◌, ◌||◌, length, drop, IfOk};
ghost use Rattle.fip_base.specs.fip_language.Table.{constructors};
ghost use Rattle.match_knowledge.specs.Known.{opens, settle, side, side_all};
ghost use Rattle.match_knowledge.specs.Known.{is_in, all_out, none_left, is_last, are_last};
ghost use Rattle.match_knowledge.specs.View.{row, parts, known, knowns, asks_first, side_first};
ghost use Rattle.match_knowledge.specs.declared.heads.Head.TheVariants.{Tag};

use crate::heads::{Head, is_constructor};
use crate::knowledge::{Knowledge, copy, open};
use crate::rows::Row;
use crate::verdicts::{compare, is_asks};
use fip_base::plain::NoMemory;
use fip_base::table::TypeTable;
use std::alloc::Global;

// Nothing is known of the values of these patterns.
fn opens_of(alloc: Global, ps: &[Row]) -> Result<Vec<Knowledge>, NoMemory>
    ensures { IfOk result (λ r. knowns r.items ≡ opens (parts ps.now)) }
{
    let mut new = Vec::new(alloc);
    for _p in ps {
        new.push(open(alloc))?;
    }
    Ok(new)
}

// What is known where the head is the one that is asked for, or where it isn't.
fn settle(
    alloc: Global,
    holds: bool,
    h: &Head,
    ps: &[Row],
    out: &[Head],
) -> Result<Knowledge, NoMemory>
    ensures { IfOk result (λ r. known r ≡ settle holds h.now (parts ps.now) out.now) }
{
    if holds {
        let ks = opens_of(alloc, ps)?;
        Ok(Knowledge::Is(*h, ks))
    } else {
        let mut new = Vec::new(alloc);
        new.push(*h)?;
        new.extend_from_slice(out)?;
        Ok(Knowledge::Open(new))
    }
}

/// What is known where the pattern's first open test holds, or where it doesn't. The first is that of the walk from the
/// root, then over the fields from left to right, each with its own fields before the next.
#[cycle(side)]
pub fn side(alloc: Global, holds: bool, p: &Row, k: &Knowledge) -> Result<Knowledge, NoMemory>
    ensures { IfOk result (λ r. known r ≡ side holds (row p.now) (known k.now)) }
{
    match p {
        Row::Any => copy(alloc, k),
        Row::Test {
            head: h,
            parts: ps,
            ..
        } => match k {
            Knowledge::Open(out) => settle(alloc, holds, h, ps, out),
            Knowledge::Is(g, ks) => {
                let new = side_all(alloc, holds, ps, ks)?;
                Ok(Knowledge::Is(*g, new))
            }
        },
    }
}

// Whether the j-th pattern asks.
fn asks_at(ps: &[Row], j: usize, k: &Knowledge) -> bool
    ensures { result ≡ asks_first (parts (drop j ps.now)) (known k.now) }
{
    if j < ps.len() {
        is_asks(compare(&ps[j], k))
    } else {
        false
    }
}

// Whether one of the patterns up to the j-th asks.
fn is_met(met: bool, ps: &[Row], j: usize, k: &Knowledge) -> bool
    ensures { result ≡ (met || asks_first (parts (drop j ps.now)) (known k.now)) }
{
    if met { true } else { asks_at(ps, j, k) }
}

// The j-th child, settled where its pattern is the first that asks.
#[cycle(side)]
fn side_at(
    alloc: Global,
    holds: bool,
    met: bool,
    ps: &[Row],
    j: usize,
    k: &Knowledge,
) -> Result<Knowledge, NoMemory>
    ensures { IfOk result (λ r. known r ≡ side_first met holds (parts (drop j ps.now)) (known k.now)) }
{
    if met || j >= ps.len() {
        return copy(alloc, k);
    }
    if is_asks(compare(&ps[j], k)) {
        side(alloc, holds, &ps[j], k)
    } else {
        copy(alloc, k)
    }
}

#[cycle(side)]
fn side_all(
    alloc: Global,
    holds: bool,
    ps: &[Row],
    ks: &[Knowledge],
) -> Result<Vec<Knowledge>, NoMemory>
    ensures { IfOk result (λ r. knowns r.items ≡ side_all holds (parts ps.now) (knowns ks.now)) }
{
    let mut new = Vec::new(alloc);
    let mut met = false;
    let mut j = 0;
    for k in ks {
        new.push(side_at(alloc, holds, met, ps, j, k)?)?;
        met = is_met(met, ps, j, k);
        j += 1;
    }
    Ok(new)
}

// How many constructors a type has; int has none, nor has a number that is no type's.
#[tactic(auto, using(crate::proofs::Steps::past_end))]
fn count(types: &TypeTable, ty: u32) -> usize
    ensures { result ≡ length (constructors types.now ty) }
{
    if ty as usize <= types.len() {
        types.constructors_of(ty).len()
    } else {
        0
    }
}

// Whether no head of the type is left beside h and these; of int there is always one.
fn none_left(types: &TypeTable, ty: u32, h: &Head, out: &[Head]) -> bool
    ensures { result ≡ none_left types.now ty (h.now ∷ out.now) }
{
    if ty == 0 {
        return false;
    }
    let all = count(types, ty);
    all_out(all, h, out)
}

// Whether the first n constructors are h or among these. It ends at the first that isn't.
#[tactic(auto, using(crate::proofs::Steps::all_out_next, crate::proofs::Steps::all_out_stop))]
fn all_out(n: usize, h: &Head, out: &[Head]) -> bool
    ensures { result ≡ all_out n (h.now ∷ out.now) }
{
    let mut left = n;
    while left > 0 {
        left -= 1;
        if !is_out(left, h, out) {
            return false;
        }
    }
    true
}

// Whether a constructor is h or among these.
fn is_out(c: usize, h: &Head, out: &[Head]) -> bool
    ensures { result ≡ is_in (Tag c) (h.now ∷ out.now) }
{
    if is_constructor(h, c) {
        return true;
    }
    for g in out {
        if is_constructor(g, c) {
            return true;
        }
    }
    false
}

/// Whether no value reaches the side where the pattern's first open test doesn't hold.
#[cycle(last)]
pub fn is_last(types: &TypeTable, p: &Row, k: &Knowledge) -> bool
    ensures { result ≡ is_last types.now (row p.now) (known k.now) }
{
    match p {
        Row::Any => false,
        Row::Test {
            ty,
            head: h,
            parts: ps,
        } => match k {
            Knowledge::Open(out) => none_left(types, *ty, h, out),
            Knowledge::Is(_, ks) => are_last(types, ps, ks),
        },
    }
}

#[cycle(last)]
#[tactic(auto, using(crate::proofs::Steps::last_end))]
fn are_last(types: &TypeTable, ps: &[Row], ks: &[Knowledge]) -> bool
    ensures { result ≡ are_last types.now (parts ps.now) (knowns ks.now) }
{
    let mut j = 0;
    for k in ks {
        if j >= ps.len() {
            return false;
        }
        if is_asks(compare(&ps[j], k)) {
            return is_last(types, &ps[j], k);
        }
        j += 1;
    }
    false
}
