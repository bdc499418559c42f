// Patterns compared with what is known.
ghost use Rattle.std.specs.Prelude.{◌≡◌};
ghost use Rattle.match_knowledge.specs.Known.{both, compare, compare_all, is_asks, is_fits, is_misses};
ghost use Rattle.match_knowledge.specs.View.{row, parts, known, knowns};

use crate::heads::{Head, is_in, same_head};
use crate::knowledge::Knowledge;
use crate::rows::Row;

/// What a pattern says of all values that agree with what is known: it matches all of them or none, or asks for more.
#[derive(Clone, Copy)]
pub enum Verdict {
    Fits,
    Misses,
    Asks,
}

/// Whether the pattern matches all of them.
pub fn is_fits(v: Verdict) -> bool
    ensures { result ≡ is_fits v }
{
    match v {
        Verdict::Fits => true,
        Verdict::Misses => false,
        Verdict::Asks => false,
    }
}

/// Whether the pattern matches none of them.
pub fn is_misses(v: Verdict) -> bool
    ensures { result ≡ is_misses v }
{
    match v {
        Verdict::Fits => false,
        Verdict::Misses => true,
        Verdict::Asks => false,
    }
}

/// Whether the pattern asks for more.
pub fn is_asks(v: Verdict) -> bool
    ensures { result ≡ is_asks v }
{
    match v {
        Verdict::Fits => false,
        Verdict::Misses => false,
        Verdict::Asks => true,
    }
}

// The verdict of two parts.
fn both(a: Verdict, b: Verdict) -> Verdict
    ensures { result ≡ both a b }
{
    match a {
        Verdict::Fits => b,
        Verdict::Misses => Verdict::Misses,
        Verdict::Asks => match b {
            Verdict::Fits => Verdict::Asks,
            Verdict::Misses => Verdict::Misses,
            Verdict::Asks => Verdict::Asks,
        },
    }
}

/// What the pattern says of all values that agree.
#[cycle(compare)]
pub fn compare(p: &Row, k: &Knowledge) -> Verdict
    ensures { result ≡ compare (row p.now) (known k.now) }
{
    match p {
        Row::Any => Verdict::Fits,
        Row::Test {
            head: h,
            parts: ps,
            ..
        } => match k {
            Knowledge::Open(out) => {
                if is_in(h, out) {
                    Verdict::Misses
                } else {
                    Verdict::Asks
                }
            }
            Knowledge::Is(g, ks) => {
                if same_head(h, g) {
                    compare_all(ps, ks)
                } else {
                    Verdict::Misses
                }
            }
        },
    }
}

#[cycle(compare)]
fn compare_all(ps: &[Row], ks: &[Knowledge]) -> Verdict
    ensures { result ≡ compare_all (parts ps.now) (knowns ks.now) }
{
    let mut verdict = Verdict::Fits;
    let mut j = 0;
    for p in ps {
        if j >= ks.len() {
            return verdict;
        }
        verdict = both(verdict, compare(p, &ks[j]));
        if is_misses(verdict) {
            return verdict;
        }
        j += 1;
    }
    verdict
}

/// How many tests of the pattern aren't settled, those below an open one counted as one each; it serves to choose only.
#[cycle(weight)]
pub fn weight(p: &Row, k: &Knowledge) -> usize {
    match p {
        Row::Any => 0,
        Row::Test { parts: ps, .. } => match k {
            Knowledge::Open(_) => 1 + ps.len(),
            Knowledge::Is(_, ks) => weight_all(ps, ks),
        },
    }
}

#[cycle(weight)]
fn weight_all(ps: &[Row], ks: &[Knowledge]) -> usize {
    let mut sum: usize = 0;
    let mut j = 0;
    for p in ps {
        if j >= ks.len() {
            return sum;
        }
        sum = sum.saturating_add(weight(p, &ks[j]));
        j += 1;
    }
    sum
}
