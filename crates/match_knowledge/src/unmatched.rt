// Whether a value is left that no pattern matches.
ghost use Rattle.std.specs.Prelude.{◌≡◌, IfOk};
ghost use Rattle.match_knowledge.specs.Left.{IsChoice, AllMiss, better, next};
ghost use Rattle.match_knowledge.specs.Left.{AnswersLeft, AnswersMissed, AnswersReached};
ghost use Rattle.match_knowledge.specs.View.{row, rows, known};
ghost use Rattle.match_knowledge.specs.declared.unmatched.Choice.TheVariants.{Nothing};

use crate::knowledge::{Knowledge, known_of, open};
use crate::rows::Row;
use crate::sides::{is_last, side};
use crate::verdicts::{Verdict, compare, is_asks, is_fits, weight};
use fip_base::plain::NoMemory;
use fip_base::table::TypeTable;
use std::alloc::Global;

// What the rows say of the values that agree with what is known: one row matches them all, or each row misses them all,
// or the row that is asked next, with its weight.
#[derive(Clone, Copy)]
enum Choice {
    Covered,
    Nothing,
    Ask(usize, usize),
}

// The row of the less weight.
fn better(best: Choice, i: usize, n: usize) -> Choice
    ensures { result ≡ better best i n }
{
    match best {
        Choice::Covered => Choice::Covered,
        Choice::Nothing => Choice::Ask(i, n),
        Choice::Ask(j, m) => {
            if n < m {
                Choice::Ask(i, n)
            } else {
                Choice::Ask(j, m)
            }
        }
    }
}

// The choice with one row more.
fn next(best: Choice, v: Verdict, i: usize, n: usize) -> Choice
    ensures { result ≡ next best v i n }
{
    match best {
        Choice::Covered => Choice::Covered,
        Choice::Nothing | Choice::Ask(_, _) => match v {
            Verdict::Fits => Choice::Covered,
            Verdict::Misses => best,
            Verdict::Asks => better(best, i, n),
        },
    }
}

// The weight of a row that asks.
fn weight_of(v: Verdict, p: &Row, k: &Knowledge) -> usize {
    if is_asks(v) { weight(p, k) } else { 0 }
}

// A row that matches all, or one of those that ask for the least, or none.
fn choose(ps: &[Row], k: &Knowledge) -> Choice
    ensures choice { IsChoice (rows ps.now) (known k.now) result }
    ensures nothing { result ≡ Nothing → AllMiss (rows ps.now) (known k.now) }
{
    let mut best = Choice::Nothing;
    let mut i = 0;
    for p in ps {
        let verdict = compare(p, k);
        if is_fits(verdict) {
            return Choice::Covered;
        }
        best = next(best, verdict, i, weight_of(verdict, p, k));
        i += 1;
    }
    best
}

/// Whether some value of the rows' type agrees with what is known and no row matches it. An error where no memory is
/// left.
///
/// The row that asks for the least is asked first: this keeps the search small also where the cases that a set of
/// patterns leaves are exponentially many.
#[cycle(left)]
pub fn left(alloc: Global, types: &TypeTable, ps: &[Row], k: &Knowledge) -> Result<bool, NoMemory>
    ensures { IfOk result (AnswersLeft types.now (rows ps.now) (known k.now)) }
{
    match choose(ps, k) {
        Choice::Covered => Ok(false),
        Choice::Nothing => Ok(true),
        Choice::Ask(i, _) => {
            let p = &ps[i];
            let yes = side(alloc, true, p, k)?;
            if left(alloc, types, ps, &yes)? {
                return Ok(true);
            }
            if is_last(types, p, k) {
                return Ok(false);
            }
            let no = side(alloc, false, p, k)?;
            left(alloc, types, ps, &no)
        }
    }
}

/// Whether some value of the rows' type is matched by no row. An error where no memory is left.
pub fn missed(alloc: Global, types: &TypeTable, ps: &[Row]) -> Result<bool, NoMemory>
    ensures { IfOk result (AnswersMissed types.now (rows ps.now)) }
{
    let k = open(alloc);
    left(alloc, types, ps, &k)
}

/// Whether some value is matched by the pattern and by no row before it. An error where no memory is left.
pub fn reached(alloc: Global, types: &TypeTable, before: &[Row], p: &Row) -> Result<bool, NoMemory>
    ensures { IfOk result (AnswersReached types.now (rows before.now) (row p.now)) }
{
    let k = known_of(alloc, p)?;
    left(alloc, types, before, &k)
}
