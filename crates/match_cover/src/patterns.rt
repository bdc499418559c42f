// The patterns of clauses without their names.
ghost use Rattle.std.specs.Prelude.{◌≡◌, map, IfOk};
ghost use Rattle.match_knowledge.specs.View.{row, rows};
ghost use Rattle.match_cover.specs.PatternView.{erased, match_patterns, pattern_place};

use fip_base::plain::{NoMemory, Place};
use fip_trees::program::{Clause, Pattern};
use match_knowledge::{Head, Row};
use std::alloc::Global;

/// The pattern without names. A literal is a test of an int, type 0.
#[cycle(rows)]
pub fn row_of(alloc: Global, pattern: &Pattern) -> Result<Row, NoMemory>
    ensures { IfOk result (λ r. row r ≡ erased pattern.now) }
{
    match pattern {
        Pattern::Binder(_) => Ok(Row::Any),
        Pattern::Literal { value, .. } => {
            Ok(Row::Test {
                ty: 0,
                head: Head::Number(*value),
                parts: Vec::new(alloc),
            })
        }
        Pattern::Constructor {
            ty,
            number,
            patterns,
            ..
        } => {
            let parts = rows_of(alloc, patterns)?;
            Ok(Row::Test {
                ty: *ty,
                head: Head::Tag(*number),
                parts,
            })
        }
    }
}

#[cycle(rows)]
fn rows_of(alloc: Global, patterns: &[Pattern]) -> Result<Vec<Row>, NoMemory>
    ensures { IfOk result (λ r. map row r.items ≡ map erased patterns.now) }
{
    let mut made = Vec::new(alloc);
    for pattern in patterns {
        made.push(row_of(alloc, pattern)?)?;
    }
    Ok(made)
}

/// The patterns of a match's clauses without names, in their order.
pub fn clause_rows(alloc: Global, first: &Clause, others: &[Clause]) -> Result<Vec<Row>, NoMemory>
    ensures { IfOk result (λ r. rows r.items ≡ match_patterns first.now others.now) }
{
    let mut made = Vec::new(alloc);
    made.push(row_of(alloc, &first.pattern)?)?;
    for clause in others {
        made.push(row_of(alloc, &clause.pattern)?)?;
    }
    Ok(made)
}

/// The place of a pattern's first token.
pub fn place_of(pattern: &Pattern) -> Place
    ensures { result ≡ pattern_place pattern.now }
{
    match pattern {
        Pattern::Binder(binder) => binder.place,
        Pattern::Literal { place, .. } => *place,
        Pattern::Constructor { place, .. } => *place,
    }
}
