// What is known of a value.
ghost use Rattle.std.specs.Prelude.{◌≡◌, [], IfOk, map};
ghost use Rattle.match_knowledge.specs.Known.{Open};
ghost use Rattle.match_knowledge.specs.Left.{known_of, all_known};
ghost use Rattle.match_knowledge.specs.View.{row, parts, known, knowns};

use crate::heads::Head;
use crate::rows::Row;
use fip_base::plain::NoMemory;
use std::alloc::Global;

/// What is known of a value.
#[derive(Drop)]
pub enum Knowledge {
    /// It has none of these heads.
    Open(Vec<Head>),
    /// It has this head, and this is known of its children.
    Is(Head, Vec<Knowledge>),
}

/// Nothing is known.
pub fn open(alloc: Global) -> Knowledge
    ensures { known result ≡ Open [] }
{
    Knowledge::Open(Vec::new(alloc))
}

/// As much is known.
#[cycle(copy)]
pub fn copy(alloc: Global, k: &Knowledge) -> Result<Knowledge, NoMemory>
    ensures { IfOk result (λ r. known r ≡ known k.now) }
{
    match k {
        Knowledge::Open(out) => {
            let mut new = Vec::new(alloc);
            new.extend_from_slice(out)?;
            Ok(Knowledge::Open(new))
        }
        Knowledge::Is(h, ks) => {
            let new = copy_all(alloc, ks)?;
            Ok(Knowledge::Is(*h, new))
        }
    }
}

#[cycle(copy)]
fn copy_all(alloc: Global, ks: &[Knowledge]) -> Result<Vec<Knowledge>, NoMemory>
    ensures { IfOk result (λ r. map known r.items ≡ map known ks.now) }
{
    let mut new = Vec::new(alloc);
    for k in ks {
        new.push(copy(alloc, k)?)?;
    }
    Ok(new)
}

/// What is known of the values that a pattern matches.
#[cycle(known)]
pub fn known_of(alloc: Global, p: &Row) -> Result<Knowledge, NoMemory>
    ensures { IfOk result (λ r. known r ≡ known_of (row p.now)) }
{
    match p {
        Row::Any => Ok(open(alloc)),
        Row::Test {
            head: h,
            parts: ps,
            ..
        } => {
            let ks = all_known(alloc, ps)?;
            Ok(Knowledge::Is(*h, ks))
        }
    }
}

/// What is known of the values that these patterns match, one for one.
#[cycle(known)]
pub fn all_known(alloc: Global, ps: &[Row]) -> Result<Vec<Knowledge>, NoMemory>
    ensures { IfOk result (λ r. knowns r.items ≡ all_known (parts ps.now)) }
{
    let mut new = Vec::new(alloc);
    for p in ps {
        new.push(known_of(alloc, p)?)?;
    }
    Ok(new)
}
