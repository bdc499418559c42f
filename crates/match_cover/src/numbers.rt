// The matches of a program by number.
ghost use Rattle.std.specs.Prelude.{◌≡◌, length, IfOk, OnOk};
ghost use Rattle.std.specs.List.Sorted.{IsPermutation, IsNonDecreasingBy};
ghost use Rattle.match_cover.specs.FoundView.{found_offset};
ghost use Rattle.match_cover.specs.Matches.{IsDecisionOf};

use crate::matches::{Found, find_in_block};
use crate::trees::{Tree, tree_of};
use fip_base::plain::NoMemory;
use fip_trees::program::Typed;
use std::alloc::Global;

/// The number of a match: matches are counted from 0 over the instances in their order, and in each body in the order
/// of the text.
#[derive(Clone, Copy, PartialEq, Eq)]
pub struct MatchId(pub usize);

/// The decision tree of the match with this number, in a program that `cover` accepts; none exactly where there is no
/// such match, or its tree has more than 1,024 branches. An error where no memory is left.
pub fn decision(alloc: Global, typed: &Typed, m: MatchId) -> Result<Option<Tree>, NoMemory>
    ensures { IfOk result (IsDecisionOf typed.now.program.types typed.now.program.instances.items m.0) }
{
    let mut number = m.0;
    for instance in &typed.program.instances {
        let mut found = Vec::new(alloc);
        find_in_block(&instance.body, &mut found)?;
        if number < found.len() {
            sort(&mut found)?;
            let f = &found[number];
            return tree_of(alloc, &typed.program, f.first, f.others);
        }
        number -= found.len();
    }
    Ok(None)
}

// Puts matches into the order of the text.
fn sort(found: &mut Vec<Found<'_>>) -> Result<(), NoMemory>
    ensures same { IsPermutation found.old.items found.new.items }
    ensures len { length found.new.items ≡ length found.old.items }
    ensures sorted { OnOk result (IsNonDecreasingBy found_offset found.new.items) }
{
    found.sort_by_key(|f| f.place.at)?;
    Ok(())
}
