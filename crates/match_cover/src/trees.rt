// Decision trees: the tests by which the first clause that matches is found.
//
// The first clause that isn't ruled out is looked at. Where it asks for nothing more, the tree is its leaf. Else its
// first open test, in the order of the walk from the root, then over the fields from left to right, each with its own
// fields before the next, is a branch: on the yes side it holds, on the no side it doesn't. Where no value reaches the
// no side, the tree is that of the yes side. A value always reaches the yes side.
ghost use Rattle.std.specs.Prelude.{◌≡◌, ◌++◌, IfOk, OnOk};
ghost use Rattle.match_knowledge.specs.View.{row, rows, parts, known, knowns};
ghost use Rattle.match_knowledge.specs.declared.heads.Head.TheVariants.{Tag};
ghost use Rattle.match_cover.specs.DecisionTree.{position, positions, asked, asked_all};
ghost use Rattle.match_cover.specs.PatternView.{match_patterns};
ghost use Rattle.match_cover.specs.TreeView.{asking, IsFirst, IsGrown, IsSplitTree, AnswersTree};

use crate::patterns::clause_rows;
use fip_base::plain::NoMemory;
use fip_base::table::TypeTable;
use fip_language::limits::MOST_BRANCHES;
use fip_trees::program::{Clause, Program};
use match_knowledge::{Head, Knowledge, Row, compare, is_asks, is_fits, is_last, open, side};
use std::alloc::Global;

/// The decision tree of a match.
#[derive(Drop)]
pub enum Tree {
    /// The clause with this number, from 0, is chosen.
    Leaf(usize),
    Branch {
        /// The path from the root to what is tested: numbers of fields, from 0.
        position: Vec<usize>,
        /// What is asked there: an int, or the number of a constructor.
        question: Head,
        /// The tree where it is there.
        yes: Box<Tree>,
        /// The tree where it doesn't.
        no: Box<Tree>,
    },
}

// The first clause that isn't ruled out: it matches all values, or it asks.
#[derive(Clone, Copy)]
enum First {
    Done(usize),
    Split(usize),
}

// A tree, and how many branches more it might have had.
#[derive(Drop)]
struct Grown {
    tree: Tree,
    left: usize,
}

/// The decision tree of a match with these clauses, which cover all values; none exactly where it has more than 1,024
/// branches. An error where no memory is left.
pub fn tree_of(
    alloc: Global,
    program: &Program,
    first: &Clause,
    others: &[Clause],
) -> Result<Option<Tree>, NoMemory>
    ensures { IfOk result (AnswersTree program.now.types (match_patterns first.now others.now)) }
{
    let ps = clause_rows(alloc, first, others)?;
    decision_of(alloc, &program.types, &ps)
}

// The decision tree of a match with these patterns.
fn decision_of(alloc: Global, types: &TypeTable, ps: &[Row]) -> Result<Option<Tree>, NoMemory>
    ensures { IfOk result (AnswersTree types.now (rows ps.now)) }
{
    let k = open(alloc);
    match grow(alloc, types, ps, &k, MOST_BRANCHES)? {
        None => Ok(None),
        Some(grown) => Ok(Some(grown.tree)),
    }
}

// The tree for the values that agree with what is known, where it has at most so many branches.
#[cycle(grow)]
fn grow(
    alloc: Global,
    types: &TypeTable,
    ps: &[Row],
    k: &Knowledge,
    budget: usize,
) -> Result<Option<Grown>, NoMemory>
    ensures { IfOk result (λ o. IsGrown types.now (rows ps.now) (known k.now) budget o) }
{
    match find_first(ps, k) {
        First::Done(i) => Ok(Some(Grown {
            tree: Tree::Leaf(i),
            left: budget,
        })),
        First::Split(i) => {
            let p = &ps[i];
            let yes = side(alloc, true, p, k)?;
            if is_last(types, p, k) {
                return grow(alloc, types, ps, &yes, budget);
            }
            let no = side(alloc, false, p, k)?;
            if budget == 0 {
                return Ok(None);
            }
            match grow(alloc, types, ps, &yes, budget - 1)? {
                None => Ok(None),
                Some(held) => match grow(alloc, types, ps, &no, held.left)? {
                    None => Ok(None),
                    Some(failed) => Ok(Some(branch(alloc, p, k, held.tree, failed)?)),
                },
            }
        }
    }
}

// The first clause that isn't ruled out; past the end where each is.
fn find_first(ps: &[Row], k: &Knowledge) -> First
    ensures { IsFirst (rows ps.now) (known k.now) result }
{
    let mut i = 0;
    for p in ps {
        let verdict = compare(p, k);
        if is_fits(verdict) {
            return First::Done(i);
        }
        if is_asks(verdict) {
            return First::Split(i);
        }
        i += 1;
    }
    First::Done(i)
}

// The branch at a pattern's first open test.
fn branch(
    alloc: Global,
    p: &Row,
    k: &Knowledge,
    held: Tree,
    failed: Grown,
) -> Result<Grown, NoMemory>
    ensures tree { IfOk result (IsSplitTree (row p.now) (known k.now) held failed) }
    ensures left { IfOk result (λ g. g.left ≡ failed.left) }
{
    let mut position = Vec::new(alloc);
    let question = test_of(p, k, &mut position)?;
    let left = failed.left;
    let yes = Box::new(alloc, held)?;
    let no = Box::new(alloc, failed.tree)?;
    Ok(Grown {
        tree: Tree::Branch {
            position,
            question,
            yes,
            no,
        },
        left,
    })
}

// The position of the first open test is appended; the answer is what it asks. A pattern without one asks for
// constructor 0, which nobody sees.
#[cycle(test_of)]
fn test_of(p: &Row, k: &Knowledge, at: &mut Vec<usize>) -> Result<Head, NoMemory>
    ensures position { OnOk result (at.new.items ≡ at.old.items ++ position (row p.now) (known k.now)) }
    ensures head { IfOk result (λ q. q ≡ asked (Tag 0) (row p.now) (known k.now)) }
{
    match p {
        Row::Any => Ok(Head::Tag(0)),
        Row::Test {
            head: h,
            parts: ps,
            ..
        } => match k {
            Knowledge::Open(_) => Ok(*h),
            Knowledge::Is(_, ks) => test_of_all(ps, ks, at),
        },
    }
}

#[cycle(test_of)]
fn test_of_all(ps: &[Row], ks: &[Knowledge], at: &mut Vec<usize>) -> Result<Head, NoMemory>
    ensures position { OnOk result (at.new.items ≡ at.old.items ++ positions (parts ps.now) (knowns ks.now)) }
    ensures head { IfOk result (λ q. q ≡ asked_all (Tag 0) (parts ps.now) (knowns ks.now)) }
{
    let j = first_asking(ps, ks);
    if j >= ps.len() {
        return Ok(Head::Tag(0));
    }
    if j >= ks.len() {
        return Ok(Head::Tag(0));
    }
    at.push(j)?;
    test_of(&ps[j], &ks[j], at)
}

// The first of the fields whose pattern asks; past the end of one of the lists where none does.
fn first_asking(ps: &[Row], ks: &[Knowledge]) -> usize
    ensures { result ≡ asking (parts ps.now) (knowns ks.now) }
{
    let mut j = 0;
    for k in ks {
        if j >= ps.len() {
            return j;
        }
        if is_asks(compare(&ps[j], k)) {
            return j;
        }
        j += 1;
    }
    j
}
