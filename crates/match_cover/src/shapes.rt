// E42, a variable twice in a pattern or in the binders of a let; E43, a match of too many clauses or pattern nodes.
ghost use Rattle.std.specs.Prelude.{◌≡◌, ◌++◌, ◌∷◌, [], ◌<◌, ◌+◌, ℕ, List, MatchOption, map, not, IfOk, OnOk};
ghost use Rattle.std.specs.Prelude.{if◌then◌else◌};
ghost use Rattle.fip_trees.specs.Least.{after};
ghost use Rattle.match_cover.specs.FoundView.{found_binders, found_lets, found_match, found_matches};
ghost use Rattle.match_knowledge.specs.View.{patterns_of};
ghost use Rattle.match_cover.specs.PatternView.{erased, joined, match_patterns, parts_nodes};
ghost use Rattle.match_cover.specs.PatternView.{pattern_binders, pattern_nodes, pattern_of};
ghost use Rattle.match_cover.specs.Shapes.{binder_faults, body_faults, is_large, is_met, is_twice, is_unnamed};
ghost use Rattle.match_cover.specs.Shapes.{lets_faults, matches_faults, meet, patterns_faults, size_faults};
ghost use Rattle.match_cover.specs.Shapes.{total_nodes, twice_faults};

use crate::matches::{Found, find_in_block, lets_in_block};
use fip_base::plain::NoMemory;
use fip_base::refusal::Rule;
use fip_language::limits::{MOST_CLAUSES, MOST_PATTERN_NODES};
use fip_trees::least::Least;
use fip_trees::program::{Binder, Block, Clause, Pattern};
use indexmap::IndexSet;
use std::alloc::Global;
use std::marker::Model;

/// Notes where the body of an instance breaks E42 or E43. An error where no memory is left.
#[tactic(auto, using(crate::proofs::Shared::noting))]
pub(crate) fn note_shapes(
    alloc: Global,
    instance: usize,
    body: &Block,
    out: &mut Least,
) -> Result<(), NoMemory>
    ensures { OnOk result (out.new ≡ after out.old (body_faults instance body.now)) }
{
    let mut matches = Vec::new(alloc);
    find_in_block(body, &mut matches)?;
    note_matches(alloc, instance, &matches, out)?;
    let mut lets = Vec::new(alloc);
    lets_in_block(body, &mut lets)?;
    note_lets(alloc, instance, &lets, out)
}

#[tactic(auto, using(crate::proofs::Shared::noting))]
fn note_matches(
    alloc: Global,
    instance: usize,
    matches: &[Found<'_>],
    out: &mut Least,
) -> Result<(), NoMemory>
    ensures { OnOk result (out.new ≡ after out.old (matches_faults instance (found_matches matches.now))) }
{
    for found in matches {
        note_size(instance, found, out)?;
        note_pattern(alloc, instance, &found.first.pattern, out)?;
        note_others(alloc, instance, found.others, out)?;
    }
    Ok(())
}

// E43: too many clauses, or too many pattern nodes in all.
fn note_size(instance: usize, found: &Found<'_>, out: &mut Least) -> Result<(), NoMemory>
    ensures { OnOk result (out.new ≡ after out.old (size_faults instance (found_match found.now))) }
{
    if is_large(found.first, found.others) {
        out.note(Rule::E43, found.place, instance, 0, b"")?;
    }
    Ok(())
}

fn is_large(first: &Clause, others: &[Clause]) -> bool
    ensures { result ≡ is_large (match_patterns first.now others.now) }
{
    if others.len() >= MOST_CLAUSES {
        return true;
    }
    match nodes_left(&first.pattern, MOST_PATTERN_NODES) {
        None => true,
        Some(left) => clauses_left(others, left).is_none(),
    }
}

// How many more nodes there may be after a pattern; none where it has more than so many itself.
#[cycle(nodes)]
fn nodes_left(pattern: &Pattern, most: usize) -> Option<usize>
    ensures { MatchOption result (most < pattern_nodes (erased pattern.now))
        (λ left. left + pattern_nodes (erased pattern.now) ≡ most) }
{
    if most == 0 {
        return None;
    }
    match pattern {
        Pattern::Binder(_) => Some(most - 1),
        Pattern::Literal { .. } => Some(most - 1),
        Pattern::Constructor { patterns, .. } => all_left(patterns, most - 1),
    }
}

#[cycle(nodes)]
fn all_left(patterns: &[Pattern], most: usize) -> Option<usize>
    ensures { MatchOption result (most < parts_nodes (patterns_of (map erased patterns.now)))
        (λ left. left + parts_nodes (patterns_of (map erased patterns.now)) ≡ most) }
{
    let mut left = most;
    for pattern in patterns {
        match nodes_left(pattern, left) {
            None => return None,
            Some(fewer) => left = fewer,
        }
    }
    Some(left)
}

fn clauses_left(clauses: &[Clause], most: usize) -> Option<usize>
    ensures { MatchOption result (most < total_nodes (map erased (map pattern_of clauses.now)))
        (λ left. left + total_nodes (map erased (map pattern_of clauses.now)) ≡ most) }
{
    let mut left = most;
    for clause in clauses {
        match nodes_left(&clause.pattern, left) {
            None => return None,
            Some(fewer) => left = fewer,
        }
    }
    Some(left)
}

#[tactic(auto, using(crate::proofs::Shared::noting))]
fn note_others(
    alloc: Global,
    instance: usize,
    clauses: &[Clause],
    out: &mut Least,
) -> Result<(), NoMemory>
    ensures { OnOk result (out.new ≡ after out.old (patterns_faults instance (map pattern_of clauses.now))) }
{
    for clause in clauses {
        note_pattern(alloc, instance, &clause.pattern, out)?;
    }
    Ok(())
}

// E42 in a pattern, whose variables are met in the order of the text.
fn note_pattern(
    alloc: Global,
    instance: usize,
    pattern: &Pattern,
    out: &mut Least,
) -> Result<(), NoMemory>
    ensures { OnOk result (out.new ≡ after out.old (twice_faults instance [] (pattern_binders pattern.now))) }
{
    let mut binders = Vec::new(alloc);
    find_binders(pattern, &mut binders)?;
    note_twice(alloc, instance, &binders, out)
}

// Appends the variables of a pattern.
#[cycle(binders)]
fn find_binders<'a>(pattern: &'a Pattern, found: &mut Vec<&'a Binder>) -> Result<(), NoMemory>
    ensures { OnOk result (found_binders found.new.items ≡
        found_binders found.old.items ++ pattern_binders pattern.now) }
{
    match pattern {
        Pattern::Binder(binder) => {
            found.push(binder)?;
            Ok(())
        }
        Pattern::Literal { .. } => Ok(()),
        Pattern::Constructor { patterns, .. } => find_all_binders(patterns, found),
    }
}

#[cycle(binders)]
fn find_all_binders<'a>(
    patterns: &'a [Pattern],
    found: &mut Vec<&'a Binder>,
) -> Result<(), NoMemory>
    ensures { OnOk result (found_binders found.new.items ≡
        found_binders found.old.items ++ joined (map pattern_binders patterns.now)) }
{
    for pattern in patterns {
        find_binders(pattern, found)?;
    }
    Ok(())
}

#[tactic(auto, using(crate::proofs::Shared::noting))]
fn note_lets(
    alloc: Global,
    instance: usize,
    lets: &[&[Binder]],
    out: &mut Least,
) -> Result<(), NoMemory>
    ensures { OnOk result (out.new ≡ after out.old (lets_faults instance (found_lets lets.now))) }
{
    for binders in lets {
        note_let(alloc, instance, binders, out)?;
    }
    Ok(())
}

// E42 in a let.
fn note_let(
    alloc: Global,
    instance: usize,
    binders: &[Binder],
    out: &mut Least,
) -> Result<(), NoMemory>
    ensures { OnOk result (out.new ≡ after out.old (twice_faults instance [] binders.now)) }
{
    let lent = lent(alloc, binders)?;
    note_twice(alloc, instance, &lent, out)
}

// A reference to each of these.
fn lent(alloc: Global, binders: &[Binder]) -> Result<Vec<&Binder>, NoMemory>
    ensures { IfOk result (λ r. found_binders r.items ≡ binders.now) }
{
    let mut lent = Vec::new(alloc);
    for binder in binders {
        lent.push(binder)?;
    }
    Ok(lent)
}

// The names that were met, each once.
#[derive(Drop)]
struct Seen<'a> {
    names: IndexSet<&'a [u8]>,
}

impl<'a> Model for Seen<'a> {
    ghost Value = { List (List ℕ) };

    ghost view = { λ s. map (λ k. k.now) s.names.keys };
}

impl<'a> Seen<'a> {
    // None was met.
    fn new(alloc: Global) -> Self
        ensures empty { result ≡ [] }
    {
        Seen {
            names: IndexSet::new(alloc),
        }
    }

    // Meets a name, and says whether it is new. An error where no memory is left.
    fn insert(&mut self, name: &'a [u8]) -> Result<bool, NoMemory>
        ensures new { IfOk result (λ new. new ≡ not (is_met name.now self.old)) }
        ensures met { IfOk result (λ new. self.new ≡ (if new then self.old ++ name.now ∷ [] else self.old)) }
    {
        let new = self.names.insert(name)?;
        Ok(new)
    }
}

// E42: the variables whose name another has before them.
#[tactic(auto, using(crate::proofs::Shared::noting))]
fn note_twice(
    alloc: Global,
    instance: usize,
    binders: &[&Binder],
    out: &mut Least,
) -> Result<(), NoMemory>
    ensures { OnOk result (out.new ≡ after out.old (twice_faults instance [] (found_binders binders.now))) }
{
    let mut seen = Seen::new(alloc);
    for binder in binders {
        note_binder(instance, binder, &mut seen, out)?;
    }
    Ok(())
}

fn note_binder<'a>(
    instance: usize,
    binder: &'a Binder,
    seen: &mut Seen<'a>,
    out: &mut Least,
) -> Result<(), NoMemory>
    ensures met { OnOk result (seen.new ≡ meet binder.now.name seen.old) }
    ensures faults { OnOk result (out.new ≡ after out.old (binder_faults instance seen.old binder.now)) }
{
    let name = binder.name.as_slice();
    if meet(name, seen)? {
        out.note(Rule::E42, binder.place, instance, 0, name)?;
    }
    Ok(())
}

// Meets a name, and says whether it was met before.
fn meet<'a>(name: &'a [u8], seen: &mut Seen<'a>) -> Result<bool, NoMemory>
    ensures twice { IfOk result (λ twice. twice ≡ is_twice name.now seen.old) }
    ensures met { OnOk result (seen.new ≡ meet name.now seen.old) }
{
    if is_unnamed(name) {
        return Ok(false);
    }
    let new = seen.insert(name)?;
    Ok(!new)
}

// Whether it is the name of binders that nothing names.
fn is_unnamed(name: &[u8]) -> bool
    ensures { result ≡ is_unnamed name.now }
{
    name == b"_".as_slice()
}
