// Nodes of a derivation by their rules.
ghost use Rattle.std.specs.Prelude.{◌≡◌, ◌≤◌, ◌+◌, ℕ, List, [], ◌∷◌, false, IsTrue, IfSome, IsSomeAnd};
ghost use Rattle.fip_rules.specs.World.{is_fip};
ghost use Rattle.fip_trees.specs.Sizes.{number};
ghost use Rattle.ownership_calculus.specs.Terms.{Item, given};
ghost use Rattle.derivation_trees.specs.declared.derivation.RuleName.TheVariants as R;
ghost use Rattle.derivation_trees.specs.declared.derivation.Credit as D;
ghost use Rattle.derivation_trees.specs.Trees.{Tree, Branch, Trees, NoTrees};
ghost use Rattle.derivation_check.specs.Owned.{is_weaken, owned, root, IsOwned, AreOwned, Under, Leaf};
ghost use Rattle.derivation_check.specs.Places.{at, parts, node_with, weakens, Leaves, Parted, IsRising};

use crate::counts::Counts;
use crate::lists::is_within;
use crate::nodes::{are_owned, credits_at, following, is_owned, node_at, variables_at};
use crate::parts::{is_parted, take_parts};
use derivation_trees::{Node, RuleName};
use fip_base::plain::FunKind;

/// A node, and the place of its first part.
#[derive(Clone, Copy)]
pub struct Found<'a> {
    pub node: &'a Node,
    pub first: usize,
}

// Whether a rule is WEAKEN.
fn is_weaken(rule: RuleName) -> bool
    ensures weakens { result ≡ is_weaken rule }
{
    match rule {
        RuleName::Variable => false,
        RuleName::Scalar => false,
        RuleName::Tuple => false,
        RuleName::Atom => false,
        RuleName::Reuse => false,
        RuleName::Let => false,
        RuleName::Call => false,
        RuleName::Match => false,
        RuleName::TakingMatch => false,
        RuleName::Weaken => true,
    }
}

// Whether a node that weakens leaves no more to its one part, at this place, than it has.
#[tactic(auto, using(crate::proofs::Weakened::within_both))]
fn leaves(node: &Node, nodes: &[Node], part: usize, next: usize) -> bool
    requires owned { IsOwned next (node_with nodes.now part node.now) }
    ensures sound { IsTrue result → (node.now.parts ≡ 1) × IsOwned next (at nodes.now part)
        × ((i : Item) → root (at nodes.now part) i ≤ owned node.now.variables.items node.now.credits.items i) }
    ensures complete { node.now.parts ≡ 1 → IsOwned next (at nodes.now part) →
        ((i : Item) → root (at nodes.now part) i ≤ owned node.now.variables.items node.now.credits.items i) →
        IsTrue result }
{
    if node.parts != 1 {
        return false;
    }
    if !is_owned(nodes, part, next) {
        return false;
    }
    if !is_within(variables_at(nodes, part), &node.variables) {
        return false;
    }
    let mut counts = Counts::of(&node.credits);
    counts.take_all(credits_at(nodes, part))
}

// The place of the node below those that weaken.
#[tactic(auto, using(crate::proofs::Weakened::below_nodes))]
fn below(nodes: &[Node], place: usize, kind: FunKind, next: usize) -> Option<usize>
    requires owned { IsOwned next (at nodes.now place) }
    ensures found { IfSome result (λ p. (weakens (at nodes.now p) ≡ false) × IsOwned next (at nodes.now p)
        × Under (is_fip kind) next (at nodes.now place) (at nodes.now p)) }
    ensures only { (u : Tree) → weakens u ≡ false → Under (is_fip kind) next (at nodes.now place) u →
        IsSomeAnd result (λ p. at nodes.now p ≡ u) }
{
    let mut place = place;
    while let Some(node) = node_at(nodes, place) {
        if !is_weaken(node.rule) {
            return Some(place);
        }
        if kind.is_fip() {
            return None;
        }
        if !leaves(node, nodes, place + 1, next) {
            return None;
        }
        place += 1;
    }
    None
}

/// The node below those that weaken, where it has this rule.
pub fn ruled<'a>(
    nodes: &'a [Node],
    place: usize,
    kind: FunKind,
    next: usize,
    rule: RuleName,
) -> Option<Found<'a>>
    requires owned { IsOwned next (at nodes.now place) }
    requires rule { is_weaken rule ≡ false }
    ensures found { IfSome result (λ f. (f.node.now.rule ≡ rule) × IsOwned next (node_with nodes.now f.first f.node.now)
        × Under (is_fip kind) next (at nodes.now place) (node_with nodes.now f.first f.node.now)) }
    ensures only { (xs : List ℕ) (cs : List D.Credit) (ts : Trees) →
        Under (is_fip kind) next (at nodes.now place) (Branch rule xs cs ts) →
        IsSomeAnd result (λ f. node_with nodes.now f.first f.node.now ≡ Branch rule xs cs ts) }
{
    match below(nodes, place, kind, next) {
        None => None,
        Some(place) => with_rule(nodes, place, rule),
    }
}

// The node at a place, where it has this rule.
fn with_rule<'a>(nodes: &'a [Node], place: usize, rule: RuleName) -> Option<Found<'a>>
    ensures found { IfSome result (λ f. (f.node.now.rule ≡ rule)
        × (at nodes.now place ≡ node_with nodes.now f.first f.node.now)) }
    ensures only { (xs : List ℕ) (cs : List D.Credit) (ts : Trees) → at nodes.now place ≡ Branch rule xs cs ts →
        IsSomeAnd result (λ f. node_with nodes.now f.first f.node.now ≡ Branch rule xs cs ts) }
{
    match node_at(nodes, place) {
        None => None,
        Some(node) => {
            if node.rule != rule {
                return None;
            }
            Some(Found {
                node,
                first: place + 1,
            })
        }
    }
}

/// Whether the node has this rule, nothing else and no parts.
pub fn is_leaf(nodes: &[Node], place: usize, kind: FunKind, next: usize, rule: RuleName) -> bool
    requires owned { IsOwned next (at nodes.now place) }
    requires rule { is_weaken rule ≡ false }
    ensures sound { IsTrue result → Leaf (is_fip kind) next rule (at nodes.now place) }
    ensures complete { Leaf (is_fip kind) next rule (at nodes.now place) → IsTrue result }
{
    match ruled(nodes, place, kind, next, rule) {
        None => false,
        Some(found) => is_bare(found.node),
    }
}

// Whether a node has nothing and no parts.
fn is_bare(node: &Node) -> bool
    ensures sound { IsTrue result → (node.now.variables.items ≡ []) × (node.now.credits.items ≡ [])
        × (node.now.parts ≡ 0) }
    ensures complete { node.now.variables.items ≡ [] → node.now.credits.items ≡ [] → node.now.parts ≡ 0 →
        IsTrue result }
{
    node.parts == 0 && node.variables.is_empty() && node.credits.is_empty()
}

/// Whether the node is that of an owned variable of this number, which it has, and nothing else.
pub fn is_variable(nodes: &[Node], place: usize, kind: FunKind, next: usize, number: usize) -> bool
    requires owned { IsOwned next (at nodes.now place) }
    ensures sound { IsTrue result → Under (is_fip kind) next (at nodes.now place) (Branch R.Variable (number ∷ []) []
        NoTrees) }
    ensures complete { Under (is_fip kind) next (at nodes.now place) (Branch R.Variable (number ∷ []) [] NoTrees) →
        IsTrue result }
{
    match ruled(nodes, place, kind, next, RuleName::Variable) {
        None => false,
        Some(found) => has_one(found.node, number),
    }
}

// Whether a node has just this variable and no parts.
fn has_one(node: &Node, number: usize) -> bool
    ensures sound { IsTrue result →
        (node.now.variables.items ≡ number ∷ []) × (node.now.credits.items ≡ []) × (node.now.parts ≡ 0) }
    ensures complete { node.now.variables.items ≡ number ∷ [] → node.now.credits.items ≡ [] → node.now.parts ≡ 0 →
        IsTrue result }
{
    if node.parts != 0 || !node.credits.is_empty() {
        return false;
    }
    if node.variables.len() != 1 {
        return false;
    }
    node.variables[0] as usize == number
}

/// Whether what a node has, with these credits of its own left, splits over its parts.
pub fn splits(nodes: &[Node], found: &Found<'_>, next: usize, counts: Counts) -> bool
    requires owned { IsOwned next (node_with nodes.now found.now.first found.now.node.now) }
    ensures sound { IsTrue result → Parted next found.now.node.now.variables.items (number counts.counts)
        (parts nodes.now found.now.first found.now.node.now.parts) }
    ensures complete { Parted next found.now.node.now.variables.items (number counts.counts)
        (parts nodes.now found.now.first found.now.node.now.parts) → IsTrue result }
{
    let node = found.node;
    if !are_owned(nodes, found.first, node.parts, next) {
        return false;
    }
    if !is_parted(nodes, found.first, node.parts, &node.variables) {
        return false;
    }
    let mut counts = counts;
    if !take_parts(&mut counts, nodes, found.first, node.parts) {
        return false;
    }
    counts.is_empty()
}
