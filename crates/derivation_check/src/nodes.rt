// Nodes by their places.
ghost use Rattle.std.specs.Prelude.{◌≡◌, ◌<◌, ℕ, ◌+◌, length, IsTrue, IfSome, IfNone, Some, None, slice_get};
ghost use Rattle.derivation_trees.specs.Trees.{Missing};
ghost use Rattle.ownership_calculus.specs.Terms.{Own, Credit as Size, given};
ghost use Rattle.derivation_check.specs.Calculus.{own_variables};
ghost use Rattle.derivation_check.specs.Owned.{IsOwned, AreOwned, Rising, RisingSizes, root, amount};
ghost use Rattle.derivation_check.specs.Places.{at, parts, following, branch};

use crate::counts::are_sizes;
use crate::lists::rises;
use derivation_trees::{Credit, Node};

// The node at a place.
fn get_node<'a>(nodes: &'a [Node], place: usize) -> Option<&'a Node>
    ensures some { IfSome result (λ n. slice_get nodes.now place ≡ Some n.now) }
    ensures none { IfNone result (slice_get nodes.now place ≡ None) }
    ensures inside { IfSome result (λ _. place < length nodes.now) }
{
    nodes.get(place)
}

// How many nodes there are.
fn length_of(nodes: &[Node]) -> usize
    ensures count { result ≡ length nodes.now }
    ensures fits { result < 18446744073709551616 }
{
    nodes.len()
}

/// The node at a place.
#[tactic(auto, using(crate::proofs::Rows::node_there))]
pub fn node_at<'a>(nodes: &'a [Node], place: usize) -> Option<&'a Node>
    ensures some { IfSome result (λ n. at nodes.now place ≡ branch nodes.now place n.now) }
    ensures none { IfNone result (at nodes.now place ≡ Missing) }
    ensures inside { IfSome result (λ _. place < length nodes.now) }
{
    match get_node(nodes, place) {
        Some(node) => Some(node),
        None => None,
    }
}

/// The variables of the node at a place; none where there is no node.
#[tactic(auto, using(crate::proofs::Rows::variables_there))]
pub fn variables_at<'a>(nodes: &'a [Node], place: usize) -> &'a [usize]
    ensures counted { (x : ℕ) → root (at nodes.now place) (Own x) ≡ given x result.now }
    ensures own { own_variables (at nodes.now place) ≡ result.now }
    ensures rise { (d : ℕ) → IsOwned d (at nodes.now place) → Rising 0 d result.now }
{
    match node_at(nodes, place) {
        None => &[],
        Some(node) => node.variables.as_slice(),
    }
}

/// The credits of the node at a place; none where there is no node.
#[tactic(auto, using(crate::proofs::Rows::credits_there))]
pub fn credits_at<'a>(nodes: &'a [Node], place: usize) -> &'a [Credit]
    ensures counted { (k : ℕ) → root (at nodes.now place) (Size k) ≡ amount k result.now }
    ensures rise { (d : ℕ) → IsOwned d (at nodes.now place) → RisingSizes 1 result.now }
{
    match node_at(nodes, place) {
        None => &[],
        Some(node) => node.credits.as_slice(),
    }
}

/// The place after the tree at a place.
#[tactic(auto, using(crate::proofs::Rows::node_after))]
pub fn following(nodes: &[Node], place: usize) -> usize
    ensures tree { at nodes.now result ≡ at nodes.now (following nodes.now place) }
    ensures row { (n : ℕ) → parts nodes.now result n ≡ parts nodes.now (following nodes.now place) n }
{
    match get_node(nodes, place) {
        None => place,
        Some(node) => match place.checked_add(node.span) {
            Some(next) => next,
            None => length_of(nodes),
        },
    }
}

/// Whether what the node at a place has rises, its variables below a bound.
pub fn is_owned(nodes: &[Node], place: usize, below: usize) -> bool
    ensures sound { IsTrue result → IsOwned below (at nodes.now place) }
    ensures complete { IsOwned below (at nodes.now place) → IsTrue result }
{
    match node_at(nodes, place) {
        None => false,
        Some(node) => rises(&node.variables, below) && are_sizes(&node.credits),
    }
}

/// The same of some nodes, one after the other.
pub fn are_owned(nodes: &[Node], first: usize, count: usize, below: usize) -> bool
    ensures sound { IsTrue result → AreOwned below (parts nodes.now first count) }
    ensures complete { AreOwned below (parts nodes.now first count) → IsTrue result }
{
    let mut place = first;
    let mut left = count;
    while left > 0 {
        if !is_owned(nodes, place, below) {
            return false;
        }
        place = following(nodes, place);
        left -= 1;
    }
    true
}
