// Nodes get one part more, and their spans.
ghost use Rattle.std.specs.Prelude.{◌≡◌, ◌-◌, ◌^◌, length};
ghost use Rattle.derivation_trees.specs.Trees.{heads};
ghost use Rattle.derivation_trees.specs.Building.{alter, alter_at, with_part, with_span};
ghost use Rattle.derivation_trees.specs.Parts.{HaveFewParts};

use crate::derivation::Node;

/// The node at a place has one part more.
pub fn add_part(nodes: &mut Vec<Node>, place: Option<usize>)
    requires few { HaveFewParts (2 ^ 63) (heads nodes.old.items) }
    ensures added { heads nodes.new.items ≡ alter_at with_part place (heads nodes.old.items) }
    ensures length { length nodes.new.items ≡ length nodes.old.items }
{
    if let Some(place) = place {
        add_part_at(nodes, place);
    }
}

fn add_part_at(nodes: &mut Vec<Node>, place: usize)
    requires few { HaveFewParts (2 ^ 63) (heads nodes.old.items) }
    ensures added { heads nodes.new.items ≡ alter with_part place (heads nodes.old.items) }
    ensures length { length nodes.new.items ≡ length nodes.old.items }
{
    if let Some(node) = nodes.get_mut(place) {
        node.parts += 1;
    }
}

/// The tree of the node at a place ends with the nodes.
pub fn set_span(nodes: &mut Vec<Node>, place: usize)
    ensures set { heads nodes.new.items ≡ alter (with_span (length nodes.old.items - place)) place (heads nodes.old.items) }
    ensures length { length nodes.new.items ≡ length nodes.old.items }
{
    let end = nodes.len();
    if let Some(node) = nodes.get_mut(place) {
        node.span = end.saturating_sub(place);
    }
}
