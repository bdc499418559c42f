// What the expressions of a program need.
ghost use Rattle.std.specs.Prelude.{◌≡◌, List, map};
ghost use Rattle.fip_trees.specs.NeedsView.{needs_row, needs_of};
ghost use Rattle.fip_trees.specs.declared.needs.Need.{Need as a_need};

use crate::sizes::Sizes;
use std::marker::Model;

/// What an expression needs: the credits of each size that it takes from around it.
#[derive(Clone, Copy, PartialEq, Eq)]
pub struct Need {
    pub sizes: Sizes,
    /// The number of the expressions in it, itself counted: the next expression that isn't a part of it has its number
    /// plus this many.
    pub span: usize,
}

/// What each expression of each instance needs.
///
/// The expressions of an instance are numbered from 0, each before its parts. The body is the first one. A block is an
/// expression, whose parts are what its bindings bind, in order, and then its last expression; a block in brackets is
/// no further one beside it. The parts of a match are its clauses' bodies, in order; arguments and patterns are no
/// expressions of their own. A plain instance has none.
#[derive(Drop)]
pub struct Needs {
    instances: Vec<Vec<Need>>,
}

impl Model for Needs {
    ghost Value = { List (List a_need) };

    ghost view = { λ n. map needs_row n.instances.items };
}

impl Needs {
    /// The needs of these instances, in order of their numbers.
    pub fn new(instances: Vec<Vec<Need>>) -> Needs
        ensures same { result ≡ map needs_row instances.items }
    {
        Needs { instances }
    }

    /// What the expressions of an instance need, in order of their numbers; nothing where there are fewer instances.
    pub fn of(&self, instance: usize) -> &[Need]
        ensures held { result.now ≡ needs_of self.now instance }
    {
        match self.instances.get(instance) {
            Some(needs) => needs.as_slice(),
            None => &[],
        }
    }
}
