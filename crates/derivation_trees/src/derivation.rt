// What a derivation is: lines of nodes.
ghost use Rattle.std.specs.Prelude.{◌≡◌, [], length, OnOk};
ghost use Rattle.derivation_trees.specs.Trees.{heads};
ghost use Rattle.derivation_trees.specs.Parts.{AreThere, HaveFewParts};

use crate::parts::{add_part, set_span};
use fip_base::plain::NoMemory;
use std::alloc::Global;

/// A rule of the calculus.
#[derive(Clone, Copy, PartialEq, Eq)]
pub enum RuleName {
    Variable,
    Scalar,
    Tuple,
    Atom,
    Reuse,
    Let,
    Call,
    /// A match that only reads its scrutinee.
    Match,
    /// A match that takes its scrutinee apart.
    TakingMatch,
    Weaken,
}

/// Credits of one size.
#[derive(Clone, Copy, PartialEq, Eq)]
pub struct Credit {
    /// From 1 to 16.
    pub size: u8,
    /// At least 1.
    pub count: u32,
}

/// A node of a derivation: a rule, and what it uses up. The variables are the function's parameters and then its
/// binders in the order of the core form, a let's before those inside what it binds, all numbered from 0.
#[derive(Drop)]
pub struct Node {
    pub rule: RuleName,
    /// The owned variables' numbers, rising. A text encodes those below 2^32.
    pub variables: Vec<usize>,
    /// The credits, their sizes rising.
    pub credits: Vec<Credit>,
    /// The number of its parts.
    pub parts: usize,
    /// The number of the nodes of its tree, itself counted: the next node that isn't below it is so many places
    /// after it.
    pub span: usize,
}

/// The derivation of an instance: the nodes of a tree, each before its parts, its first part directly after it.
#[derive(Drop)]
pub struct Line {
    instance: usize,
    nodes: Vec<Node>,
}

impl Line {
    /// The derivation of the instance of this number; nodes that are open are closed.
    pub fn new(instance: usize, builder: Builder) -> Line
        ensures instance { result.instance ≡ instance }
        ensures nodes { builder.open.items ≡ [] → result.nodes.items ≡ builder.nodes.items }
    {
        Line {
            instance,
            nodes: builder.into_nodes(),
        }
    }

    /// The number of the instance.
    pub fn instance(&self) -> usize
        ensures instance { result ≡ self.now.instance }
    {
        self.instance
    }

    /// Its nodes.
    pub fn nodes(&self) -> &[Node]
        ensures nodes { result.now ≡ self.now.nodes.items }
    {
        self.nodes.as_slice()
    }
}

/// A derivation: lines for instances, their numbers rising.
#[derive(Drop)]
pub struct Derivation {
    lines: Vec<Line>,
}

impl Derivation {
    /// The derivation with these lines.
    pub fn new(lines: Vec<Line>) -> Derivation
        ensures lines { result.lines.items ≡ lines.items }
    {
        Derivation { lines }
    }

    /// Its lines.
    pub fn lines(&self) -> &[Line]
        ensures lines { result.now ≡ self.now.lines.items }
    {
        self.lines.as_slice()
    }
}

/// Nodes that come one after another, and which of them still wait for parts.
#[derive(Drop)]
pub struct Builder {
    nodes: Vec<Node>,
    open: Vec<usize>,
    ghost there: { AreThere (length nodes.items) open.items },
    ghost few: { HaveFewParts (length nodes.items) (heads nodes.items) },
}

impl Builder {
    ghost use Rattle.derivation_trees.specs.Building.{built, nothing_built, opened, closed};

    /// No node.
    pub fn new(alloc: Global) -> Builder
        ensures none { built result ≡ nothing_built }
    {
        Builder {
            nodes: Vec::new(alloc),
            open: Vec::new(alloc),
        }
    }

    /// How many nodes are open.
    pub fn depth(&self) -> usize
        ensures depth { result ≡ length self.now.open.items }
    {
        self.open.len()
    }

    /// One more part of the innermost open node, or the root. It is open.
    pub fn open(
        &mut self,
        rule: RuleName,
        variables: Vec<usize>,
        credits: Vec<Credit>,
    ) -> Result<(), NoMemory>
        ensures opened { OnOk result (built self.new ≡ opened (built self.old) rule variables.items credits.items) }
    {
        let around = self.open.last().copied();
        let place = self.nodes.len();
        self.nodes.push(Node {
            rule,
            variables,
            credits,
            parts: 0,
            span: 1,
        })?;
        self.open.push(place)?;
        add_part(&mut self.nodes, around);
        Ok(())
    }

    /// The innermost open node has all its parts.
    pub fn close(&mut self)
        ensures closed { built self.new ≡ closed (built self.old) }
    {
        if let Some(place) = self.open.pop() {
            set_span(&mut self.nodes, place);
        }
    }

    /// The nodes; those that are open are closed.
    fn into_nodes(mut self) -> Vec<Node>
        ensures nodes { self.open.items ≡ [] → result.items ≡ self.nodes.items }
    {
        for _ in 0..self.depth() {
            self.close();
        }
        self.nodes
    }
}
