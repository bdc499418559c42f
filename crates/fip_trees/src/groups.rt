// The call groups of a program, and what its instances hold of the stack.
ghost use Rattle.std.specs.Prelude.{◌≡◌, List, None, Some, MatchOption, option_map, option_and_then, slice_get};
ghost use Rattle.fip_trees.specs.declared.groups.Member.{Member as a_member};

use fip_base::plain::Stack;
use std::marker::Model;

/// What is known of an instance: the number of its group, its registers, and what a run of it holds of the stack.
#[derive(Clone, Copy, PartialEq, Eq)]
pub struct Member {
    /// Two instances have the same number exactly where each reaches the other by calls, or they are one.
    pub group: usize,
    /// Parameters, header credits, binders, and the constructors and literals in expressions and in patterns.
    pub registers: usize,
    /// None exactly for an instance that isn't fip.
    pub stack: Option<Stack>,
}

/// The call groups of a program.
#[derive(Drop)]
pub struct Groups {
    members: Vec<Member>,
}

impl Model for Groups {
    ghost Value = { List a_member };

    ghost view = { λ g. g.members.items };
}

impl Groups {
    /// The groups of these instances, in order of their numbers.
    pub fn new(members: Vec<Member>) -> Groups
        ensures same { result ≡ members.items }
    {
        Groups { members }
    }

    /// What is known of an instance; none where there are fewer.
    pub fn member(&self, instance: usize) -> Option<&Member>
        ensures held { MatchOption result (slice_get self.now instance ≡ None)
            (λ m. slice_get self.now instance ≡ Some m.now) }
    {
        self.members.get(instance)
    }

    /// What a run of an instance holds of the stack at the most; none exactly where it isn't fip, or there are fewer.
    pub fn stack_of(&self, instance: usize) -> Option<Stack>
        ensures held { result ≡ option_and_then (λ m. m.stack) (slice_get self.now instance) }
    {
        match self.members.get(instance) {
            Some(member) => member.stack,
            None => None,
        }
    }

    /// The registers of an instance; none where there are fewer instances.
    pub fn registers_of(&self, instance: usize) -> Option<usize>
        ensures held { result ≡ option_map (λ m. m.registers) (slice_get self.now instance) }
    {
        match self.members.get(instance) {
            Some(member) => Some(member.registers),
            None => None,
        }
    }
}
