// The rule on tail calls, and what instances hold of the stack at the most.
#![tactic(auto)]

mod calls;
mod check;
mod count;
mod notes;

pub use check::{groups, stack_of};
