// Which functions call each other, and what runs of them hold of the stack at the most. A function is a number from 0,
// and its calls a list.
#![tactic(auto)]

mod search;
mod stack_numbers;

pub use search::{Call, Partition, partition_of};
pub use stack_numbers::stacks;
