// The heads of functions, and data types: what a token does in each place of them.
#![tactic(auto)]

pub mod data_type;
pub mod function_head;
