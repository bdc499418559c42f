// What the functions of the library give: theorems on the programs of `list`, `tree`, `rbtree` and `finger`. Each is
// the contract of a function that does nothing.
#![tactic(auto)]

pub mod finger;
pub mod list;
pub mod rbtree;
pub mod tree;
