// Derived instances run in place: they keep the cells of each size, and their stack stays within the bound.
#![tactic(auto)]

pub mod cell_theorems;
pub mod run_theorems;
pub mod stack_theorems;
