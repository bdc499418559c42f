// Correctness of tasks: each gets the answer that it would have alone, which is its source's.
#![tactic(auto)]

pub mod answer_theorems;
pub mod gauge_theorems;
pub mod turn_theorems;
