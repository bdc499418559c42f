// Monomorphisation is correct: each instance of a source evaluates as its function does with the static arguments
// bound.
#![tactic(auto)]

pub mod instance_theorems;
pub mod source_theorems;
