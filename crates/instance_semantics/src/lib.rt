// The semantics of programs without static parameters: the evaluation of instances by their numbers, on trees; and that
// each instance evaluates as its function, with its static arguments looked up.
#![tactic(auto)]

pub mod evaluation_theorems;
pub mod instance_theorems;
