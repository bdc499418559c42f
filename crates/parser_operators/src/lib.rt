// After an operand: operators, the end of an expression, and the end of what is in a bracket.
#![tactic(auto)]

mod levels;
pub mod names;
pub mod operators;
