// Closed types and functions, as trees that share their parts, and what the body of a function mentions: calls,
// annotations, binders. In specs/ is what a program without static parameters is made of.
#![tactic(auto)]

pub mod closed;
pub mod mentions;
