// The parser: from the tokens of a source to the tree of its program. A state says which constructs are open; each
// token leads to the next state.
#![tactic(auto)]

pub mod parser;
mod step;
mod types;
