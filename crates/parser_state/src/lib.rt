// The state of the parser, and the moves from state to state that several of its parts make.
#![tactic(auto)]

pub mod literal;
pub mod moves;
pub mod state;
