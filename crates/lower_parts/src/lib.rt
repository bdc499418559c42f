// The parts by which a function is lowered: what its program shares, the tests of a match, and, in specs/ and proofs/,
// what is said of each piece of code that is written.
#![tactic(auto)]

pub mod choice;
pub mod context;
pub mod match_state;

pub use lower_frame as frame;
