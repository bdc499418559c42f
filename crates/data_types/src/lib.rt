// What a program declares, or the least violation of the rules on declarations: E10 to E15, and E63.
#![tactic(auto)]

mod bits;
mod bodies;
mod claims;
mod declared;
mod found;
mod headers;
mod marking;
mod names;
mod notes;
mod order;
mod program;
mod types;
mod valued;
mod written;

pub use declared::declare;
pub use program::DeclaredProgram;
