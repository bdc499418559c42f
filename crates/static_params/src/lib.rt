// Monomorphisation: from a program with static parameters to its instances, one for each list of static arguments with
// which a function is reached from the roots.
#![tactic(auto)]

mod flatten;
mod specialised;
mod table;
pub mod theorems;

pub use specialised::specialise;
