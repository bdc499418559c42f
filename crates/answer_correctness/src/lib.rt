// The one relation of answers: what is enough for each of them, that there is one, and examples. Theorems; no code.
#![tactic(auto)]

pub mod empty;
pub mod evaluations;
pub mod existence;
pub mod members;
pub mod runs;
pub mod stored_files;
pub mod theorems;
