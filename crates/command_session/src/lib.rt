// The sessions of a source.
#![tactic(auto)]

pub mod theorems;

pub use command_run as runner;
