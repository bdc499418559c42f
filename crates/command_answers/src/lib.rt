// The commands, and what each answers by one relation: definitions and their theorems.
#![tactic(auto)]

pub mod theorems;

pub use command_library::{evaluator, generate, library, runner, source, tasks};
pub use command_trace::{replay, trace};
