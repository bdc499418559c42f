// The tasks of a list, which take turns over one store: from the bytes of their lines to the lines of what they end in.
#![tactic(auto)]

mod answers;
mod command;
mod printing;
pub mod theorems;
mod turns;

pub use command::tasks;
pub use command_session::runner;
