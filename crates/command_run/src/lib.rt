// The run of a function of a verified code on an input: from the bytes of its arguments to the lines of its results.
#![tactic(auto)]

mod loading;
mod printing;
mod running;

pub use command_eval as evaluator;
pub use command_eval::source;
pub use loading::started;
pub use printing::values_text;
pub use running::{Left, failure_of, leave, run, types_of};
