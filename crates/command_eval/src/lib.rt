// The evaluation of a source's root on an input: from the bytes of its arguments to the lines of its results.
#![tactic(auto)]

mod arguments;
mod evaluation;

pub use command_source as source;
pub use evaluation::evaluate;
