// The run of a function of a verified code on an input, with what it writes to its cells kept: the file of its trace;
// and what the writes of such a file make of its cells.
#![tactic(auto)]

mod replaying;
mod theorems;
mod tracing;

pub use replaying::replay;
pub use theorems::an_input_has_one_run;
pub use tracing::trace;
