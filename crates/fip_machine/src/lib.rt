// The machine: the instructions of a verified code over a sealed store. All frames of a run lie in one list of words,
// and a step takes no memory.
#![tactic(auto)]

mod gauge;
mod machine;
mod stack;
mod traced;

pub use gauge::Gauge;
pub use machine::{Ended, Machine};
pub use machine_step::{Highest, Stepped};
pub use stack::{Paused, TaskStack};
