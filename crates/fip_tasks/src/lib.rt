// Tasks that take turns over one store.
#![tactic(auto)]

mod task;
mod tasks;

pub use task::{Start, Turned};
pub use tasks::Tasks;
