// The lines of a list of tasks: which functions they call on which values, the cells of these in a store, and how the
// tasks are started.
#![tactic(auto)]

mod list;
mod making;
mod task_line;

pub use list::{ListError, TaskList};
