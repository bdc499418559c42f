// What keeps a command from its result, and the lines that a command prints.
#![tactic(auto)]

mod failure;
mod lines;
mod success;

pub use failure::{Failure, Object};
pub use lines::{bound_line, cells_line, stack_line};
pub use success::{Ends, derived_line, put_function, tree_lines};
