// What the commands do that need no file: the texts of the library, and the tree that is made of a seed's keys, a run
// of the library's `build` on the text of these keys, and what is reported of it.
#![tactic(auto)]

mod arguments;
mod keys;
mod making;
mod printing;

pub use command_tasks::runner::{evaluator, source};
pub use command_tasks::{runner, tasks};
pub use making::generate;
pub use printing::library;
