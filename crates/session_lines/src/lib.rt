// Lines of sessions and of lists of tasks: their tokens, what they ask for, and the functions that they call by name.
#![tactic(auto)]

mod entries;
mod line;
mod lines;
mod scan;

pub use entries::{Entries, frames_of};
pub use line::{CallLine, Line, Written, line_of};
pub use lines::line_at;
pub use scan::{Scanner, Span};
