// Files of traces: written, read, and played again. What is written and read is exactly what the definitions of traces
// say, and a file that is none is refused at exactly their place.
#![tactic(auto)]

mod read;
mod reader;
mod replay;
mod write;

pub use read::read_trace;
pub use replay::cells_after;
pub use write::write_trace;
