// What a run writes to the cells of its store: kept while it runs.
#![tactic(auto)]

mod error;
mod recorder;
mod tape;
mod trace;

pub use error::{ReadTraceError, TraceError};
pub use recorder::Recorder;
pub use tape::MOST_EVENTS;
pub use trace::{Event, LoadedCell, Trace};
