// Sessions: many runs over one store, in which names hold values from one line to the next.
#![tactic(auto)]

mod book;
mod call;
mod commands;
mod plan;
mod ready;
mod reply;
mod session;
mod sweep;

pub use book::Held;
pub use commands::session_reply;
pub use session::Session;
