// The rules on ownership, by one walk over each instance.
#![tactic(auto)]

mod check;
mod log;
mod scope;
mod state;
mod walk;
mod world;

pub use check::check_owned;
