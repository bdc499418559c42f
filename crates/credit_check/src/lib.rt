// The rules on credits: what the expressions of a program need of each size, and what patterns and headers give.
#![tactic(auto)]

mod check;
mod context;
mod needs;
mod notes;
mod walk;

pub use check::check_credits;
pub use needs::{add_argument, add_pattern, marked};
