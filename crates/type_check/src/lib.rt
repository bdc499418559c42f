// The types of the instances' bodies: whether they are typed, and each node's type.
//
// A body is walked once, and its slots are filled on the way. A violation ends nothing: it is noted, what has no type
// because of it breaks no further rule, and the least of all violations is the refusal.
#![tactic(auto)]

mod arguments;
mod check;
mod expected;
mod expressions;
mod lets;
mod patterns;
mod results;
mod scope;
mod tables;
pub mod theorems;
mod walk;

pub use check::check_types;
