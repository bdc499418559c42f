// Derivations of programs, made in one walk.
#![tactic(auto)]

mod asking;
mod context;
mod credits;
mod error;
mod found;
mod make;
mod tables;
mod uses;

pub use context::Context;
pub use error::LineError;
pub use found::{Bound, Found, Occurrence, found_in};
pub use make::{derive, line_of};
pub use tables::Uses;
