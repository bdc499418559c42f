// From the bytes of a source to its typed program and its code, or to the report of what it breaks.
#![tactic(auto)]

mod phases;

pub use phases::{Lowered, front, typed_of};
