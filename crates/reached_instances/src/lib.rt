// What a program without static parameters is made of: its instances, one for each list of static arguments with which
// a function is reached from the roots, and its types; and the rules on what is given for static parameters.
#![tactic(auto)]

mod fits;
pub mod instances;
pub mod numbering;
pub mod source;
pub mod type_instances;
mod types;
mod uses;

pub use closed_types::{closed, mentions};
