// Whether a derivation is one of a program.
#![tactic(auto)]

mod accept;
mod binders;
mod bodies;
mod calls;
mod counts;
mod expressions;
mod heads;
mod lists;
mod nodes;
mod numbering;
mod parts;
mod scalar_types;
mod scope;
mod values;
mod walk;

pub use accept::check;
