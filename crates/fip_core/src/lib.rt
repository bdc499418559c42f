// The core form of a program: from the tree that the source has to bound parts and numbered binders.
#![tactic(auto)]

pub mod core_of;
mod scope;
