// After a type: what a token does, by what the type is read for.
#![tactic(auto)]

pub mod following;
