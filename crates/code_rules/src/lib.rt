// What sound code is: the definition that a verifier meets. It is in specs/; its theorems are in `theorems`.
#![tactic(auto)]

mod rule;
pub mod theorems;

pub use rule::SoundRule;
