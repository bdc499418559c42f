// An accepted source has derivations: theorems, no code.
#![tactic(auto)]

mod theorems;

pub use theorems::{
    accepted_programs_are_numbered, accepted_programs_are_ready, accepted_programs_have_derivations,
};
