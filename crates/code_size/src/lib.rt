// How large the code of an instance may be: definitions and their theorems; no code.
#![tactic(auto)]

pub mod theorems;
