// How many bytes the file of a code may have: definitions and their theorems; no code.
#![tactic(auto)]

pub mod theorems;
