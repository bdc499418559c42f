// Typed programs: with their types filled in they mean the same; they never get stuck, and what they give is of its
// type.
#![tactic(auto)]

pub mod theorems;
