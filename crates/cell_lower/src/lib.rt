// From a typed program to code for the machine: each variable, pattern node and value has a register of its own, a
// match is a tree of tests, and each clause's body stands once in the code.
#![tactic(auto)]

mod bodies;
mod calls;
mod choices;
mod copies;
mod functions;
mod limits;
mod lowerer;
mod marks;
mod matches;
mod values;
mod weakening;

pub use functions::lower;
