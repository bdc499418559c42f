// What lies outside of a program: sources, sinks and folders, in memory and for real.
#![tactic(auto)]

pub mod all;
pub mod memory;
pub mod outside;
pub mod real;
