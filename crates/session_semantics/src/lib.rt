// Sessions and lists of tasks: what they reply. Definitions and their theorems; no code.
#![tactic(auto)]

pub mod theorems;
