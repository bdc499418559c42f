// A compiled file is run as its source is executed, and an upgraded one as the one before it. Theorems; no code.
#![tactic(auto)]

pub mod theorems;
