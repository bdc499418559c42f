// What a run over a store that holds other values leaves of them. Definitions and their theorems; no code.
#![tactic(auto)]

pub mod theorems;
