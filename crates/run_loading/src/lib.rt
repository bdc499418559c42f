// Runs on the text of their arguments: how these lie in a new store, and the files of what runs write to their cells.
// Definitions and their theorems; no code.
#![tactic(auto)]

pub mod theorems;
