// Runs of code whose registers hold trees in place of words over cells: definitions, and their theorems as contracts of
// functions that do nothing. It lies between what a program means and what its code does to cells.
#![tactic(auto)]

mod theorems;

pub use theorems::{
    a_tree_run_has_one_next_step, an_ended_tree_run_has_no_step, an_example_runs_on_trees,
};
