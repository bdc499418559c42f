// Bounds on the runs of sound code: cells in use, frames and words of the stack, steps.
#![tactic(auto)]

mod bound_theorems;
pub mod stack_theorems;

pub use bound_theorems::{
    a_run_takes_few_steps, fip_runs_are_never_too_deep, fip_runs_give_back_their_cells,
    fip_runs_release_nothing, fip_runs_stay_within_their_stack, held_cells_are_those_of_the_trees,
    held_cells_only_fall,
};
