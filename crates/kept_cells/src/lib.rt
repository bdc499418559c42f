// Kept cells: no step of sound code changes a cell that its run is to keep.
#![tactic(auto)]

mod theorems;

pub use theorems::{a_run_leaves_kept_cells_as_they_were, no_step_changes_a_kept_cell};
