// The machine over cells refines the machine over trees: the same ends, cells and peaks.
#![tactic(auto)]

mod agreement_theorems;
pub mod gauge_theorems;

pub use agreement_theorems::{
    a_run_on_cells_ends_as_the_run_on_trees, a_run_on_cells_is_the_run_on_trees,
    a_word_stands_for_one_value, an_entry_has_arguments, an_example_ends_as_on_trees,
    each_step_on_cells_is_the_step_on_trees, words_stand_for_values_of_their_types,
};
