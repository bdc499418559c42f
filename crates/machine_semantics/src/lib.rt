// Runs of code: what words and cells stand for, what each instruction does, and how a run ends. The definitions are in
// `specs`; their theorems are the contracts of functions that do nothing.
#![tactic(auto)]

mod theorems;

pub use theorems::{
    a_drop_reads_the_tree_of_its_word, a_run_has_one_next_step, a_step_keeps_places_and_sizes,
    an_ended_run_has_no_step, an_example_forgets, an_example_runs, no_events_change_nothing,
    replay_gives_the_cells,
};
