// Correctness of the machine, end to end: a run of verified code of a source ends as the source evaluates, with its peak.
#![tactic(auto)]

mod machine_theorems;
mod run_theorems;

pub use machine_theorems::{drops_are_known, no_end_is_left_out};
pub use run_theorems::{
    a_fip_entry_runs_in_place, a_gauge_of_a_fip_entry_is_flat, a_loaded_function_begins,
    a_machine_ends_as_the_source_means, a_run_is_measured_by_its_evaluation,
    meant_words_can_be_printed, what_is_loaded_from_a_text_begins,
};
