// Correctness of the compiler, end to end: the code of an accepted source evaluates as the source, is sound, and has a file.
#![tactic(auto)]

mod encoding_theorems;
mod semantics_theorems;
mod soundness_theorems;

pub use encoding_theorems::the_code_of_an_accepted_source_has_a_file;
pub use semantics_theorems::{
    accepted_code_means_its_program, accepted_code_means_its_source,
    the_types_of_a_source_are_sound,
};
pub use soundness_theorems::{
    accepted_code_has_sound_tables, accepted_code_shares_with_its_program,
    accepted_functions_keep_the_limits, accepted_instances_are_derived,
    accepted_programs_are_as_asked, code_with_these_headers_is_headed, laid_accepted_code_is_sound,
    lowered_accepted_code_has_its_stack_numbers, lowered_accepted_code_is_sound,
};
