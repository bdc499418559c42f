// Forward simulation of lowering: lowered code, on trees and on cells, ends as its program evaluates.
#![tactic(auto)]

mod cell_theorems;
mod evaluation_theorems;
mod run_theorems;

pub use cell_theorems::code_on_cells_means_its_program;
pub use evaluation_theorems::{
    typed_code_means_its_program, typed_patterns_are_of_their_types,
    typed_programs_keep_their_types,
};
pub use run_theorems::{
    a_tree_run_has_one_end, lowered_code_has_the_peak_of_its_program,
    lowered_code_means_its_program,
};
