// What instructions do to cells beside their fields, and operators on ints, as a machine calculates them.
#![tactic(auto)]

mod arithmetic;
mod named;
mod release;

pub use arithmetic::{Outcome, bool_word, outcome_of};
pub use named::{cell_of, field_cell_of, has_size, sized_cell_of};
pub use release::{SIZES, release_cell, release_tree};
