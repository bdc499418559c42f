// The report of a source: its phases, joined. Definitions and their theorems, no code.
#![tactic(auto)]

mod binder_theorems;
pub mod report_theorems;

pub use binder_theorems::{
    typed_programs_have_distinct_binders, typed_programs_number_their_binders,
};
