// What the lowering of a function knows of its registers, and which instructions stand for a tree: the relation between a
// program and its code, without how the code is found. It serves the proofs that lowered code is sound and evaluates as its
// program.
#![tactic(auto)]

mod function_theorems;
mod held;
mod layout_theorems;
mod match_theorems;

pub use function_theorems::an_example_is_lowered;
pub use held::{Credit, Held};
pub use layout_theorems::{
    an_example_is_laid, an_example_that_drops_is_laid, an_example_with_a_let_is_laid,
};
pub use match_theorems::{
    a_chosen_clause_gets_its_cells, a_chosen_clause_gets_its_values,
    a_test_leads_where_its_sides_do, entries_report_what_is_so,
};
