// Separation: in every state of sound code owned, borrowed and credited cells are apart, each instruction can be done, and
// what the kinds say holds after it.
#![tactic(auto)]

mod state_theorems;

pub use state_theorems::{
    a_loaded_state_is_apart, an_example_begins, each_step_keeps_what_holds, every_state_is_apart,
    kinds_are_there, no_instruction_is_stuck, results_are_apart,
};
