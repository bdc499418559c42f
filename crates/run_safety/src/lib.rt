// Runs of sound code on what was loaded from a text are safe. Definitions and their theorems; no code.
#![tactic(auto)]

mod theorems;

pub use theorems::{a_safe_task_stays_safe, a_task_on_a_loaded_text_is_safe};
