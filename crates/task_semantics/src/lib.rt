// The semantics of tasks that share a store: schedules of turns, what one task sees, and that tasks stay apart.
#![tactic(auto)]

pub mod loading_theorems;
pub mod schedule_theorems;
pub mod separation_theorems;
