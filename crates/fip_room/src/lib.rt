// The room of a run: how much it may take.
#![tactic(auto)]

mod room;

pub use room::Room;
