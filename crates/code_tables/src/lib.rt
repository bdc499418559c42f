// Whether the tables of a code are sound: its types, and its functions' names. All else of a code speaks of types and
// functions by their numbers, so that this is checked first.
#![tactic(auto)]

mod finite;
mod names;
mod tables;

pub use tables::are_sound_tables;
