// Derivations agree with what defines them: with the calculus of ownership, with their text, and with what one walk makes.
#![tactic(auto)]

mod calculus_theorems;
mod text_theorems;
mod walk_theorems;

pub use calculus_theorems::derivations_follow_the_calculus;
pub use text_theorems::derivations_are_read_from_their_text;
pub use walk_theorems::walked_derivations_are_the_defined_ones;
