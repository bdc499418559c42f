// Derivations as text, both ways. A text is
//
//     text = { line }                           the lines' numbers rise
//     line = num " " node LF
//     node = RULE "[" [ num { " " num } ] "|" [ num ":" num { " " num ":" num } ] "]"
//            [ "(" node { "," node } ")" ]
//
// where RULE is a rule's name. In the brackets are variables, their numbers rising, and then sizes from 1 to 16,
// rising, each with a count from 1. A num is below 2^32 and has no leading zero. Nodes nest at most 10,000 deep.
#![tactic(auto)]

mod bounds;
mod error;
mod read;
mod reader;
mod rules;
mod spot;
mod text;
pub mod theorems;
mod write;

pub use error::{ProofError, TextError};
pub use read::read_derivation;
pub use text::Text;
pub use write::{write_derivation, write_line};
