// What a step of a machine does: one instruction of a verified code, over the words of all frames and a store of cells.
#![tactic(auto)]

mod cursor;
mod rows;

pub use code_verify as verifier;
pub use cursor::{Bounds, Cursor, Highest};
pub use rows::{Beside, Stepped, advance, function_at};
