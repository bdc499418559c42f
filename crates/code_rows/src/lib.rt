// The rows of the rules of sound code: whether a function has the form that is required of it, whether the numbers of
// an instruction are in range, and what an instruction requires of registers and leaves after it. What is broken is
// noted.
#![tactic(auto)]

mod alike;
mod asked_row;
mod calls;
mod ends;
mod form;
mod handing_rows;
mod jump_rows;
mod labels;
mod least;
mod place;
mod plain_rows;
mod range;
mod tree_rows;

pub use asked_row::{note_unless, row};
pub use ends::{is_end, is_fip, releases};
pub use form::is_formed;
pub use jump_rows::arrive;
pub use labels::Labels;
pub use least::{Least, Violation};
pub use place::Place;
pub use range::is_in_range;
pub use register_kinds as kinds;
