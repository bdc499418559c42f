// Values as rows that never change. A value is an int, a constructor without fields, or a row: a constructor with the
// values of its fields. A row is made once and never rewritten, so that it may be named from several places. Rows are
// made of the words of a store of cells, and printed as text.
#![tactic(auto)]

mod load;
mod print;
mod store;

pub use load::Rows;
pub use print::print_values;
pub use store::{Store, Value};
