// Values as text: read into the cells of any loader, and printed from any store.
//
// A value of a data type is the name of its constructor and, where it has fields, their values in brackets; an int is
// its digits, with a `-` directly before them where it is negative. Blanks (space, tab, CR) may stand between tokens.
// An input has one line for each parameter; an LF ends a line and may be left out after the last; after that only
// blanks and LFs may follow. For example `Cons(1, Cons(-2, Nil))`.
#![tactic(auto)]

mod build;
mod counts;
mod load;
mod print;
mod read;
mod room;
mod scan;
mod single;

pub use counts::Counts;
pub use load::{LoadError, load_values};
pub use print::{print_after, print_value};
pub use single::{MakeError, ReadError, make_credits, make_value, read_value};
