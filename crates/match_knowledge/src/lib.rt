// What is known of a value that is matched, and whether a value is left that no pattern matches.
//
// A value of which nothing more is known is open: some heads are known that it hasn't. Else its head is known, and
// something of each of its children. A pattern that is compared with this matches all values that agree with it, or
// none of them, or it asks for more; then its first open test splits what is known into two sides.
#![tactic(auto)]

mod heads;
mod knowledge;
mod rows;
mod sides;
mod unmatched;
mod verdicts;

pub use heads::{Head, same_head};
pub use knowledge::{Knowledge, all_known, copy, known_of, open};
pub use rows::Row;
pub use sides::{is_last, side};
pub use unmatched::{left, missed, reached};
pub use verdicts::{Verdict, compare, is_asks, is_fits};
