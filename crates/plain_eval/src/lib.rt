// Evaluation on rows that never change, for instances of any kind. Calls and what waits for them are kept in lists, so
// that no value and no depth of calls is too deep for the program's own stack. Rows that nothing names any more are
// dropped from time to time.
#![tactic(auto)]

mod arguments;
mod arithmetic;
mod collect;
mod evaluate;
mod patterns;
mod variables;

pub use evaluate::{PlainEnded, eval, print_rows};
pub use plain_rows::Rows;
