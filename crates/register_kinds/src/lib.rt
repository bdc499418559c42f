// What is known of each register as the instructions of a function go by: kinds. A kind says whether a register owns a
// tree, reads one that another register owns, holds a scalar or names a cell to be filled. A step looks at the register
// that it changes, and at those that are lent of it or came from it.
#![tactic(auto)]

mod asks;
mod fits;
mod handing;
mod held;
mod listing;
mod registers;
mod sorting;
mod steps;
mod take;

pub use kind_domain::table::Table;
pub use registers::Registers;
