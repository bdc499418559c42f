// The trees that words stand for in a store, cell by cell.
#![tactic(auto)]

mod trees;

pub use trees::{MOST_CELLS, Tree, Trees, release};
