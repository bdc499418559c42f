// The matches of a program: whether their clauses cover all values and each is reached, a pattern that is missing, and
// the decision trees by which a clause is chosen.
#![tactic(auto)]

mod coverage;
mod matches;
mod missing;
mod numbers;
mod patterns;
mod shapes;
pub mod theorems;
mod trees;

pub use coverage::cover;
pub use match_knowledge::Head;
pub use numbers::{MatchId, decision};
pub use trees::{Tree, tree_of};
