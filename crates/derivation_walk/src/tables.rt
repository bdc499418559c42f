// Tables of the variables of an instance.
ghost use Rattle.std.specs.Prelude.{ℕ};
ghost use Rattle.derivation_walk.specs.Tables.{rows, row_at, IsRising};

use crate::found::Bound;

/// The variables of an instance.
#[derive(Drop)]
pub struct Uses {
    // By their numbers.
    pub(crate) variables: Vec<Bound>,
    // By their binders.
    pub(crate) numbers: Vec<usize>,
    // By their binders, the expressions in which each occurs, and those in which it is used up.
    pub(crate) occurring: Vec<Vec<usize>>,
    pub(crate) used: Vec<Vec<usize>>,
    ghost occurrences_rise: { (x : ℕ) → IsRising (row_at (rows occurring.items) x) },
    ghost uses_rise: { (x : ℕ) → IsRising (row_at (rows used.items) x) },
}
