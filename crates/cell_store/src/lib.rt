// The store of cells: a loader makes the cells, then the store is sealed, and from then on a cell is only rewritten in
// its place, or released. A sealed store is opened again to make more cells, released ones first.
#![tactic(auto)]

mod access;
mod flat;
mod loader;
mod marks;
mod places;
mod row;
mod rows;
mod sealed;

pub use access::Cells;
pub use loader::{CellError, Loader, seal};
pub use rows::{RowLoader, RowSealed, seal_rows};
pub use sealed::Sealed;
