// What the lowering of a function keeps: what its registers hold, the positions of a match, and the code that is
// written, with its labels.
#![tactic(auto)]

mod buffer;
mod frame;
mod spelling;
mod spots;

pub use buffer::Buffer;
pub use frame::{Frame, as_value, constructors_of};
pub use lowering_relation as relation;
pub use spots::{Spot, add_spots, field_at};
