// What instructions do to the words of frames, which lie in one list.
#![tactic(auto)]

mod frame;

pub use frame::{clear_rest, give, pass, put, replace, take};
