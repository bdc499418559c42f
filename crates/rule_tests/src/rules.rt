// Each rule of a source is broken, with the exact text that each command that takes a source ends with.

mod limits;
mod owning;
mod reading;
mod typing;
mod valued;
