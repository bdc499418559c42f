// Code for the machine: functions whose instructions work on numbered registers, and what a verifier must know of each
// register where instructions meet.
#![tactic(auto)]

mod code;
mod kind;
mod registers;

pub use code::{Code, CodeKind, Function, Instr, code_registers, named};
pub use kind::{Constructors, From, Kind, Label};
pub use registers::Registers;
