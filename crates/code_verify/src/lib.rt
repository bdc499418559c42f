// Code from anywhere is checked before it runs. What is accepted never goes wrong on a machine: each register has what
// an instruction requires of it, no cell is used twice or forgotten, and a fip function's stack is known.
//
// The rules are named S0 to S9. A violation has a function and an instruction; the one that is named is the least by
// function, instruction and rule. S0 is checked in `code_tables`; S9, and S1 to S6 of one instruction, in `code_rows`.
#![tactic(auto)]

mod accept;
mod verified;
mod walk;

pub use accept::{VerifyError, verify, verify_sound};
pub use code_rules::SoundRule;
pub use verified::Verified;
