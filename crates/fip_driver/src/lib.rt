// The program: reads its words, answers what they ask for over the objects of a host, and says how it ended.
#![tactic(auto)]

mod answer;
mod asked;
mod coded;
mod commands;
mod delivery;
mod derivations;
mod exec;
mod fetched;
mod program;
mod sessions;
mod stored;
mod traces;

pub use code_verify::Verified;
pub use coded::fp2_with_code;
pub use command_answers::runner::Left;
pub use delivery::report_no_memory;
pub use program::fp2;
