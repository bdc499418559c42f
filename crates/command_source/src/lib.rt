// What the commands on sources and on codes do before an input is read: from bytes to what is known of them, or to what
// is said in its place.
#![tactic(auto)]

mod derivations;
mod entry;
mod files;
mod known;
mod listing;
mod phases;
mod places;
mod stacks;

pub use code_verify::Verified;
pub use derivations::{audit, bad_proof, derive};
pub use entry::{Evaluable, Ready, eval_entry, exec_entry, run_entry};
pub use files::{Compiled, check, compile, file_of, upgrade, verify_file};
pub use known::Front;
pub use phases::{front, typed_of};
pub use places::place_at;
