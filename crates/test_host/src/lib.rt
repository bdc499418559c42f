// A host in memory, over which tests run the whole program: what it hands in, what it finds afterwards, and tables of
// runs with what each must end with.
#![tactic(auto)]

mod faults;
mod memory;
pub mod programs;
mod rows;
mod texts;

pub use command_outcome::Object;
pub use faults::{FaultRow, first_wrong_faults, untold_runs};
pub use fip_outside::memory::{MemFolder, MemSink, MemSource};
pub use memory::{Ended, Host, Program, Seen, host_of, run};
pub use rows::{Row, first_understood, first_wrong_code, first_wrong_refusal, first_wrong_run};
pub use texts::{bytes_of, numbered, repeated};
