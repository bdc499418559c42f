// The abstract domain of the verifier: what is known of one register, the sets of constructors that are part of it, what
// label maps require, and the lists by which a step finds the registers that it changes.
#![tactic(auto)]

pub mod asked;
pub mod kinds;
pub mod known;
pub mod label_sets;
pub mod lents;
pub mod links;
pub mod log;
pub mod marks;
pub mod missing;
pub mod set;
pub mod table;

pub use cell_code as code;
pub use fip_base as base;
