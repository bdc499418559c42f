// The trees after the core form: what a program declares, and programs without static parameters, before and after
// they are typed; and what every walk over them shares: the least violation, numbers by size.
#![tactic(auto)]

pub mod decls;
pub mod groups;
pub mod least;
pub mod meanings;
pub mod needs;
pub mod program;
pub mod scalars;
pub mod sizes;
