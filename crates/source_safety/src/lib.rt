// Accepted sources are safe: their fip and fbip instances and functions run in place, within their stack numbers.
#![tactic(auto)]

pub mod run_theorems;
pub mod source_theorems;
