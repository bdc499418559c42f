// Small programs and codes whose types, violations, missing patterns, needs, stack numbers and kinds compute, by the
// definitions that the phases and the verifier meet. Theorems, no code.
#![tactic(auto)]

pub mod theorems;
