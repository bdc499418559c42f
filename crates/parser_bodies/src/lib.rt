// The bodies of functions: what a token does where a block, a bind, an operand or a pattern begins or ends.
#![tactic(auto)]

pub mod body;
pub mod patterns;
