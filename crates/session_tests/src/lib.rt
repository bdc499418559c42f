// Tests at run time of sessions and tasks by their public calls: what no clause says, or examples from outside of
// what one says.
#![tactic(auto)]

#[cfg(test)]
mod sessions;
#[cfg(test)]
mod turns;
