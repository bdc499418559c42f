// Tests at run time of the whole program: what no clause says, or examples from outside of what one says. A crate with
// tests is proved once more with them, and one over the whole program takes longest: so the sources and codes that
// break a rule are tested in `rule_tests`, and what needs a part alone in `part_tests` and `session_tests`.
#![tactic(auto)]

#[cfg(test)]
mod commands;
#[cfg(test)]
mod faults;
#[cfg(test)]
mod program;
#[cfg(test)]
mod tasks;
