// Tests at run time of parts of the program by their public calls: what no clause says, or examples from outside of
// what one says. Those of sessions and tasks are in `session_tests`, those of the whole program in `program_tests`.
#![tactic(auto)]

#[cfg(test)]
mod core_forms;
#[cfg(test)]
mod core_text;
#[cfg(test)]
mod parts;
