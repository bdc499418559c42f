// Tests at run time of the whole program over sources and codes that break a rule: examples from outside of what clauses
// say. All else of the whole program is tested in `program_tests`.
#![tactic(auto)]

#[cfg(test)]
mod codes;
#[cfg(test)]
mod program;
#[cfg(test)]
mod rules;
