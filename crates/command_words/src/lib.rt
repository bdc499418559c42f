// The command line: fifteen commands, and what words ask for.
#![tactic(auto)]

mod commands;
pub mod words;

pub use words::{Command, RunRequest, WordsError, read_words};
