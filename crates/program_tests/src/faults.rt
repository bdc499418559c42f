// Objects whose calls fail, each in turn.

mod commands;
mod running;
mod tasks;
