// Public calls of single crates, on examples from outside.

mod real_files;
mod streams;
