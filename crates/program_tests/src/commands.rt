// Each command over objects in memory, with every status that it can end with.

mod causes;
mod library;
mod runs;
mod words;
