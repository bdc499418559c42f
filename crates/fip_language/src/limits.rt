//! The limits of the language, each under one name.

/// The most bytes of a source.
pub const MOST_SOURCE_BYTES: usize = 1_048_576;

/// The most bytes of an input, a code file, a proof file or a trace.
pub const MOST_FILE_BYTES: usize = 16_777_216;

/// The most words of a store.
pub const MOST_STORE_WORDS: usize = 16_777_216;

/// The most brackets that are open at once.
pub const MOST_BRACKETS: usize = 100;

/// The most fields of a constructor, and so the greatest size of a cell.
pub const MOST_FIELDS: usize = 16;

/// The most credits that a header marks.
pub const MOST_CREDITS: usize = 16;

/// The most results of a function.
pub const MOST_RESULTS: usize = 8;

/// The most function instances of a program, and the most type instances.
pub const MOST_INSTANCES: usize = 4_096;

/// The most clauses of a match.
pub const MOST_CLAUSES: usize = 64;

/// The most pattern nodes of a match.
pub const MOST_PATTERN_NODES: usize = 256;

/// The most registers of a function.
pub const MOST_REGISTERS: usize = 4_096;

/// The most constructors of a type with cells in a function that has a match.
pub const MOST_MATCHED_CONSTRUCTORS: usize = 65_535;

/// The most branches of a match's decision tree.
pub const MOST_BRANCHES: usize = 1_024;

/// The words of a frame beside its registers: one for an instruction, one for the frame below.
pub const FRAME_WORDS: usize = 2;

/// The most frames beside the entry's that a run may be given.
pub const MOST_FRAMES: usize = 1_000_000;

/// The most calls that a run may be given.
pub const MOST_CALLS: u64 = 1_000_000_000_000;
