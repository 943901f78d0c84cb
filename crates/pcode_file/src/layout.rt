//! The sizes of a code file, each under its name. Code, clauses and definitions cite them.

/// The size of a block in bytes. A segment begins at a block; block 0 has the entries.
pub const BLOCK_BYTES: usize = 512;

/// The number of entries of block 0, one for each segment that a file may have.
pub const ENTRIES: usize = 16;

/// The greatest lex level of a procedure.
pub const LAST_LEVEL: u8 = 127;
