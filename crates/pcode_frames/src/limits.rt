//! The limits of memory, stack and frames, each under its name. Code, clauses and definitions cite
//! them.

/// The most words of memory that are live at once: words 1 to 16,383.
pub const LIVE_WORDS: usize = 16383;

/// The most words on the evaluation stack.
pub const STACK_WORDS: usize = 1024;

/// The most frames, the current one and the main one included.
pub const MOST_FRAMES: usize = 1024;
