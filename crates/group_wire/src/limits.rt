//! The limits of a turn, each under its name. Code, clauses and definitions cite them.

/// The most datagrams that a node receives in a turn.
pub const MOST_RECEIVES: u32 = 64;

/// The most steps that a node's machine makes in a turn.
pub const TURN_STEPS: u32 = 1_000;
