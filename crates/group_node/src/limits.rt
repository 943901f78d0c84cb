//! The limit of a node's output, under its name. Code, clauses and definitions cite it.

/// The most bytes of output that wait at a node: the length of its ring.
pub const RING_BYTES: usize = 256;
