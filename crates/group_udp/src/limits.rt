//! The limits of a node on UDP, each under its name. Code, clauses and definitions cite them.

/// The most bytes of a datagram that is typed. A longer one is dropped.
pub const LONGEST_TYPED: usize = 64;

/// The most datagrams that are kept of those that a node has sent to itself.
pub const MOST_OWN: usize = 256;

/// The most bytes that the kept datagrams have all together.
pub const OWN_BYTES: usize = 65_536;

/// The most bytes that are kept of those that were typed and have no room yet.
pub const MOST_KEPT: usize = 65_536;

/// The most typed datagrams that are taken in at once.
pub const MOST_TAKEN_IN: u32 = 256;

/// How many receives pass the node's own socket over after one that found nothing there: the last
/// of a turn, and the first of the rest after it.
pub const OWN_PASSED_OVER: u8 = 1;

/// How many looks pass the socket of typed bytes over after one that found nothing there: those of
/// two cycles.
pub const TYPED_PASSED_OVER: u8 = 4;

/// The least time in milliseconds from one request to campaign that is taken to the next.
pub const REQUESTS_APART: u64 = 100;

/// The shortest time of a rest in milliseconds.
pub const SHORT_REST: u64 = 10;

/// The time in milliseconds of a rest of a node that sends nothing but Asks.
pub const LONG_REST: u64 = 100;

/// The longest time in milliseconds of a rest before a tick that repeats what was sent.
pub const LONG_PAUSE: u64 = 200;
