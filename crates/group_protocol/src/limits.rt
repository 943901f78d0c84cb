//! The limits of a node, each under its name. Code, clauses and definitions cite them.

pub use paxos_proposer::MOST_PUMPED;

/// The most packets that an outbox holds.
pub const MOST_PACKETS: usize = 64;

/// The most packets that a node sends at a message: a Prepare and 16 Accepts.
pub const MESSAGE_PACKETS: usize = 17;

/// The most packets that a node sends at a tick: 9 Prepares, 16 Accepts again, 16 Accepts of a
/// pump, a Submit and an Ask.
pub const TICK_PACKETS: usize = 43;

/// The most Accepts that a tick sends again.
pub const MOST_AGAIN: u8 = 16;

/// The most Tells that answer one Ask.
pub const MOST_TOLD: u32 = 16;

/// The most typed characters that wait at a node.
pub const MOST_WAITING: usize = 256;
