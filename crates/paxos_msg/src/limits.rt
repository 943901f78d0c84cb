//! The limits of the protocol. Code, clauses and definitions cite each by its name.

/// The number of places of a group: 0 to 65,535. At each place at most one value is chosen.
pub const PLACES: u32 = 65_536;

/// The last place.
pub const LAST_PLACE: u32 = 65_535;

/// The most nodes of a group. Its nodes are 1 to its size.
pub const MOST_NODES: u8 = 9;

/// The most characters, and so keys, of one batch.
pub const MOST_CHARACTERS: usize = 32;

/// The most votes of one Promise.
pub const MOST_VOTES: usize = 8;

/// The length in bytes of the longest datagram that is sent. A message that fits takes at most 440.
/// A longer datagram is read too, if it is the spelling of a message.
pub const LONGEST_DATAGRAM: usize = 1_400;

/// The greatest round of a ballot. Rounds are 1 to 4,294,967,295.
pub const LAST_ROUND: u32 = 4_294_967_295;

/// The greatest number of starts of a node. Starts are 1 to 4,294,967,295.
pub const LAST_START: u32 = 4_294_967_295;

/// The greatest serial of a key. The serials of each start of a node are 1 to 4,294,967,295.
pub const LAST_SERIAL: u32 = 4_294_967_295;
