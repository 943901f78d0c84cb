//! The limits of a run of a node, each under its name. Definitions cite `MOST_RETRIES` alone.

/// The most receives of a rest. It is so great that a rest ends when its time
/// is over: if many datagrams ended it, the tick after it would bring as many again.
pub const MOST_RESTING: u32 = 65_536;

/// How often at most a node campaigns again for one request, if its ballot is refused each time.
pub const MOST_RETRIES: u8 = 3;
