//! Faults of a datagram.
use thiserror::Error;

/// The first check that a datagram fails, from the left. Its text is the refusal's code.
#[derive(Clone, Copy, Debug, PartialEq, Eq, Error)]
pub enum WireFault {
    /// The datagram has fewer than 10 bytes, or ends before a field does.
    #[error("G1")]
    Short,
    /// The datagram does not begin with the bytes `PG`.
    #[error("G2")]
    Magic,
    /// The version is not 2.
    #[error("G3")]
    Version,
    /// There is no such kind: it is 0, or above `LAST_KIND`.
    #[error("G4")]
    Kind,
    /// The size or the session is not the group's.
    #[error("G5")]
    Group,
    /// The sender is 0 or above the group's size.
    #[error("G6")]
    Sender,
    /// A ballot is out of range, is not the sender's where it has to be, or is in the wrong order
    /// to another.
    #[error("G7")]
    Ballot,
    /// A place is out of range.
    #[error("G8")]
    Place,
    /// A value is out of range, or a submitted value has no keys, or keys of another node.
    #[error("G9")]
    Value,
    /// A vote's place is not above the place of the vote before.
    #[error("G10")]
    Order,
    /// A promise has more than 8 votes.
    #[error("G11")]
    Count,
    /// Bytes are left over.
    #[error("G12")]
    Trailing,
    /// Out of memory.
    #[error("G13")]
    Memory,
}
