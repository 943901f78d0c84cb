//! The answers of a node's turn and of one receive.
use group_node::Ran;

/// The result of one receive.
#[derive(Clone, Copy, Debug, PartialEq, Eq)]
pub enum Received {
    /// No datagram was there.
    Nothing,
    /// The datagram has more than 1,400 bytes, or spells no message of the group.
    Dropped,
    /// The datagram spells a message, and memory ran out. The node is as it was.
    Lost,
    /// The node took the message that the datagram spells.
    Message,
}

/// What became of the tick of a turn.
#[derive(Clone, Copy, Debug, PartialEq, Eq)]
pub enum Tick {
    /// The node ticked.
    Made,
    /// Memory ran out for it. Nothing has changed.
    Lost,
    /// It was not due (`IsTickDue`).
    NotDue,
}

/// The result of a turn.
#[derive(Clone, Copy, Debug, PartialEq, Eq)]
pub struct Turned {
    /// Why the run of the machine ended.
    pub ran: Ran,
    /// What became of the tick.
    pub tick: Tick,
    /// The number of messages that were lost because memory ran out.
    pub lost: u32,
}
