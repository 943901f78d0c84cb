//! The events of a trace.
use group_node::To;

/// What a node does, for a trace that its wire keeps. A host gives its wire what it hears, its
/// campaigns, ticks and runs, and what it sends; whoever runs the host gives it the other events.
#[derive(Clone, Copy, Debug)]
pub enum TraceEvent<'a> {
    /// It has started.
    Started,
    /// It begins to hear this datagram, which spells a message.
    BeginsToHear(&'a [u8]),
    /// It has heard this datagram.
    Heard(&'a [u8]),
    /// This byte was typed at it.
    Pressed(u8),
    /// It begins to campaign.
    BeginsToCampaign,
    /// It has campaigned.
    Campaigned,
    /// It has ticked.
    Ticked,
    /// Its machine has run for at most so many steps.
    Ran(u32),
    /// It has released the byte with this number.
    Released(u64, u8),
    /// It sends this datagram, at the call that was traced last.
    Sends(To, &'a [u8]),
    /// The save of the call that began last has failed.
    Failed,
    /// It has ended, with this status.
    Ended(u8),
}
