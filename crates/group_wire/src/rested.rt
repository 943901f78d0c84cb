//! What a turn knows of the rest before it.

/// What a turn knows of the rest before it, by which it may leave out its tick (`IsTickDue`).
#[derive(Clone, Copy, Debug, PartialEq, Eq)]
pub enum Rested {
    /// The node has not rested.
    No,
    /// The node has rested. Its known front was this one when the rest began.
    From(u32),
    /// The same, and answers to what a tick would repeat are due, since the node has ticked a short
    /// while ago.
    Awaits(u32),
}
