//! A wire at which a node can rest, and one that counts for its log.
ghost use Rattle.std.specs.Prelude.{◌≡◌};

use group_log::{Drops, Sends};
use group_wire::Wire;

/// Why a wait at a wire has ended.
#[derive(Clone, Copy, Debug, PartialEq, Eq)]
pub enum Waited {
    /// The rest is over.
    Over,
    /// A datagram may be there.
    Datagram,
    /// Something may have come to the keyboard.
    Keyboard,
}

/// A wire at which a node can rest between its turns. Nothing passes over it in these calls.
pub trait RestingWire: Wire {
    /// Begins a rest of a node whose known front is `front`, 0 to 65,536.
    fn begin_rest(&mut self, front: u32)
        ensures passed { Self.traffic self.new ≡ Self.traffic self.old };

    /// Notes that a place has become known. The rest then ends as soon as one may while typed keys
    /// are under way.
    fn note_learned(&mut self)
        ensures passed { Self.traffic self.new ≡ Self.traffic self.old };

    /// Returns true if the rest is over.
    fn is_over(&self) -> bool;

    /// Notes that the node has ticked.
    fn note_ticked(&mut self)
        ensures passed { Self.traffic self.new ≡ Self.traffic self.old };

    /// Notes that a leader leaves its tick out while it waits for answers. The next rest is as long
    /// as if it had repeated what it waits for.
    fn note_awaits(&mut self)
        ensures passed { Self.traffic self.new ≡ Self.traffic self.old };

    /// Returns true if answers to what a tick would repeat are due, since the node has ticked a
    /// short while ago. While a wire says so and places are learned, a node at which no key waits
    /// does not tick.
    fn awaits_answers(&self) -> bool;

    /// Waits until something may have come, or until the rest is over. Call it once a receive has
    /// given nothing: what is there already need not end it.
    fn wait(&mut self) -> Waited
        ensures passed { Self.traffic self.new ≡ Self.traffic self.old };
}

/// A wire that counts datagrams, and may have a trace, for the log of a node. Nothing passes over
/// it in these calls.
pub trait CountedWire: RestingWire {
    /// Returns the number of datagrams that were dropped since these counts were set to 0.
    fn drops(&self) -> Drops;

    /// Returns the number of datagrams that were sent to other nodes since then.
    fn sends(&self) -> Sends;

    /// Returns true if no line of the node's trace is written any more, the first time after that.
    fn take_trace_loss(&mut self) -> bool
        ensures passed { Self.traffic self.new ≡ Self.traffic self.old };

    /// Sets these counts to 0.
    fn clear_counts(&mut self)
        ensures passed { Self.traffic self.new ≡ Self.traffic self.old };
}
