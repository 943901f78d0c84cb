//! What carries datagrams between the nodes of a group.
ghost use Rattle.std.specs.Prelude.{◌≡◌, ◌≤◌, [], ◌∷◌, length, take, None, Option, Some, IfNone, IfSome};
ghost use Rattle.group_wire.specs.Traffic.{Receives, Hands, Traffic, grown};

use crate::trace_event::TraceEvent;

/// A node's connection to its group, itself included. Datagrams may be lost, repeated, delayed and
/// reordered. Datagrams that are not the group's may come too.
pub trait Wire {
    /// What it got to send, and what each receive gave, where that is known.
    ghost traffic: { Self → Option Traffic };

    /// Takes the datagram `bytes` for node `to`, and adds it to the traffic as the last that it got
    /// to send.
    ///
    /// Returns true if the datagram goes out; false is a loss.
    fn send(&mut self, to: u8, bytes: &[u8]) -> bool
        ensures handed { traffic self.new
            ≡ grown (traffic self.old) (Hands (record { to = to; bytes = bytes.now }) ∷ []) };

    /// Puts the next datagram, if one is there, at the front of `buffer`. Returns the number of its
    /// bytes there, at most the buffer's length, or `None`. Adds to the traffic what the receive
    /// gave: these bytes, or nothing.
    ///
    /// A datagram that is longer than `buffer` is cut to its length.
    fn receive(&mut self, buffer: &mut [u8]) -> Option<usize>
        ensures within { IfSome result (λ count. count ≤ length buffer.new) }
        ensures given { IfSome result (λ count.
            traffic self.new
            ≡ grown (traffic self.old) (Receives (Some (take count buffer.new)) ∷ [])) }
        ensures idle { IfNone result
            (traffic self.new ≡ grown (traffic self.old) (Receives None ∷ [])) };

    /// Takes an event of the node, for a trace: a call that may save, before it saves; each call
    /// once it is done, before anything is sent at it; and each datagram before it is sent. Nothing
    /// passes.
    fn trace(&mut self, event: &TraceEvent<'_>)
        ensures passed { traffic self.new ≡ traffic self.old };
}
