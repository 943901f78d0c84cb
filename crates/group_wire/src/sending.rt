//! Packets of an outbox as datagrams on a wire.
ghost use Rattle.std.specs.Prelude.{◌≡◌, []};
ghost use Rattle.group_wire.specs.Traffic.{grown, handed, letters_of, letters_to};

use crate::trace_event::TraceEvent;
use crate::wire::Wire;
use group_node::{Outbox, Packet, To};

/// Sends a datagram on the wire to each node of a group of `size` nodes. A failed send is a loss.
fn send_to_all<T: Wire>(wire: &mut T, bytes: &[u8], size: u8)
    ensures traffic { T.traffic wire.new
        ≡ grown (T.traffic wire.old) (handed (letters_to size To.All bytes.now)) }
{
    for node in 1..=size {
        wire.send(node, bytes);
    }
}

/// Tells of a packet, and sends it on the wire, once for each node that it goes to. A failed send
/// is a loss.
fn send_packet<T: Wire>(wire: &mut T, packet: &Packet, size: u8)
    ensures traffic { T.traffic wire.new
        ≡ grown (T.traffic wire.old) (handed (letters_to size packet.now.to packet.now.bytes)) }
{
    let bytes = packet.bytes.as_slice();
    wire.trace(&TraceEvent::Sends(packet.to, bytes));
    match packet.to {
        To::All => send_to_all(wire, bytes, size),
        To::One(node) => {
            wire.send(node, bytes);
        }
    }
}

/// Sends all packets of the outbox on the wire, the oldest first.
pub fn send_all<T: Wire>(wire: &mut T, outbox: &mut Outbox, size: u8)
    ensures traffic { T.traffic wire.new
        ≡ grown (T.traffic wire.old) (handed (letters_of size outbox.old.packets)) }
    ensures empty { outbox.new.packets ≡ [] }
{
    while let Some(packet) = outbox.pop() {
        send_packet(wire, &packet, size);
    }
}
