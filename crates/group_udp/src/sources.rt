//! Whose address is whose. A node takes a datagram only from the address of the node that the
//! datagram names, so that a process elsewhere cannot speak for a node unless it forges the source.
ghost use Rattle.std.specs.Prelude.{◌↔◌, ◌≡◌, if◌then◌else◌, length, IsTrue};
ghost use Rattle.group_udp.specs.Sources.{IsFromSender, address_at};

use crate::header::SENDER;
use std::net::SocketAddr;

/// Returns the address of a node, if there is one. `addresses` are those of the nodes, node 1
/// first.
pub fn address_at(addresses: &[SocketAddr], node: u8) -> Option<SocketAddr>
    ensures { result ≡ address_at addresses.now node }
{
    let index = usize::from(node).checked_sub(1)?;
    addresses.get(index).copied()
}

/// Returns true if a datagram came from the address of the node that it names as its sender.
pub fn is_from_sender(addresses: &[SocketAddr], source: SocketAddr, datagram: &[u8]) -> bool
    ensures { IsTrue result ↔ IsFromSender addresses.now source datagram.now }
{
    let Some(sender) = datagram.get(SENDER) else {
        return false;
    };
    match address_at(addresses, *sender) {
        Some(address) => address == source,
        None => false,
    }
}

/// Returns how many bytes of a datagram a node takes: all if it is from its sender, and otherwise
/// none, as of an empty one, which spells no message.
pub fn taken_of(is_from_sender: bool, datagram: &[u8]) -> usize
    ensures { result ≡ (if is_from_sender then length datagram.now else 0) }
{
    if is_from_sender { datagram.len() } else { 0 }
}
