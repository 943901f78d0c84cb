//! Datagrams that a node drops.
ghost use Rattle.std.specs.Prelude.{◌≡◌, slice_get};
ghost use Rattle.group_log.specs.Drops.{drops_with, group_reason, one_more, reason_of, size_index};

use paxos_msg::{Group, WireFault, decode};
use std::net::SocketAddr;

/// The index in a datagram of its group's size.
const SIZE: usize = 5;

/// Why a node drops a datagram.
#[derive(Clone, Copy, Debug, PartialEq, Eq)]
pub enum DropReason {
    /// It came from another address than that of the node that it names.
    Source,
    /// It has another version.
    Version,
    /// It names a group of another size.
    Size,
    /// It names another session.
    Session,
    /// It is not a datagram of a group, or is damaged.
    Damaged,
}

/// Returns `Session` if a datagram of another group names the group's size, and otherwise `Size`.
fn group_reason(group: Group, datagram: &[u8]) -> DropReason
    ensures { result ≡ group_reason group (slice_get datagram.now size_index) }
{
    match datagram.get(SIZE) {
        Some(size) if *size == group.size => DropReason::Session,
        _ => DropReason::Size,
    }
}

/// Returns why a node of `group` drops `datagram`, by the first check that the datagram fails.
/// Returns `None` exactly if it spells a message of the group.
pub fn reason_of(group: Group, datagram: &[u8]) -> Option<DropReason>
    ensures { result ≡ reason_of group datagram.now }
{
    match decode(datagram, group) {
        Ok(_) => None,
        Err(WireFault::Version) => Some(DropReason::Version),
        Err(WireFault::Group) => Some(group_reason(group, datagram)),
        Err(_) => Some(DropReason::Damaged),
    }
}

/// The greatest count of datagrams: a count stays there.
pub const MOST_COUNTED: u32 = 4_294_967_295;

/// The number of datagrams that a node dropped, for each reason. A count ends at `MOST_COUNTED`.
#[derive(Clone, Copy, Debug, PartialEq, Eq, Default)]
pub struct Drops {
    pub source: u32,
    pub version: u32,
    pub size: u32,
    pub session: u32,
    pub damaged: u32,
    /// Where the last of those came from that are counted under `source`.
    pub last_source: Option<SocketAddr>,
}

/// Returns one more than `count`, or the greatest count.
pub(crate) fn one_more(count: u32) -> u32
    ensures { result ≡ one_more count }
{
    count.saturating_add(1)
}

impl Drops {
    /// Counts one more dropped datagram, which came from `source`, under `reason` alone. A count
    /// stays at 4,294,967,295.
    pub fn count(&mut self, reason: DropReason, source: SocketAddr)
        ensures { self.new ≡ drops_with self.old reason source }
    {
        match reason {
            DropReason::Source => {
                self.source = one_more(self.source);
                self.last_source = Some(source);
            }
            DropReason::Version => self.version = one_more(self.version),
            DropReason::Size => self.size = one_more(self.size),
            DropReason::Session => self.session = one_more(self.session),
            DropReason::Damaged => self.damaged = one_more(self.damaged),
        }
    }
}
