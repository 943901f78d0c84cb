//! UDP sockets as wires.
ghost use Rattle.std.specs.Prelude.{◌≡◌, ◌≤◌, false, length, IfErr, IfSome};
ghost use Rattle.node_io.specs.Refusals.{IsOpenRefusal, IsSocketRefusal};
ghost use Rattle.group_udp.specs.Sources.{drop_of};

use crate::drained::Drained;
use crate::kinds::is_ask;
use crate::limits::OWN_PASSED_OVER;
use crate::own_datagrams::OwnDatagrams;
use crate::rest::Rest;
use crate::sources::{address_at, is_from_sender, taken_of};
use crate::trace::Trace;
use group_log::{DropReason, Drops, Sends, reason_of};
use group_wire::{TraceEvent, Wire};
use mio::net::UdpSocket;
use mio::{Events, Interest, Poll, Token};
use node_io::{CountedWire, GroupFault, RestingWire, Waited};
use paxos_msg::Group;
use paxos_msg::limits::MOST_NODES;
use std::net::{Net, SocketAddr};
use std::rt::Files;
use std::time::{Clock, Duration, Instant};

/// Returns a non-blocking socket that is bound to this address. Fails if the system gives none.
pub fn bind<H: Net>(rt: &H, address: SocketAddr) -> Result<UdpSocket, GroupFault>
    ensures others { IfErr result IsSocketRefusal }
{
    UdpSocket::bind(rt, address).or(Err(GroupFault::Socket))
}

/// Receives the next datagram of a socket to the front of `buffer`, cut to its length. Returns its
/// length and its source, or None if none is there or the receive failed.
pub fn receive_from(socket: &UdpSocket, buffer: &mut [u8]) -> Option<(usize, SocketAddr)>
    ensures within { IfSome result (λ r. r.0 ≤ length buffer.new) }
{
    socket.recv_from(buffer).ok()
}

/// Returns why a node of the group drops a datagram, if it does. The source is checked last.
fn drop_of(group: Group, is_from_sender: bool, datagram: &[u8]) -> Option<DropReason>
    ensures { result ≡ drop_of group is_from_sender datagram.now }
{
    match reason_of(group, datagram) {
        None if !is_from_sender => Some(DropReason::Source),
        reason => reason,
    }
}

/// The sockets that a node waits for: its own, and one for typed bytes where it has one.
#[derive(Drop)]
pub struct Watch {
    poll: Poll,
    events: Events,
}

/// The node's own socket.
const OWN: Token = Token(0);

/// The socket of typed bytes.
const TYPED: Token = Token(1);

impl Watch {
    /// Makes a watch of no socket. Fails if the system has none to give, or memory runs out.
    pub fn new<H: Net + AllocGlobal>(rt: &H) -> Result<Watch, GroupFault>
        ensures others { IfErr result IsOpenRefusal }
    {
        let Ok(poll) = Poll::new(rt) else {
            return Err(GroupFault::Socket);
        };
        let events = Events::with_capacity(rt.alloc(), 2)?;
        Ok(Watch { poll, events })
    }

    /// Watches a socket.
    fn add(&self, socket: &mut UdpSocket, token: Token) -> Result<(), GroupFault>
        ensures others { IfErr result IsSocketRefusal }
    {
        self.poll
            .registry()
            .register(socket, token, Interest::READABLE)
            .or(Err(GroupFault::Socket))
    }

    /// Watches the socket of typed bytes. Fails if that cannot be done.
    pub fn add_typed(&self, socket: &mut UdpSocket) -> Result<(), GroupFault>
        ensures others { IfErr result IsSocketRefusal }
    {
        self.add(socket, TYPED)
    }

    /// Waits up to `most` for a datagram. Each arrival is reported once (`has_come`).
    fn wait(&mut self, most: Duration) {
        if self.poll.poll(&mut self.events, Some(most)).is_err() {
            self.events.clear();
        }
    }

    /// Returns true if a datagram has come to this socket, by the last wait.
    fn has_come(&self, token: Token) -> bool {
        self.events.iter().any(|event| event.token() == token)
    }
}

/// A node's socket, and the addresses of all nodes in order. Its receives don't wait; the node
/// waits between its turns. What the node sends to itself does not pass the socket while there is
/// room for it here.
#[derive(Drop)]
pub struct UdpWire<'a, H: Files> {
    clock: &'a H,
    /// The node's number.
    node: u8,
    socket: UdpSocket,
    watch: Watch,
    addresses: &'a [SocketAddr],
    /// Whether the socket had nothing.
    drained: Drained,
    own: OwnDatagrams,
    /// True if the next receive takes one of the node's own first. While both have some, they and
    /// the socket's come in turn, so that neither many datagrams of others nor a long answer of the
    /// node to itself holds the others back.
    is_own_next: bool,
    /// The last rest of the node.
    rest: Rest,
    /// The group for which dropped datagrams are counted, or None if none are.
    counted: Option<Group>,
    /// The number of datagrams that were dropped, and sent to other nodes, since these counts were
    /// set to 0.
    drops: Drops,
    sends: Sends,
    /// The trace of the node, if it has one.
    trace: Option<Trace<'a, H>>,
}

impl<'a, H: Clock + Files + AllocGlobal> UdpWire<'a, H> {
    /// Makes the wire of node `node` with this socket. `addresses` are those of the nodes, node 1
    /// first. Typed bytes end its waiting too, if the watch has a socket for them. The wire counts
    /// the datagrams that a node of the group `counted` drops, and those that it sends; without a
    /// group it counts none. Fails if the socket cannot be watched, or memory runs out.
    pub fn new(
        rt: &'a H,
        node: u8,
        mut socket: UdpSocket,
        watch: Watch,
        addresses: &'a [SocketAddr],
        counted: Option<Group>,
    ) -> Result<UdpWire<'a, H>, GroupFault>
        ensures others { IfErr result IsOpenRefusal }
    {
        let own = OwnDatagrams::new(rt.alloc())?;
        watch.add(&mut socket, OWN)?;
        Ok(UdpWire {
            clock: rt,
            node,
            socket,
            watch,
            addresses,
            drained: Drained::new(OWN_PASSED_OVER),
            own,
            is_own_next: true,
            rest: Rest::new(),
            counted,
            drops: Drops::default(),
            sends: Sends::default(),
            trace: None,
        })
    }

    /// Writes this trace from now on.
    pub fn set_trace(&mut self, trace: Trace<'a, H>) {
        self.trace = Some(trace);
    }

    /// Notes where the datagram came from that was received last: from this source, or from the
    /// node itself.
    fn came_from(&mut self, source: Option<SocketAddr>) {
        if let Some(trace) = &mut self.trace {
            trace.came_from(source);
        }
    }

    /// Receives the oldest datagram of the node's own, if one is there.
    fn receive_own(&mut self, buffer: &mut [u8]) -> Option<usize>
        ensures within { IfSome result (λ count. count ≤ length buffer.new) }
    {
        self.came_from(None);
        self.own.pop_into(buffer)
    }

    /// Counts a datagram, if the node drops it and dropped datagrams are counted.
    fn count_drop(&mut self, is_from_sender: bool, source: SocketAddr, datagram: &[u8]) {
        let Some(group) = self.counted else {
            return;
        };
        if let Some(reason) = drop_of(group, is_from_sender, datagram) {
            self.drops.count(reason, source);
        }
    }

    /// Returns the time now, if the clock can be read.
    fn now(&self) -> Option<Instant> {
        Instant::now(self.clock).ok()
    }

    /// Notes that something but an Ask is sent now, or counts as sent.
    fn note_sent(&mut self)
        requires unsent { self.old.rest.has_sent ≡ false }
    {
        let now = self.now();
        self.rest.note_sent(now);
    }

    /// Returns the number of nodes in the group.
    fn size(&self) -> u8 {
        u8::try_from(self.addresses.len()).unwrap_or(MOST_NODES)
    }

    /// Sends a datagram by the socket, and counts it if datagrams are counted. Returns whether the
    /// system took it.
    fn send_out(&mut self, to: u8, bytes: &[u8]) -> bool {
        let is_taken = match address_at(self.addresses, to) {
            Some(address) => self.socket.send_to(bytes, address).is_ok(),
            None => false,
        };
        if self.counted.is_some() && to != self.node {
            self.sends.count(is_taken);
        }
        is_taken
    }

    /// Receives the next datagram of the socket, if one is there. One from another address than its
    /// sender's counts as an empty one, which spells no message. If the socket had nothing when it
    /// was asked last, it may be passed over.
    fn receive_in(&mut self, buffer: &mut [u8]) -> Option<usize>
        ensures within { IfSome result (λ count. count ≤ length buffer.new) }
    {
        if self.drained.passes() {
            return None;
        }
        let Some((count, source)) = receive_from(&self.socket, buffer) else {
            self.drained.note_empty();
            return None;
        };
        self.came_from(Some(source));
        let datagram = &buffer[..count];
        let is_from_sender = is_from_sender(self.addresses, source, datagram);
        self.count_drop(is_from_sender, source, datagram);
        Some(taken_of(is_from_sender, datagram))
    }
}

impl<H: Clock + Files + AllocGlobal> Wire for UdpWire<'_, H> {
    ghost use Rattle.std.specs.Prelude.{None};

    // Nothing is known of what the system does with a datagram.
    ghost traffic = { λ _. None };

    // A node that has nothing to do sends Asks alone. The first other datagram of a rest may cut it
    // short.
    fn send(&mut self, to: u8, bytes: &[u8]) -> bool {
        if !self.rest.has_sent() && !is_ask(bytes) {
            self.note_sent();
        }
        if to == self.node && self.own.push(bytes) {
            return true;
        }
        self.send_out(to, bytes)
    }

    fn receive(&mut self, buffer: &mut [u8]) -> Option<usize> {
        if self.is_own_next && !self.own.is_empty() {
            self.is_own_next = false;
            return self.receive_own(buffer);
        }
        self.is_own_next = true;
        match self.receive_in(buffer) {
            None => self.receive_own(buffer),
            received => received,
        }
    }

    fn trace(&mut self, event: &TraceEvent<'_>) {
        if let Some(trace) = &mut self.trace {
            trace.write_event(event);
        }
    }
}

impl<H: Clock + Files + AllocGlobal> RestingWire for UdpWire<'_, H> {
    /// Begins a rest, which is as long as the pace of the node says.
    fn begin_rest(&mut self, front: u32) {
        let now = self.now();
        self.rest.begin(now, front);
    }

    fn note_learned(&mut self) {
        let size = self.size();
        self.rest.note_learned(size);
    }

    fn is_over(&self) -> bool {
        self.rest.left(self.now()).is_none()
    }

    fn note_ticked(&mut self) {
        let now = self.now();
        self.rest.note_ticked(now);
    }

    fn note_awaits(&mut self) {
        if !self.rest.has_sent() {
            self.note_sent();
        }
    }

    /// Returns true if the node ticked less than 200 milliseconds ago.
    fn awaits_answers(&self) -> bool {
        self.rest.has_ticked_lately(self.now())
    }

    /// Waits for a datagram, unless one of the node's own is there.
    fn wait(&mut self) -> Waited {
        if !self.own.is_empty() {
            return Waited::Datagram;
        }
        let Some(left) = self.rest.left(self.now()) else {
            return Waited::Over;
        };
        self.watch.wait(left);
        if self.watch.has_come(OWN) {
            self.drained.note_came();
        }
        if self.watch.has_come(TYPED) {
            Waited::Keyboard
        } else {
            Waited::Datagram
        }
    }
}

impl<H: Clock + Files + AllocGlobal> CountedWire for UdpWire<'_, H> {
    fn drops(&self) -> Drops {
        self.drops
    }

    fn sends(&self) -> Sends {
        self.sends
    }

    fn take_trace_loss(&mut self) -> bool {
        match &mut self.trace {
            Some(trace) => trace.take_loss(),
            None => false,
        }
    }

    fn clear_counts(&mut self) {
        self.drops = Drops::default();
        self.sends = Sends::default();
    }
}
