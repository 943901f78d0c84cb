//! The packets that wait to be sent.
ghost use Rattle.std.specs.Prelude.{◌≡◌, ◌+◌, ◌-◌, ◌<◌, ◌≤◌, [], ◌∷◌, ◌++◌, drop, length, slice_get, vec_len, IfOk, OnErr, OnOk};
ghost use Rattle.paxos_msg.specs.Datagrams.{Fits, spelling};
ghost use Rattle.paxos_msg.specs.Bodies.{IsBody};
ghost use Rattle.paxos_msg.specs.Fits.{IsNode};
ghost use Rattle.group_protocol.specs.declared.limits.TheConstants.{MOST_PACKETS};
ghost use Rattle.group_protocol.specs.Packets.{datagram_of, HasRoom};

use crate::limits::MOST_PACKETS;
use crate::packet::{Packet, To};
use circular_buffer::HeapCircularBuffer;
use paxos_acceptor::Me;
use paxos_msg::limits::LONGEST_DATAGRAM;
use paxos_msg::{Body, Group, Msg, encode_into};
use std::alloc::{AllocError, Global};
use std::marker::Model;

/// An empty buffer with room for a datagram.
#[derive(Drop)]
struct Spare {
    bytes: Vec<u8>,
}

impl Model for Spare {
    ghost use Rattle.std.specs.Prelude.{◌≡◌, ◌≤◌, vec_len, vec_capacity};
    ghost use Rattle.paxos_msg.specs.declared.limits.TheConstants.{LONGEST_DATAGRAM};

    ghost Value = { Unit {0} };

    ghost view = { λ _. tt };

    ghost invariant = { λ s. (vec_len s.bytes ≡ 0) × (LONGEST_DATAGRAM ≤ vec_capacity s.bytes) };
}

impl Spare {
    /// Makes a buffer for one datagram.
    fn new(alloc: Global) -> Result<Spare, AllocError> {
        Ok(Spare {
            bytes: Vec::with_capacity(alloc, LONGEST_DATAGRAM)?,
        })
    }

    /// Returns the datagram of a message, in this buffer. It allocates nothing.
    fn written(self, message: &Msg, group: Group) -> Vec<u8>
        requires { Fits group message.now }
        ensures { result.items ≡ spelling group message.now }
    {
        let mut bytes = self.bytes;
        encode_into(message, group, &mut bytes);
        bytes
    }
}

/// The packets that wait to be sent, the oldest first, at most 64.
#[derive(Drop)]
pub struct Outbox {
    packets: HeapCircularBuffer<Packet>,
    // A packet takes a buffer that is ready, and allocates nothing. A node makes as many ready as
    // it may need before it changes anything.
    spares: Vec<Spare>,
    alloc: Global,
}

impl Model for Outbox {
    ghost use Rattle.std.specs.Prelude.{◌≡◌, vec_len};
    ghost use Rattle.group_protocol.specs.declared.limits.TheConstants.{MOST_PACKETS};
    ghost use Rattle.group_protocol.specs.Packets.{Queue};

    ghost Value = { Queue };

    ghost view = { λ o. record { packets = o.packets.items; ready = vec_len o.spares } };

    ghost invariant = { λ o. o.packets.capacity ≡ MOST_PACKETS };
}

impl Outbox {
    /// Makes an empty outbox, in which 64 packets fit. Fails only if memory runs out.
    ///
    /// The bytes of a packet get their room later, before a call changes anything.
    pub fn new(alloc: Global) -> Result<Outbox, AllocError>
        ensures { IfOk result (λ o. o.packets ≡ []) }
    {
        Ok(Outbox {
            packets: HeapCircularBuffer::with_capacity(alloc, MOST_PACKETS)?,
            spares: Vec::new(alloc),
            alloc,
        })
    }

    /// Returns the number of packets that still fit: 64, less those that wait.
    pub fn free(&self) -> usize
        ensures free { result ≡ MOST_PACKETS - length self.now.packets }
        ensures few { length self.now.packets ≤ MOST_PACKETS }
    {
        MOST_PACKETS - self.packets.len()
    }

    /// Takes the oldest packet out and returns it, or returns `None` if no packet waits.
    pub fn pop(&mut self) -> Option<Packet>
        ensures value { result ≡ slice_get self.old.packets 0 }
        ensures packets { self.new.packets ≡ drop 1 self.old.packets }
    {
        self.packets.pop_front()
    }

    /// Makes `count` buffers ready. After an error the packets are as they were.
    pub(crate) fn make_ready(&mut self, count: usize) -> Result<(), AllocError>
        ensures packets { self.new.packets ≡ self.old.packets }
        ensures ok { OnOk result (count ≤ self.new.ready) }
        ensures needs { OnErr result (self.old.ready < count) }
    {
        while self.spares.len() < count {
            self.spares.push(Spare::new(self.alloc)?)?;
        }
        Ok(())
    }

    /// Puts a node's message in, for which a buffer is ready. It allocates nothing.
    pub(crate) fn put(&mut self, me: Me, to: To, body: Body)
        requires node { IsNode me.group.size me.node }
        requires body { IsBody me.group.size me.node body }
        requires room { HasRoom 1 self.old }
        ensures packets { self.new.packets
            ≡ self.old.packets ++ datagram_of me (record { to = to; body = body }) ∷ [] }
        ensures ready { self.new.ready + 1 ≡ self.old.ready }
    {
        let message = Msg {
            sender: me.node,
            body,
        };
        let Some(spare) = self.spares.pop() else {
            unreachable!()
        };
        let bytes = spare.written(&message, me.group);
        match self.packets.try_push_back(Packet { to, bytes }) {
            Ok(()) => (),
            Err(_) => unreachable!(),
        }
    }
}
