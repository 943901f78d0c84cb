//! Typed bytes that have come, and for which there was no room yet.
ghost use Rattle.std.specs.Prelude.{◌≡◌, ◌↔◌, ◌<◌, ◌++◌, [], ◌∷◌, drop, length, min, take, IfOk, IsTrue, if◌then◌else◌};
ghost use Rattle.group_node.specs.Deeds.{Campaign};
ghost use Rattle.node_io.specs.Prompts.{before_gift, no_keys};
ghost use Rattle.group_udp.specs.TypedQueue.{taken_in};

use crate::limits::{LONGEST_TYPED, MOST_KEPT};
use circular_buffer::HeapCircularBuffer;
use std::alloc::{AllocError, Global};
use std::marker::Model;

/// Typed bytes that came as datagrams and were not given yet, at most 65,536, and whether a
/// campaign was asked for.
#[derive(Drop)]
pub struct TypedQueue {
    bytes: HeapCircularBuffer<u8>,
    has_request: bool,
}

impl Model for TypedQueue {
    ghost use Rattle.std.specs.Prelude.{◌≡◌, if◌then◌else◌};
    ghost use Rattle.group_udp.specs.declared.limits.TheConstants.{MOST_KEPT};
    ghost use Rattle.node_io.specs.Prompts.{Remaining};

    ghost Value = { Remaining };

    ghost view = { λ q. record {
      bytes = q.bytes.items;
      requests = if q.has_request then 1 else 0;
    } };

    ghost invariant = { λ q. q.bytes.capacity ≡ MOST_KEPT };
}

impl TypedQueue {
    /// Makes an empty queue. It allocates all that it needs.
    pub fn new(alloc: Global) -> Result<TypedQueue, AllocError>
        ensures { IfOk result (λ q. q ≡ no_keys) }
    {
        Ok(TypedQueue {
            bytes: HeapCircularBuffer::with_capacity(alloc, MOST_KEPT)?,
            has_request: false,
        })
    }

    /// Takes in a datagram (`taken_in`). An empty one asks for a campaign if no request waits and
    /// `is_apart`: if it does not come too soon after the last request that was given. One of more
    /// than 64 bytes is dropped, and one for which there is no room.
    pub fn take_in(&mut self, datagram: &[u8], is_apart: bool)
        ensures { self.new ≡ taken_in is_apart self.old datagram.now }
    {
        if datagram.is_empty() {
            self.has_request = self.has_request || is_apart;
            return;
        }
        let room = MOST_KEPT.saturating_sub(self.bytes.len());
        if datagram.len() <= LONGEST_TYPED && datagram.len() <= room {
            self.bytes.fill_from_slice(datagram);
        }
    }

    /// Returns true if a request to campaign is there.
    pub fn has_request(&self) -> bool
        ensures { IsTrue result ↔ (0 < self.now.requests) }
    {
        self.has_request
    }

    /// Returns true if bytes are there.
    pub fn has_bytes(&self) -> bool
        ensures { IsTrue result ↔ (0 < length self.now.bytes) }
    {
        !self.bytes.is_empty()
    }

    /// Gives the request to campaign, if one is there. Returns true if one was.
    pub fn take_request(&mut self) -> bool
        ensures asked { self.old ≡ before_gift (if result then Campaign ∷ [] else []) self.new }
        ensures taken { 0 < self.old.requests → IsTrue result }
    {
        let had_request = self.has_request;
        self.has_request = false;
        had_request
    }

    /// Gives the first bytes, as many as there are and have room in `buffer`, at its front. Returns
    /// their number.
    pub fn give(&mut self, buffer: &mut [u8]) -> usize
        ensures count { result ≡ min (length buffer.old) (length self.old.bytes) }
        ensures given { buffer.new ≡ take result self.old.bytes ++ drop result buffer.old }
        ensures left { self.new ≡ record self.old { bytes = drop result self.old.bytes } }
    {
        self.bytes.read_into(buffer)
    }
}
