//! The datagrams that a node has sent to itself.
ghost use Rattle.std.specs.Prelude.{◌≡◌, ◌==◌, ◌↔◌, ◌+◌, ◌<◌, ◌≤◌, [], ◌∷◌, ◌++◌, false, drop, length, min, option_map, slice_get, sum_by, take, IfOk, IsTrue, MatchOption};
ghost use Rattle.group_udp.specs.declared.limits.TheConstants.{MOST_OWN, OWN_BYTES};

use crate::limits::{MOST_OWN, OWN_BYTES};
use circular_buffer::HeapCircularBuffer;
use std::alloc::{AllocError, Global};
use std::marker::Model;

/// The datagrams that a node has sent to itself and not yet received, the oldest first. Contracts
/// see their list. There is room for 256 datagrams with 65,536 bytes in all; an outbox holds 64.
/// The room is made at the start, so that no later call takes memory.
#[derive(Drop)]
pub struct OwnDatagrams {
    // All their bytes, one datagram after the other.
    bytes: HeapCircularBuffer<u8>,
    lengths: HeapCircularBuffer<usize>,
}

impl Model for OwnDatagrams {
    ghost use Rattle.std.specs.Prelude.{ℕ, List};
    ghost use Rattle.group_udp.specs.OwnDatagrams.{IsBuffered, cut};

    ghost Value = { List (List ℕ) };

    ghost view = { λ d. cut d.bytes.items d.lengths.items };

    ghost invariant = { λ d. IsBuffered d.bytes d.lengths };
}

impl OwnDatagrams {
    /// Makes an empty list of datagrams, with all the room.
    pub fn new(alloc: Global) -> Result<OwnDatagrams, AllocError>
        ensures { IfOk result (λ kept. kept ≡ []) }
    {
        Ok(OwnDatagrams {
            bytes: HeapCircularBuffer::with_capacity(alloc, OWN_BYTES)?,
            lengths: HeapCircularBuffer::with_capacity(alloc, MOST_OWN)?,
        })
    }

    /// Returns true if no datagram is kept.
    pub fn is_empty(&self) -> bool
        ensures { result ≡ (length self.now == 0) }
    {
        self.lengths.is_empty()
    }

    /// Returns true if there is room for a datagram of `count` bytes.
    fn has_room(&self, count: usize) -> bool
        ensures { IsTrue result
            ↔ (length self.now < MOST_OWN) × (sum_by (λ d. length d) self.now + count ≤ OWN_BYTES) }
    {
        let has_length = self.lengths.len() < MOST_OWN;
        let has_bytes = count <= OWN_BYTES - self.bytes.len();
        has_length && has_bytes
    }

    /// Keeps a datagram after the others, if there is room for it. Returns true if there was;
    /// otherwise nothing has changed.
    pub fn push(&mut self, datagram: &[u8]) -> bool
        ensures room { IsTrue result
            ↔ (length self.old < MOST_OWN)
            × (sum_by (λ d. length d) self.old + length datagram.now ≤ OWN_BYTES) }
        ensures kept { IsTrue result → self.new ≡ self.old ++ datagram.now ∷ [] }
        ensures full { result ≡ false → self.new ≡ self.old }
    {
        if !self.has_room(datagram.len()) {
            return false;
        }
        self.bytes.fill_from_slice(datagram);
        self.lengths.push_back(datagram.len());
        true
    }

    /// Takes the oldest datagram out, to the front of `buffer`. Returns the number of its bytes
    /// there. The rest of a datagram that is longer than the buffer is lost. If none is kept,
    /// returns None and nothing changes.
    pub fn pop_into(&mut self, buffer: &mut [u8]) -> Option<usize>
        ensures count { result
            ≡ option_map (λ d. min (length d) (length buffer.old)) (slice_get self.old 0) }
        ensures bytes { MatchOption (slice_get self.old 0) (buffer.new ≡ buffer.old)
            (λ d. buffer.new ≡ take (length buffer.old) d ++ drop (length d) buffer.old) }
        ensures left { self.new ≡ drop 1 self.old }
    {
        let length = self.lengths.pop_front()?;
        let count = length.min(buffer.len());
        self.bytes.read_into(&mut buffer[..count]);
        let left = self.bytes.len() - (length - count);
        self.bytes.truncate_front(left);
        Some(count)
    }
}
