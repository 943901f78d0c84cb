//! The typed characters that wait.
ghost use Rattle.std.specs.Prelude.{◌≡◌, ◌↔◌, ◌+◌, ◌<◌, ◌≤◌, ◌^◌, [], ◌∷◌, ◌++◌, drop, length, take, IfOk, IfSome, IsSome};
ghost use Rattle.paxos_msg.specs.Keys.{keys_from};
ghost use Rattle.paxos_learner.specs.Input.{front_values, keys_in_order};
ghost use Rattle.paxos_msg.specs.declared.limits.TheConstants.{MOST_CHARACTERS};
ghost use Rattle.group_protocol.specs.declared.limits.TheConstants.{MOST_WAITING};
ghost use Rattle.group_protocol.specs.WaitingKeys.{count_read};
ghost use Rattle.group_protocol.specs.Ranges.{IsWaiting};

use crate::limits::MOST_WAITING;
use circular_buffer::HeapCircularBuffer;
use paxos_learner::laws::key_tests_are_exact;
use paxos_learner::{Learner, TypedKey};
use paxos_msg::Characters;
use paxos_msg::limits::MOST_CHARACTERS;
use std::alloc::{AllocError, Global};
use std::marker::Model;

/// Characters that were typed one after another in one start, at most 256, and the serial of the
/// first.
#[derive(Drop)]
pub struct Waiting {
    bytes: HeapCircularBuffer<u8>,
    // The serial of the first character, or of the next one if none waits: at most 4,294,967,296.
    first: u64,
}

impl Model for Waiting {
    ghost use Rattle.std.specs.Prelude.{◌≡◌};
    ghost use Rattle.group_protocol.specs.declared.limits.TheConstants.{MOST_WAITING};
    ghost use Rattle.group_protocol.specs.Ranges.{IsWaiting};
    ghost use Rattle.group_protocol.specs.States.{Waiting as State};

    ghost Value = { State };

    ghost view = { λ w. record { first = w.first; bytes = w.bytes.items } };

    ghost invariant = { λ w. (w.bytes.capacity ≡ MOST_WAITING) × IsWaiting w.first w.bytes.items };
}

impl Waiting {
    /// Makes a list in which none waits; the next character is the first key. It allocates all that
    /// it needs.
    pub fn new(alloc: Global) -> Result<Waiting, AllocError>
        ensures { IfOk result (λ w. w ≡ record { first = 1; bytes = [] }) }
    {
        Ok(Waiting {
            bytes: HeapCircularBuffer::with_capacity(alloc, MOST_WAITING)?,
            first: 1,
        })
    }

    /// Returns the number of characters that wait.
    pub(crate) fn len(&self) -> usize
        ensures len { result ≡ length self.now.bytes }
        ensures ranges { IsWaiting self.now.first self.now.bytes }
    {
        self.bytes.len()
    }

    /// Returns the serial of the first.
    pub(crate) fn first(&self) -> u64
        ensures { result ≡ self.now.first }
    {
        self.first
    }

    /// Returns the serial of the next character, at most 4,294,967,296.
    pub(crate) fn next_serial(&self) -> u64
        ensures serial { result ≡ self.now.first + length self.now.bytes }
        ensures few { result ≤ 2 ^ 32 }
    {
        self.first + self.bytes.len() as u64
    }

    /// Appends a character.
    pub(crate) fn push(&mut self, byte: u8)
        requires room { length self.old.bytes < MOST_WAITING }
        requires serial { self.old.first + length self.old.bytes < 2 ^ 32 }
        ensures first { self.new.first ≡ self.old.first }
        ensures bytes { self.new.bytes ≡ self.old.bytes ++ byte ∷ [] }
    {
        match self.bytes.try_push_back(byte) {
            Ok(()) => (),
            Err(_) => unreachable!(),
        }
    }

    /// Returns the first characters, at most 32, if any wait.
    pub(crate) fn batch(&self) -> Option<Characters>
        ensures same { IfSome result (λ c. c ≡ take MOST_CHARACTERS self.now.bytes) }
        ensures some { IsSome result ↔ (0 < length self.now.bytes) }
    {
        let count = self.bytes.len().min(MOST_CHARACTERS);
        let mut bytes = [0; MOST_CHARACTERS];
        for i in 0..count {
            let Some(byte) = self.bytes.get(i) else {
                unreachable!()
            };
            bytes[i] = *byte;
        }
        Characters::new(&bytes[..count])
    }

    /// Drops the characters at the front whose keys are read, up to the first that is not.
    pub(crate) fn leave_read(&mut self, learner: &Learner, node: u8, start: u32)
        ensures bytes { self.new.bytes
            ≡ drop (count_read (keys_in_order (front_values learner.now.learned))
            (keys_from node start self.old.first self.old.bytes)) self.old.bytes }
        ensures first { self.new.first
            ≡ self.old.first + count_read (keys_in_order (front_values learner.now.learned))
            (keys_from node start self.old.first self.old.bytes) }
    {
        key_tests_are_exact();
        while let Some(byte) = self.bytes.front() {
            let key = TypedKey {
                serial: self.first,
                start,
                node,
                byte: *byte,
            };
            if !learner.has_read(key) {
                break;
            }
            self.bytes.pop_front();
            self.first += 1;
        }
    }
}
