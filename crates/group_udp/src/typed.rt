//! Typed bytes that come as datagrams.
ghost use Rattle.std.specs.Prelude.{◌≡◌, ◌≤◌, length, IfOk, IfSome};
ghost use Rattle.node_io.specs.Prompts.{Remaining, no_keys, with_more};

use crate::drained::Drained;
use crate::limits::{LONGEST_TYPED, MOST_TAKEN_IN, REQUESTS_APART, TYPED_PASSED_OVER};
use crate::typed_queue::TypedQueue;
use crate::udp::receive_from;
use group_protocol::limits::MOST_WAITING;
use mio::net::UdpSocket;
use node_io::Keyboard;
use std::alloc::{AllocError, Global};
use std::marker::Model;
use std::time::{Clock, Duration, Instant};

/// The socket of the address to which typed bytes come as datagrams, and the bytes that it has
/// brought and for which there was no room yet.
///
/// An empty datagram asks for a campaign, also while bytes wait that came before it. A request that
/// comes less than 100 milliseconds after the last one that was given is dropped, as is a datagram
/// of more than 64 bytes, and one for which there is no room among the 65,536 bytes that are kept.
#[derive(Drop)]
pub struct TypedDatagrams<'a, H> {
    clock: &'a H,
    socket: UdpSocket,
    drained: Drained,
    queue: TypedQueue,
    /// When the last request was given.
    asked: Option<Instant>,
}

impl<'a, H> Model for TypedDatagrams<'a, H> {
    ghost use Rattle.node_io.specs.Prompts.{Remaining};

    ghost Value = { Remaining };

    ghost view = { λ t. t.queue };
}

impl<'a, H: Clock> TypedDatagrams<'a, H> {
    /// Makes a keyboard of this socket, and the room for all that is kept.
    pub fn new(
        clock: &'a H,
        alloc: Global,
        socket: UdpSocket,
    ) -> Result<TypedDatagrams<'a, H>, AllocError>
        ensures { IfOk result (λ typed. typed ≡ no_keys) }
    {
        Ok(TypedDatagrams {
            clock,
            socket,
            drained: Drained::new(TYPED_PASSED_OVER),
            queue: TypedQueue::new(alloc)?,
            asked: None,
        })
    }

    /// Returns true if no request was given less than 100 milliseconds ago.
    fn is_apart(&self) -> bool {
        let (Some(asked), Ok(now)) = (self.asked, Instant::now(self.clock)) else {
            return true;
        };
        now.saturating_duration_since(asked) >= Duration::from_millis(REQUESTS_APART)
    }

    /// Returns true if the socket is passed over now.
    fn is_passed_over(&mut self) -> bool
        ensures same { self.new ≡ self.old }
    {
        self.drained.passes()
    }

    /// Receives the next datagram, if one is there. Returns its length.
    fn receive(&mut self, buffer: &mut [u8]) -> Option<usize>
        ensures same { self.new ≡ self.old }
        ensures within { IfSome result (λ count. count ≤ length buffer.new) }
    {
        let received = receive_from(&self.socket, buffer);
        if received.is_none() {
            self.drained.note_empty();
        }
        let (count, _source) = received?;
        Some(count)
    }

    /// Takes in the next datagram. Returns false if none is there.
    fn take_in(&mut self) -> bool
        ensures came { (came : Remaining) × (self.new ≡ with_more came self.old) }
    {
        let mut buffer = [0u8; LONGEST_TYPED + 1];
        let Some(count) = self.receive(&mut buffer) else {
            return false;
        };
        let is_apart = count > 0 || self.is_apart();
        self.queue.take_in(&buffer[..count], is_apart);
        true
    }
}

impl<H: Clock> Keyboard for TypedDatagrams<'_, H> {
    ghost use Rattle.std.specs.Prelude.{false, None};

    // What will come is not known, but what is left of what has come is.
    ghost keys = { λ t. record { left = t; is_closed = false; taken_in = None; looks = None } };

    fn note_came(&mut self) {
        self.drained.note_came();
    }

    /// Takes in the datagrams that are there, at most 256. It asks the system for none if there was
    /// none shortly before and none is known to have come since.
    fn look(&mut self) {
        if self.is_passed_over() {
            return;
        }
        for _ in 0..MOST_TAKEN_IN {
            if !self.take_in() {
                return;
            }
        }
    }

    fn has_request(&self) -> bool {
        self.queue.has_request()
    }

    fn has_bytes(&self) -> bool {
        self.queue.has_bytes()
    }

    fn take_request(&mut self) -> bool {
        let had_request = self.queue.take_request();
        if had_request {
            self.asked = Instant::now(self.clock).ok();
        }
        had_request
    }

    fn give(&mut self, buffer: &mut [u8; MOST_WAITING], waiting: usize) -> usize {
        let room = MOST_WAITING.saturating_sub(waiting);
        self.queue.give(&mut buffer[..room])
    }
}
