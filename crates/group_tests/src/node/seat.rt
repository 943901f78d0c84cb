//! A node of a group of three with its outbox, and what it does, or is expected to be, as data: a
//! test is a list of it. Contracts see nothing of a node, so that a test does not carry its state
//! from one call to the next.
ghost use Rattle.std.specs.Prelude.{◌≡◌};

use super::datagrams::{Datagram, bytes_of};
use group_node::{Config, Node, NodeFault, Outbox, Ran, StartRefused, To};
use paxos_acceptor::MemoryStore;
use paxos_msg::{Group, Record, decode};
use pcode_ops::Program;
use std::alloc::Global;
use std::marker::Model;

/// The group of these nodes.
const GROUP: Group = Group {
    size: 3,
    session: 7,
};

/// What a node does, or is. It has no reference in it, so that lists of it cost little to check.
#[derive(Clone, Copy)]
pub enum Act {
    Campaigns,
    Ticks,
    /// That many times this byte is typed.
    Types(u8, u32),
    Hears(Datagram),
    /// It hears of each place, in order, that it has no key.
    HearsOfAllPlaces,
    /// It makes at most these steps, and its run is over for this reason.
    Runs(u32, Ran),
    /// It releases this byte with each number from the first up to, but not including, the second.
    Releases(u64, u64, u8),
    /// None of its output waits.
    HasReleasedAll,
    /// Its oldest packet goes to these, and is this datagram.
    Sends(To, Datagram),
    /// All its packets were named.
    HasSentAll,
    /// That many bytes of its output wait.
    HasOutput(usize),
    /// Its known front, and the number of its keys that wait.
    Knows(u32, usize),
    /// Its next save fails, and leaves the changed record, or the old one.
    FailsNext(bool),
    IsStopped,
}

/// What a node does or is, and the refusal by which it answers, if any.
pub type Line = (Act, Option<NodeFault>);

/// True if the node did what an act says, or is as it says; or the refusal.
type Answer = Result<bool, NodeFault>;

/// Returns what a node did.
fn done(answer: Result<(), NodeFault>) -> Answer {
    match answer {
        Ok(()) => Ok(true),
        Err(fault) => Err(fault),
    }
}

/// Returns the Tell of node 2 that the place has no key.
fn tell(place: u32) -> [u8; 15] {
    let [a, b, c, d] = place.to_be_bytes();
    [
        0x50, 0x47, 0x02, 0x08, 0x02, 0x03, 0x00, 0x00, 0x00, 0x07, a, b, c, d, 0x00,
    ]
}

/// A node of the group over a store in memory, and its outbox.
pub struct Seat<'a> {
    node: Node<'a, MemoryStore>,
    outbox: Outbox,
}

impl<'a> Drop for Seat<'a> {
    fn drop(self) {
        let Seat {
            node: _node,
            outbox: _outbox,
        } = self;
    }
}

impl<'a> Model for Seat<'a> {
    ghost use Rattle.std.specs.Prelude.{◌≡◌};

    ghost Value = { Unit {0} };

    ghost view = { λ _. tt };

    ghost invariant = { λ s. s.node.protocol.known.me.group ≡ record { size = 3; session = 7 } };
}

impl<'a> Seat<'a> {
    /// Starts the node of this number over the store.
    pub fn start(
        alloc: Global,
        program: &'a Program,
        number: u8,
        store: MemoryStore,
    ) -> Result<Seat<'a>, StartRefused<MemoryStore>> {
        let Ok(config) = Config::new(number, 3, 7) else {
            let fault = NodeFault::Id;
            return Err(StartRefused { fault, store });
        };
        let Ok(outbox) = Outbox::new(alloc) else {
            let fault = NodeFault::Memory;
            return Err(StartRefused { fault, store });
        };
        match Node::start(alloc, program, config, store) {
            Ok(node) => Ok(Seat { node, outbox }),
            Err(refused) => Err(refused),
        }
    }

    /// Starts the node of this number for the first time.
    pub fn fresh(alloc: Global, program: &'a Program, number: u8) -> Result<Seat<'a>, NodeFault> {
        match Seat::start(alloc, program, number, MemoryStore::new(Record::new(alloc))) {
            Ok(seat) => Ok(seat),
            Err(refused) => Err(refused.fault),
        }
    }

    fn typed(&mut self, byte: u8) -> Answer {
        match self.node.typed(byte) {
            Ok(_) => Ok(true),
            Err(fault) => Err(fault),
        }
    }

    /// Types a byte so many times. Returns the first refusal.
    fn types(&mut self, byte: u8, times: u32) -> Answer {
        for _ in 0..times {
            if let Err(fault) = self.typed(byte) {
                return Err(fault);
            }
        }
        Ok(true)
    }

    /// Hears a datagram. Returns false if it spells no message of the group.
    fn hear(&mut self, bytes: &[u8]) -> Answer {
        match decode(bytes, GROUP) {
            Ok(view) => done(self.node.on_message(&view, &mut self.outbox)),
            Err(_) => Ok(false),
        }
    }

    /// Hears of all places, in order.
    fn hear_of_all_places(&mut self) -> Answer {
        for place in 0..65_536 {
            match self.hear(&tell(place)) {
                Ok(true) => {}
                answer => return answer,
            }
        }
        Ok(true)
    }

    fn run(&mut self, steps: u32, how: Ran) -> Answer {
        match self.node.run(steps) {
            Ok(ran) => Ok(ran == how),
            Err(fault) => Err(fault),
        }
    }

    fn release(&mut self) -> Option<(u64, u8)> {
        self.node.release()
    }

    /// Releases bytes. Returns true if each is this one, with the numbers from `first` up to, but
    /// not including, `end`.
    fn releases(&mut self, first: u64, end: u64, byte: u8) -> bool {
        for wanted in first..end {
            match self.release() {
                Some((number, released)) => {
                    if number != wanted || released != byte {
                        return false;
                    }
                }
                None => return false,
            }
        }
        true
    }

    /// Returns true if no byte waits, and none is released.
    fn has_released_all(&mut self) -> bool {
        self.node.unreleased() == 0 && self.node.release().is_none()
    }

    /// Takes the oldest packet out. Returns true if it goes to these, with these bytes.
    fn sends(&mut self, to: To, bytes: &[u8]) -> bool {
        match self.outbox.pop() {
            Some(packet) => packet.to == to && packet.bytes.as_slice() == bytes,
            None => false,
        }
    }

    /// Lets its next save fail.
    fn fail_next(&mut self, is_kept: bool) -> Answer {
        self.node.fail_next(Some(is_kept));
        Ok(true)
    }

    /// Does what the act says, or checks it.
    pub fn does(&mut self, act: Act) -> Answer {
        match act {
            Act::Campaigns => done(self.node.campaign(&mut self.outbox)),
            Act::Ticks => done(self.node.tick(&mut self.outbox)),
            Act::Types(byte, times) => self.types(byte, times),
            Act::Hears(datagram) => self.hear(bytes_of(datagram)),
            Act::HearsOfAllPlaces => self.hear_of_all_places(),
            Act::Runs(steps, how) => self.run(steps, how),
            Act::Releases(first, end, byte) => Ok(self.releases(first, end, byte)),
            Act::HasReleasedAll => Ok(self.has_released_all()),
            Act::Sends(to, datagram) => Ok(self.sends(to, bytes_of(datagram))),
            Act::HasSentAll => Ok(self.outbox.free() == 64),
            Act::HasOutput(count) => Ok(self.node.unreleased() == count),
            Act::Knows(front, keys) => {
                Ok(self.node.known_front() == front && self.node.waiting() == keys)
            }
            Act::FailsNext(is_kept) => self.fail_next(is_kept),
            Act::IsStopped => Ok(self.node.is_stopped()),
        }
    }

    /// Does what the lines say. Returns the first one that is answered otherwise.
    pub fn first_unlike(&mut self, lines: &[Line]) -> Option<usize> {
        for (line, (act, fault)) in lines.iter().enumerate() {
            let is_so = match (self.does(*act), *fault) {
                (Ok(is_done), None) => is_done,
                (Err(answered), Some(fault)) => answered == fault,
                _ => false,
            };
            if !is_so {
                return Some(line);
            }
        }
        None
    }

    pub fn into_store(self) -> MemoryStore {
        let Seat {
            node,
            outbox: _outbox,
        } = self;
        node.into_store()
    }
}
