//! Nodes on wires in memory. One send or one receive fails.
ghost use Rattle.std.specs.Prelude.{◌≤◌, length};

use crate::program::reading_program;
use group_node::{Config, NodeFault};
use group_wire::{Host, Rested, TraceEvent, Wire};
use paxos_acceptor::MemoryStore;
use paxos_msg::Record;
use pcode_ops::Program;
use std::alloc::Global;
use std::collections::VecDeque;
use std::marker::Model;
use std::test::Fail;

/// The number of turns of each node.
const TURNS: u32 = 40;

/// The number of sends that fail, and of receives, each in a separate run.
const FAILURES: u32 = 200;

/// The network between the nodes, as the wire of the node whose turn it is. Contracts see nothing
/// of it.
struct Network {
    alloc: Global,
    /// The node whose turn it is.
    node: u8,
    /// The datagrams on their way to each node, the oldest first.
    first: VecDeque<Vec<u8>>,
    second: VecDeque<Vec<u8>>,
    third: VecDeque<Vec<u8>>,
    /// The number of sends up to the one that fails, and of receives. At 0 none fails any more.
    sends: u32,
    receives: u32,
}

impl Drop for Network {
    fn drop(self) {
        let Network {
            alloc: _alloc,
            node: _node,
            first: _first,
            second: _second,
            third: _third,
            sends: _sends,
            receives: _receives,
        } = self;
    }
}

impl Model for Network {
    ghost Value = { Unit {0} };

    ghost view = { λ _. tt };
}

/// Counts down to the one that fails. Returns true if this is it.
fn is_failure(left: &mut u32) -> bool {
    let is_last = *left == 1;
    if *left > 0 {
        *left -= 1;
    }
    is_last
}

impl Network {
    /// Makes a network whose send of this number fails, and whose receive of this number, counted
    /// from 1. Number 0 is none.
    fn new(alloc: Global, sends: u32, receives: u32) -> Network {
        Network {
            alloc,
            node: 1,
            first: VecDeque::new(alloc),
            second: VecDeque::new(alloc),
            third: VecDeque::new(alloc),
            sends,
            receives,
        }
    }

    /// Puts a datagram on its way. Returns false if memory runs out.
    fn put(&mut self, to: u8, bytes: &[u8]) -> bool {
        let Ok(bytes) = Vec::from_slice(self.alloc, bytes) else {
            return false;
        };
        match to {
            1 => self.first.push_back(bytes).is_ok(),
            2 => self.second.push_back(bytes).is_ok(),
            _ => self.third.push_back(bytes).is_ok(),
        }
    }

    /// Takes the oldest datagram on its way to the node whose turn it is.
    fn take(&mut self) -> Option<Vec<u8>> {
        match self.node {
            1 => self.first.pop_front(),
            2 => self.second.pop_front(),
            _ => self.third.pop_front(),
        }
    }
}

/// Copies a datagram to the front of a buffer, cut to its length. Returns the number of bytes
/// there.
fn copied(buffer: &mut [u8], bytes: &[u8]) -> usize
    ensures within { result ≤ length buffer.new }
{
    let count = bytes.len().min(buffer.len());
    buffer[..count].copy_from_slice(&bytes[..count]);
    count
}

impl Wire for Network {
    ghost use Rattle.std.specs.Prelude.{None};

    ghost traffic = { λ _. None };

    fn send(&mut self, to: u8, bytes: &[u8]) -> bool {
        !is_failure(&mut self.sends) && self.put(to, bytes)
    }

    fn receive(&mut self, buffer: &mut [u8]) -> Option<usize> {
        if is_failure(&mut self.receives) {
            return None;
        }
        match self.take() {
            Some(bytes) => Some(copied(buffer, bytes.as_slice())),
            None => None,
        }
    }

    fn trace(&mut self, _: &TraceEvent<'_>) {}
}

/// A node of the group, and what it has released of the keys. Contracts see nothing of it, so that
/// a test does not carry a node's state from one call to the next. Each call of the node is in a
/// function of its own.
struct Player<'a> {
    host: Host<'a, MemoryStore>,
    node: u8,
    /// The number of keys that were released, in order.
    shown: u8,
    /// True if something else was released, or a call failed.
    is_wrong: bool,
}

impl<'a> Drop for Player<'a> {
    fn drop(self) {
        let Player {
            host: _host,
            node: _node,
            shown: _shown,
            is_wrong: _is_wrong,
        } = self;
    }
}

impl<'a> Model for Player<'a> {
    ghost Value = { Unit {0} };

    ghost view = { λ _. tt };
}

impl<'a> Player<'a> {
    /// Starts node `node` of the group for the first time.
    fn start(alloc: Global, program: &'a Program, node: u8) -> Result<Player<'a>, NodeFault> {
        let config = Config::new(node, 3, 7)?;
        match Host::start(alloc, program, config, MemoryStore::new(Record::new(alloc))) {
            Ok(host) => Ok(Player {
                host,
                node,
                shown: 0,
                is_wrong: false,
            }),
            Err(refused) => Err(refused.fault),
        }
    }

    fn campaign(&mut self, network: &mut Network) {
        if self.host.campaign(network).is_err() {
            self.is_wrong = true;
        }
    }

    /// Types two keys at the node.
    fn press(&mut self) {
        let mut typed: &[u8] = b"\x48\x51";
        if self.host.press(&mut typed).is_err() {
            self.is_wrong = true;
        }
    }

    fn turn(&mut self, network: &mut Network) {
        if self.host.turn(network, Rested::No).is_err() {
            self.is_wrong = true;
        }
    }

    /// Releases the first byte that waits, which is to be the next key.
    fn release(&mut self) {
        match (self.shown, self.host.release()) {
            (0, Some((0, 0x48))) => self.shown = 1,
            (1, Some((1, 0x51))) => self.shown = 2,
            (_, None) => {}
            _ => self.is_wrong = true,
        }
    }
}

/// Starts the nodes 1, 2 and 3.
fn started(alloc: Global, program: &Program) -> Result<Vec<Player<'_>>, Fail> {
    let mut players = Vec::new(alloc);
    for node in 1..=3 {
        players.push(Player::start(alloc, program, node)?)?;
    }
    Ok(players)
}

/// Makes a turn of each node, and lets it release a byte. Before its first turn node 1 campaigns,
/// and two keys are typed at it.
fn play(players: &mut [Player<'_>], network: &mut Network, number: u32) {
    for player in players.iter_mut() {
        network.node = player.node;
        if number == 0 && player.node == 1 {
            player.campaign(network);
            player.press();
        }
        player.turn(network);
        player.release();
    }
}

/// What the consoles of a group show in the end.
#[derive(Clone, Copy, PartialEq, Eq)]
enum Shown {
    /// Each of them all keys.
    All,
    /// None of them what it must not.
    Right,
    /// One of them what it must not, or a call failed.
    Wrong,
}

fn shown_by(players: &[Player<'_>]) -> Shown {
    let mut shown = Shown::All;
    for player in players.iter() {
        if player.is_wrong {
            return Shown::Wrong;
        }
        if player.shown < 2 {
            shown = Shown::Right;
        }
    }
    shown
}

/// Plays a group's turns over the network.
fn played_over(alloc: Global, program: &Program, network: &mut Network) -> Result<Shown, Fail> {
    let mut players = started(alloc, program)?;
    for number in 0..TURNS {
        play(players.as_mut_slice(), network, number);
    }
    Ok(shown_by(players.as_slice()))
}

/// The same, where the send of this number fails, and the receive of this number.
fn played(alloc: Global, sends: u32, receives: u32) -> Result<Shown, Fail> {
    let program = reading_program(alloc)?;
    let mut network = Network::new(alloc, sends, receives);
    played_over(alloc, &program, &mut network)
}

/// Shows Host::turn (turned), Host::press (pressed), Host::release (some, none), Wire::send
/// (handed), Wire::receive (within, given, idle): if nothing fails, all consoles show all keys.
#[test]
fn no_wire_fails(rt: HostRuntime) -> Result<(), Fail> {
    assert!(rt; played(rt.alloc(), 0, 0)? == Shown::All);
    Ok(())
}

/// Shows Host::turn (turned): if one of the first 200 sends fails, or one of the first 200 receives
/// gives nothing, no console shows what it must not.
#[test]
fn a_wire_fails(rt: HostRuntime) -> Result<(), Fail> {
    for number in 1..=FAILURES {
        let sent = played(rt.alloc(), number, 0)?;
        let received = played(rt.alloc(), 0, number)?;
        assert!(rt;
            sent != Shown::Wrong && received != Shown::Wrong,
            "number {number}"
        );
    }
    Ok(())
}
