//! What docs/LIBRARY.md shows of a node's part in the protocol, for another machine.
ghost use Rattle.std.specs.Prelude.{◌≡◌, IfOk};

use std::test::Fail;

// docs/LIBRARY.md shows the lines from here on:
use group_protocol::{Config, NodeFault, Outbox, Protocol, Waiting, node_fault};
use paxos_acceptor::{Acceptor, MemoryStore};
use paxos_msg::{Group, Record, decode};
use std::alloc::Global;

/// The group of one node, in its session.
const GROUP: Group = Group {
    size: 1,
    session: 7,
};

/// Starts the part of a node that is alone in its group, for the first time.
fn alone(alloc: Global) -> Result<Protocol<MemoryStore>, NodeFault>
    ensures { IfOk result (λ part. part.known.me.group ≡ GROUP) }
{
    let config = Config::new(1, GROUP.size, GROUP.session)?;
    let waiting = Waiting::new(alloc)?; // all room is made before the start is saved
    let store = MemoryStore::new(Record::new(alloc));
    let acceptor = match Acceptor::open(alloc, store, config.me()) {
        Ok(acceptor) => acceptor,
        Err(refused) => return Err(node_fault(refused.fault)), // the store is refused.store
    };
    match Protocol::start(alloc, &config, acceptor, waiting) {
        Ok(part) => Ok(part), // its start is counted, and saved
        Err(refused) => Err(refused.fault), // the store is refused.store
    }
}

/// Hands the node the oldest packet of its outbox. A second one is lost, as messages may be.
fn hear_itself(part: &mut Protocol<MemoryStore>, outbox: &mut Outbox) -> Result<(), NodeFault>
    requires { part.old.known.me.group ≡ GROUP }
    ensures { part.new.known.me.group ≡ GROUP }
{
    let Some(packet) = outbox.pop() else {
        return Ok(());
    };
    let _lost = outbox.pop();
    match decode(packet.bytes.as_slice(), GROUP) {
        Ok(view) => part.on_message(&view, outbox),
        Err(_) => Ok(()),
    }
}

/// Types a byte, and learns it.
fn learn(part: &mut Protocol<MemoryStore>, outbox: &mut Outbox) -> Result<(), NodeFault>
    requires { part.old.known.me.group ≡ GROUP }
{
    let _key = part.typed(65)?; // it waits; the answer is the key
    part.campaign(outbox)?; // a promise is saved, and a Prepare is in the outbox
    hear_itself(part, outbox)?; // its Prepare: its Promise is in the outbox
    hear_itself(part, outbox)?; // its Promise: from here on it leads
    part.tick(outbox)?; // the key is submitted, and what was learned is asked for
    hear_itself(part, outbox)?; // its Submit: its Accept is in the outbox; the Ask is lost
    hear_itself(part, outbox)?; // its Accept: a vote is saved, and its Accepted is in the outbox
    hear_itself(part, outbox) // its Accepted: the key is learned, and waits no more
}

/// Returns the byte of the input that a machine of yours takes after `read` bytes, once it is
/// learned. All nodes give their machines the same bytes, in the same order.
fn next_byte(part: &Protocol<MemoryStore>, read: usize) -> Option<u8> {
    part.learner().input_at(read)
}

// docs/LIBRARY.md shows the lines up to here.

/// Returns the first two bytes of the input, and the number of keys that wait.
fn learned_alone(alloc: Global) -> Result<(Option<u8>, Option<u8>, usize), Fail> {
    let mut outbox = Outbox::new(alloc)?;
    let mut part = alone(alloc)?;
    learn(&mut part, &mut outbox)?;
    Ok((next_byte(&part, 0), next_byte(&part, 1), part.waiting()))
}

/// Shows Protocol::start (known), Protocol::typed (ok, knows), Protocol::campaign (responds),
/// Protocol::on_message (responds), Protocol::tick (does), Protocol::learner, Protocol::waiting
/// (count): the example of docs/LIBRARY.md. The typed byte is the learned input.
#[test]
fn another_machine(rt: HostRuntime) -> Result<(), Fail> {
    let learned = learned_alone(rt.alloc())?;
    assert!(rt; learned == (Some(65), None, 0));
    Ok(())
}
