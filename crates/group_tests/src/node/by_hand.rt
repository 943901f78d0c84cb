//! What docs/LIBRARY.md shows of a node by hand.
ghost use Rattle.std.specs.Prelude.{◌≡◌, IfOk};

use crate::program::reading_program;
use std::test::Fail;

// docs/LIBRARY.md shows the lines from here on:
use group_node::{Config, Console, Node, NodeFault, Outbox, StartRefused};
use paxos_acceptor::MemoryStore;
use paxos_msg::{Group, Record, decode};
use pcode_ops::Program;
use std::alloc::Global;

/// The group of one node, in its session.
const GROUP: Group = Group {
    size: 1,
    session: 7,
};

/// Starts a node that is alone in its group, for the first time.
fn alone(
    alloc: Global,
    program: &Program,
) -> Result<Node<'_, MemoryStore>, StartRefused<MemoryStore>>
    ensures { IfOk result (λ node. node.protocol.known.me.group ≡ GROUP) }
{
    let store = MemoryStore::new(Record::new(alloc));
    let Ok(config) = Config::new(1, GROUP.size, GROUP.session) else {
        let fault = NodeFault::Id;
        return Err(StartRefused { fault, store });
    };
    Node::start(alloc, program, config, store) // the start is saved
}

/// Hands the node the oldest packet of its outbox. It is alone in its group, so each packet goes to
/// itself.
fn hear_itself(node: &mut Node<'_, MemoryStore>, outbox: &mut Outbox) -> Result<(), NodeFault>
    requires { node.old.protocol.known.me.group ≡ GROUP }
    ensures { node.new.protocol.known.me.group ≡ GROUP }
{
    let Some(packet) = outbox.pop() else {
        return Ok(());
    };
    match decode(packet.bytes.as_slice(), GROUP) {
        Ok(view) => node.on_message(&view, outbox),
        Err(_) => Ok(()),
    }
}

/// Types a key, and makes the node lead.
fn lead(node: &mut Node<'_, MemoryStore>, outbox: &mut Outbox) -> Result<(), NodeFault>
    requires { node.old.protocol.known.me.group ≡ GROUP }
{
    let _key = node.typed(65)?; // it waits; the answer is the key
    node.campaign(outbox)?; // a promise is saved, and a Prepare is in the outbox
    hear_itself(node, outbox)?; // its Prepare: its Promise is in the outbox
    hear_itself(node, outbox)?; // its Promise: from here on it leads
    node.tick(outbox) // the key is submitted, and what was learned is asked for
}

/// Runs the program on the learned keys, and shows what it writes.
fn show(node: &mut Node<'_, MemoryStore>, console: &mut Console) -> Result<(), NodeFault> {
    let _ran = node.run(1_000)?;
    for _ in 0..node.unreleased() {
        if let Some((number, byte)) = node.release() {
            console.offer(number, byte); // Fresh, Repeat or Gap
        }
    }
    Ok(())
}

// docs/LIBRARY.md shows the lines up to here.

/// Returns the free places of the outbox in the end, and the number of shown bytes.
fn by_hand(alloc: Global, program: &Program) -> Result<(usize, usize), Fail> {
    let mut outbox = Outbox::new(alloc)?;
    let Ok(mut node) = alone(alloc, program) else {
        return Err(Fail::from("no start"));
    };
    lead(&mut node, &mut outbox)?;
    let mut console = Console::new(alloc);
    show(&mut node, &mut console)?;
    Ok((outbox.free(), console.bytes().len()))
}

fn read_by_hand(alloc: Global) -> Result<(usize, usize), Fail> {
    let program = reading_program(alloc)?;
    by_hand(alloc, &program)
}

/// Shows Node::typed (ok, known), Node::campaign (responds), Node::on_message (responds),
/// Node::tick (sends), Outbox::free (free): the example of docs/LIBRARY.md. In the end the Submit
/// and the Ask of the tick are in the outbox, and no key is learned yet.
#[test]
fn node_by_hand(rt: HostRuntime) -> Result<(), Fail> {
    let (free, shown) = read_by_hand(rt.alloc())?;
    assert!(rt; free == 62 && shown == 0);
    Ok(())
}
