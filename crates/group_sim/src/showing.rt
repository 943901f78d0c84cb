//! A group as text.
ghost use Rattle.std.specs.Prelude.{◌≡◌, ◌≤◌, ℕ, None, Some};
ghost use Rattle.std.specs.FinMap.{get};
ghost use Rattle.group_sim.specs.Groups.{ballot_text, console_at, console_text, group_text};
ghost use Rattle.group_sim.specs.Groups.{keys_text, known_text, learned_at, learned_by, node_at};
ghost use Rattle.group_sim.specs.Groups.{node_line, node_lines, place_line, place_lines};
ghost use Rattle.group_sim.specs.Groups.{promised_by, promised_text, value_text};
ghost use Rattle.group_sim.specs.Texts.{PutsText};

use crate::text::{put, put_decimal, put_hex, put_number};
use group_node::Node;
use group_world::World;
use machine_run::{ByteWriter, WriteFault};
use paxos_acceptor::MemoryStore;
use paxos_learner::WINDOW;
use paxos_msg::{Ballot, PLACES, Value};

/// Writes a ballot.
fn write_ballot<W: ByteWriter>(writer: &mut W, ballot: Ballot) -> Result<(), WriteFault>
    ensures { PutsText W.contents W.write_faults writer result (ballot_text ballot) }
{
    put_decimal(writer, ballot.round as u64)?;
    put_number(writer, b".", ballot.node as u64)
}

/// Writes the keys of a value, whose first has the serial `first`.
fn write_keys<W: ByteWriter>(
    writer: &mut W,
    node: u8,
    start: u32,
    first: u32,
    bytes: &[u8],
) -> Result<(), WriteFault>
    ensures { PutsText W.contents W.write_faults writer result
        (keys_text node start first bytes.now) }
{
    put_number(writer, b"key ", node as u64)?;
    put_number(writer, b" ", start as u64)?;
    put_number(writer, b" ", first as u64)?;
    put(writer, b" ")?;
    put_hex(writer, bytes)
}

/// Writes a value.
fn write_value<W: ByteWriter>(writer: &mut W, value: Value) -> Result<(), WriteFault>
    ensures { PutsText W.contents W.write_faults writer result (value_text value) }
{
    match value {
        Value::Noop => put(writer, b"noop"),
        Value::Keys {
            node,
            start,
            first,
            bytes,
        } => write_keys(writer, node, start, first, bytes.as_slice()),
    }
}

/// Writes whether a node is up, and its known front if it is.
fn write_known<W: ByteWriter>(writer: &mut W, world: &World<'_>, node: u8) -> Result<(), WriteFault>
    ensures { PutsText W.contents W.write_faults writer result
        (known_text (node_at world.now node)) }
{
    match world.node(node) {
        None => put(writer, b" down known -"),
        Some(running) => put_number(writer, b" up known ", running.known_front() as u64),
    }
}

/// Returns the ballot that a node's stored record has promised.
fn promised(world: &World<'_>, node: u8) -> Option<Ballot>
    ensures { result ≡ promised_by world.now node }
{
    match world.record(node) {
        None => None,
        Some(record) => record.promised,
    }
}

/// Writes the ballot that a node has promised, or `-`.
fn write_promised<W: ByteWriter>(writer: &mut W, promised: Option<Ballot>) -> Result<(), WriteFault>
    ensures { PutsText W.contents W.write_faults writer result (promised_text promised) }
{
    match promised {
        None => put(writer, b" promised -"),
        Some(ballot) => {
            put(writer, b" promised ")?;
            write_ballot(writer, ballot)
        }
    }
}

/// Returns the bytes that a node's console has shown.
fn console<'w>(world: &'w World<'_>, node: u8) -> &'w [u8]
    ensures { result.now ≡ console_at world.now node }
{
    match world.console(node) {
        None => &[],
        Some(bytes) => bytes,
    }
}

/// Writes the bytes that a console has shown, or `-`.
fn write_console<W: ByteWriter>(writer: &mut W, console: &[u8]) -> Result<(), WriteFault>
    ensures { PutsText W.contents W.write_faults writer result (console_text console.now) }
{
    if console.is_empty() {
        return put(writer, b" console -");
    }
    put(writer, b" console ")?;
    put_hex(writer, console)
}

/// Writes the line of a node.
fn write_node<W: ByteWriter>(writer: &mut W, world: &World<'_>, node: u8) -> Result<(), WriteFault>
    ensures { PutsText W.contents W.write_faults writer result (node_line world.now node) }
{
    put_number(writer, b"node ", node as u64)?;
    write_known(writer, world, node)?;
    write_promised(writer, promised(world, node))?;
    write_console(writer, console(world, node))?;
    put(writer, b"\n")
}

/// Writes a line for each node.
fn write_nodes<W: ByteWriter>(writer: &mut W, world: &World<'_>, size: u8) -> Result<(), WriteFault>
    ensures { PutsText W.contents W.write_faults writer result (node_lines world.now size) }
{
    for before in 0..size {
        write_node(writer, world, 1 + before)?;
    }
    Ok(())
}

/// Returns the value that a node has learned at a place, if the node is up.
fn learned_of(world: &World<'_>, node: u8, place: u32) -> Option<Value>
    ensures { result ≡ learned_by world.now node place }
{
    match world.node(node) {
        None => None,
        Some(running) => running.learned(place),
    }
}

/// Returns the value of the first node that is up and has learned one at the place.
fn learned(world: &World<'_>, size: u8, place: u32) -> Option<Value>
    ensures { result ≡ learned_at world.now size place }
{
    let mut found = None;
    for before in 0..size {
        found = found.or(learned_of(world, 1 + before, place));
    }
    found
}

/// Writes the line of a place at which `value` is learned.
fn write_learned<W: ByteWriter>(writer: &mut W, place: u32, value: Value) -> Result<(), WriteFault>
    ensures { PutsText W.contents W.write_faults writer result (place_line place (Some value)) }
{
    put_number(writer, b"place ", place as u64)?;
    put(writer, b" ")?;
    write_value(writer, value)?;
    put(writer, b"\n")
}

/// Writes the line of a place, if a value is learned there.
fn write_place<W: ByteWriter>(
    writer: &mut W,
    place: u32,
    learned: Option<Value>,
) -> Result<(), WriteFault>
    ensures { PutsText W.contents W.write_faults writer result (place_line place learned) }
{
    match learned {
        None => Ok(()),
        Some(value) => write_learned(writer, place, value),
    }
}

/// Returns a place from which on a node has learned nothing.
fn end_of(node: &Node<'_, MemoryStore>) -> u32
    ensures few { result ≤ PLACES }
    ensures none { (s : ℕ) → result ≤ s
        → get node.now.protocol.known.learner.learned s ≡ None }
{
    // For its contract: what the node knows is in its ranges.
    node.record();
    node.known_front().saturating_add(WINDOW).min(PLACES)
}

/// Returns a place from which on a node has learned nothing, if it is up.
fn learned_end(world: &World<'_>, node: u8) -> u32
    ensures few { result ≤ PLACES }
    ensures none { (s : ℕ) → result ≤ s → learned_by world.now node s ≡ None }
{
    match world.node(node) {
        None => 0,
        Some(running) => end_of(running),
    }
}

/// Returns a place from which on no node that is up has learned a value.
fn places_end(world: &World<'_>, size: u8) -> u32
    ensures few { result ≤ PLACES }
    ensures none { (s : ℕ) → result ≤ s → learned_at world.now size s ≡ None }
{
    let mut end = 0;
    for before in 0..size {
        end = end.max(learned_end(world, 1 + before));
    }
    end
}

/// Writes a line for each place at which some node that is up has learned a value, ascending. It
/// looks at no place that is far above all fronts.
fn write_places<W: ByteWriter>(
    writer: &mut W,
    world: &World<'_>,
    size: u8,
) -> Result<(), WriteFault>
    ensures { PutsText W.contents W.write_faults writer result (place_lines world.now size) }
{
    for place in 0..places_end(world, size) {
        write_place(writer, place, learned(world, size, place))?;
    }
    Ok(())
}

/// Writes a line for each node of a group of `size` nodes, a line for each learned place, and the
/// number of messages that were sent. A write that fails leaves a prefix of this text.
pub fn write_group<W: ByteWriter>(
    writer: &mut W,
    world: &World<'_>,
    size: u8,
) -> Result<(), WriteFault>
    ensures { PutsText W.contents W.write_faults writer result (group_text world.now size) }
{
    write_nodes(writer, world, size)?;
    write_places(writer, world, size)?;
    put_number(writer, b"sent ", world.sent() as u64)?;
    put(writer, b"\n")
}
