//! The output of a node, released to a writer.
ghost use Rattle.std.specs.Prelude.{◌≡◌, [], Option};
ghost use Rattle.base.specs.Faults.{CountsFault};
ghost use Rattle.group_node.specs.States.{input};
ghost use Rattle.group_wire.specs.Doings.{HasActed};
ghost use Rattle.group_wire.specs.Traffic.{Traffic};
ghost use Rattle.node_run.specs.Output.{all_released, unreleased_from};
ghost use Rattle.node_run.specs.Releases.{HasReleased};

use arrayvec::ArrayVec;
use group_node::limits::RING_BYTES;
use group_wire::laws::deeds_go_on;
use group_wire::{Host, TraceEvent, Wire};
use machine_run::{ByteWriter, RunIo, WriteFault};
use node_io::GroupFault;
use paxos_acceptor::Store;

/// Releases all output that waits, and traces each byte. Returns those bytes whose number is not
/// below `seen`, in order.
fn release_unseen<T: Wire, S: Store>(
    host: &mut Host<'_, S>,
    seen: u64,
    wire: &mut T,
) -> ArrayVec<u8, RING_BYTES>
    ensures progress { host.new.progress
        ≡ all_released (input host.old.protocol.known) host.old.progress }
    ensures unseen { result.items
        ≡ unreleased_from seen (input host.old.protocol.known) host.old.progress }
    ensures protocol { host.new.protocol ≡ host.old.protocol }
    ensures acts { (passed : Option Traffic) → HasActed host.old host.new passed passed [] }
    ensures passed { T.traffic wire.new ≡ T.traffic wire.old }
{
    deeds_go_on::<S>();
    // For its contract: at most 256 bytes wait, so `unseen` has room for all of them.
    host.unreleased();
    let mut unseen = ArrayVec::new();
    while let Some((number, byte)) = host.release() {
        wire.trace(&TraceEvent::Released(number, byte));
        if number >= seen {
            unseen.push(byte);
        }
    }
    unseen
}

/// Releases all output that waits, and writes those bytes whose number is not below `seen`, in
/// order.
///
/// If a write fails, all output is released too. None or some first ones of those bytes are
/// written, and the others are lost. No clause says that each byte is traced, or how many
/// calls of the writer there are.
pub fn release_all<T: Wire, S: Store, W: ByteWriter>(
    host: &mut Host<'_, S>,
    seen: u64,
    wire: &mut T,
    writer: &mut W,
) -> Result<(), GroupFault>
    ensures released { HasReleased seen
        (record { node = host.old; written = W.contents writer.old })
        (record { node = host.new; written = W.contents writer.new }) result }
    ensures faults { CountsFault (W.write_faults writer.old) (W.write_faults writer.new) result }
    ensures acts { (passed : Option Traffic) → HasActed host.old host.new passed passed [] }
    ensures passed { T.traffic wire.new ≡ T.traffic wire.old }
{
    let unseen = release_unseen(host, seen, wire);
    match writer.write_bytes(unseen.as_slice()) {
        Ok(()) => Ok(()),
        Err(WriteFault) => Err(GroupFault::from(RunIo::Write)),
    }
}
