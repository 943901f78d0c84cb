//! A whole run of one node: over any store, wire and keyboard, and over any disk.
ghost use Rattle.std.specs.Prelude.{◌≡◌, IfErr, IsErrOf, None};
ghost use Rattle.paxos_acceptor.specs.Stores.{CountsIf, IsStoreOf};
ghost use Rattle.paxos_disk.specs.Found.{disk_kind};
ghost use Rattle.paxos_disk.specs.Reads.{IsFolderOf};
ghost use Rattle.node_run.specs.Course.{around_of};
ghost use Rattle.node_io.specs.Refusals.{IsRunRefusal, write_failed};
ghost use Rattle.node_run.specs.Runs.{CyclesOrRefuses};

use crate::cycles::{RunPlan, campaign_and_play};
use crate::endpoints::Endpoints;
use group_log::Log;
use group_node::{Config, NodeFault, StartRefused};
use group_wire::laws::deeds_go_on;
use group_wire::{Host, TraceEvent, Wire};
use machine_run::ByteWriter;
use node_io::{CountedWire, GroupFault, Keyboard};
use paxos_acceptor::Store;
use paxos_disk::{Disk, LogStore};
use pcode_ops::Program;
use std::alloc::Global;
use std::io::Write;
use std::time::Clock;

/// How the run of a node ended, and its store.
#[derive(Drop)]
pub struct NodeEnd<S> {
    /// The store, as the run has left it.
    pub store: S,
    /// `Ok` if all turns were made and no write failed, or why the run ended.
    pub done: Result<(), GroupFault>,
}

/// Traces how the run of a node ended: that the store's device failed, at the load or a save, if it
/// did, and the exit status of the process. Returns how it ended.
fn trace_end<T: Wire>(wire: &mut T, done: Result<(), GroupFault>) -> Result<(), GroupFault>
    ensures same { result ≡ done }
    ensures passed { T.traffic wire.new ≡ T.traffic wire.old }
{
    if let Err(GroupFault::Node(NodeFault::Store)) = done {
        wire.trace(&TraceEvent::Failed);
    }
    wire.trace(&TraceEvent::Ended(u8::from(done.is_err())));
    done
}

/// Runs one node over a store, a wire and a keyboard, as `plan` says (`CyclesOrRefuses`). It starts
/// over the record that one load of the store gives, campaigns if it is to, and makes as many
/// cycles as there are turns. It is a process of its group (`laws::cycles_are_a_run`): exactly what
/// its deeds send and receive passes over the wire.
///
/// What is typed is what the keyboard gave, each byte once and in order. At `SerialSpent` the last
/// bytes that the keyboard gave may be lost. `writer` gets each byte that the node has released,
/// from number `seen` on, once and in order, and nothing else. If a write fails, the last of them
/// are lost: at least one, and at most 256. At `Ok` all output of the machine is released.
///
/// A start that is refused ends it, and nothing passes, nothing is typed, and nothing is written.
/// Otherwise it is refused only for one of these reasons:
/// - a save or a write failed
/// - the plan's campaign was refused
/// - the serials are spent
///
/// Contracts see of `config` the node and its group. The store is one of that node, or of no node
/// in particular, and is given back as such. The record that an honest store loaded is one that a
/// restart might have loaded before. Of an honest store a restart may load afterwards the record of
/// the process and no other; after a save that failed, that record or the one that was to be saved.
pub fn run_node<H: Clock, T: CountedWire, K: Keyboard, S: Store + Drop, W: ByteWriter, E: Write>(
    alloc: Global,
    program: &Program,
    config: Config,
    store: S,
    plan: RunPlan,
    endpoints: &mut Endpoints<T, K>,
    writer: &mut W,
    log: &mut Log<'_, H, E>,
) -> NodeEnd<S>
    requires owned { IsStoreOf S.kind config store }
    ensures owned { IsStoreOf S.kind config result.store }
    ensures ends { CyclesOrRefuses S.kind config program.now store result.store plan
        (around_of T.traffic K.keys endpoints.old)
        (around_of T.traffic K.keys endpoints.new)
        (W.contents writer.old) (W.contents writer.new) result.done }
    ensures faults { CountsIf (IsErrOf result.done write_failed) (W.write_faults writer.old)
        (W.write_faults writer.new) }
    ensures others { IfErr result.done IsRunRefusal }
{
    deeds_go_on::<S>();
    let group = config.me().group;
    let mut host = match Host::start(alloc, program, config, store) {
        Ok(host) => host,
        Err(StartRefused { fault, store }) => {
            let done = trace_end(&mut endpoints.wire, Err(GroupFault::Node(fault)));
            return NodeEnd { store, done };
        }
    };
    endpoints.wire.trace(&TraceEvent::Started);
    log.note_started(host.node().protocol(), group);
    let played = campaign_and_play(&mut host, plan, endpoints, writer, log);
    // For its contract: the machine is where a replay from the start is.
    host.unreleased();
    // It says what a restart may load of the store, and whose that is.
    host.node().record();
    let done = trace_end(&mut endpoints.wire, played);
    let store = host.into_store();
    NodeEnd { store, done }
}

/// Runs one node over a disk, as `run_node` says. Whatever a restart finds on an honest disk has to
/// be a record of the node, or no file. That is also so afterwards.
///
/// On an honest disk the process is over a record that a restart might have found there before
/// (`MayLoad`). Afterwards a restart finds the record of the process and no other; after a save
/// that failed, that record or the one that was to be saved.
pub fn run_over_disk<
    H: Clock,
    T: CountedWire,
    K: Keyboard,
    D: Disk + Drop,
    W: ByteWriter,
    E: Write,
>(
    alloc: Global,
    program: &Program,
    config: Config,
    disk: D,
    plan: RunPlan,
    endpoints: &mut Endpoints<T, K>,
    writer: &mut W,
    log: &mut Log<'_, H, E>,
) -> NodeEnd<LogStore<D>>
    requires good { D.honest → IsFolderOf config (D.folder disk) }
    ensures good { D.honest → IsFolderOf config (D.folder result.store.disk) }
    ensures ends { CyclesOrRefuses (disk_kind D.honest D.folder) config program.now
        (record { disk = disk; filed = record { me = config; found = None; faults = 0 } })
        result.store plan (around_of T.traffic K.keys endpoints.old)
        (around_of T.traffic K.keys endpoints.new)
        (W.contents writer.old) (W.contents writer.new) result.done }
    ensures faults { CountsIf (IsErrOf result.done write_failed) (W.write_faults writer.old)
        (W.write_faults writer.new) }
    ensures others { IfErr result.done IsRunRefusal }
{
    let store = LogStore::new(alloc, disk, config.me());
    let end = run_node(alloc, program, config, store, plan, endpoints, writer, log);
    // It says what a restart finds there.
    end.store.disk();
    end
}
