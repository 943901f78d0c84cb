//! A node of a group in one process, whose output is shown on its console.
ghost use Rattle.std.specs.Prelude.{◌≡◌, ◌<◌, ◌++◌, ◌∷◌, [], length, IfErr, None, OnErr, Ok, OnOk, Option};
ghost use Rattle.group_node.specs.NodeCalls.{running, unreleased_by};
ghost use Rattle.group_node.specs.States.{input};
ghost use Rattle.group_node.specs.Deeds.{Campaign, Run};
ghost use Rattle.group_wire.specs.declared.limits.TheConstants.{TURN_STEPS};
ghost use Rattle.group_wire.specs.Doings.{HasActed};
ghost use Rattle.group_wire.specs.Presses.{HasPressed};
ghost use Rattle.group_wire.specs.Traffic.{Traffic};
ghost use Rattle.group_wire.specs.Turns.{released_of};
ghost use Rattle.node_io.specs.Refusals.{IsStartRefusal, no_memory};
ghost use Rattle.net_run.specs.Refusals.{IsShownCampaignRefusal, IsPressRefusal, IsShownTurnRefusal};
ghost use Rattle.net_run.specs.Shown.{HasShownAll, ReleasesFirst, ShowsReleased};

use group_log::end_to_note;
use group_node::{Config, Console, Offer};
use group_udp::UdpWire;
use group_wire::laws::deeds_go_on;
use group_wire::{Host, Rested};
use machine_run::RunIo;
use node_io::{GroupFault, RestingWire};
use paxos_acceptor::{MemoryStore, Store};
use paxos_msg::Record;
use pcode_machine::End;
use pcode_ops::Program;
use std::alloc::Global;
use std::io::{self, Write};
use std::rt::Files;
use std::time::Clock;

/// A node over a store in memory, its wire, and its console, which shows what was released of the
/// node's output.
#[derive(Drop)]
pub struct ShownNode<'a, H: Files> {
    host: Host<'a, MemoryStore>,
    wire: UdpWire<'a, H>,
    console: Console,
    has_ended: bool,
    ghost shows: { console.bytes ≡ released_of (input host.protocol.known) host.progress },
}

/// Puts the first byte of the output that waits on the console, which has shown those before it.
/// Fails if memory runs out; then the byte waits still.
fn show_next<S: Store>(host: &mut Host<'_, S>, console: &mut Console) -> Result<(), GroupFault>
    requires waits { 0 < length (unreleased_by (running host.old)) }
    requires shows { ShowsReleased console.old.bytes host.old }
    ensures shows { ShowsReleased console.new.bytes host.new }
    ensures one { OnOk result (ReleasesFirst 1 host.old host.new) }
    ensures none { OnErr result (host.new ≡ host.old) }
    ensures others { IfErr result (λ e. e ≡ no_memory) }
    ensures acts { (passed : Option Traffic) → HasActed host.old host.new passed passed [] }
{
    deeds_go_on::<S>();
    if console.reserve().is_err() {
        return Err(GroupFault::from(RunIo::Memory));
    }
    let Some((number, byte)) = host.release() else {
        unreachable!()
    };
    match console.offer(number, byte) {
        Offer::Fresh => Ok(()),
        Offer::Repeat | Offer::Gap | Offer::Memory => unreachable!(),
    }
}

/// Puts all output that waits on the console, which has shown what was released before: each byte
/// once, in order. Fails if memory runs out for a byte; then it and those after it wait still.
fn show_all<S: Store>(host: &mut Host<'_, S>, console: &mut Console) -> Result<(), GroupFault>
    requires shows { ShowsReleased console.old.bytes host.old }
    ensures shows { ShowsReleased console.new.bytes host.new }
    ensures appended { OnOk result
        (console.new.bytes ≡ console.old.bytes ++ unreleased_by (running host.old)) }
    ensures shown { HasShownAll host.old host.new result }
    ensures acts { (passed : Option Traffic) → HasActed host.old host.new passed passed [] }
{
    deeds_go_on::<S>();
    for _ in 0..host.unreleased() {
        show_next(host, console)?;
    }
    Ok(())
}

/// Writes the bytes of a console in hexadecimal digits, or `-` for none.
fn write_bytes<W: Write>(writer: &mut W, bytes: &[u8]) -> io::Result<()> {
    if bytes.is_empty() {
        return write!(writer, "-");
    }
    for byte in bytes {
        write!(writer, "{byte:02X}")?;
    }
    Ok(())
}

impl<'a, H: Clock + Files + AllocGlobal> ShownNode<'a, H> {
    /// Starts a node over an empty record, with an empty console.
    pub fn start(
        alloc: Global,
        program: &'a Program,
        config: Config,
        wire: UdpWire<'a, H>,
    ) -> Result<ShownNode<'a, H>, GroupFault>
        ensures others { IfErr result IsStartRefusal }
    {
        let store = MemoryStore::new(Record::new(alloc));
        let host = Host::start(alloc, program, config, store)?;
        let console = Console::new(alloc);
        Ok(ShownNode {
            host,
            wire,
            console,
            has_ended: false,
        })
    }

    /// Has the node campaign.
    pub fn campaign(&mut self) -> Result<(), GroupFault>
        ensures acts { OnOk result
            (HasActed self.old.host self.new.host None None (Campaign ∷ [])) }
        ensures others { IfErr result IsShownCampaignRefusal }
    {
        Ok(self.host.campaign(&mut self.wire)?)
    }

    /// Types as many of the bytes as there is room for, and takes them off the front
    /// (`HasPressed`).
    pub fn press(&mut self, bytes: &mut &[u8]) -> Result<(), GroupFault>
        ensures pressed { OnOk result
            (HasPressed self.old.host self.new.host bytes.old.now bytes.new.now (Ok tt)) }
        ensures others { IfErr result IsPressRefusal }
    {
        Ok(self.host.press(bytes)?)
    }

    /// Puts all output that waits on the console.
    fn show_output(&mut self) -> Result<(), GroupFault>
        ensures shown { HasShownAll self.old.host self.new.host result }
        ensures acts { (passed : Option Traffic)
            → HasActed self.old.host self.new.host passed passed [] }
    {
        show_all(&mut self.host, &mut self.console)
    }

    /// Waits until a datagram is there, or the rest of the node is over. Then takes a turn of it,
    /// and puts all output that waits on the console. Returns the end of the program, if this is
    /// the first turn that came to it.
    ///
    /// From the second turn on a datagram is there: the tick of the last turn has left one.
    pub fn turn(&mut self) -> Result<Option<End>, GroupFault>
        ensures acts { OnOk result
            (HasActed self.old.host self.new.host None None (Run TURN_STEPS ∷ [])) }
        ensures shown { OnOk result (unreleased_by (running self.new.host) ≡ []) }
        ensures others { IfErr result IsShownTurnRefusal }
    {
        deeds_go_on::<MemoryStore>();
        self.wire.begin_rest(self.host.node().known_front());
        self.wire.wait();
        let turned = self.host.turn(&mut self.wire, Rested::No)?;
        self.show_output()?;
        let end = end_to_note(self.has_ended, turned.ran.end());
        self.has_ended = self.has_ended || end.is_some();
        Ok(end)
    }

    /// Writes the line of the node, whose number is `number`.
    pub fn write_line<W: Write>(&self, writer: &mut W, number: usize) -> io::Result<()> {
        let known = self.host.node().known_front();
        write!(writer, "node {number} known {known} console ")?;
        write_bytes(writer, self.console.bytes())?;
        writeln!(writer)
    }
}
