//! A run of one node over the files and sockets of the system.
ghost use Rattle.std.specs.Prelude.{◌≡◌};
ghost use Rattle.node_udp.specs.Ends.{RunsOpened, RunsOverFile, RunsWith};

use crate::node::NodePlan;
use crate::opening::{open_keyboard, open_wire};
use group_log::Log;
use group_node::Config;
use group_udp::{UdpWire, Watch};
use machine_run::ByteWriter;
use node_io::{GroupFault, Keyboard};
use node_run::laws::cycles_are_a_run;
use node_run::{Endpoints, Text, run_over_disk};
use paxos_disk::{FileDisk, LogStore};
use pcode_ops::Program;
use std::fs::File;
use std::io::Write;
use std::net::Net;
use std::rt::Files;
use std::time::Clock;

/// Runs one node over the record in the file that the plan names.
fn run_over_file<
    H: Files<File = File> + Net + Clock + AllocGlobal + Copy + Drop,
    K: Keyboard,
    W: ByteWriter,
    E: Write,
>(
    rt: &H,
    program: &Program,
    config: Config,
    plan: &NodePlan<'_>,
    endpoints: &mut Endpoints<UdpWire<'_, H>, K>,
    writer: &mut W,
    log: &mut Log<'_, H, E>,
) -> Result<(), GroupFault>
    requires fresh { endpoints.old.retries ≡ 0 }
    ensures ends { RunsOverFile config program.now plan.now
        (K.keys endpoints.old.keyboard) (K.keys endpoints.new.keyboard)
        (W.contents writer.old) (W.contents writer.new) result }
{
    cycles_are_a_run::<LogStore<FileDisk<H>>>();
    let disk = FileDisk::new(*rt, plan.record)?;
    let end = run_over_disk(
        rt.alloc(),
        program,
        config,
        disk,
        plan.run,
        endpoints,
        writer,
        log,
    );
    end.done
}

/// Opens the socket of the node, and runs it with this keyboard.
fn run_with<
    H: Files<File = File> + Net + Clock + AllocGlobal + Copy + Drop,
    K: Keyboard + Drop,
    W: ByteWriter,
    E: Write,
>(
    rt: &H,
    program: &Program,
    config: Config,
    plan: &NodePlan<'_>,
    watch: Watch,
    keyboard: K,
    writer: &mut W,
    log: &mut Log<'_, H, E>,
) -> Result<(), GroupFault>
    ensures ends { RunsWith config program.now plan.now (K.keys keyboard)
        (W.contents writer.old) (W.contents writer.new) result }
{
    let wire = open_wire(rt, plan, watch, log)?;
    let mut endpoints = Endpoints {
        wire,
        keyboard,
        retries: 0,
    };
    run_over_file(rt, program, config, plan, &mut endpoints, writer, log)
}

/// Opens the sockets that the plan names, and runs the node. It types `text`, unless typed bytes
/// come as datagrams.
pub fn run_opened<
    H: Files<File = File> + Net + Clock + AllocGlobal + Copy + Drop,
    W: ByteWriter,
    E: Write,
>(
    rt: &H,
    program: &Program,
    config: Config,
    plan: &NodePlan<'_>,
    text: &[u8],
    writer: &mut W,
    log: &mut Log<'_, H, E>,
) -> Result<(), GroupFault>
    ensures ends { RunsOpened config program.now plan.now text.now
        (W.contents writer.old) (W.contents writer.new) result }
{
    let watch = Watch::new(rt)?;
    match plan.keys {
        None => {
            let keyboard = Text { left: text };
            run_with(rt, program, config, plan, watch, keyboard, writer, log)
        }
        Some(address) => {
            let keyboard = open_keyboard(rt, address, &watch, log)?;
            run_with(rt, program, config, plan, watch, keyboard, writer, log)
        }
    }
}
