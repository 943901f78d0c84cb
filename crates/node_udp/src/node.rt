//! The command `node`: one node of a group on UDP, over a record in a file.
ghost use Rattle.std.specs.Prelude.{IfErr, IfOk};
ghost use Rattle.machine_run.specs.Files.{IsFileRefusal, IsLoadedProgram};
ghost use Rattle.node_udp.specs.Ends.{EndsLoaded, EndsNode, IsTypedText, IsRefusedInput};

use crate::over_file::run_opened;
use group_log::{Log, LogLevel, Note, ProcessEnd};
use group_node::{Config, NodeFault};
use machine_run::{ByteWriter, MachineRefusal, load_file, read_whole};
use node_io::GroupFault;
use node_run::RunPlan;
use paxos_msg::Group;
use pcode_ops::Program;
use std::alloc::Global;
use std::fs::File;
use std::io::{Read, Write};
use std::net::{Net, SocketAddr};
use std::rt::Files;
use std::time::Clock;

/// What a node on UDP is to do, and where.
#[derive(Clone, Copy)]
pub struct NodePlan<'a> {
    /// Its number, from 1 to the size of the group.
    pub node: u8,
    /// Its group: 1, 3, 5, 7 or 9 nodes.
    pub group: Group,
    /// The path of the record.
    pub record: &'a str,
    /// The address of each node, in order: as many as the group has.
    pub addresses: &'a [SocketAddr],
    /// How it is to run.
    pub run: RunPlan,
    /// The address at which typed bytes come as datagrams. If `None`, the node types what the
    /// reader has left.
    pub keys: Option<SocketAddr>,
    /// The path of the node's trace, if it writes one: a line for each of its calls.
    pub trace: Option<&'a str>,
    /// What the node writes of itself to standard error, a line for each note.
    pub log: LogLevel,
}

/// Loads the program of a code file, and notes it if the file cannot be read.
fn load_noted<H: Files + Clock + AllocGlobal, E: Write>(
    rt: &H,
    file: &str,
    log: &mut Log<'_, H, E>,
) -> Result<Program, MachineRefusal>
    ensures ok { IfOk result IsLoadedProgram }
    ensures err { IfErr result IsFileRefusal }
{
    let loaded = load_file(rt, file);
    if let Err(MachineRefusal::File) = &loaded {
        log.note(&Note::NoFile(file));
    }
    loaded
}

/// Returns the text that is typed: all that the reader has left, or none if typed bytes come as
/// datagrams.
fn input_of<R: Read>(
    alloc: Global,
    plan: &NodePlan<'_>,
    reader: &mut R,
) -> Result<Vec<u8>, GroupFault>
    ensures ok { IfOk result (λ text.
        IsTypedText plan.now.keys (R.remaining reader.old) (R.remaining reader.new) text.items) }
    ensures err { IfErr result
        (IsRefusedInput plan.now (R.remaining reader.old) (R.remaining reader.new)) }
{
    match plan.keys {
        None => Ok(read_whole(alloc, reader, &mut 0)?),
        Some(_) => Ok(Vec::new(alloc)),
    }
}

/// Runs a program at one node, as `node_file` says.
fn node_loaded<
    H: Files<File = File> + Net + Clock + AllocGlobal + Copy + Drop,
    R: Read,
    W: ByteWriter,
    E: Write,
>(
    rt: &H,
    program: &Program,
    plan: &NodePlan<'_>,
    reader: &mut R,
    writer: &mut W,
    log: &mut Log<'_, H, E>,
) -> Result<(), GroupFault>
    ensures ends { EndsLoaded program.now plan.now (R.remaining reader.old)
        (R.remaining reader.new) (W.contents writer.old) (W.contents writer.new) result }
{
    let config = Config::new(plan.node, plan.group.size, plan.group.session)?;
    // For its contract: the group has a valid size and such a node.
    config.me();
    let text = input_of(rt.alloc(), plan, reader)?;
    run_opened(rt, program, config, plan, text.as_slice(), writer, log)
}

/// Returns how a run ended, for the log.
fn end_of(done: &Result<(), GroupFault>) -> ProcessEnd {
    match done {
        Ok(()) => ProcessEnd::Turns,
        Err(GroupFault::Node(fault)) => ProcessEnd::Node(*fault),
        Err(GroupFault::Socket | GroupFault::Machine(_)) => ProcessEnd::Other,
    }
}

/// Notes how a run ended, and which record it is, if it ended by that.
fn note_end<H: Clock, E: Write>(
    record: &str,
    done: &Result<(), GroupFault>,
    log: &mut Log<'_, H, E>,
) {
    match done {
        Err(GroupFault::Node(NodeFault::Store)) => log.note(&Note::NoRecord(record)),
        Err(GroupFault::Node(NodeFault::BadRecord)) => log.note(&Note::BadRecord(record)),
        _ => {}
    }
    log.note(&Note::Ended(end_of(done)));
}

/// Runs the program of a code file at one node, as `node_file` says.
fn node_noted<
    H: Files<File = File> + Net + Clock + AllocGlobal + Copy + Drop,
    R: Read,
    W: ByteWriter,
    E: Write,
>(
    rt: &H,
    file: &str,
    plan: &NodePlan<'_>,
    reader: &mut R,
    writer: &mut W,
    log: &mut Log<'_, H, E>,
) -> Result<(), GroupFault>
    ensures ends { EndsNode plan.now (R.remaining reader.old) (R.remaining reader.new)
        (W.contents writer.old) (W.contents writer.new) result }
{
    let program = load_noted(rt, file, log)?;
    node_loaded(rt, &program, plan, reader, writer, log)
}

/// Runs the plan's node over its record, up to the first refusal (`EndsNode`): it starts, and runs
/// as `plan.run` says, as by `run_node`. It is a process of its group over a load of some store;
/// which file that is, no contract says.
///
/// What is typed is a prefix of what the reader had left, or comes as datagrams. `writer` gets each
/// byte that the node has released, from number `plan.run.seen` on, once and in order, and nothing
/// else. If a write fails, the last of them are lost: at least one, and at most 256.
///
/// The code file is looked at first, then the node and its group, then the input, which is not read
/// if typed bytes come as datagrams, then the sockets, and then the record. A refusal before the
/// start leaves `writer` as it was. What the system's files hold and what passes over its sockets
/// is unknown to contracts.
///
/// `errors` gets the notes of the node, if the plan asks for a log. No contract says what they are.
pub fn node_file<
    H: Files<File = File> + Net + Clock + AllocGlobal + Copy + Drop,
    R: Read,
    W: ByteWriter,
    E: Write,
>(
    rt: &H,
    file: &str,
    plan: &NodePlan<'_>,
    reader: &mut R,
    writer: &mut W,
    errors: &mut E,
) -> Result<(), GroupFault>
    ensures ends { EndsNode plan.now (R.remaining reader.old) (R.remaining reader.new)
        (W.contents writer.old) (W.contents writer.new) result }
{
    let mut log = Log::new(rt.alloc(), rt, errors, plan.node, plan.log);
    let done = node_noted(rt, file, plan, reader, writer, &mut log);
    note_end(plan.record, &done, &mut log);
    done
}
