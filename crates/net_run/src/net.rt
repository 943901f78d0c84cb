//! The command `net`: a group in one process, on loopback UDP, over stores in memory.
ghost use Rattle.std.specs.Prelude.{◌⊎◌, IfErr};
ghost use Rattle.node_io.specs.Refusals.{IsOpenRefusal};
ghost use Rattle.net_run.specs.Refusals.{IsFileOrInputRefusal, IsNetRefusal, IsPressRefusal, IsShownCampaignRefusal, IsShownTurnRefusal};

use crate::shown::ShownNode;
use group_log::{Log, LogLevel, Note};
use group_node::Config;
use group_udp::{UdpSocket, UdpWire, Watch, bind};
use machine_run::{RunIo, load_file, read_whole};
use node_io::GroupFault;
use paxos_msg::Group;
use pcode_ops::Program;
use std::alloc::Global;
use std::io::{self, Read, Write};
use std::net::{Ipv4Addr, Net, SocketAddr, SocketAddrV4};
use std::rt::Files;
use std::time::Clock;

/// What a group in one process is to do.
#[derive(Clone, Copy, Debug)]
pub struct NetPlan {
    /// How many nodes it has.
    pub size: u8,
    /// How many turns each node has.
    pub turns: u32,
    /// True if the end of the program at each node is written to standard error.
    pub is_logged: bool,
}

/// The session of a group in one process.
const SESSION: u32 = 1;

/// Makes `size` sockets on loopback, on ports that are free.
fn sockets<H: Net>(rt: &H, alloc: Global, size: u8) -> Result<Vec<UdpSocket>, GroupFault>
    ensures others { IfErr result IsOpenRefusal }
{
    let address = SocketAddr::V4(SocketAddrV4::new(Ipv4Addr::LOCALHOST, 0));
    let mut sockets = Vec::new(alloc);
    for _ in 0..size {
        sockets.push(bind(rt, address)?)?;
    }
    Ok(sockets)
}

/// Returns the addresses of the sockets, in order.
fn addresses(alloc: Global, sockets: &[UdpSocket]) -> Result<Vec<SocketAddr>, GroupFault>
    ensures others { IfErr result IsOpenRefusal }
{
    let mut addresses = Vec::new(alloc);
    for socket in sockets {
        let Ok(address) = socket.local_addr() else {
            return Err(GroupFault::Socket);
        };
        addresses.push(address)?;
    }
    Ok(addresses)
}

/// Makes wires of the sockets, for the nodes with these addresses, node 1 first.
fn wires<'a, H: Net + Files + Clock + AllocGlobal>(
    rt: &'a H,
    sockets: Vec<UdpSocket>,
    addresses: &'a [SocketAddr],
) -> Result<Vec<UdpWire<'a, H>>, GroupFault>
    ensures others { IfErr result IsOpenRefusal }
{
    let mut wires = Vec::new(rt.alloc());
    let mut node = 0u8;
    for socket in sockets {
        node = node.saturating_add(1);
        let watch = Watch::new(rt)?;
        let wire = UdpWire::new(rt, node, socket, watch, addresses, None)?;
        wires.push(wire)?;
    }
    Ok(wires)
}

/// Starts the nodes of the group on these wires, node 1 first.
fn nodes<'a, H: Clock + Files + AllocGlobal>(
    alloc: Global,
    program: &'a Program,
    group: Group,
    wires: Vec<UdpWire<'a, H>>,
) -> Result<Vec<ShownNode<'a, H>>, GroupFault>
    ensures others { IfErr result IsNetRefusal }
{
    let mut nodes = Vec::new(alloc);
    let mut number = 0u8;
    for wire in wires {
        number = number.saturating_add(1);
        let config = Config::new(number, group.size, group.session)?;
        nodes.push(ShownNode::start(alloc, program, config, wire)?)?;
    }
    Ok(nodes)
}

/// Has node 1 campaign.
fn campaign_first<H: Clock + Files + AllocGlobal>(
    nodes: &mut [ShownNode<'_, H>],
) -> Result<(), GroupFault>
    ensures others { IfErr result IsShownCampaignRefusal }
{
    match nodes.first_mut() {
        Some(node) => node.campaign(),
        None => Ok(()),
    }
}

/// Types as many of the bytes at node 1 as there is room for, and takes them off the front.
fn press_first<H: Clock + Files + AllocGlobal>(
    nodes: &mut [ShownNode<'_, H>],
    bytes: &mut &[u8],
) -> Result<(), GroupFault>
    ensures others { IfErr result IsPressRefusal }
{
    match nodes.first_mut() {
        Some(node) => node.press(bytes),
        None => Ok(()),
    }
}

/// Takes a turn of each node, in order. Notes each end of the program, if `is_logged`.
fn turn_all<H: Clock + Files + AllocGlobal, E: Write>(
    rt: &H,
    nodes: &mut [ShownNode<'_, H>],
    errors: &mut E,
    is_logged: bool,
) -> Result<(), GroupFault>
    ensures others { IfErr result IsShownTurnRefusal }
{
    let level = if is_logged {
        LogLevel::Notes
    } else {
        LogLevel::Off
    };
    let mut number = 0u8;
    for node in nodes.iter_mut() {
        number = number.saturating_add(1);
        if let Some(end) = node.turn()? {
            Log::new(rt.alloc(), rt, errors, number, level).note(&Note::Program(end));
        }
    }
    Ok(())
}

/// Takes the turns of the group. Bytes are typed at node 1 before each, as room allows.
fn play<H: Clock + Files + AllocGlobal, E: Write>(
    rt: &H,
    nodes: &mut [ShownNode<'_, H>],
    plan: &NetPlan,
    input: &[u8],
    errors: &mut E,
) -> Result<(), GroupFault>
    ensures others { IfErr result (λ e. IsPressRefusal e ⊎ IsShownTurnRefusal e) }
{
    let mut left = input;
    for _ in 0..plan.turns {
        press_first(nodes, &mut left)?;
        turn_all(rt, nodes, errors, plan.is_logged)?;
    }
    Ok(())
}

/// Writes the line of each node.
fn write_all<H: Clock + Files + AllocGlobal, W: Write>(
    writer: &mut W,
    nodes: &[ShownNode<'_, H>],
) -> io::Result<()> {
    for (index, node) in nodes.iter().enumerate() {
        node.write_line(writer, index.saturating_add(1))?;
    }
    Ok(())
}

/// Runs a group in this process, as the plan says, and writes a line for each node. Node 1
/// campaigns first, and the input is typed at it. It ends at a node's first refusal.
fn net<H: Net + Files + Clock + AllocGlobal, W: Write, E: Write>(
    rt: &H,
    program: &Program,
    plan: &NetPlan,
    input: &[u8],
    writer: &mut W,
    errors: &mut E,
) -> Result<(), GroupFault>
    ensures others { IfErr result IsNetRefusal }
{
    let alloc = rt.alloc();
    let group = Group {
        size: plan.size,
        session: SESSION,
    };
    let sockets = sockets(rt, alloc, plan.size)?;
    let addresses = addresses(alloc, sockets.as_slice())?;
    let wires = wires(rt, sockets, addresses.as_slice())?;
    let mut nodes = nodes(alloc, program, group, wires)?;
    campaign_first(nodes.as_mut_slice())?;
    play(rt, nodes.as_mut_slice(), plan, input, errors)?;
    write_all(writer, nodes.as_slice()).or(Err(GroupFault::from(RunIo::Write)))
}

/// Runs the program of a code file in a group in this process, as the plan says. Fails only if the
/// file is refused, the input cannot be read, no group has this size, a socket or memory is
/// missing, a node refuses its start, a campaign, a typed byte or a turn, or a write fails.
///
/// The input is typed at node 1. The code file is looked at first, then the size, then the input.
/// `errors` gets a note where a node's program ends, if the plan asks for it.
pub fn net_file<H: Files + Net + Clock + AllocGlobal, R: Read, W: Write, E: Write>(
    rt: &H,
    file: &str,
    plan: &NetPlan,
    reader: &mut R,
    writer: &mut W,
    errors: &mut E,
) -> Result<(), GroupFault>
    ensures others { IfErr result (λ e. IsNetRefusal e ⊎ IsFileOrInputRefusal e) }
{
    let program = load_file(rt, file)?;
    Config::new(1, plan.size, SESSION)?;
    let input = read_whole(rt.alloc(), reader, &mut 0)?;
    net(rt, &program, plan, input.as_slice(), writer, errors)
}
