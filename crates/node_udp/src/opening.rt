//! The sockets of a node.
ghost use Rattle.std.specs.Prelude.{◌≡◌, IfErr, IfOk};
ghost use Rattle.node_io.specs.Prompts.{no_keys};
ghost use Rattle.node_io.specs.Refusals.{IsOpenRefusal, IsSocketRefusal};

use crate::node::NodePlan;
use group_log::{Log, Note};
use group_udp::{Trace, TypedDatagrams, UdpSocket, UdpWire, Watch, address_at, bind};
use node_io::GroupFault;
use std::io::Write;
use std::net::{Net, SocketAddr};
use std::rt::Files;
use std::time::Clock;

/// Binds a socket to the address, and notes a refusal.
fn bind_noted<H: Net + Clock, E: Write>(
    rt: &H,
    address: SocketAddr,
    log: &mut Log<'_, H, E>,
) -> Result<UdpSocket, GroupFault>
    ensures others { IfErr result IsSocketRefusal }
{
    let bound = bind(rt, address);
    if bound.is_err() {
        log.note(&Note::NoSocket(address));
    }
    bound
}

/// Opens the socket of typed bytes at its address, which is watched.
pub fn open_keyboard<'a, H: Net + Clock + AllocGlobal, E: Write>(
    rt: &'a H,
    address: SocketAddr,
    watch: &Watch,
    log: &mut Log<'_, H, E>,
) -> Result<TypedDatagrams<'a, H>, GroupFault>
    ensures fresh { IfOk result (λ typed. typed ≡ no_keys) }
    ensures others { IfErr result IsOpenRefusal }
{
    let mut socket = bind_noted(rt, address, log)?;
    watch.add_typed(&mut socket)?;
    Ok(TypedDatagrams::new(rt, rt.alloc(), socket)?)
}

/// Opens the wire of the plan's node, on the socket of its address, with its trace if the plan has
/// one. Typed bytes end its waiting too, if the watch has a socket for them. It counts datagrams
/// only if the log is on. Fails with `Socket` also if the plan has no address for the node; that is
/// not noted.
pub fn open_wire<'a, H: Net + Files + Clock + AllocGlobal, E: Write>(
    rt: &'a H,
    plan: &NodePlan<'a>,
    watch: Watch,
    log: &mut Log<'_, H, E>,
) -> Result<UdpWire<'a, H>, GroupFault>
    ensures others { IfErr result IsOpenRefusal }
{
    let Some(address) = address_at(plan.addresses, plan.node) else {
        return Err(GroupFault::Socket);
    };
    let socket = bind_noted(rt, address, log)?;
    let counted = if log.is_on() { Some(plan.group) } else { None };
    let mut wire = UdpWire::new(rt, plan.node, socket, watch, plan.addresses, counted)?;
    if let Some(path) = plan.trace {
        let trace = Trace::open(rt, path, address, plan.record, plan.node, plan.group);
        wire.set_trace(trace);
    }
    Ok(wire)
}
