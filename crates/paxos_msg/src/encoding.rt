//! Writes messages as datagrams.
ghost use Rattle.std.specs.Prelude.{◌≡◌, ◌≤◌, vec_len, vec_capacity, IfOk, IfErr};
ghost use Rattle.paxos_msg.specs.declared.fault.WireFault.TheVariants as fault;
ghost use Rattle.paxos_msg.specs.Datagrams.{Fits, spelling};
ghost use Rattle.paxos_msg.specs.declared.limits.TheConstants.{LONGEST_DATAGRAM};

use crate::bodies::{kind, put_body};
use crate::fault::WireFault;
use crate::limits::LONGEST_DATAGRAM;
use crate::message::{Group, Msg};
use crate::spelling::put_header;
use std::alloc::Global;

/// Writes the spelling of a message that fits into an empty vector with room for 1,400 bytes. The
/// capacity stays, and the call cannot fail.
///
/// The spelling has at most 440 bytes. The call takes no memory.
pub fn encode_into(message: &Msg, group: Group, out: &mut Vec<u8>)
    requires fits { Fits group message.now }
    requires empty { vec_len out.old ≡ 0 }
    requires room { LONGEST_DATAGRAM ≤ vec_capacity out.old }
    ensures items { out.new.items ≡ spelling group message.now }
    ensures capacity { vec_capacity out.new ≡ vec_capacity out.old }
{
    put_header(group, kind(&message.body), message.sender, out);
    put_body(&message.body, out);
}

/// Returns the spelling of a message that fits. Fails only with `Memory`.
///
/// The spelling has at most 440 bytes. Memory is asked for 1,400.
pub fn encode(alloc: Global, message: &Msg, group: Group) -> Result<Vec<u8>, WireFault>
    requires fits { Fits group message.now }
    ensures ok { IfOk result (λ bytes. bytes.items ≡ spelling group message.now) }
    ensures err { IfErr result (λ e. e ≡ fault.Memory) }
{
    let Ok(mut out) = Vec::with_capacity(alloc, LONGEST_DATAGRAM) else {
        return Err(WireFault::Memory);
    };
    encode_into(message, group, &mut out);
    Ok(out)
}
