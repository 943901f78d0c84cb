//! Values of version 1, in which a value was one key or a no-op.
ghost use Rattle.std.specs.Prelude.{Ok};
ghost use Rattle.paxos_msg.specs.Version1.{key_rest_at_v1, value_at_v1};
ghost use Rattle.paxos_msg.specs.Reading.{GivesField};

use crate::characters::Characters;
use crate::fault::WireFault;
use crate::message::Group;
use crate::reading::{first_byte, number_of};
use crate::value::Value;

/// Reads the fields of a key after its node. Fails with `Value` if its start or its serial is 0,
/// and with `Short` if it ends too soon.
#[tactic(auto, unfolding(crate::specs::Version1::key_rest_at_v1))]
fn key_rest_of_v1(node: u8, bytes: &[u8]) -> Result<(Value, usize), WireFault>
    ensures { GivesField bytes.now result (key_rest_at_v1 node bytes.now) }
{
    let (start, rest) = number_of(bytes)?;
    if start == 0 {
        return Err(WireFault::Value);
    }
    let (first, rest) = number_of(rest)?;
    if first == 0 {
        return Err(WireFault::Value);
    }
    let (byte, _) = first_byte(rest)?;
    let key = Value::Keys {
        node,
        start,
        first,
        bytes: Characters::from(byte),
    };
    Ok((key, 9))
}

/// Returns the value of version 1 at the front of the bytes, a key as a batch of one, and the
/// number of bytes that it takes: 1 for a no-op, 11 for a key. Fails with the first check that
/// fails: with `Value` if the tag is not 0 or 1, the node is not of the group, or the start or
/// serial is 0, and with `Short` if the bytes end too soon.
#[tactic(auto, unfolding(crate::specs::Version1::value_at_v1, crate::specs::Version1::key_at_v1))]
pub fn read_value_v1(bytes: &[u8], group: Group) -> Result<(Value, usize), WireFault>
    ensures exact { GivesField bytes.now result (value_at_v1 group.size bytes.now) }
{
    let (tag, rest) = first_byte(bytes)?;
    if tag == 0 {
        return Ok((Value::Noop, 1));
    }
    if tag != 1 {
        return Err(WireFault::Value);
    }
    let (node, rest) = first_byte(rest)?;
    if !(0 < node && node <= group.size) {
        return Err(WireFault::Value);
    }
    let (key, taken) = key_rest_of_v1(node, rest)?;
    Ok((key, 2 + taken))
}
