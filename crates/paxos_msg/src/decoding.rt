//! Reads datagrams.
ghost use Rattle.std.specs.Prelude.{◌≤◌, ◌<◌, IfOk, Ok, length};
ghost use Rattle.paxos_msg.specs.declared.bodies.TheConstants.{LAST_KIND};
ghost use Rattle.paxos_msg.specs.declared.limits.TheConstants.{MOST_VOTES, PLACES};
ghost use Rattle.paxos_msg.specs.Batches.{Msg};
ghost use Rattle.paxos_msg.specs.Bodies.{HasUpTo};
ghost use Rattle.paxos_msg.specs.Datagrams.{Msgs, header_at, message_at};
ghost use Rattle.paxos_msg.specs.Reading.{Gives, GivesField, ballot_at, number_at, value_at, votes_at};

use crate::ballot::Ballot;
use crate::bodies::{LAST_KIND, body_of};
use crate::fault::WireFault;
use crate::lent::LentVotes;
use crate::limits::PLACES;
use crate::message::{Group, View};
use crate::reading::{Part, after_votes, ballot_of, number_of, value_of};
use crate::value::Value;
use byteorder::{BigEndian, ByteOrder};

/// Reads the header of a datagram of the group, 10 bytes. Returns kind, sender and the bytes after
/// it. Fails with `Short` if there are fewer bytes, then with `Magic`, `Version`, `Kind`, `Group`
/// and `Sender`, in this order.
#[tactic(auto, unfolding(crate::specs::Datagrams::header_at))]
fn header_of(group: Group, bytes: &[u8]) -> Result<((u8, u8), &[u8]), WireFault>
    ensures exact { Gives (λ x. (x.0, x.1.now)) result (header_at group bytes.now) }
    ensures above { IfOk result (λ x. 0 < x.0.0) }
    ensures most { IfOk result (λ x. x.0.0 ≤ LAST_KIND) }
{
    if bytes.len() < 10 {
        return Err(WireFault::Short);
    }
    if !(bytes[0] == 80 && bytes[1] == 71) {
        return Err(WireFault::Magic);
    }
    if bytes[2] != 2 {
        return Err(WireFault::Version);
    }
    if bytes[3] == 0 || bytes[3] > LAST_KIND {
        return Err(WireFault::Kind);
    }
    if !(bytes[5] == group.size && BigEndian::read_u32(&bytes[6..]) == group.session) {
        return Err(WireFault::Group);
    }
    if !(0 < bytes[4] && bytes[4] <= group.size) {
        return Err(WireFault::Sender);
    }
    Ok(((bytes[3], bytes[4]), &bytes[10..]))
}

/// Reads the message that is all of the datagram. Fails with the first fault from the left, or with
/// `Trailing` if bytes are left over.
#[tactic(auto, unfolding(crate::specs::Datagrams::message_at))]
fn message_of(bytes: &[u8], group: Group) -> Result<View<'_>, WireFault>
    ensures { Gives (λ view. view) result (message_at group bytes.now) }
{
    let ((kind, sender), rest) = header_of(group, bytes)?;
    // No `?`: the prover has no rule for one on a value and a reference together.
    match body_of(group.size, kind, sender, rest) {
        Ok((body, [])) => Ok(View { sender, body }),
        Ok(_) => Err(WireFault::Trailing),
        Err(fault) => Err(fault),
    }
}

/// Reads the message that all of the datagram spells (`Msgs`). The spelling of each message that
/// fits is read. Any other datagram is refused with the first check that fails, from the left, in
/// the order of docs/FORMATS.md. A promise that is read has at most 8 votes.
///
/// The votes stay in the datagram. The call takes no memory, so it never fails with `Memory`.
pub fn decode(bytes: &[u8], group: Group) -> Result<View<'_>, WireFault>
    // The datagram is the spelling of the message that is read.
    ensures found { IfOk result (λ view. Msgs group bytes.now view) }
    // Each spelling is read.
    ensures only { (m : Msg) → Msgs group bytes.now m → Gives (λ view. view) result (Ok m) }
    // The fault is the first check that fails.
    ensures exact { Gives (λ view. view) result (message_at group bytes.now) }
    // Callers may count or collect the votes: at most 8.
    ensures few { IfOk result (λ view. HasUpTo MOST_VOTES view.body) }
{
    message_of(bytes, group)
}

/// Returns the ballot at the front of the bytes, and the number of bytes that it takes, 5. Fails
/// with the first check that fails, from the left: with `Ballot` if the round is 0 or the node is
/// not of the group, and with `Short` if the bytes end too soon.
pub fn read_ballot(bytes: &[u8], group: Group) -> Result<(Ballot, usize), WireFault>
    ensures exact { GivesField bytes.now result (ballot_at group.size bytes.now) }
{
    let (ballot, _) = ballot_of(group.size, bytes)?;
    Ok((ballot, 5))
}

/// Returns the value at the front of the bytes, and the number of bytes that it takes: 1 for a
/// no-op, else 11 and one for each of its 1 to 32 characters. Fails with the first check that
/// fails, from the left: with `Value` if a field is out of its range, and with `Short` if the bytes
/// end too soon.
///
/// The tag is 0 or 1, the node is of the group, and the start is not 0. The first serial is checked
/// at the count: it is not 0, the count is 1 to 32, and the last serial is at most 4,294,967,295.
pub fn read_value(bytes: &[u8], group: Group) -> Result<(Value, usize), WireFault>
    ensures exact { GivesField bytes.now result (value_at group.size bytes.now) }
{
    value_of(group.size, bytes)
}

/// Returns the `count` votes at the front of the bytes, and the bytes after them. The places
/// ascend, and no vote is under a ballot above `ballot`. Fails with the first check that fails,
/// from the left: with `Order`, `Place`, `Ballot` or `Value` as in a Promise for all places, and
/// with `Short` if the bytes end too soon.
///
/// The votes stay in the bytes.
pub fn read_votes(
    bytes: &[u8],
    group: Group,
    ballot: Ballot,
    count: u32,
) -> Result<(LentVotes<'_>, &[u8]), WireFault>
    ensures exact { Gives (λ x. (x.0, x.1.now)) result
        (votes_at group.size ballot 0 PLACES 0 count bytes.now) }
    ensures few { IfOk result (λ x. length x.0 ≤ count) }
{
    let part = Part {
        size: group.size,
        ballot,
        first: 0,
        upto: PLACES,
    };
    let after = after_votes(part, count, bytes)?;
    Ok((LentVotes::new(bytes, count), after))
}

/// Returns the number at the front of the bytes, and the number of bytes that it takes, 4. Fails
/// with `Short` if there are fewer.
pub fn read_number(bytes: &[u8]) -> Result<(u32, usize), WireFault>
    ensures exact { GivesField bytes.now result (number_at bytes.now) }
{
    let (number, _) = number_of(bytes)?;
    Ok((number, 4))
}
