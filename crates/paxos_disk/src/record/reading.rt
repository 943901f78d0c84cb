//! Reads the bytes of a record, in either version.
ghost use Rattle.std.specs.Prelude.{◌≤◌, length, IfOk, Some};
ghost use Rattle.paxos_msg.specs.Reading.{Gives, number_at};
ghost use Rattle.paxos_disk.specs.RecordReading.{after_byte, head_at, record_header_at, promised_at, ReadsAs, record_at, votes_of};
ghost use Rattle.paxos_disk.specs.declared.record.version.Version.TheVariants.{Two};

use crate::record::version::Version;
use crate::record::version1::votes_of_v1;
use paxos_acceptor::{Me, StoreFault};
use paxos_msg::{
    Ballot, Group, LentVotes, Record, Vote, Votes, WireFault, read_ballot, read_number, read_votes,
};
use std::alloc::Global;

/// Reads the number at the front of the bytes. Returns it and the bytes after it.
pub(crate) fn number_of(bytes: &[u8]) -> Result<(u32, &[u8]), WireFault>
    ensures { Gives (λ x. (x.0, x.1.now)) result (number_at bytes.now) }
{
    let (number, taken) = read_number(bytes)?;
    Ok((number, &bytes[taken..]))
}

/// Returns the bytes after `byte`, which has to be the first one.
fn after_byte(byte: u8, bytes: &[u8]) -> Result<&[u8], WireFault>
    ensures { Gives (λ rest. rest.now) result (after_byte byte bytes.now) }
{
    match bytes {
        [] => Err(WireFault::Short),
        [first, rest @ ..] if *first == byte => Ok(rest),
        _ => Err(WireFault::Magic),
    }
}

/// Returns the bytes after a header of this node's record in that version.
#[tactic(auto, unfolding(crate::specs::RecordReading::record_header_at))]
fn after_header(version: Version, me: Me, bytes: &[u8]) -> Result<&[u8], WireFault>
    ensures { Gives (λ rest. rest.now) result (record_header_at version me bytes.now) }
{
    let rest = after_byte(b'P', bytes)?;
    let rest = after_byte(b'R', rest)?;
    let rest = after_byte(version.byte(), rest)?;
    let rest = after_byte(me.node, rest)?;
    let rest = after_byte(me.group.size, rest)?;
    let (session, rest) = number_of(rest)?;
    if session != me.group.session {
        return Err(WireFault::Group);
    }
    Ok(rest)
}

/// Reads the promised ballot, which is zeros if there is none. Returns it and the bytes after it.
#[tactic(auto, unfolding(crate::specs::RecordReading::promised_at))]
fn promised_of(me: Me, bytes: &[u8]) -> Result<(Option<Ballot>, &[u8]), WireFault>
    ensures { Gives (λ x. (x.0, x.1.now)) result (promised_at me.group.size bytes.now) }
{
    let (round, rest) = number_of(bytes)?;
    if round == 0 {
        return Ok((None, after_byte(0, rest)?));
    }
    let (ballot, taken) = read_ballot(bytes, me.group)?;
    Ok((Some(ballot), &bytes[taken..]))
}

/// The fields of a record before its votes.
#[derive(Clone, Copy)]
struct Head {
    starts: u32,
    promised: Option<Ballot>,
    count: u32,
}

/// Reads the fields before the votes. Returns them and the bytes after them.
#[tactic(auto, unfolding(crate::specs::RecordReading::head_at))]
fn head_of(version: Version, me: Me, bytes: &[u8]) -> Result<(Head, &[u8]), WireFault>
    ensures { Gives (λ x. ((x.0.starts, x.0.promised, x.0.count), x.1.now)) result
        (head_at version me bytes.now) }
{
    let rest = after_header(version, me, bytes)?;
    let (starts, rest) = number_of(rest)?;
    let (promised, rest) = promised_of(me, rest)?;
    let (count, rest) = number_of(rest)?;
    let head = Head {
        starts,
        promised,
        count,
    };
    Ok((head, rest))
}

/// Reads `count` votes under the ballot, which have to be all of the bytes. They stay in the bytes.
fn lent_votes(
    group: Group,
    ballot: Ballot,
    count: u32,
    bytes: &[u8],
) -> Result<LentVotes<'_>, WireFault>
    ensures exact { Gives (λ x. x) result (votes_of Two group.size (Some ballot) count bytes.now) }
    ensures few { IfOk result (λ x. length x ≤ count) }
{
    let (votes, rest) = read_votes(bytes, group, ballot, count)?;
    if !rest.is_empty() {
        return Err(WireFault::Trailing);
    }
    Ok(votes)
}

/// Reads the votes of a record in that version, which have to be all of the bytes. Without a
/// promise there are none.
fn kept_votes(
    alloc: Global,
    version: Version,
    group: Group,
    head: Head,
    bytes: &[u8],
) -> Result<Vec<Vote>, StoreFault>
    ensures { ReadsAs (λ votes. votes.items) result
        (votes_of version group.size head.promised head.count bytes.now) }
{
    match (head.promised, version) {
        (None, _) if head.count == 0 && bytes.is_empty() => Ok(Vec::new(alloc)),
        (None, _) => Err(StoreFault::Bad),
        (Some(ballot), Version::One) => votes_of_v1(alloc, group, ballot, head.count, bytes),
        (Some(ballot), Version::Two) => match lent_votes(group, ballot, head.count, bytes) {
            Ok(votes) => Ok(votes.collect(alloc)?),
            Err(_) => Err(StoreFault::Bad),
        },
    }
}

/// Reads the record that is all of the bytes, in that version.
#[tactic(auto, unfolding(crate::specs::RecordReading::record_at))]
pub(crate) fn record_of(
    alloc: Global,
    version: Version,
    bytes: &[u8],
    me: Me,
) -> Result<Record, StoreFault>
    ensures { ReadsAs (λ kept. kept) result (record_at version me bytes.now) }
{
    let Ok((head, rest)) = head_of(version, me, bytes) else {
        return Err(StoreFault::Bad);
    };
    let votes = kept_votes(alloc, version, me.group, head, rest)?;
    Ok(Record {
        starts: head.starts,
        promised: head.promised,
        votes: Votes::new(votes),
    })
}
