//! A log with fewer entries of the same record.
ghost use Rattle.std.specs.Prelude.{◌≡◌, ◌*◌, ◌<◌, IfOk, IfSome, IsTrue, OnOk, length};
ghost use Rattle.paxos_disk.specs.Log.{IsUncut};
ghost use Rattle.paxos_acceptor.specs.Records.{IsRecord};

use crate::log::append::append;
use crate::log::entry::{enter, entries_stay_in_ranges, is_entry};
use crate::log::new_log;
use crate::log::padding::{BEFORE_CHARACTERS, BEFORE_VALUE, PROMISE};
use crate::log::reading::first_entry;
use crate::record::version::Version;
use paxos_acceptor::Me;
use paxos_msg::{Change, Record, Value, Vote, find_vote};
use std::alloc::{AllocError, Global};

/// A log of fewer bytes is never written anew with fewer entries.
const LONG_LOG: usize = 1 << 20;

/// Returns the length in bytes of the entry of a vote.
fn entry_length(vote: &Vote) -> usize {
    match vote.value {
        Value::Noop => BEFORE_VALUE + 1,
        Value::Keys { bytes, .. } => BEFORE_CHARACTERS + bytes.as_slice().len(),
    }
}

/// Returns the length in bytes of the shortest log of a record: its header, its starts, a promise
/// and its votes.
fn needed(kept: &Record) -> usize {
    let mut bytes = 9 + PROMISE + kept.starts as usize;
    for vote in kept.votes.as_slice() {
        bytes = bytes.saturating_add(entry_length(vote));
    }
    bytes
}

/// Returns true if the shorter log, whose record is `made` so far, needs this entry of the longer
/// one for the record `kept`: a start; the promise of its ballot, once; and a vote that it has,
/// once.
fn is_missing(made: &Record, kept: &Record, change: &Change, me: Me) -> bool
    requires made { IsRecord me.group.size made.now }
    requires kept { IsRecord me.group.size kept.now }
{
    entries_stay_in_ranges();
    match *change {
        Change::Start => true,
        Change::Promise(ballot) => {
            kept.promised == Some(ballot) && made.promised != Some(ballot)
        }
        Change::Ballotted(place, ballot, value) => {
            let vote = Vote {
                place,
                ballot,
                value,
            };
            find_vote(kept.votes.as_slice(), place) == Some(vote)
                && find_vote(made.votes.as_slice(), place).is_none()
        }
    }
}

/// Makes the change in `made` and appends its entry to its log, if `is_missing` and it can be made.
fn keep(
    made: &mut Record,
    log: &mut Vec<u8>,
    kept: &Record,
    change: Change,
    me: Me,
) -> Result<(), AllocError>
    requires made { IsRecord me.group.size made.old }
    requires kept { IsRecord me.group.size kept.now }
    requires log { IsUncut me log.old.items made.old }
    ensures made { OnOk result (IsRecord me.group.size made.new) }
    ensures log { OnOk result (IsUncut me log.new.items made.new) }
{
    if !is_missing(made, kept, &change, me) || !is_entry(made, &change, me) {
        return Ok(());
    }
    append(&change, me, log)?;
    enter(made, change, me)
}

/// Returns the log of those entries that the record needs, and its own record.
fn missing_entries(
    alloc: Global,
    bytes: &[u8],
    kept: &Record,
    me: Me,
) -> Result<(Record, Vec<u8>), AllocError>
    requires { IsRecord me.group.size kept.now }
    ensures { IfOk result (λ x. IsUncut me x.1.items x.0) }
{
    let mut made = Record::new(alloc);
    let mut log = new_log(alloc, me)?;
    let mut rest = bytes.get(log.len()..).unwrap_or_default();
    while let Ok((change, after)) = first_entry(Version::Two, me.group, rest) {
        keep(&mut made, &mut log, kept, change, me)?;
        rest = after;
    }
    Ok((made, log))
}

/// Returns true if the votes are the same.
fn is_same_vote(one: Vote, other: Vote) -> bool
    ensures { IsTrue result → one ≡ other }
{
    one.place == other.place && one.ballot == other.ballot && one.value == other.value
}

/// Returns true if the votes are the same, one after another.
fn are_same_votes(one: &[Vote], other: &[Vote]) -> bool
    ensures { IsTrue result → one.now ≡ other.now }
{
    if one.len() != other.len() {
        return false;
    }
    for index in 0..one.len() {
        if !is_same_vote(one[index], other[index]) {
            return false;
        }
    }
    true
}

/// Returns true if the records are the same.
fn are_same(one: &Record, other: &Record) -> bool
    ensures { IsTrue result → one.now ≡ other.now }
{
    if one.starts != other.starts || one.promised != other.promised {
        return false;
    }
    are_same_votes(one.votes.as_slice(), other.votes.as_slice())
}

/// Returns a log of the record that is less than half as long as this one, which has at least a
/// megabyte, if its record needs less than half.
pub(crate) fn shortened(
    alloc: Global,
    bytes: &[u8],
    kept: &Record,
    me: Me,
) -> Result<Option<Vec<u8>>, AllocError>
    requires { IsRecord me.group.size kept.now }
    ensures uncut { IfOk result (λ found. IfSome found (λ log. IsUncut me log.items kept.now)) }
    ensures shorter { IfOk result
        (λ found. IfSome found (λ log. length log.items * 2 < length bytes.now)) }
{
    if bytes.len() < LONG_LOG || needed(kept) >= bytes.len() / 2 {
        return Ok(None);
    }
    let (made, log) = missing_entries(alloc, bytes, kept, me)?;
    if are_same(&made, kept) && log.len() < bytes.len() / 2 {
        return Ok(Some(log));
    }
    Ok(None)
}
