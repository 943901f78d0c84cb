//! Appends the entry of a change to a log.
ghost use Rattle.std.specs.Prelude.{◌≡◌, ◌+◌, ◌*◌, ◌++◌, ◌≤◌, ℕ, IfOk, length, vec_capacity, vec_len, OnErr, OnOk};
ghost use Rattle.paxos_msg.specs.Spelling.{Puts};
ghost use Rattle.paxos_msg.specs.declared.record.Change.{Change};
ghost use Rattle.paxos_msg.specs.declared.value.Value.{Value};
ghost use Rattle.paxos_disk.specs.declared.record.version.Version.TheVariants.{Two};
ghost use Rattle.paxos_disk.specs.Entries.{IsInRanges, entries_bytes, entry_bytes};
ghost use Rattle.paxos_disk.specs.Padding.{IsAppended, again};

use crate::log::padding::{MOST_PROMISES, PROMISE, promises_before};
use paxos_acceptor::Me;
use paxos_msg::{Ballot, Change, put_ballot, put_number, put_value};
use std::alloc::{AllocError, Global};

/// The length in bytes of the longest entry: its tag, a place, a ballot, and a batch of 32
/// characters.
const MOST_BYTES: usize = 53;

/// The most bytes that a save appends to a log: promises and an entry, 89.
pub(crate) const MOST_APPENDED: usize = MOST_PROMISES * PROMISE + MOST_BYTES;

/// An entry that can be made has at most `MOST_BYTES` bytes.
fn entries_are_short()
    ensures { (size : ℕ) (c : Change Value) → IsInRanges size c
        → length (entry_bytes Two c) ≤ MOST_BYTES }
{}

/// Appends the entry of the change, in version 2.
fn put_entry(change: &Change, out: &mut Vec<u8>)
    requires room { vec_len out.old + length (entry_bytes Two change.now) ≤ vec_capacity out.old }
    ensures { Puts out.old out.new (entry_bytes Two change.now) }
{
    match *change {
        Change::Start => out.push_reserved(1),
        Change::Promise(ballot) => {
            out.push_reserved(2);
            put_ballot(ballot, out);
        }
        Change::Ballotted(place, ballot, value) => {
            out.push_reserved(3);
            put_number(place, out);
            put_ballot(ballot, out);
            put_value(value, out);
        }
    }
}

/// Appends the entry of this promise so many times, in version 2.
fn put_again(ballot: Ballot, times: usize, out: &mut Vec<u8>)
    requires room { vec_len out.old + PROMISE * times ≤ vec_capacity out.old }
    ensures { Puts out.old out.new (entries_bytes Two (again ballot times)) }
{
    for time in 0..times {
        put_entry(&Change::Promise(ballot), out);
    }
}

/// Returns what goes behind a log of `at` bytes for a change whose fields are in their ranges: its
/// entry, and before it the promised ballot's promise as often as the sectors need.
pub(crate) fn append_behind(
    alloc: Global,
    at: usize,
    promised: Ballot,
    change: &Change,
    me: Me,
) -> Result<Vec<u8>, AllocError>
    requires { IsInRanges me.group.size change.now }
    ensures { IfOk result (λ bytes. IsAppended promised at change.now bytes.items) }
{
    entries_are_short();
    let times = promises_before(at, change);
    let mut bytes = Vec::with_capacity(alloc, MOST_APPENDED)?;
    put_again(promised, times, &mut bytes);
    put_entry(change, &mut bytes);
    Ok(bytes)
}

/// Makes room for the entry of a change whose fields are in their ranges, and appends it. After an
/// error nothing has changed.
pub(crate) fn append(change: &Change, me: Me, out: &mut Vec<u8>) -> Result<(), AllocError>
    requires { IsInRanges me.group.size change.now }
    ensures spelled { OnOk result (out.new.items ≡ out.old.items ++ entry_bytes Two change.now) }
    ensures unspelled { OnErr result (out.new.items ≡ out.old.items) }
{
    entries_are_short();
    out.reserve(MOST_BYTES)?;
    put_entry(change, out);
    Ok(())
}
