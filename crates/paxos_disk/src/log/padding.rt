//! Where an entry begins in its file.
ghost use Rattle.std.specs.Prelude.{◌+◌, ◌*◌, ◌<◌, ◌≤◌, ℕ};
ghost use Rattle.paxos_disk.specs.Padding.{IsInSectors};

use crate::disk::sectors::to_edge;
use paxos_msg::{Change, Value};

/// The bytes of a vote's entry before its value: its tag, a place and a ballot.
pub(crate) const BEFORE_VALUE: usize = 10;

/// The bytes of a vote's entry before the characters of its batch: those before its value, the
/// value's tag, a node, a start, a serial and a count.
pub(crate) const BEFORE_CHARACTERS: usize = 21;

/// The bytes of a promise's entry.
pub(crate) const PROMISE: usize = 6;

/// The most promises that are put before an entry.
pub(crate) const MOST_PROMISES: usize = 6;

/// Returns how many promises are put before the entry of the change in a log of `at` bytes: the
/// fewest after which no sector begins where zeros would leave another vote.
pub(crate) fn promises_before(at: usize, change: &Change) -> usize
    ensures in_sectors { IsInSectors (at + PROMISE * result) change.now }
    ensures least { (fewer : ℕ) → fewer < result → ¬ IsInSectors (at + PROMISE * fewer) change.now }
    ensures few { result ≤ MOST_PROMISES }
{
    let Change::Ballotted(_, _, Value::Keys { bytes, .. }) = change else {
        return 0;
    };
    let sector = to_edge(at);
    if sector == BEFORE_VALUE {
        return 1;
    }
    if sector < BEFORE_CHARACTERS || sector >= BEFORE_CHARACTERS + bytes.as_slice().len() {
        return 0;
    }
    (sector - BEFORE_CHARACTERS) / PROMISE + 1
}
