//! The bytes of records and logs, in both versions.
ghost use Rattle.paxos_acceptor.specs.Records.{IsRecord};

use super::acceptor::{FIRST, ME};
use paxos_acceptor::StoreFault;
use paxos_disk::{log_decode, record_decode, record_encode, record_migrate};
use paxos_msg::{Characters, Record, Value, Vote};
use std::alloc::Global;
use std::process::Abort;
use std::test::Fail;

/// The record of one start, one promise and one vote, and the same as version 1 spelled it.
const WHOLE: &[u8] = b"PR\x02\x02\x03\0\0\0\x07\0\0\0\x01\0\0\0\x01\x01\0\0\0\x01\
    \0\0\0\0\0\0\0\x01\x01\x01\x02\0\0\0\x01\0\0\0\x01\x01H";

const WHOLE_V1: &[u8] = b"PR\x01\x02\x03\0\0\0\x07\0\0\0\x01\0\0\0\x01\x01\0\0\0\x01\
    \0\0\0\0\0\0\0\x01\x01\x01\x02\0\0\0\x01\0\0\0\x01H";

/// The log of that start, promise and vote, and the same as version 1 spelled it.
const LOG: &[u8] = b"PL\x02\x02\x03\0\0\0\x07\x01\x02\0\0\0\x01\x01\
    \x03\0\0\0\0\0\0\0\x01\x01\x01\x02\0\0\0\x01\0\0\0\x01\x01H";

const LOG_V1: &[u8] = b"PL\x01\x02\x03\0\0\0\x07\x01\x02\0\0\0\x01\x01\
    \x03\0\0\0\0\0\0\0\x01\x01\x01\x02\0\0\0\x01\0\0\0\x01H";

/// Bytes, whether they are a record of version 2, one of version 1, and a log, each with the vote
/// or without it, and how many of them are the log's header and whole entries.
const ROWS: [(&[u8], [Option<bool>; 3], usize); 15] = [
    (WHOLE, [Some(true), None, None], 0),
    (WHOLE_V1, [None, Some(true), None], 0),
    (LOG, [None, None, Some(true)], 38),
    (LOG_V1, [None, None, Some(true)], 37),
    // One byte less, and one more. A load passes over a zero behind a log.
    (
        b"PR\x02\x02\x03\0\0\0\x07\0\0\0\x01\0\0\0\x01\x01\0\0\0\x01\
        \0\0\0\0\0\0\0\x01\x01\x01\x02\0\0\0\x01\0\0\0\x01\x01",
        [None, None, None],
        0,
    ),
    (
        b"PR\x01\x02\x03\0\0\0\x07\0\0\0\x01\0\0\0\x01\x01\0\0\0\x01\
        \0\0\0\0\0\0\0\x01\x01\x01\x02\0\0\0\x01\0\0\0\x01HH",
        [None, None, None],
        0,
    ),
    (
        b"PL\x02\x02\x03\0\0\0\x07\x01\x02\0\0\0\x01\x01\
        \x03\0\0\0\0\0\0\0\x01\x01\x01\x02\0\0\0\x01\0\0\0\x01\x01",
        [None, None, Some(false)],
        16,
    ),
    (
        b"PL\x02\x02\x03\0\0\0\x07\x01\x02\0\0\0\x01\x01\0",
        [None, None, None],
        0,
    ),
    // Of node 1; with an unknown tag; with promises of round 0 and of node 4; with a vote at place
    // 65,536, and one for a value of an unknown tag; and with a promise below another one.
    (
        b"PL\x02\x01\x03\0\0\0\x07\x01\x02\0\0\0\x01\x01",
        [None, None, None],
        0,
    ),
    (
        b"PL\x02\x02\x03\0\0\0\x07\x01\x04\x05\0\0",
        [None, None, None],
        0,
    ),
    (
        b"PL\x02\x02\x03\0\0\0\x07\x01\x02\0\0\0\0\x01",
        [None, None, None],
        0,
    ),
    (
        b"PL\x02\x02\x03\0\0\0\x07\x01\x02\0\0\0\x01\x04",
        [None, None, None],
        0,
    ),
    (
        b"PL\x02\x02\x03\0\0\0\x07\x01\x03\0\x01\0\0\0\0\0\x01\x01\0",
        [None, None, None],
        0,
    ),
    (
        b"PL\x02\x02\x03\0\0\0\x07\x01\x03\0\0\0\0\0\0\0\x01\x01\x02",
        [None, None, None],
        0,
    ),
    (
        b"PL\x02\x02\x03\0\0\0\x07\x01\x02\0\0\0\x01\x02\x02\0\0\0\x01\x01",
        [None, None, None],
        0,
    ),
];

/// Returns `None` if the bytes were none, and otherwise whether the record has the vote.
fn has_vote(rt: &impl Abort, read: Result<Record, StoreFault>) -> Option<bool> {
    let vote = Vote {
        place: 0,
        ballot: FIRST,
        value: Value::Keys {
            node: 2,
            start: 1,
            first: 1,
            bytes: Characters::from(0x48),
        },
    };
    match read {
        Ok(record) => {
            assert!(rt; record.starts == 1 && record.promised == Some(FIRST));
            let votes = record.votes.as_slice();
            assert!(rt; votes.is_empty() || votes == [vote].as_slice());
            Some(votes.len() == 1)
        }
        Err(fault) => {
            assert!(rt; fault == StoreFault::Bad);
            None
        }
    }
}

/// Shows record_decode (found, only, bad), record_migrate (found, only, bad), log_decode (found,
/// only, bad): which bytes are a record of either version, and which a log. None are both, and of a
/// log that was cut the whole entries are kept.
#[test]
fn bytes_of_records(rt: HostRuntime) {
    let alloc = rt.alloc();
    for (bytes, [whole, whole_v1, log], taken) in ROWS {
        let (read, length) = match log_decode(alloc, bytes, ME) {
            Ok((record, length)) => (Ok(record), length),
            Err(fault) => (Err(fault), 0),
        };
        let is_so = has_vote(&rt, record_decode(alloc, bytes, ME)) == whole
            && has_vote(&rt, record_migrate(alloc, bytes, ME)) == whole_v1
            && has_vote(&rt, read) == log
            && length == taken;
        assert!(rt; is_so, "{bytes:?}");
    }
}

/// Returns true if the record is spelled by the bytes of version 2.
fn is_spelled(alloc: Global, kept: &Record) -> bool
    requires { IsRecord 3 kept.now }
{
    match record_encode(alloc, kept, ME) {
        Ok(bytes) => bytes.as_slice() == WHOLE,
        Err(_) => false,
    }
}

/// Shows record_encode (ok): a record is written in version 2, whichever it was read in.
#[test]
fn records_are_written_in_version_2(rt: HostRuntime) -> Result<(), Fail> {
    let record = record_decode(rt.alloc(), WHOLE, ME)?;
    assert!(rt; is_spelled(rt.alloc(), &record));
    let record = record_migrate(rt.alloc(), WHOLE_V1, ME)?;
    assert!(rt; is_spelled(rt.alloc(), &record));
    Ok(())
}
