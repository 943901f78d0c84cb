//! Datagrams and their parts, by the calls that read and write them.
use paxos_msg::{
    Ballot, Body, Characters, Group, Msg, Value, Vote, Votes, WireFault, encode, fits, read_ballot,
    read_value, read_value_v1,
};
use std::alloc::{AllocError, Global};
use std::test::Fail;

/// The group of these datagrams.
const GROUP: Group = Group {
    size: 3,
    session: 7,
};

/// The first ballot of node 1.
pub const BALLOT: Ballot = Ballot { round: 1, node: 1 };

/// Returns a key of the first start of node 2.
fn key(first: u32, byte: u8) -> Value {
    Value::Keys {
        node: 2,
        start: 1,
        first,
        bytes: Characters::from(byte),
    }
}

/// Returns the first key of that start, an `H`.
pub fn first_key() -> Value {
    key(1, 0x48)
}

/// Prepare of node 1 under ballot 1.1 from place 0.
const PREPARE: [u8; 19] = [
    0x50, 0x47, 0x02, 0x01, 0x01, 0x03, 0x00, 0x00, 0x00, 0x07, 0x00, 0x00, 0x00, 0x01, 0x01, 0x00,
    0x00, 0x00, 0x00,
];

/// Accept of node 1 under ballot 1.1 at place 0 of the first two keys of the first start of node 2,
/// `HI`.
const ACCEPT: [u8; 32] = [
    0x50, 0x47, 0x02, 0x03, 0x01, 0x03, 0x00, 0x00, 0x00, 0x07, 0x00, 0x00, 0x00, 0x01, 0x01, 0x00,
    0x00, 0x00, 0x00, 0x01, 0x02, 0x00, 0x00, 0x00, 0x01, 0x00, 0x00, 0x00, 0x01, 0x02, 0x48, 0x49,
];

/// The same Accept of the first of these keys alone.
const ACCEPT_ONE: [u8; 31] = [
    0x50, 0x47, 0x02, 0x03, 0x01, 0x03, 0x00, 0x00, 0x00, 0x07, 0x00, 0x00, 0x00, 0x01, 0x01, 0x00,
    0x00, 0x00, 0x00, 0x01, 0x02, 0x00, 0x00, 0x00, 0x01, 0x00, 0x00, 0x00, 0x01, 0x01, 0x48,
];

/// That key as version 1 spelled it, without a count.
const KEY_V1: [u8; 11] = [
    0x01, 0x02, 0x00, 0x00, 0x00, 0x01, 0x00, 0x00, 0x00, 0x01, 0x48,
];

/// Returns a promise of node 2 under 1.1 with these keys of node 2 at `count` places from 0 on.
fn promise_with(alloc: Global, count: u32, bytes: &[u8]) -> Result<Msg, AllocError> {
    let mut votes = Vec::new(alloc);
    for place in 0..count {
        votes.push(Vote {
            place,
            ballot: BALLOT,
            value: batch(bytes),
        })?;
    }
    Ok(Msg {
        sender: 2,
        body: Body::Promise {
            ballot: BALLOT,
            first: 0,
            upto: 65536,
            votes: Votes::new(votes),
        },
    })
}

/// Returns the first keys of the first start of node 2, or no key if these are not 1 to 32.
fn batch(bytes: &[u8]) -> Value {
    match Characters::new(bytes) {
        Some(bytes) => Value::Keys {
            node: 2,
            start: 1,
            first: 1,
            bytes,
        },
        None => Value::Noop,
    }
}

/// The promise with the first key at places 0 and 1: its votes are 21 bytes each, after the count.
const TWO_VOTES: [u8; 66] = [
    0x50, 0x47, 0x02, 0x02, 0x02, 0x03, 0x00, 0x00, 0x00, 0x07, 0x00, 0x00, 0x00, 0x01, 0x01, 0x00,
    0x00, 0x00, 0x00, 0x00, 0x01, 0x00, 0x00, 0x02, 0x00, 0x00, 0x00, 0x00, 0x00, 0x00, 0x00, 0x01,
    0x01, 0x01, 0x02, 0x00, 0x00, 0x00, 0x01, 0x00, 0x00, 0x00, 0x01, 0x01, 0x48, 0x00, 0x00, 0x00,
    0x01, 0x00, 0x00, 0x00, 0x01, 0x01, 0x01, 0x02, 0x00, 0x00, 0x00, 0x01, 0x00, 0x00, 0x00, 0x01,
    0x01, 0x48,
];

/// Shows ranges::fits, encoding::encode (ok): the bytes of a promise with two votes; the longest
/// promise has 440 bytes, and one with nine votes does not fit.
#[test]
fn promise_bytes_and_parts(rt: HostRuntime) -> Result<(), Fail> {
    for (count, keys, length) in [
        (2, b"H".as_slice(), Some(66)),
        (8, &[0x41; 32], Some(440)),
        (9, b"A", None),
    ] {
        let message = promise_with(rt.alloc(), count, keys)?;
        if fits(&message, GROUP) {
            let bytes = encode(rt.alloc(), &message, GROUP)?;
            assert!(rt; length == Some(bytes.len()), "{count}");
            assert!(rt; count != 2 || bytes.as_slice() == TWO_VOTES.as_slice());
        } else {
            assert!(rt; length.is_none(), "{count}");
        }
    }
    Ok(())
}

/// Shows Characters::new (some): a slice of 1 to 32 bytes has characters.
#[test]
fn characters_of_slices(rt: HostRuntime) {
    let bytes = [0x41u8; 33];
    for (len, is_some) in [(0, false), (1, true), (32, true), (33, false)] {
        let is_so = Characters::new(&bytes[..len]).is_some() == is_some;
        assert!(rt; is_so, "{len}");
    }
}

/// Node 2 has accepted no key at place 9 under ballot 1.1.
const ACCEPTED: [u8; 20] = [
    0x50, 0x47, 0x02, 0x04, 0x02, 0x03, 0x00, 0x00, 0x00, 0x07, 0x00, 0x00, 0x00, 0x01, 0x01, 0x00,
    0x00, 0x00, 0x09, 0x00,
];

/// Node 3 refuses ballot 1.1, since it has promised ballot 2.3.
const REFUSED: [u8; 20] = [
    0x50, 0x47, 0x02, 0x05, 0x03, 0x03, 0x00, 0x00, 0x00, 0x07, 0x00, 0x00, 0x00, 0x01, 0x01, 0x00,
    0x00, 0x00, 0x02, 0x03,
];

/// Node 2 submits its third key, a `J`.
const SUBMIT: [u8; 22] = [
    0x50, 0x47, 0x02, 0x06, 0x02, 0x03, 0x00, 0x00, 0x00, 0x07, 0x01, 0x02, 0x00, 0x00, 0x00, 0x01,
    0x00, 0x00, 0x00, 0x03, 0x01, 0x4a,
];

/// Node 1 asks for what is learned from place 65,536 on.
const ASK: [u8; 14] = [
    0x50, 0x47, 0x02, 0x07, 0x01, 0x03, 0x00, 0x00, 0x00, 0x07, 0x00, 0x01, 0x00, 0x00,
];

/// Node 1 has learned that key at place 65,535.
const TELL: [u8; 26] = [
    0x50, 0x47, 0x02, 0x08, 0x01, 0x03, 0x00, 0x00, 0x00, 0x07, 0x00, 0x00, 0xff, 0xff, 0x01, 0x02,
    0x00, 0x00, 0x00, 0x01, 0x00, 0x00, 0x00, 0x03, 0x01, 0x4a,
];

/// Returns a message of another kind: the sender, the body and the bytes.
fn message(number: u32) -> (u8, Body, &'static [u8]) {
    let value = Value::Noop;
    match number {
        0 => (
            2,
            Body::Accepted {
                ballot: BALLOT,
                place: 9,
                value,
            },
            &ACCEPTED,
        ),
        1 => (
            3,
            Body::Refused {
                ballot: BALLOT,
                promised: Ballot { round: 2, node: 3 },
            },
            &REFUSED,
        ),
        2 => (2, Body::Submit { key: key(3, 0x4a) }, &SUBMIT),
        3 => (1, Body::Ask { from: 65536 }, &ASK),
        _ => (
            1,
            Body::Tell {
                place: 65535,
                value: key(3, 0x4a),
            },
            &TELL,
        ),
    }
}

/// Shows ranges::fits, encoding::encode (ok): the bytes of the other kinds of messages.
#[test]
fn other_kinds(rt: HostRuntime) -> Result<(), Fail> {
    for number in 0..5 {
        let (sender, body, expected) = message(number);
        let message = Msg { sender, body };
        assert!(rt; fits(&message, GROUP), "{number}");
        let bytes = encode(rt.alloc(), &message, GROUP)?;
        assert!(rt; bytes.as_slice() == expected, "{number}");
    }
    Ok(())
}

/// Shows decoding::read_ballot (exact), decoding::read_value (exact), Characters::from: a ballot
/// and a value at the front of bytes, with the number of their bytes.
#[test]
fn single_fields(rt: HostRuntime) {
    for (bytes, field) in [
        (&PREPARE[10..], Ok((BALLOT, 5))),
        (&[0, 0, 0, 1, 4], Err(WireFault::Ballot)),
    ] {
        assert!(rt; read_ballot(bytes, GROUP) == field, "{bytes:?}");
    }
    for (bytes, field) in [
        (&ACCEPT_ONE[19..], Ok((first_key(), 12))),
        (&ACCEPT[19..], Ok((batch(b"HI"), 13))),
        (&[0], Ok((Value::Noop, 1))),
        (&[2], Err(WireFault::Value)),
        (&[1, 2], Err(WireFault::Short)),
        // Its character is where the count is, and is above 32.
        (&KEY_V1, Err(WireFault::Value)),
    ] {
        assert!(rt; read_value(bytes, GROUP) == field, "{bytes:?}");
    }
}

/// Shows version1::read_value_v1 (exact): a value of version 1, whole, cut and of an unknown tag.
#[test]
fn values_of_version_1(rt: HostRuntime) {
    for (bytes, field) in [
        (KEY_V1.as_slice(), Ok((first_key(), 11))),
        (&[0], Ok((Value::Noop, 1))),
        (&[2], Err(WireFault::Value)),
    ] {
        assert!(rt; read_value_v1(bytes, GROUP) == field, "{bytes:?}");
    }
    for k in 0..11 {
        let is_short = read_value_v1(&KEY_V1[..k], GROUP) == Err(WireFault::Short);
        assert!(rt; is_short, "{k}");
    }
}
