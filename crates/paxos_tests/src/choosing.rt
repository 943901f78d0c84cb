//! Which values are chosen by what was sent.
use super::datagrams::{BALLOT as FIRST, first_key};
use paxos_msg::choosing::{is_chosen, is_majority};
use paxos_msg::{Ballot, Body, Msg, Value, Votes};
use std::alloc::{AllocError, Global};
use std::test::Fail;

const SECOND: Ballot = Ballot { round: 2, node: 2 };

/// Returns a body that node 1 sends in a group of three before any node accepts: it campaigns
/// twice, promises, submits its key, and sends the Accept.
fn body(alloc: Global, number: u32) -> Body {
    match number {
        0 => Body::Prepare {
            ballot: FIRST,
            from: 0,
        },
        1 => Body::Prepare {
            ballot: Ballot { round: 2, node: 1 },
            from: 0,
        },
        2 => Body::Promise {
            ballot: FIRST,
            first: 0,
            upto: 65536,
            votes: Votes::new(Vec::new(alloc)),
        },
        3 => Body::Submit { key: first_key() },
        _ => Body::Accept {
            ballot: FIRST,
            place: 0,
            value: first_key(),
        },
    }
}

/// Returns all that is sent: that, and what these nodes say, each that it has accepted the key at
/// place 0 under a ballot.
fn sent(alloc: Global, accepted: &[(u8, Ballot)]) -> Result<Vec<Msg>, AllocError> {
    let mut sent = Vec::new(alloc);
    for number in 0..5 {
        let body = body(alloc, number);
        sent.push(Msg { sender: 1, body })?;
    }
    for (sender, ballot) in accepted {
        let body = Body::Accepted {
            ballot: *ballot,
            place: 0,
            value: first_key(),
        };
        sent.push(Msg {
            sender: *sender,
            body,
        })?;
    }
    Ok(sent)
}

/// Nodes that accept, one of them five times; nodes that accept under two ballots.
const ONCE: [(u8, Ballot); 5] = [(1, FIRST); 5];

const TWO: [(u8, Ballot); 3] = [(1, FIRST), (1, FIRST), (2, FIRST)];

const MIXED: [(u8, Ballot); 2] = [(1, FIRST), (2, SECOND)];

const SECOND_TWO: [(u8, Ballot); 3] = [(1, FIRST), (2, SECOND), (3, SECOND)];

/// Shows choosing::is_chosen: a node that says five times that it has accepted counts once, and
/// what is accepted under two ballots is not added up.
#[test]
fn what_is_chosen(rt: HostRuntime) -> Result<(), Fail> {
    // Two of four are no majority.
    for (accepted, size, place, value, answer) in [
        ([].as_slice(), 3, 0, first_key(), false),
        (&ONCE, 3, 0, first_key(), false),
        (&TWO, 3, 0, first_key(), true),
        (&TWO, 3, 0, Value::Noop, false),
        (&TWO, 3, 1, first_key(), false),
        (&TWO, 4, 0, first_key(), false),
        (&MIXED, 3, 0, first_key(), false),
        (&SECOND_TWO, 3, 0, first_key(), true),
    ] {
        let sent = sent(rt.alloc(), accepted)?;
        let is_so = is_chosen(size, sent.as_slice(), place, value) == answer;
        assert!(rt; is_so, "{size} {place} {answer} {accepted:?}");
    }
    Ok(())
}

/// Groups and nodes of them, and whether these are a majority.
const MAJORITIES: [(u8, &[u8], bool); 10] = [
    (1, &[1], true),
    (1, &[], false),
    (2, &[1], false),
    (2, &[1, 2], true),
    (3, &[1, 1, 1], false),
    (3, &[1, 3], true),
    (3, &[1, 4, 0], false),
    (4, &[1, 2], false),
    (8, &[1, 2, 3, 4], false),
    (9, &[9, 8, 7, 6, 5], true),
];

/// Shows choosing::is_majority: a majority is more than half of the group's nodes, each counted
/// once.
#[test]
fn majorities(rt: HostRuntime) {
    for (size, members, answer) in MAJORITIES {
        let is_so = is_majority(size, members) == answer;
        assert!(rt; is_so, "{size} {members:?}");
    }
}
