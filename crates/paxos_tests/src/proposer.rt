//! What a proposer proposes after given promises, and the next ballots.
ghost use Rattle.std.specs.Prelude.{◌≡◌, ◌≤◌};

use paxos_msg::{Ballot, BodyView, Characters, Group, Value, Vote, decode};
use paxos_proposer::{Proposer, ProposerFault, next_ballot};
use std::alloc::Global;
use std::process::Abort;
use std::test::Fail;

/// The group of these proposers.
const GROUP: Group = Group {
    size: 3,
    session: 7,
};

/// A key of the first start of a node: the node, its serial and its character.
type Key = (u8, u32, u8);

/// Returns a key as a value, or the value for no key.
fn value_of(key: Option<Key>) -> Value {
    match key {
        Some((node, first, byte)) => Value::Keys {
            node,
            start: 1,
            first,
            bytes: Characters::from(byte),
        },
        None => Value::Noop,
    }
}

/// A proposer of the group.
struct Leader {
    proposer: Proposer,
    ghost in_group: { proposer.known.size ≡ 3 },
}

impl Drop for Leader {
    fn drop(self) {
        let Leader {
            proposer: _proposer,
        } = self;
    }
}

impl Leader {
    /// Begins one that has heard nothing.
    fn begin(alloc: Global, ballot: Ballot, from: u32) -> Leader
        requires { from ≤ 65535 }
    {
        Leader {
            proposer: Proposer::begin(alloc, ballot, from, 3),
        }
    }

    /// Hears a promise of its ballot, which has to reach all places. Returns false if the datagram
    /// is none.
    fn hear(&mut self, datagram: &[u8]) -> bool {
        let Ok(view) = decode(datagram, GROUP) else {
            return false;
        };
        let BodyView::Promise { ballot, .. } = &view.body else {
            return false;
        };
        if *ballot != self.proposer.ballot() {
            return false;
        }
        self.proposer.on_promise(view.sender, &view) == Ok(None)
    }

    /// Makes room, and proposes.
    fn propose(&mut self, offered: Option<Value>) -> Result<Option<Vote>, ProposerFault> {
        self.proposer.reserve()?;
        self.proposer.next_accept(offered)
    }

    fn proposed(&self, place: u32) -> Option<Value> {
        self.proposer.proposed(place)
    }

    /// Returns the next place, how far the third node's promise goes, whether all places up to the
    /// last are covered, whether a vote is kept from the third place on, and whether the ballot is
    /// given up after a refusal for this one.
    fn state(&self, refused: Ballot) -> (u32, u32, bool, bool, bool) {
        (
            self.proposer.next_place(),
            self.proposer.coverage(3),
            self.proposer.is_covered(65_535),
            self.proposer.is_kept_from(3),
            self.proposer.on_refused(refused),
        )
    }
}

/// What happens to a proposer: a datagram comes, or it proposes a value at a place, if any, with an
/// offered value or without.
#[derive(Clone, Copy)]
enum Event {
    Hears(&'static [u8]),
    Proposes(Option<Option<Key>>, Result<Option<(u32, Option<Key>)>, ProposerFault>),
}

/// Returns true if this happens. What is proposed is a vote under the ballot.
fn happens(leader: &mut Leader, ballot: Ballot, event: Event) -> bool {
    match event {
        Event::Hears(datagram) => leader.hear(datagram),
        Event::Proposes(offered, expected) => {
            let offered = match offered {
                Some(key) => Some(value_of(key)),
                None => None,
            };
            let proposed = leader.propose(offered);
            match expected {
                Ok(Some((place, key))) => {
                    let value = value_of(key);
                    proposed
                        == Ok(Some(Vote {
                            place,
                            ballot,
                            value,
                        }))
                }
                Ok(None) => proposed == Ok(None),
                Err(fault) => proposed == Err(fault),
            }
        }
    }
}

/// Checks that all this happens.
fn check(rt: &impl Abort, leader: &mut Leader, ballot: Ballot, events: &[Event]) {
    for (number, event) in events.iter().enumerate() {
        assert!(rt; happens(leader, ballot, *event), "event {number}");
    }
}

/// Node 1 promises 3.3 and has a vote at place 0 under 2.2, node 2 has votes at places 0 and 2
/// under 1.1, and node 3 is late and has one at place 0 under 2.3.
const FROM_1: &[u8] = b"PG\x02\x02\x01\x03\0\0\0\x07\0\0\0\x03\x03\0\0\0\0\0\x01\0\0\x01\
    \0\0\0\0\0\0\0\x02\x02\x01\x02\0\0\0\x01\0\0\0\x01\x01A";

const FROM_2: &[u8] = b"PG\x02\x02\x02\x03\0\0\0\x07\0\0\0\x03\x03\0\0\0\0\0\x01\0\0\x02\
    \0\0\0\0\0\0\0\x01\x01\x01\x01\0\0\0\x01\0\0\0\x01\x01B\
    \0\0\0\x02\0\0\0\x01\x01\x01\x01\0\0\0\x01\0\0\0\x02\x01C";

const FROM_3: &[u8] = b"PG\x02\x02\x03\x03\0\0\0\x07\0\0\0\x03\x03\0\0\0\0\0\x01\0\0\x01\
    \0\0\0\0\0\0\0\x02\x03\x01\x03\0\0\0\x01\0\0\0\x01\x01D";

/// One node of three is no majority. The late part changes nothing. In the end a key is offered.
const WORKED: [Event; 9] = [
    Event::Hears(FROM_1),
    Event::Proposes(None, Ok(None)),
    Event::Hears(FROM_2),
    Event::Proposes(None, Ok(Some((0, Some((2, 1, 0x41)))))),
    Event::Proposes(None, Ok(Some((1, None)))),
    Event::Proposes(None, Ok(Some((2, Some((1, 2, 0x43)))))),
    Event::Proposes(None, Ok(None)),
    Event::Hears(FROM_3),
    Event::Proposes(Some(Some((3, 2, 0x45))), Ok(Some((3, Some((3, 2, 0x45)))))),
];

/// Shows paxos_msg::decode (found), Proposer::begin, Proposer::on_promise (ok, answer),
/// Proposer::reserve (ok), Proposer::next_accept (ok, answer, sure), Proposer::proposed,
/// Proposer::next_place (next), Proposer::coverage (coverage), Proposer::is_covered,
/// Proposer::is_kept_from, Proposer::ballot, Proposer::on_refused: what is proposed after the
/// promises of two nodes, after a late part, and of an offered key.
#[test]
fn worked_promises(rt: HostRuntime) {
    let ballot = Ballot { round: 3, node: 3 };
    let mut leader = Leader::begin(rt.alloc(), ballot, 0);
    check(&rt, &mut leader, ballot, &WORKED);
    for (place, key) in [
        (0, Some(Some((2, 1, 0x41)))),
        (1, Some(None)),
        (2, Some(Some((1, 2, 0x43)))),
        (3, Some(Some((3, 2, 0x45)))),
        (4, None),
    ] {
        let expected = match key {
            Some(key) => Some(value_of(key)),
            None => None,
        };
        assert!(rt; leader.proposed(place) == expected, "at {place}");
    }
    for (node, is_given_up) in [(3, true), (2, false)] {
        let state = leader.state(Ballot { round: 3, node });
        assert!(rt; state == (4, 65_536, true, false, is_given_up), "{node}");
    }
}

/// Nodes 1 and 3 promise 5.3 for the last place.
const LAST_OF_1: &[u8] = b"PG\x02\x02\x01\x03\0\0\0\x07\0\0\0\x05\x03\0\0\xFF\xFF\0\x01\0\0\0";

const LAST_OF_3: &[u8] = b"PG\x02\x02\x03\x03\0\0\0\x07\0\0\0\x05\x03\0\0\xFF\xFF\0\x01\0\0\0";

const LAST: [Event; 5] = [
    Event::Hears(LAST_OF_1),
    Event::Hears(LAST_OF_3),
    Event::Proposes(
        Some(Some((1, 1, 0x41))),
        Ok(Some((65_535, Some((1, 1, 0x41))))),
    ),
    Event::Proposes(Some(None), Err(ProposerFault::PlacesSpent)),
    Event::Proposes(None, Ok(None)),
];

/// Shows Proposer::next_accept (answer, spent): at the last place one value is proposed, and none
/// after it. No clause says the texts of the faults.
#[test]
fn promise_bytes_and_parts(rt: HostRuntime) -> Result<(), Fail> {
    let ballot = Ballot { round: 5, node: 3 };
    let mut leader = Leader::begin(rt.alloc(), ballot, 65_535);
    check(&rt, &mut leader, ballot, &LAST);
    let text = format!(in rt.alloc();
        "{} {} {}",
        ProposerFault::Memory,
        ProposerFault::RoundsSpent,
        ProposerFault::PlacesSpent
    )?;
    assert!(rt; text.as_str() == "P1 P2 P3");
    Ok(())
}

/// Shows rounds::next_ballot (ok, spent): the ballot after one of round 4, and none after the
/// greatest round.
#[test]
fn next_ballots(rt: HostRuntime) {
    let last = Ballot {
        round: 4_294_967_295,
        node: 1,
    };
    for (promised, seen, next) in [
        (
            Ballot { round: 1, node: 1 },
            Some(Ballot { round: 4, node: 2 }),
            Ok(Ballot { round: 5, node: 3 }),
        ),
        (last, None, Err(ProposerFault::RoundsSpent)),
    ] {
        assert!(rt; next_ballot(Some(promised), seen, 3) == next);
    }
}
