//! A learner in a group of three nodes.
use paxos_learner::{Heard, Learner};
use paxos_msg::{Ballot, Characters, Value};
use std::test::Fail;

const BALLOT: Ballot = Ballot { round: 1, node: 1 };

/// Returns keys of the first start of node 2, from its first key on.
fn keys(bytes: Characters) -> Value {
    Value::Keys {
        node: 2,
        start: 1,
        first: 1,
        bytes,
    }
}

/// Returns the first key, an `H`.
fn key() -> Value {
    keys(Characters::from(0x48))
}

/// Returns true if the input that the places from this one on add is this.
fn adds(learner: &Learner, place: u32, bytes: &[u8]) -> bool {
    let mut input = learner.input_after(place);
    for byte in bytes.iter() {
        if input.next() != Some(*byte) {
            return false;
        }
    }
    input.next().is_none()
}

/// Shows Learner::on_tell (ok), Learner::known_front (front, least), Learner::input_after,
/// InputAfter::next (next_gives), Learner::input_len: the front rises over a hole that is filled,
/// and a key at two places is read once. Of a batch whose first key was read before only the second
/// one is read.
#[test]
fn console_and_learner_edges(rt: HostRuntime) -> Result<(), Fail> {
    let both = Characters::new(b"HI").ok_or("no characters")?;
    let mut learner = Learner::new(rt.alloc(), 3);
    for (place, value, front, length) in [
        (1, key(), 0, 0),
        (0, Value::Noop, 2, 1),
        (2, key(), 3, 1),
        (3, keys(both), 4, 2),
    ] {
        learner.on_tell(place, value)?;
        assert!(rt; learner.known_front() == front, "place {place}");
        assert!(rt; learner.input_len() == length, "place {place}");
    }
    // Places 2 and 3 add the second key alone.
    for (place, input) in [(0, b"HI".as_slice()), (1, b"HI"), (2, b"I"), (3, b"I")] {
        assert!(rt; adds(&learner, place, input), "from {place} on");
    }
    Ok(())
}

/// Shows Learner::new, Learner::on_accepted (ok, answer), Learner::learned (value): a place is
/// learned once two of three nodes have accepted. One node heard twice is not enough.
#[test]
fn two_of_three_are_a_majority(rt: HostRuntime) -> Result<(), Fail> {
    let mut learner = Learner::new(rt.alloc(), 3);
    for (sender, answer, learned) in [
        (1, Heard::Counted, None),
        (1, Heard::Passed, None),
        (3, Heard::Learned, Some(key())),
    ] {
        let heard = learner.on_accepted(sender, BALLOT, 0, key())?;
        assert!(rt;
            heard == answer && learner.learned(0) == learned,
            "from {sender}"
        );
    }
    Ok(())
}
