//! An acceptor: the parts of a promise by their numbers, and faults that are passed on.
use super::voter::Voter;
use paxos_acceptor::{AcceptorFault, Me, MemoryStore, Store};
use paxos_msg::{Ballot, Body, Group, Record, Value, Vote, Votes};
use std::alloc::{AllocError, Global};
use std::process::Abort;
use std::test::Fail;

pub const ME: Me = Me {
    node: 2,
    group: Group {
        size: 3,
        session: 7,
    },
};

pub const FIRST: Ballot = Ballot { round: 1, node: 1 };

pub const SECOND: Ballot = Ballot { round: 2, node: 2 };

/// Returns a vote for no key.
pub fn vote_for_none(place: u32, ballot: Ballot) -> Vote {
    Vote {
        place,
        ballot,
        value: Value::Noop,
    }
}

/// Returns a store with a record that has promised the first ballot, with votes under a ballot at
/// so many places from place 0 on.
fn with_votes(alloc: Global, count: u32, ballot: Ballot) -> Result<MemoryStore, AllocError> {
    let mut votes = Vec::new(alloc);
    for place in 0..count {
        votes.push(vote_for_none(place, ballot))?;
    }
    Ok(MemoryStore::new(Record {
        starts: 1,
        promised: Some(FIRST),
        votes: Votes::new(votes),
    }))
}

/// Opens an acceptor over the store, which has to have a record in its ranges.
fn opened(rt: &impl Abort, alloc: Global, store: MemoryStore) -> Voter {
    match Voter::open(alloc, store) {
        Ok(voter) => voter,
        Err((fault, _)) => panic!(rt; "{fault:?}"),
    }
}

/// Shows Acceptor::open (from, opened), Acceptor::prepare (answers), Acceptor::accept
/// (answers), MemoryStore::new, Votes::new, Votes::as_slice: a promise for 65 votes from
/// place 0 on has nine parts; three of them are asked for.
#[test]
fn promise_bytes_and_parts(rt: HostRuntime) -> Result<(), Fail> {
    let mut voter = opened(&rt, rt.alloc(), with_votes(rt.alloc(), 65, FIRST)?);
    let accepted = voter.accept(SECOND, 70, Value::Noop);
    assert!(rt; matches!(accepted, Ok(Body::Accepted { place: 70, .. })));
    for (from, end, last, count) in [
        (0, 8, vote_for_none(7, FIRST), 8),
        (56, 64, vote_for_none(63, FIRST), 8),
        (64, 65_536, vote_for_none(70, SECOND), 2),
    ] {
        let Ok(
            Body::Promise {
                first,
                upto,
                votes,
                ..
            },
        ) = voter.prepare(SECOND, from)
        else {
            panic!(rt; "no promise from {from} on");
        };
        let votes = votes.as_slice();
        let is_so = first == from
            && upto == end
            && votes.len() == count
            && votes.first() == Some(&vote_for_none(from, FIRST))
            && votes.last() == Some(&last);
        assert!(rt; is_so, "from {from} on");
    }
    Ok(())
}

/// What an acceptor is asked for.
#[derive(Clone, Copy)]
enum Act {
    Plans(Option<bool>),
    Starts,
    Promises,
    Votes,
}

/// Returns the fault of that, if there is one.
fn fault_of(voter: &mut Voter, act: Act) -> Option<AcceptorFault> {
    match act {
        Act::Plans(plan) => {
            voter.fail_next(plan);
            None
        }
        Act::Starts => voter.start().err(),
        Act::Promises => voter.prepare(FIRST, 0).err(),
        Act::Votes => voter.accept(SECOND, 3, Value::Noop).err(),
    }
}

/// The starts, promised ballot and number of votes of a record.
type State = (u32, Option<Ballot>, usize);

fn state_of(record: &Record) -> State {
    (
        record.starts,
        record.promised,
        record.votes.as_slice().len(),
    )
}

/// An acceptor that is opened over a store: what it is asked for, with the fault of each; and how
/// the record of the store is then, and how many faults it has counted.
type Run = ([(Act, Option<AcceptorFault>); 3], State, u64);

/// A promise and a vote whose saves fail, before or after the record has changed. Each closes the
/// acceptor. A plan that is taken back leaves the next save as it is.
const RUNS: [[Run; 3]; 2] = [
    [
        (
            [
                (Act::Plans(Some(false)), None),
                (Act::Promises, Some(AcceptorFault::Store)),
                (Act::Starts, Some(AcceptorFault::Closed)),
            ],
            (0, None, 0),
            1,
        ),
        (
            [
                (Act::Plans(Some(false)), None),
                (Act::Votes, Some(AcceptorFault::Store)),
                (Act::Promises, Some(AcceptorFault::Closed)),
            ],
            (0, None, 0),
            2,
        ),
        (
            [
                (Act::Plans(Some(false)), None),
                (Act::Plans(None), None),
                (Act::Starts, None),
            ],
            (1, None, 0),
            2,
        ),
    ],
    [
        (
            [
                (Act::Plans(Some(true)), None),
                (Act::Promises, Some(AcceptorFault::Store)),
                (Act::Starts, Some(AcceptorFault::Closed)),
            ],
            (0, Some(FIRST), 0),
            1,
        ),
        (
            [
                (Act::Plans(Some(true)), None),
                (Act::Votes, Some(AcceptorFault::Store)),
                (Act::Promises, Some(AcceptorFault::Closed)),
            ],
            (0, Some(SECOND), 1),
            2,
        ),
        (
            [
                (Act::Plans(Some(true)), None),
                (Act::Plans(None), None),
                (Act::Starts, None),
            ],
            (1, Some(SECOND), 1),
            2,
        ),
    ],
];

/// Checks that an acceptor over a store with a record in that state does so. Returns the store.
fn after(
    rt: &impl Abort,
    alloc: Global,
    store: MemoryStore,
    before: State,
    run: &Run,
) -> MemoryStore {
    let mut voter = opened(rt, alloc, store);
    assert!(rt; state_of(voter.record()) == before);
    let (acts, state, faults) = run;
    let mut last = None;
    for (act, fault) in acts {
        last = fault_of(&mut voter, *act);
        assert_eq!(rt; last, *fault);
    }
    assert!(rt; voter.is_closed() == last.is_some());
    let store = voter.into_store();
    assert_eq!(rt;
        (state_of(store.stored()), store.faults()),
        (*state, *faults)
    );
    store
}

/// Shows Acceptor::fail_next (same, plan, faults), Acceptor::prepare (answers), Acceptor::accept
/// (answers), Acceptor::new_start (counts), Acceptor::open (from), Acceptor::record (same),
/// Acceptor::is_closed, Acceptor::into_store, MemoryStore::save (by_plan), MemoryStore::load,
/// MemoryStore::stored, MemoryStore::faults, MemoryStore::fail_next, Store::load, Store::save,
/// Store::faults, Store::fail_next (plan), Record::new: a save that fails closes the acceptor, and
/// a restart finds the old record or the changed one.
#[test]
fn fails_at_will(rt: HostRuntime) {
    for runs in RUNS {
        let mut store = MemoryStore::new(Record::new(rt.alloc()));
        let mut before = (0, None, 0);
        for run in runs {
            store = after(&rt, rt.alloc(), store, before, &run);
            before = run.1;
        }
    }
}

/// Shows Acceptor::open (once, plan): a record with a vote above its promise is refused, and the
/// store has it as before.
#[test]
fn refuses_a_record(rt: HostRuntime) -> Result<(), Fail> {
    match Voter::open(rt.alloc(), with_votes(rt.alloc(), 1, SECOND)?) {
        Ok(_) => panic!(rt; "a bad record was taken"),
        Err((fault, store)) => {
            assert_eq!(rt; fault, AcceptorFault::BadRecord);
            assert!(rt; state_of(store.stored()) == (1, Some(FIRST), 1));
            assert_eq!(rt; store.faults(), 0);
        }
    }
    Ok(())
}
