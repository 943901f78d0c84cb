//! The acceptor alone that docs/LIBRARY.md shows.
use paxos_acceptor::MemoryStore;
use paxos_msg::{Record, Vote};
use std::test::Fail;

// docs/LIBRARY.md shows the lines from here on:
use paxos_acceptor::{Acceptor, AcceptorFault, Me, Store};
use paxos_msg::{Ballot, Group, Value};
use std::alloc::Global;

/// Node 1 of a group of three.
const ME: Me = Me {
    node: 1,
    group: Group {
        size: 3,
        session: 7,
    },
};

/// Counts a start of the node whose record the store has, answers a Prepare and an Accept of node
/// 2, and gives the store back.
pub fn vote<S: Store + Drop>(alloc: Global, store: S) -> Result<S, AcceptorFault> {
    let mut acceptor = match Acceptor::open(alloc, store, ME) {
        Ok(acceptor) => acceptor,
        Err(refused) => return Err(refused.fault), // the store is refused.store
    };
    let ballot = Ballot { round: 1, node: 2 };
    acceptor.new_start()?; // counted, and saved
    let _promise = acceptor.prepare(ballot, 0)?; // Body::Promise with its votes, or Body::Refused
    let _vote = acceptor.accept(ballot, 0, Value::Noop)?; // Body::Accepted, or Body::Refused
    Ok(acceptor.into_store())
}
// docs/LIBRARY.md shows the lines up to here.

/// Returns true if the record has `starts` starts, the promise and the vote.
fn has_voted(record: &Record, starts: u32) -> bool {
    let ballot = Ballot { round: 1, node: 2 };
    let vote = Vote {
        place: 0,
        ballot,
        value: Value::Noop,
    };
    record.starts == starts
        && record.promised == Some(ballot)
        && record.votes.as_slice() == [vote].as_slice()
}

/// Shows Acceptor::open (from), Acceptor::new_start (counts), Acceptor::prepare (answers),
/// Acceptor::accept (answers), Acceptor::into_store: the store has what was answered. Another start
/// changes nothing else, and a save that fails is reported.
#[test]
fn votes_alone(rt: HostRuntime) -> Result<(), Fail> {
    let mut store = MemoryStore::new(Record::new(rt.alloc()));
    for starts in 1..3 {
        store = vote(rt.alloc(), store)?;
        assert!(rt; has_voted(store.stored(), starts));
    }
    store.fail_next(Some(false));
    let failed = vote(rt.alloc(), store).err();
    assert!(rt; failed == Some(AcceptorFault::Store));
    Ok(())
}
