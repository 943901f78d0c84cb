//! What a node refuses, and its state after that.
use super::datagrams::Datagram::{Accept, Ask1, Ask2, Prepare};
use super::seat::Act::{
    Campaigns, FailsNext, HasSentAll, Hears, HearsOfAllPlaces, IsStopped, Knows, Runs, Sends,
    Ticks, Types,
};
use super::seat::{Act, Line, Seat};
use crate::program::{program, reading_program};
use group_node::To::All;
use group_node::{NodeFault, Ran, StartRefused};
use paxos_acceptor::{MemoryStore, Store};
use paxos_msg::{Ballot, Record, Value, Vote, Votes};
use pcode_ops::Program;
use std::alloc::{AllocError, Global};
use std::test::Fail;
use test_programs::READS;

/// Fails if a line is answered otherwise than it says, with its number.
pub fn agrees(unlike: Option<usize>) -> Result<(), Fail> {
    match unlike {
        None => Ok(()),
        Some(line) => Err(Fail::new(format_args!("line {line}"))),
    }
}

/// Starts node 1 for the first time. Fails if it does not answer as the lines say. Returns its
/// store.
fn store_of_fresh(alloc: Global, program: &Program, lines: &[Line]) -> Result<MemoryStore, Fail> {
    let mut seat = Seat::fresh(alloc, program, 1)?;
    agrees(seat.first_unlike(lines))?;
    Ok(seat.into_store())
}

/// The same over the program of the segment.
fn store_after(alloc: Global, segment: &[u8], lines: &[Line]) -> Result<MemoryStore, Fail> {
    let program = program(alloc, segment)?;
    store_of_fresh(alloc, &program, lines)
}

/// Fails if node 1, after its first start over the program of the segment, does not answer as the
/// lines say.
pub fn assert_answers(alloc: Global, segment: &[u8], lines: &[Line]) -> Result<(), Fail> {
    store_after(alloc, segment, lines)?;
    Ok(())
}

const FULL: Option<NodeFault> = Some(NodeFault::OutboxFull);

/// Shows Node::on_message (responds), Node::campaign (responds), Node::tick (sends),
/// Node::run (runs), Outbox::free (free), Outbox::pop (value, packets): with fewer than 64 free
/// places each call that may send is `OutboxFull`, and nothing has changed.
#[test]
fn outbox_is_full(rt: HostRuntime) -> Result<(), Fail> {
    let lines = [
        (Ticks, None),
        (Types(0x48, 1), None),
        (Hears(Ask2), FULL),
        (Campaigns, FULL),
        (Ticks, FULL),
        (Runs(1, Ran::More), None),
        (Sends(All, Ask1), None),
        (HasSentAll, None),
        (Campaigns, None),
    ];
    assert_answers(rt.alloc(), &READS, &lines)
}

/// Shows Node::tick (sends), Outbox::pop (value, packets): once the outbox is empty a tick
/// is taken again.
#[test]
fn outbox_is_ready_after_a_pop(rt: HostRuntime) -> Result<(), Fail> {
    let lines = [
        (Ticks, None),
        (Ticks, FULL),
        (Sends(All, Ask1), None),
        (Ticks, None),
        (Sends(All, Ask1), None),
        (HasSentAll, None),
    ];
    assert_answers(rt.alloc(), &READS, &lines)
}

/// Shows Node::typed (ok, known, refuses), Node::waiting (count): 256 keys wait, and the next is
/// `Busy`.
#[test]
fn most_keys_wait(rt: HostRuntime) -> Result<(), Fail> {
    let lines = [
        (Types(0x48, 256), None),
        (Types(0x48, 1), Some(NodeFault::Busy)),
        (Knows(0, 256), None),
    ];
    assert_answers(rt.alloc(), &READS, &lines)
}

/// Shows Node::campaign (refuses), Node::known_front (front): once all places are learned a
/// campaign is `PlacesSpent`.
#[test]
fn places_are_spent(rt: HostRuntime) -> Result<(), Fail> {
    let lines = [
        (HearsOfAllPlaces, None),
        (Knows(65_536, 0), None),
        (Campaigns, Some(NodeFault::PlacesSpent)),
    ];
    assert_answers(rt.alloc(), &READS, &lines)
}

/// Returns the ballot of node 1 of this round. There is none of round 0.
fn ballot(round: u32) -> Option<Ballot> {
    if round == 0 {
        return None;
    }
    Some(Ballot { round, node: 1 })
}

/// Returns a store with so many starts, this promised ballot, and a vote under that one, if any. By
/// the plan, if there is one, its next save fails and leaves the changed record or the old one.
fn store_of(
    alloc: Global,
    starts: u32,
    promised: Option<Ballot>,
    voted: Option<Ballot>,
    plan: Option<bool>,
) -> Result<MemoryStore, AllocError> {
    let mut votes = Vec::new(alloc);
    if let Some(ballot) = voted {
        votes.push(Vote {
            place: 0,
            ballot,
            value: Value::Noop,
        })?;
    }
    let mut store = MemoryStore::new(Record {
        starts,
        promised,
        votes: Votes::new(votes),
    });
    store.fail_next(plan);
    Ok(store)
}

/// The refusal of a start, or of a campaign after it, if any, and the store then.
type Refused = (Option<NodeFault>, MemoryStore);

/// Starts node 1 over the store, and lets it campaign.
fn refused_over(alloc: Global, program: &Program, store: MemoryStore) -> Refused {
    match Seat::start(alloc, program, 1, store) {
        Ok(mut seat) => match seat.does(Campaigns) {
            Ok(_) => (None, seat.into_store()),
            Err(fault) => (Some(fault), seat.into_store()),
        },
        Err(refused) => {
            let StartRefused { fault, store } = refused;
            (Some(fault), store)
        }
    }
}

/// The same, over the reading program.
fn refused(alloc: Global, store: MemoryStore) -> Result<Refused, Fail> {
    let program = reading_program(alloc)?;
    Ok(refused_over(alloc, &program, store))
}

/// The starts of a store, the rounds of its promised ballot and of its vote, and whether its next
/// save fails and leaves the changed record; what node 1 refuses over it, and the store's starts
/// after that. The last two start, and campaign.
const STARTS: [((u32, u32, u32, Option<bool>), Option<NodeFault>, u32); 6] = [
    (
        (4_294_967_295, 0, 0, None),
        Some(NodeFault::StartsSpent),
        4_294_967_295,
    ),
    ((4, 1, 2, None), Some(NodeFault::BadRecord), 4),
    ((0, 0, 0, Some(false)), Some(NodeFault::Store), 0),
    ((0, 0, 0, Some(true)), Some(NodeFault::Store), 1),
    ((1, 4_294_967_295, 0, None), Some(NodeFault::RoundsSpent), 2),
    ((1, 4_294_967_294, 0, None), None, 2),
];

/// Shows Node::start (once, from, plan), Node::campaign (refuses): starts over the last start, over
/// a vote above the promise, and over a save that fails; campaigns above the greatest round and the
/// one below it. Then the store has as many starts as it had, or one more.
#[test]
fn refused_starts_and_campaigns(rt: HostRuntime) -> Result<(), Fail> {
    for ((starts, promised, voted, plan), fault, left) in STARTS {
        let store = store_of(rt.alloc(), starts, ballot(promised), ballot(voted), plan)?;
        let (found, store) = refused(rt.alloc(), store)?;
        assert!(rt; found == fault && store.stored().starts == left);
    }
    Ok(())
}

const STOPPED: Option<NodeFault> = Some(NodeFault::Stopped);

/// Returns true if the save that this makes at node 1 fails, nothing is sent, each further call is
/// `Stopped`, and the store then has its one start, a promise of this round, and so many votes.
fn is_given_up(
    alloc: Global,
    saves: Act,
    is_kept: bool,
    promised: u32,
    votes: usize,
) -> Result<bool, Fail> {
    let lines = [
        (FailsNext(is_kept), None),
        (saves, Some(NodeFault::Store)),
        (HasSentAll, None),
        (IsStopped, None),
        (Types(0x48, 1), STOPPED),
        (Hears(Ask1), STOPPED),
        (Campaigns, STOPPED),
        (Ticks, STOPPED),
        (Runs(1, Ran::More), STOPPED),
    ];
    let store = store_after(alloc, &READS, &lines)?;
    let record = store.stored();
    let count = record.votes.as_slice().len();
    Ok(record.starts == 1 && record.promised == ballot(promised) && count == votes)
}

/// Shows Node::fail_next (plan), Node::on_message (responds), Node::campaign (responds),
/// Node::tick (sends), Node::typed (stopped), Node::run (stopped), Node::is_stopped,
/// Node::into_store: after a campaign, a Prepare or an Accept whose save failed nothing was sent,
/// each call is `Stopped`, and the store has the old record or the changed one.
#[test]
fn saves_that_fail(rt: HostRuntime) -> Result<(), Fail> {
    for (saves, is_kept, promised, votes) in [
        (Campaigns, false, 0, 0),
        (Campaigns, true, 1, 0),
        (Hears(Prepare), false, 0, 0),
        (Hears(Prepare), true, 1, 0),
        (Hears(Accept), false, 0, 0),
        (Hears(Accept), true, 1, 1),
    ] {
        assert!(rt; is_given_up(rt.alloc(), saves, is_kept, promised, votes)?);
    }
    Ok(())
}
