//! Three nodes that hear each other's datagrams one by one: each packet that they send, byte by
//! byte.
use super::datagrams::Datagram::{
    Accept, AcceptBoth, Accepted1, Accepted2, AcceptedBoth1, AcceptedBoth2, Ask1, Ask2, Ask3,
    Prepare, Promise1, Promise2, Submit, SubmitBoth, SubmitSecond, Tell,
};
use super::refusals::agrees;
use super::seat::Act::{
    Campaigns, HasReleasedAll, HasSentAll, Hears, Knows, Releases, Runs, Sends, Ticks, Types,
};
use super::seat::{Act, Seat};
use crate::program::reading_program;
use group_node::Ran::Waits;
use group_node::To::{All, One};
use pcode_ops::Program;
use std::alloc::Global;
use std::test::Fail;

/// A node's number, and what it does or sends. A packet that no line names is refused by the node's
/// next call that may send.
type Line = (u8, Act);

/// Starts the nodes 1, 2 and 3 for the first time.
fn seats(alloc: Global, program: &Program) -> Result<Vec<Seat<'_>>, Fail> {
    let mut seats = Vec::new(alloc);
    for number in 1..=3 {
        seats.push(Seat::fresh(alloc, program, number)?)?;
    }
    Ok(seats)
}

/// Lets the nodes do what the lines say. Returns the first line that does not hold.
fn first_unlike(seats: &mut [Seat<'_>], lines: &[Line]) -> Option<usize> {
    for (line, (number, act)) in lines.iter().enumerate() {
        let at = match *number {
            1 => 0,
            2 => 1,
            _ => 2,
        };
        match seats.get_mut(at) {
            Some(seat) => match seat.does(*act) {
                Ok(true) => {}
                _ => return Some(line),
            },
            None => return Some(line),
        }
    }
    None
}

/// Fails if three nodes, after their first starts, do not do and send what the lines say.
fn assert_follow(alloc: Global, lines: &[Line]) -> Result<(), Fail> {
    let program = reading_program(alloc)?;
    let mut seats = seats(alloc, &program)?;
    agrees(first_unlike(seats.as_mut_slice(), lines))
}

/// Node 1 leads, and then a key is typed at node 2 and learned at nodes 1 and 2. Node 3 hears of it
/// by a Tell. A tick of the leader before it is learned sends the Accept again; a Submit that comes
/// again is ignored. Before the promises a tick asks each node by itself.
const KEY: [Line; 51] = [
    (1, Campaigns),
    (1, Sends(All, Prepare)),
    (1, Ticks),
    (1, Sends(One(1), Prepare)),
    (1, Sends(One(2), Prepare)),
    (1, Sends(One(3), Prepare)),
    (1, Sends(All, Ask1)),
    (1, Hears(Prepare)),
    (1, Sends(One(1), Promise1)),
    (2, Hears(Prepare)),
    (2, Sends(One(1), Promise2)),
    (1, Hears(Promise1)),
    (1, Hears(Promise2)),
    (2, Types(0x48, 1)),
    (2, Ticks),
    (2, Sends(All, Submit)),
    (2, Sends(All, Ask2)),
    (1, Hears(Submit)),
    (1, Sends(All, Accept)),
    (1, Hears(Submit)),
    (1, Ticks),
    (1, Sends(All, Accept)),
    (1, Sends(All, Ask1)),
    (1, Hears(Accept)),
    (1, Sends(All, Accepted1)),
    (2, Hears(Accept)),
    (2, Sends(All, Accepted2)),
    (1, Hears(Accepted1)),
    (1, Hears(Accepted2)),
    (2, Hears(Accepted1)),
    (2, Hears(Accepted2)),
    (3, Ticks),
    (3, Sends(All, Ask3)),
    (1, Hears(Ask3)),
    (1, Sends(One(3), Tell)),
    (3, Hears(Tell)),
    (1, Knows(1, 0)),
    (2, Knows(1, 0)),
    (3, Knows(1, 0)),
    (1, Runs(1000, Waits)),
    (1, Releases(0, 1, 0x48)),
    (1, HasReleasedAll),
    (2, Runs(1000, Waits)),
    (2, Releases(0, 1, 0x48)),
    (2, HasReleasedAll),
    (3, Runs(1000, Waits)),
    (3, Releases(0, 1, 0x48)),
    (3, HasReleasedAll),
    (1, HasSentAll),
    (2, HasSentAll),
    (3, HasSentAll),
];

/// Shows Node::start (from), Node::typed (ok, known), Node::campaign (responds),
/// Node::on_message (responds), Node::tick (sends, store), Node::run (runs), Node::release
/// (value, some), Outbox::new, Outbox::pop (value, packets), Node::known_front (front),
/// Node::waiting (count): a typed key is learned at all three nodes, and each prints it. No clause
/// says that it is.
#[test]
fn key_is_learned_by_all(rt: HostRuntime) -> Result<(), Fail> {
    assert_follow(rt.alloc(), &KEY)
}

/// Node 1 leads. Two keys are typed at node 2, with a tick after each. Node 1 learns the first, and
/// then takes both of them as one batch, since it does not know the second. Once the first is
/// learned and the second offered, no batch of them is taken. Then nodes 1 and 2 learn the batch;
/// node 2 reads the first key as soon as it learns place 0.
const BATCHES: [Line; 60] = [
    (1, Campaigns),
    (1, Sends(All, Prepare)),
    (1, Hears(Prepare)),
    (1, Sends(One(1), Promise1)),
    (2, Hears(Prepare)),
    (2, Sends(One(1), Promise2)),
    (1, Hears(Promise1)),
    (1, Hears(Promise2)),
    (2, Types(0x48, 1)),
    (2, Ticks),
    (2, Sends(All, Submit)),
    (2, Sends(All, Ask2)),
    (2, Types(0x49, 1)),
    (2, Ticks),
    (2, Sends(All, SubmitBoth)),
    (2, Sends(All, Ask2)),
    (1, Hears(Submit)),
    (1, Sends(All, Accept)),
    (2, Hears(Accept)),
    (2, Sends(All, Accepted2)),
    (1, Hears(Accept)),
    (1, Sends(All, Accepted1)),
    (1, Hears(Accepted2)),
    (1, Hears(Accepted1)),
    (1, Hears(Submit)),
    (1, Hears(SubmitBoth)),
    (1, Sends(All, AcceptBoth)),
    (1, Knows(1, 0)),
    (2, Knows(0, 2)),
    (3, Knows(0, 0)),
    (1, Hears(Submit)),
    (1, Hears(SubmitSecond)),
    (1, Hears(SubmitBoth)),
    (1, Hears(AcceptBoth)),
    (1, Sends(All, AcceptedBoth1)),
    (2, Hears(AcceptBoth)),
    (2, Sends(All, AcceptedBoth2)),
    (1, Hears(AcceptedBoth1)),
    (1, Hears(AcceptedBoth2)),
    (2, Hears(AcceptedBoth1)),
    (2, Hears(AcceptedBoth2)),
    (2, Hears(Accepted1)),
    (1, Hears(SubmitBoth)),
    (1, Knows(2, 0)),
    (2, Knows(0, 2)),
    (2, Hears(Accepted2)),
    (2, Knows(2, 0)),
    (1, Runs(1000, Waits)),
    (1, Releases(0, 1, 0x48)),
    (1, Releases(1, 2, 0x49)),
    (1, HasReleasedAll),
    (2, Runs(1000, Waits)),
    (2, Releases(0, 1, 0x48)),
    (2, Releases(1, 2, 0x49)),
    (2, HasReleasedAll),
    (3, Runs(1000, Waits)),
    (3, HasReleasedAll),
    (1, HasSentAll),
    (2, HasSentAll),
    (3, HasSentAll),
];

/// Shows Node::on_message (responds), Node::typed (known), Node::tick (sends), Node::known_front
/// (front): a batch with one learned key, and later both, byte by byte.
#[test]
fn batch_with_a_learned_key(rt: HostRuntime) -> Result<(), Fail> {
    assert_follow(rt.alloc(), &BATCHES)
}
