//! Lists of events, by `run` of a world: those of the written log of the laws, and those that end
//! early.
use crate::program::program;
use group_world::Act::{Campaign, Deliver, Press, Release, Run, Start, Tick};
use group_world::{Act, Event, Outcome, RunFault, World, WorldFault, read_script, run};
use paxos_msg::{Ballot, Characters, Value, Vote};
use pcode_ops::Program;
use std::alloc::{AllocError, Global};
use std::test::Fail;
use test_programs::READS;

/// Returns the events of these acts. All saves succeed.
fn events_of(alloc: Global, acts: &[Act]) -> Result<Vec<Event>, AllocError> {
    let mut events = Vec::new(alloc);
    for act in acts {
        let save = Outcome::Kept;
        events.push(Event { act: *act, save })?;
    }
    Ok(events)
}

/// Reads a byte from unit 1, which echoes it: SLDC 65, SRO 3, and UNITREAD of one byte at word 3.
const ECHOES: [u8; 28] = [
    0x41, 0xab, 0x03, 0x01, 0xa5, 0x03, 0x00, 0x01, 0x00, 0x00, 0x9e, 0x05, 0xc1, 0x00, 0x02, 0x00,
    0x04, 0x00, 0x06, 0x00, 0x14, 0x00, 0x01, 0x00, 0x02, 0x00, 0x01, 0x01,
];

/// Node 1 leads, the letter A is typed at node 2, nodes 2 and 3 accept it, and node 3 learns and
/// shows it.
const LOG: [Act; 17] = [
    Start(1),
    Start(2),
    Start(3),
    Campaign(1),
    Deliver(0, 2),
    Deliver(0, 3),
    Deliver(1, 1),
    Deliver(2, 1),
    Press(2, 0x41),
    Tick(2),
    Deliver(3, 1),
    Deliver(5, 2),
    Deliver(5, 3),
    Deliver(6, 3),
    Deliver(7, 3),
    Run(3, 10),
    Release(3),
];

/// The ballot of node 1.
const BALLOT: Ballot = Ballot { round: 1, node: 1 };

/// Returns the letter, typed first at node 2, as a batch of one.
fn letter() -> Value {
    Value::Keys {
        node: 2,
        start: 1,
        first: 1,
        bytes: Characters::from(0x41),
    }
}

/// Returns true if these are no votes, or, as `has_voted` says, the one for the letter at place 0.
fn are_votes(votes: &[Vote], has_voted: bool) -> bool {
    match votes {
        [] => !has_voted,
        [vote] => {
            has_voted && vote.place == 0 && vote.ballot == BALLOT && vote.value == letter()
        }
        _ => false,
    }
}

/// Returns true if a node is up, its console shows these bytes, it has learned this for place 0,
/// and its record has one start, the ballot, and the vote for the letter, if it has voted.
fn has(world: &World<'_>, node: u8, shown: &[u8], learned: Option<Value>, has_voted: bool) -> bool {
    match (world.node(node), world.console(node), world.record(node)) {
        (Some(running), Some(console), Some(record)) => {
            running.learned(0) == learned
                && console == shown
                && record.starts == 1
                && record.promised == Some(BALLOT)
                && are_votes(record.votes.as_slice(), has_voted)
        }
        _ => false,
    }
}

/// Returns true if the letter alone was typed, the nodes 2 and 3 have voted for it, and node 3
/// alone has learned it and shows it.
fn is_logged(world: &World<'_>) -> bool {
    world.sent() == 8
        && world.typed(0) == Some(letter())
        && world.typed(1).is_none()
        && has(world, 1, b"", None, false)
        && has(world, 2, b"", None, true)
        && has(world, 3, b"A", Some(letter()), true)
}

/// Performs the acts in a group of this size. Returns where they end early. Fails if they do not,
/// and the group is not the one of the log.
fn ended_over(
    alloc: Global,
    program: &Program,
    size: u8,
    acts: &[Act],
) -> Result<Option<RunFault>, Fail> {
    let events = events_of(alloc, acts)?;
    match run(alloc, program, size, 7, events.as_slice()) {
        Ok(world) => {
            if !is_logged(&world) {
                return Err(Fail::from("another group"));
            }
            Ok(None)
        }
        Err(refused) => Ok(Some(refused)),
    }
}

/// The same over the program of the segment.
fn ended(alloc: Global, segment: &[u8], size: u8, acts: &[Act]) -> Result<Option<RunFault>, Fail> {
    let program = program(alloc, segment)?;
    ended_over(alloc, &program, size, acts)
}

/// Shows laws::a_written_log, run (happens): what the law says of the nodes after the log holds of
/// the world after these events.
#[test]
fn the_written_log(rt: HostRuntime) -> Result<(), Fail> {
    assert!(rt; ended(rt.alloc(), &ECHOES, 3, &LOG)?.is_none());
    Ok(())
}

/// Sizes and events, and where each list ends and why. What comes after that does not happen.
const ENDS: [(u8, [Act; 4], usize, WorldFault); 6] = [
    (
        2,
        [Start(1), Tick(1), Tick(1), Tick(1)],
        0,
        WorldFault::Size,
    ),
    (
        3,
        [Start(1), Tick(4), Tick(1), Tick(1)],
        1,
        WorldFault::NoNode,
    ),
    (
        3,
        [Deliver(0, 1), Start(1), Tick(1), Tick(1)],
        0,
        WorldFault::NoMessage,
    ),
    (
        3,
        [Tick(1), Start(1), Tick(1), Tick(1)],
        0,
        WorldFault::NodeDown,
    ),
    (
        3,
        [Start(1), Start(1), Tick(1), Tick(1)],
        1,
        WorldFault::NodeUp,
    ),
    // A release when nothing waits does nothing. A message that does not exist is reported before a
    // node that is down.
    (
        3,
        [Start(1), Release(1), Run(1, 0), Deliver(0, 2)],
        3,
        WorldFault::NoMessage,
    ),
];

/// Shows performing::run (size, refused): where a list of events ends early, and why.
#[test]
fn lists_that_end_early(rt: HostRuntime) -> Result<(), Fail> {
    for (size, acts, event, fault) in ENDS {
        let found = ended(rt.alloc(), &READS, size, &acts)?;
        assert!(rt;
            found == Some(RunFault { event, fault }),
            "event {event} of {size} nodes"
        );
    }
    Ok(())
}

/// Shows read_script (read): the session of a script, which no command prints.
#[test]
fn session_of_a_script(rt: HostRuntime) -> Result<(), Fail> {
    let script = read_script(rt.alloc(), "size 3 session 4294967295")?;
    assert!(rt; script.session == 4_294_967_295);
    Ok(())
}
