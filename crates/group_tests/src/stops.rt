//! A group in which each save fails once, and which then goes on.
use crate::program::reading_program;
use group_node::To;
use group_world::Act::{Campaign, Deliver, Press, Release, Run, Start, Tick};
use group_world::{Act, Event, Outcome, World};
use pcode_ops::Program;
use std::alloc::{AllocError, Global};
use std::test::Fail;

/// The keys that are typed at node 2. The program ends at a `Q`.
const FIRST: u8 = b'H';

const SECOND: u8 = b'Q';

/// Appends the deliveries of these messages, each to all nodes.
fn deliver(acts: &mut Vec<Act>, messages: [usize; 6]) -> Result<(), AllocError> {
    for message in messages {
        for node in 1..4 {
            acts.push(Deliver(message, node))?;
        }
    }
    Ok(())
}

/// Appends that a key is typed at node 2, that all hear these messages, and that each runs and
/// releases a byte.
fn type_key(acts: &mut Vec<Act>, byte: u8, messages: [usize; 6]) -> Result<(), AllocError> {
    acts.push(Press(2, byte))?;
    acts.push(Tick(2))?;
    deliver(acts, messages)?;
    for node in 1..4 {
        acts.push(Run(node, 1000))?;
        acts.push(Release(node))?;
    }
    Ok(())
}

/// Returns acts by which node 1 leads, and all learn and show two keys. Message 0 asks for
/// promises, 1 to 3 are the promises, 4 and 10 submit a key, 5 and 11 ask what was learned, 6 and
/// 12 propose, and the others report votes.
fn all_acts(alloc: Global) -> Result<Vec<Act>, AllocError> {
    let mut acts = Vec::new(alloc);
    for node in 1..4 {
        acts.push(Start(node))?;
    }
    acts.push(Campaign(1))?;
    for node in 1..4 {
        acts.push(Deliver(0, node))?;
    }
    for message in 1..4 {
        acts.push(Deliver(message, 1))?;
    }
    type_key(&mut acts, FIRST, [4, 5, 6, 7, 8, 9])?;
    type_key(&mut acts, SECOND, [10, 11, 12, 13, 14, 15])?;
    Ok(acts)
}

/// The numbers of the acts that save, and what each console shows in the end if the save fails: the
/// three starts, the campaign and two promises, and the votes of all for each key. If a save fails
/// before the votes, the first key was never typed.
const SAVES: [(usize, &[u8]); 12] = [
    (0, b"Q"),
    (1, b"Q"),
    (2, b"Q"),
    (3, b"Q"),
    (5, b"Q"),
    (6, b"Q"),
    (18, b"HQ"),
    (19, b"HQ"),
    (20, b"HQ"),
    (44, b"HQ"),
    (45, b"HQ"),
    (46, b"HQ"),
];

/// Does an act. Fails if the world refuses it.
fn happen(world: &mut World<'_>, act: Act, save: Outcome) -> Result<(), Fail> {
    match world.apply(&Event { act, save }) {
        Ok(_) => Ok(()),
        Err(_) => Err(Fail::from("the world refuses an act")),
    }
}

/// Returns whether the message of this number is for the node, or `None` if none was sent.
fn is_for(world: &World<'_>, message: usize, node: u8) -> Option<bool> {
    match world.message(message)?.to {
        To::All => Some(true),
        To::One(other) => Some(other == node),
    }
}

/// Delivers all messages from this number on, and those that they cause. Returns how many there are
/// then.
fn deliver_all(world: &mut World<'_>, from: usize) -> Result<usize, Fail> {
    for message in from..1000 {
        for node in 1..4 {
            match is_for(world, message, node) {
                Some(true) => happen(world, Deliver(message, node), Outcome::Kept)?,
                Some(false) => {}
                None => return Ok(message),
            }
        }
    }
    Err(Fail::from("there is no end of messages"))
}

/// Lets the group go on after a save that failed: what is down starts, node 1 campaigns, the second
/// key is typed again, and all show what they have learned.
fn go_on(world: &mut World<'_>) -> Result<(), Fail> {
    for node in 1..4 {
        if world.node(node).is_none() {
            happen(world, Start(node), Outcome::Kept)?;
        }
    }
    happen(world, Campaign(1), Outcome::Kept)?;
    let delivered = deliver_all(world, 0)?;
    happen(world, Press(2, SECOND), Outcome::Kept)?;
    happen(world, Tick(2), Outcome::Kept)?;
    deliver_all(world, delivered)?;
    for node in 1..4 {
        happen(world, Run(node, 1000), Outcome::Kept)?;
        happen(world, Release(node), Outcome::Kept)?;
        happen(world, Release(node), Outcome::Kept)?;
    }
    Ok(())
}

/// Does the acts up to the one with this number, whose save fails so, and goes on. Returns true if
/// the node of that act fell, and each console shows these bytes in the end.
fn shows_after(
    alloc: Global,
    program: &Program,
    acts: &[Act],
    number: usize,
    save: Outcome,
    shown: &[u8],
) -> Result<bool, Fail> {
    let Ok(mut world) = World::new(alloc, program, 3, 7) else {
        return Err(Fail::from("there is no world"));
    };
    for (at, act) in acts.iter().enumerate() {
        if at < number {
            happen(&mut world, *act, Outcome::Kept)?;
        } else if at == number {
            happen(&mut world, *act, save)?;
        }
    }
    let fell = (1..4).any(|node| world.node(node).is_none());
    go_on(&mut world)?;
    Ok(fell && (1..4).all(|node| world.console(node) == Some(shown)))
}

/// Returns the number of the first save after whose failure this is not shown, if there is one.
fn first_unshown(alloc: Global, program: &Program, acts: &[Act]) -> Result<Option<usize>, Fail> {
    for (number, shown) in SAVES {
        for save in [Outcome::FailedOld, Outcome::FailedNew] {
            if !shows_after(alloc, program, acts, number, save, shown)? {
                return Ok(Some(number));
            }
        }
    }
    Ok(None)
}

/// The same for the program and the acts of this file.
fn unshown(alloc: Global) -> Result<Option<usize>, Fail> {
    let acts = all_acts(alloc)?;
    let program = reading_program(alloc)?;
    first_unshown(alloc, &program, acts.as_slice())
}

/// Shows World::apply (applies): each save of a group of three fails once, with the old record and
/// with the changed one. The node falls, and once it has started again all consoles show what was
/// typed.
#[test]
fn each_save_may_fail(rt: HostRuntime) -> Result<(), Fail> {
    assert_eq!(rt; unshown(rt.alloc())?, None);
    Ok(())
}
