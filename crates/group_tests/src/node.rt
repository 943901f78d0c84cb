//! Which nodes there are, a console, and the texts of refusals. The files below have what a node of
//! a group of three refuses, what it sends byte by byte, and what its machine writes.
mod another_machine;
mod by_hand;
mod datagrams;
mod refusals;
mod running;
mod seat;
mod traces;

use group_node::{Config, Console, NodeFault, Offer};
use std::test::Fail;

/// Node, size and session, and the refusal.
const CONFIGS: [((u8, u8, u32), Option<NodeFault>); 8] = [
    ((1, 2, 7), Some(NodeFault::Size)),
    ((1, 11, 7), Some(NodeFault::Size)),
    ((0, 0, 7), Some(NodeFault::Size)),
    ((4, 3, 7), Some(NodeFault::Id)),
    ((0, 3, 7), Some(NodeFault::Id)),
    ((1, 3, 7), None),
    ((1, 1, 0), None),
    ((9, 9, 7), None),
];

/// Shows Config::new (ok, size, id): which nodes and which sizes of groups there are.
#[test]
fn nodes_of_groups(rt: HostRuntime) {
    for ((node, size, session), fault) in CONFIGS {
        let found = Config::new(node, size, session).err();
        assert!(rt; found == fault, "node {node} of {size}");
    }
}

/// Shows Console::new, Console::reserve (room), Console::offer (answer, shown, only_fresh),
/// Console::bytes: a byte that comes next, one that was shown before, and one after a gap.
#[test]
fn console_and_learner_edges(rt: HostRuntime) -> Result<(), Fail> {
    let mut console = Console::new(rt.alloc());
    console.reserve()?;
    for (number, byte, offer) in [
        (0, 0x41, Offer::Fresh),
        (0, 0x41, Offer::Repeat),
        (2, 0x42, Offer::Gap),
    ] {
        assert!(rt; console.offer(number, byte) == offer);
    }
    assert!(rt; console.bytes() == [0x41].as_slice());
    Ok(())
}

/// The text of each refusal.
const TEXTS: [(NodeFault, &str); 12] = [
    (NodeFault::Memory, "D1"),
    (NodeFault::Store, "D2"),
    (NodeFault::Stopped, "D3"),
    (NodeFault::Busy, "D4"),
    (NodeFault::SerialSpent, "D5"),
    (NodeFault::OutboxFull, "D6"),
    (NodeFault::Size, "D7"),
    (NodeFault::Id, "D8"),
    (NodeFault::BadRecord, "D9"),
    (NodeFault::StartsSpent, "D10"),
    (NodeFault::RoundsSpent, "D11"),
    (NodeFault::PlacesSpent, "D12"),
];

/// Shows NodeFault::code, NodeFault::fmt (output): the text of each refusal is its code.
#[test]
fn texts_of_refusals(rt: HostRuntime) -> Result<(), Fail> {
    for (fault, expected) in TEXTS {
        let text = format!(in rt.alloc(); "{fault}")?;
        assert!(rt; text.as_str() == expected);
    }
    Ok(())
}
