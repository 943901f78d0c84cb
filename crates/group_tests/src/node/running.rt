//! The machine of a node, whose output waits until it is released.
use super::refusals::assert_answers;
use super::seat::Act::{HasOutput, HasReleasedAll, Releases, Runs};
use crate::program::WRITES_300;
use group_node::Ran::{Ended, Full, More};
use pcode_machine::End;
use std::test::Fail;

/// Shows Node::run (runs), Node::unreleased (count), Node::release (value, some, none): seven steps
/// come before the transfer, which writes one byte each step. After 263 steps 256 bytes wait, and
/// the next step is not made.
#[test]
fn full_after_263_steps(rt: HostRuntime) -> Result<(), Fail> {
    let one_by_one = [
        (Runs(0, More), None),
        (Runs(262, More), None),
        (HasOutput(255), None),
        (Runs(1, More), None),
        (HasOutput(256), None),
        (Runs(1, Full), None),
        (HasOutput(256), None),
        (Releases(0, 256, 0), None),
        (HasReleasedAll, None),
        (Runs(1000, Ended(End::Normal)), None),
        (Releases(256, 300, 0), None),
        (HasReleasedAll, None),
    ];
    assert_answers(rt.alloc(), &WRITES_300, &one_by_one)?;
    let at_once = [(Runs(263, More), None), (Runs(1, Full), None)];
    assert_answers(rt.alloc(), &WRITES_300, &at_once)
}

/// Shows Node::run (runs), Node::release (value, some): one run ends with `Full`, with steps to
/// spare.
#[test]
fn full_in_one_call(rt: HostRuntime) -> Result<(), Fail> {
    let lines = [
        (Runs(1000, Full), None),
        (HasOutput(256), None),
        (Releases(0, 256, 0), None),
        (HasReleasedAll, None),
        (Runs(1000, Ended(End::Normal)), None),
        (Releases(256, 300, 0), None),
        (HasReleasedAll, None),
    ];
    assert_answers(rt.alloc(), &WRITES_300, &lines)
}
