//! The check that a state of the original program is the frozen one's but for places.
ghost use Rattle.std.specs.Prelude.{◌≡◌, ◌<◌, IsTrue, Some, slice_get};
ghost use Rattle.pcode_frames.specs.declared.limits.TheConstants.{MOST_FRAMES};
ghost use Rattle.pcode_frozen.specs.Originals.{IsTwinAt, begun_at, original_of};
ghost use Rattle.pcode_frozen.specs.States.{AreTwinFrames, AreTwinTransfers, AreTwins};
ghost use Rattle.pcode_frozen.specs.Twins.{listed};

use crate::pairs::{Pair, is_listed};
use crate::twins::goes_on;
use pcode_frames::{Frame, Frames};
use pcode_machine::{Machine, Transfer};
use pcode_ops::Program;

/// Returns true only if the frames have the same words and the same static link.
fn same_frame(one: Frame, two: Frame) -> bool
    ensures { IsTrue result
        → (one.base ≡ two.base) × (one.size ≡ two.size) × (one.link ≡ two.link) }
{
    one.base == two.base && one.size == two.size && one.link == two.link
}

/// Returns true only if the frames of that index have the same words and the same static link, and
/// the frames above them return to where both programs go on alike.
fn same_at(program: &Program, pairs: &[Pair], frames: &[Frame], others: &Frames, index: u16) -> bool
    requires { index < MOST_FRAMES }
    ensures { IsTrue result → IsTwinAt program.now (listed pairs.now) frames.now others.now index }
{
    let Some(one) = frames.get(usize::from(index)) else {
        return false;
    };
    let Some(two) = others.frame(index) else {
        return false;
    };
    if !same_frame(*one, two) {
        return false;
    }
    let Some(above) = frames.get(usize::from(index) + 1) else {
        return true;
    };
    match others.frame(index + 1) {
        None => true,
        Some(other) => goes_on(
            program,
            pairs,
            Pair {
                procedure: one.procedure,
                offset: above.back,
                other: two.procedure,
                other_offset: other.back,
            },
        ),
    }
}

/// Returns true only if the first frame is one of procedure 1.
fn begins_in_main(frames: &[Frame]) -> bool
    ensures { IsTrue result → (f : Frame) → slice_get frames.now 0 ≡ Some f → f.procedure ≡ 1 }
{
    match frames.get(0) {
        None => false,
        Some(frame) => frame.procedure == 1,
    }
}

/// Returns true only if the frames are the same but for procedures, and for where they return to.
fn same_frames(program: &Program, pairs: &[Pair], frames: &[Frame], others: &Frames) -> bool
    ensures { IsTrue result
        → AreTwinFrames program.now (listed pairs.now) frames.now others.now }
{
    if frames.len() != others.count() {
        return false;
    }
    for index in 0..others.count() as u16 {
        if !same_at(program, pairs, frames, others, index) {
            return false;
        }
    }
    begins_in_main(frames)
}

/// Returns true only if a transfer of the frozen program, if one is under way, began at a place
/// that is paired with `at`.
fn same_transfer(
    pairs: &[Pair],
    procedure: u8,
    at: u32,
    other: u8,
    transfer: Option<Transfer>,
) -> bool
    ensures { IsTrue result
        → AreTwinTransfers (listed pairs.now) procedure other (begun_at at transfer) transfer }
{
    match transfer {
        None => true,
        Some(begun) => is_listed(
            pairs,
            Pair {
                procedure,
                offset: at,
                other,
                other_offset: begun.at,
            },
        ),
    }
}

/// Returns true only if a state of the original program and that of a machine over the frozen one
/// are twins. The original's has the machine's words, evaluation stack and IORESULT. `frames` are
/// its frames, and `next` is its next offset. If a transfer is under way, it is the machine's, and
/// began at `at`.
pub fn are_twin_states(
    program: &Program,
    pairs: &[Pair],
    machine: &Machine<'_>,
    frames: &[Frame],
    next: u32,
    at: u32,
) -> bool
    ensures { IsTrue result → AreTwins program.now (listed pairs.now)
        (original_of frames.now next at machine.now.state) machine.now.state }
{
    if !same_frames(program, pairs, frames, machine.frames()) {
        return false;
    }
    let Some(two) = machine.frames().current() else {
        return false;
    };
    let Some(one) = frames.last() else {
        return false;
    };
    if !same_transfer(pairs, one.procedure, at, two.procedure, machine.transfer()) {
        return false;
    }
    goes_on(
        program,
        pairs,
        Pair {
            procedure: one.procedure,
            offset: next,
            other: two.procedure,
            other_offset: machine.next_offset(),
        },
    )
}
