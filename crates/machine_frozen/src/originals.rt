//! The frames and the places of the original, made of those of a machine over the frozen program.
//! No contract says which these are: they are checked.
use crate::places::{Place, place_by, procedure_by};
use pcode_frames::{Frame, Frames};
use pcode_machine::Machine;
use std::alloc::{AllocError, Global};

/// Returns where a frame of the original returns to, if that of the frozen program returns to
/// `back` of a procedure.
fn back_of(rows: &[u8], below: Option<Frame>, back: u32) -> u32 {
    match below {
        None => back,
        Some(below) => {
            let place = Place {
                procedure: below.procedure,
                offset: back,
            };
            place_by(rows, place).offset
        }
    }
}

/// Returns the frames of the original.
pub(crate) fn frames_by(
    alloc: Global,
    rows: &[u8],
    frames: &Frames,
) -> Result<Vec<Frame>, AllocError> {
    let mut originals = Vec::new(alloc);
    let mut below: Option<Frame> = None;
    for index in 0..frames.count() {
        if let Some(frame) = frames.frame(index as u16) {
            originals.push(Frame {
                procedure: procedure_by(rows, frame.procedure),
                back: back_of(rows, below, frame.back),
                ..frame
            })?;
            below = Some(frame);
        }
    }
    Ok(originals)
}

/// Returns the offset of the original that an offset of the machine's current procedure is.
fn offset_by(rows: &[u8], machine: &Machine<'_>, offset: u32) -> u32 {
    match machine.frames().current() {
        None => offset,
        Some(frame) => {
            let place = Place {
                procedure: frame.procedure,
                offset,
            };
            place_by(rows, place).offset
        }
    }
}

/// Returns the next offset of the original.
pub(crate) fn next_by(rows: &[u8], machine: &Machine<'_>) -> u32 {
    offset_by(rows, machine, machine.next_offset())
}

/// Returns the offset at which the original's transfer began, if one is under way, and 0 otherwise.
pub(crate) fn begun_by(rows: &[u8], machine: &Machine<'_>) -> u32 {
    match machine.transfer() {
        None => 0,
        Some(transfer) => offset_by(rows, machine, transfer.at),
    }
}
