//! A program and the one in which it is frozen, and what both checks say of a list of pairs.
use pcode_file::CodeFile;
use pcode_frames::Frame;
use pcode_frozen::{Pair, are_twin_states, are_twins};
use pcode_machine::{Machine, Pause};
use pcode_ops::Program;
use std::alloc::{AllocError, Global};
use std::test::Fail;
use test_programs::code_file;

/// Returns the program of a segment.
pub fn program(alloc: Global, segment: &[u8]) -> Result<Program, Fail> {
    let bytes = code_file(alloc, b"FROZEN  ", segment)?;
    let file = CodeFile::read(alloc, bytes.as_slice())
        .ok()
        .ok_or("no file")?;
    let program = Program::check(alloc, file).ok().ok_or("no program")?;
    Ok(program)
}

/// Returns the machine of a program where it waits for its first byte.
pub fn waiting(alloc: Global, program: &Program) -> Result<Machine<'_>, Fail> {
    let Ok(mut machine) = Machine::new(alloc, program) else {
        return Err(Fail::from("no machine"));
    };
    match machine.run(1000).1 {
        Pause::Wants => Ok(machine),
        _ => Err(Fail::from("it does not wait")),
    }
}

/// Returns the pairs of a table, whose rows have a procedure and an offset of the original, and
/// those of the frozen program.
pub fn pairs_of(alloc: Global, rows: &[[u8; 4]]) -> Result<Vec<Pair>, AllocError> {
    let mut pairs = Vec::new(alloc);
    for [procedure, offset, other, other_offset] in rows {
        pairs.push(Pair {
            procedure: *procedure,
            offset: u32::from(*offset),
            other: *other,
            other_offset: u32::from(*other_offset),
        })?;
    }
    Ok(pairs)
}

/// An original program that waits, and the one in which it is frozen.
#[derive(Clone, Copy)]
pub struct Both<'a> {
    /// The original.
    pub original: &'a Program,
    /// The frozen one.
    pub frozen: &'a Program,
    /// The machine of the frozen one, which waits.
    pub machine: &'a Machine<'a>,
    /// The frames of the original.
    pub frames: &'a [Frame],
    /// Its next offset.
    pub next: u32,
    /// Where its transfer began.
    pub at: u32,
}

/// Returns true if the frozen program is accepted by this list.
fn is_accepted(both: &Both<'_>, pairs: &[Pair]) -> bool {
    are_twins(both.original, both.frozen, pairs)
        && are_twin_states(
            both.frozen,
            pairs,
            both.machine,
            both.frames,
            both.next,
            both.at,
        )
}

/// Returns true if the frozen program is accepted by this list, and neither without one of its
/// pairs nor with one of them in a wrong place.
pub fn is_accepted_by_this_list_alone(
    alloc: Global,
    both: &Both<'_>,
    pairs: &[Pair],
) -> Result<bool, AllocError> {
    for k in 0..pairs.len() {
        let (front, back) = pairs.split_at(k);
        let Some((pair, behind)) = back.split_first() else {
            return Ok(false);
        };
        let mut list = Vec::new(alloc);
        list.extend_from_slice(front)?;
        list.extend_from_slice(behind)?;
        if is_accepted(both, list.as_slice()) {
            return Ok(false);
        }
        // The last pair is at the end in the right list too.
        list.push(*pair)?;
        if is_accepted(both, list.as_slice()) != behind.is_empty() {
            return Ok(false);
        }
    }
    Ok(is_accepted(both, pairs))
}
