//! The places that a frozen program can come to from where it waits, and what they are of its
//! original. No contract says which pairs these are: they are checked.
use crate::places::{Place, place_by, word_at};
use pcode_file::Proc;
use pcode_frozen::Pair;
use pcode_machine::Machine;
use pcode_ops::{Instr, Program};
use std::alloc::{AllocError, Global};

/// The places that were found, and those at which the walk has not looked yet.
#[derive(Drop)]
struct Walk {
    /// A flag for each offset.
    found: Vec<bool>,
    waiting: Vec<Place>,
}

impl Walk {
    /// Makes a walk that has found nothing.
    fn new(alloc: Global, size: usize) -> Result<Walk, AllocError> {
        let found = vec![in alloc; false; size]?;
        Ok(Walk {
            found,
            waiting: Vec::new(alloc),
        })
    }

    /// Returns true if the offset was found.
    fn has(&self, offset: u32) -> bool {
        match self.found.get(offset as usize) {
            Some(found) => *found,
            None => false,
        }
    }

    /// Finds a place. The walk looks at it later, unless it was found before.
    fn find(&mut self, place: Place) -> Result<(), AllocError> {
        let at = place.offset as usize;
        if at < self.found.len() && !self.found[at] {
            self.found[at] = true;
            self.waiting.push(place)?;
        }
        Ok(())
    }
}

/// Returns where the pointer at `place` leads: as far below itself as it says.
fn pointed_by(segment: &[u8], place: u32) -> u32 {
    place.saturating_sub(u32::from(word_at(segment, place as usize)))
}

/// Returns the target of a jump by `sb` that ends at `next`.
fn target_of(program: &Program, procedure: u8, sb: i8, next: u32) -> u32 {
    let by = u32::from(sb.unsigned_abs());
    if sb >= 0 {
        return next.saturating_add(by);
    }
    match program.file().procedure(procedure) {
        None => next,
        Some(part) => pointed_by(program.file().segment(), part.jtab.saturating_sub(by)),
    }
}

/// Finds the place at which a procedure begins.
fn find_callee(program: &Program, walk: &mut Walk, callee: u8) -> Result<(), AllocError> {
    match program.file().procedure(callee) {
        None => Ok(()),
        Some(part) => walk.find(Place {
            procedure: callee,
            offset: part.enter,
        }),
    }
}

/// Finds the places to which a case jump leads.
fn find_cases(
    program: &Program,
    walk: &mut Walk,
    procedure: u8,
    low: i16,
    high: i16,
    table: usize,
) -> Result<(), AllocError> {
    let segment = program.file().segment();
    let table = table.min(65535) as u32;
    let most = i32::from(high).saturating_sub(i32::from(low));
    for k in 0..most.saturating_add(1).max(0) as u32 {
        let offset = pointed_by(segment, table.saturating_add(k.saturating_mul(2)));
        walk.find(Place { procedure, offset })?;
    }
    walk.find(Place {
        procedure,
        offset: table.saturating_sub(2),
    })
}

/// Finds the target of a jump.
fn find_target(program: &Program, walk: &mut Walk, after: Place, sb: i8) -> Result<(), AllocError> {
    walk.find(Place {
        offset: target_of(program, after.procedure, sb, after.offset),
        ..after
    })
}

/// Finds the places to which an instruction leads that ends at `after`.
fn find_onward(
    program: &Program,
    walk: &mut Walk,
    instr: Instr,
    after: Place,
) -> Result<(), AllocError> {
    match instr {
        Instr::Ujp(sb) => return find_target(program, walk, after, sb),
        Instr::Xjp {
            low,
            high,
            table,
            ..
        } => return find_cases(program, walk, after.procedure, low, high, table),
        Instr::Rnp(_) => return Ok(()),
        Instr::Rbp(_) => return Ok(()),
        _ => walk.find(after)?,
    }
    match instr {
        Instr::Fjp(sb) => find_target(program, walk, after, sb),
        Instr::Efj(sb) => find_target(program, walk, after, sb),
        Instr::Nfj(sb) => find_target(program, walk, after, sb),
        Instr::Clp(callee) => find_callee(program, walk, callee),
        Instr::Cgp(callee) => find_callee(program, walk, callee),
        Instr::Cip(callee) => find_callee(program, walk, callee),
        _ => Ok(()),
    }
}

/// Finds the places at which a machine goes on: where it is, and where its frames return to.
fn find_starts(machine: &Machine<'_>, walk: &mut Walk) -> Result<(), AllocError> {
    let frames = machine.frames();
    for index in 1..frames.count() {
        let Some(below) = frames.frame((index - 1) as u16) else {
            return Ok(());
        };
        let Some(above) = frames.frame(index as u16) else {
            return Ok(());
        };
        walk.find(Place {
            procedure: below.procedure,
            offset: above.back,
        })?;
    }
    let Some(frame) = frames.current() else {
        return Ok(());
    };
    if let Some(transfer) = machine.transfer() {
        walk.find(Place {
            procedure: frame.procedure,
            offset: transfer.at,
        })?;
    }
    walk.find(Place {
        procedure: frame.procedure,
        offset: machine.next_offset(),
    })
}

/// Looks at each place that was found, until none waits.
fn look_on(program: &Program, walk: &mut Walk) -> Result<(), AllocError> {
    // Each offset waits at most once.
    for _ in 0..program.file().segment().len() {
        let Some(place) = walk.waiting.pop() else {
            return Ok(());
        };
        if program.is_start(place.offset) {
            let (instr, next) = program.instruction(place.offset);
            let after = Place {
                offset: next,
                ..place
            };
            find_onward(program, walk, instr, after)?;
        }
    }
    Ok(())
}

/// Returns true if a UJP at a place leads to another place that is the same one of the original.
/// Both programs go on alike there, and the UJP itself is none of the original's.
fn is_passed(program: &Program, rows: &[u8], place: Place) -> bool {
    if !program.is_start(place.offset) {
        return true;
    }
    match program.instruction(place.offset) {
        (Instr::Ujp(sb), next) => {
            let offset = target_of(program, place.procedure, sb, next);
            offset != place.offset
                && place_by(rows, Place { offset, ..place }) == place_by(rows, place)
        }
        _ => false,
    }
}

/// Appends the pairs of a procedure's part, in the order of their offsets.
fn push_pairs(
    program: &Program,
    rows: &[u8],
    walk: &Walk,
    part: Proc,
    pairs: &mut Vec<Pair>,
) -> Result<(), AllocError> {
    for offset in part.low..part.jtab {
        let place = Place {
            procedure: part.number,
            offset,
        };
        if walk.has(offset) && !is_passed(program, rows, place) {
            let original = place_by(rows, place);
            pairs.push(Pair {
                procedure: original.procedure,
                offset: original.offset,
                other: part.number,
                other_offset: offset,
            })?;
        }
    }
    Ok(())
}

/// Returns the pairs of places from where a machine over the frozen program is, in the order of its
/// own places.
pub(crate) fn pairs_from(
    alloc: Global,
    program: &Program,
    rows: &[u8],
    machine: &Machine<'_>,
) -> Result<Vec<Pair>, AllocError> {
    let mut walk = Walk::new(alloc, program.file().segment().len())?;
    find_starts(machine, &mut walk)?;
    look_on(program, &mut walk)?;
    let mut pairs = Vec::new(alloc);
    for part in program.file().procedures() {
        push_pairs(program, rows, &walk, *part, &mut pairs)?;
    }
    Ok(pairs)
}
