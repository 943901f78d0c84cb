//! The text of a program: a line for each procedure and for each reached offset.
ghost use Rattle.std.specs.Prelude.{◌≡◌, ◌+◌, ◌*◌, ◌<◌, ◌≤◌, ◌^◌, length, Ok, false, is_err};
ghost use Rattle.pcode_ops.specs.Loading.{look};
ghost use Rattle.pcode_ops.specs.Reach.{Reach};
ghost use Rattle.pcode_ops.specs.Walks.{IsWithin};

use crate::decoding::get_word;
use crate::loading::{Onward, end, look, parts};
use crate::program::Program;
use crate::text::TextWriter;
use pcode_file::Proc;
use std::io;

/// Writes an offset, if there is one.
fn write_offset<W: TextWriter>(writer: &mut W, at: Option<u32>) -> io::Result<()>
    requires { W.has_failed writer.old ≡ false }
    ensures { W.has_failed writer.new ≡ is_err result }
{
    match at {
        Some(offset) => write!(writer, " {offset}"),
        None => Ok(()),
    }
}

/// Writes the targets of a case table's entries.
fn write_entries<W: TextWriter>(
    writer: &mut W,
    segment: &[u8],
    table: u32,
    count: u32,
) -> io::Result<()>
    requires open { W.has_failed writer.old ≡ false }
    requires table { table + 2 * count ≤ length segment.now }
    requires size { length segment.now < 2 ^ 16 }
    ensures { W.has_failed writer.new ≡ is_err result }
{
    for k in 0..count {
        let place = table + 2 * k;
        let word = get_word(segment, place as usize);
        write_offset(writer, Some(place.saturating_sub(u32::from(word))))?;
    }
    Ok(())
}

/// Writes a jump's target; of a case jump its UJP and the targets of its entries.
fn write_targets<W: TextWriter>(writer: &mut W, segment: &[u8], onward: Onward) -> io::Result<()>
    requires open { W.has_failed writer.old ≡ false }
    requires within { IsWithin segment.now onward }
    requires size { length segment.now < 2 ^ 16 }
    ensures { W.has_failed writer.new ≡ is_err result }
{
    write_offset(writer, onward.target)?;
    if onward.count > 0 {
        write_offset(writer, onward.next)?;
    }
    write_entries(writer, segment, onward.table, onward.count)
}

/// Returns where a reached offset leads. `near` is the number of the procedure in whose part it
/// should lie.
fn onward(program: &Program, mut near: u8, at: u32) -> Onward
    requires { Reach program.now at }
    ensures value { look program.now at ≡ Ok result }
    ensures within { IsWithin (program.now).segment result }
{
    match look(program.file(), &mut near, at) {
        Ok(onward) => onward,
        Err(_) => unreachable!(),
    }
}

/// Writes the line of a reached offset: the instruction, and a jump's targets. `near` is the number
/// of the procedure in whose part the offset lies.
fn write_line<W: TextWriter>(writer: &mut W, program: &Program, near: u8, at: u32) -> io::Result<()>
    requires open { W.has_failed writer.old ≡ false }
    requires reached { Reach program.now at }
    ensures { W.has_failed writer.new ≡ is_err result }
{
    let (instr, _) = program.instruction(at);
    write!(writer, "{at:05} {instr}")?;
    write_targets(writer, program.file().segment(), onward(program, near, at))?;
    write!(writer, "\n")
}

/// Writes the line of a procedure, and those of the reached offsets of its part.
fn write_procedure<W: TextWriter>(writer: &mut W, program: &Program, part: Proc) -> io::Result<()>
    requires { W.has_failed writer.old ≡ false }
    ensures { W.has_failed writer.new ≡ is_err result }
{
    let Proc {
        number,
        level,
        enter,
        exit,
        params,
        vars: data,
        ..
    } = part;
    write!(
        writer,
        "proc {number} level {level} params {params} data {data} enter {enter} exit {exit}\n"
    )?;
    for at in part.low..end(part) {
        if program.is_start(at) {
            write_line(writer, program, number, at)?;
        }
    }
    Ok(())
}

/// Writes all procedures in the order of their numbers. Ends at the writer's first fault.
pub(crate) fn write_program<W: TextWriter>(writer: &mut W, program: &Program) -> io::Result<()>
    requires { W.has_failed writer.old ≡ false }
    ensures { W.has_failed writer.new ≡ is_err result }
{
    for part in parts(program.file()) {
        write_procedure(writer, program, *part)?;
    }
    Ok(())
}
