//! A run of a program over a reader and a writer.
ghost use Rattle.std.specs.Prelude.{◌≡◌, ◌≤◌, ℕ, List, [], ◌∷◌, IfOk, MatchResult};
ghost use Rattle.std.specs.Io.KnownBytes.{Keeps, Appends};
ghost use Rattle.base.specs.Faults.{HasRisen};
ghost use Rattle.pcode_machine.specs.Turns.{Makes, WaitsOn};
ghost use Rattle.machine_run.specs.Run.{RunsProgram, Stretches, finish_of};
ghost use Rattle.machine_run.specs.Streams.{streams};

use crate::streams::{ByteReader, ByteWriter, ReadFault, WriteFault};
use pcode_machine::laws::{quiet_steps_lead_on, run_is_after, same_run_on_longer_input};
use pcode_machine::{End, Machine, Pause};
use pcode_ops::Program;
use std::alloc::Global;
use thiserror::Error;

/// How a run ended.
#[derive(Clone, Copy, Debug, PartialEq, Eq)]
pub enum Finish {
    /// The program ended.
    Normal,
    /// The program met an execution error.
    Error(End),
    /// The machine waits for a byte, and the reader is at its end.
    Waits,
    /// The steps are spent.
    Steps,
}

/// What went wrong around the machine. The text is the refusal's code.
#[derive(Clone, Copy, Debug, PartialEq, Eq, Error)]
pub enum RunIo {
    /// Memory ran out. Of `run_program`: before its first step.
    #[error("E1")]
    Memory,
    /// A read failed.
    #[error("E2")]
    Read,
    /// A write failed, or took nothing.
    #[error("E3")]
    Write,
}

/// Returns the finish of a program that ended by `end`.
fn finish_by(end: End) -> Finish
    ensures { result ≡ finish_of end }
{
    match end {
        End::Normal => Finish::Normal,
        End::Error { .. } => Finish::Error(end),
    }
}

/// Gives a byte to a machine that waits for one, and writes its echo, if it has one.
fn feed<W: ByteWriter>(
    writer: &mut W,
    machine: &mut Machine<'_>,
    byte: u8,
) -> Result<(), WriteFault>
    requires { WaitsOn machine.old.program machine.old.state }
    ensures program { machine.new.program ≡ machine.old.program }
    ensures made { MatchResult result
        (λ _. (wrote : List ℕ)
        × Makes machine.old.program machine.old.state machine.new.state (byte ∷ []) wrote
        × Appends (W.contents writer.old) (W.contents writer.new) wrote
        × (W.write_faults writer.new ≡ W.write_faults writer.old))
        (λ _. (echo : ℕ) × Makes machine.old.program machine.old.state machine.new.state (byte ∷ [])
        (echo ∷ []) × Keeps (W.contents writer.old) (W.contents writer.new)
        × HasRisen (W.write_faults writer.old) (W.write_faults writer.new)) }
{
    match machine.take(byte) {
        None => Ok(()),
        Some(echo) => writer.write_byte(echo),
    }
}

/// Runs at most `most` steps, until one takes or writes a byte or the run is over. Returns how many
/// it ran, and the finish if the run is over.
fn stretch<R: ByteReader, W: ByteWriter>(
    reader: &mut R,
    writer: &mut W,
    machine: &mut Machine<'_>,
    most: u32,
) -> Result<(u32, Option<Finish>), RunIo>
    ensures program { machine.new.program ≡ machine.old.program }
    ensures stretch { Stretches machine.old.program most machine.old.state machine.new.state
        (streams R.remaining R.read_faults W.contents W.write_faults reader.old writer.old)
        (streams R.remaining R.read_faults W.contents W.write_faults reader.new writer.new)
        result }
    ensures most { IfOk result (λ r. r.0 ≤ most) }
{
    let (made, pause) = machine.run(most);
    match pause {
        Pause::Spent => Ok((made, Some(Finish::Steps))),
        Pause::Ended(end) => Ok((made, Some(finish_by(end)))),
        Pause::Wrote(byte) => match writer.write_byte(byte) {
            Ok(()) => Ok((made, None)),
            Err(WriteFault) => Err(RunIo::Write),
        },
        Pause::Wants => match reader.read_byte() {
            Ok(Some(byte)) => match feed(writer, machine, byte) {
                Ok(()) => Ok((made + 1, None)),
                Err(WriteFault) => Err(RunIo::Write),
            },
            Ok(None) => Ok((made, Some(Finish::Waits))),
            Err(ReadFault) => Err(RunIo::Read),
        },
    }
}

/// Runs `program` for at most `steps` steps and returns how the run ended (`Finishes`). It read
/// exactly the bytes that its steps took, and wrote exactly their output. After `Read`
/// (`FailsToRead`) this holds too. After `Write` (`FailsToWrite`) it holds but for the next step,
/// whose byte was not written. After `Memory` reader and writer are as they were.
///
/// Before each step it checks first whether the steps are spent. It reads a byte only when the
/// machine waits for it, and writes each byte by itself. Fails with `Memory` before the first step
/// if the machine finds no room.
pub fn run_program<R: ByteReader, W: ByteWriter>(
    alloc: Global,
    reader: &mut R,
    writer: &mut W,
    program: &Program,
    steps: u32,
) -> Result<Finish, RunIo>
    ensures { RunsProgram (streams R.remaining R.read_faults W.contents W.write_faults)
        program.now reader writer steps result }
{
    // These laws say that steps on an input are steps on each longer input, that they lead to the
    // state after as many steps, and that quiet steps go on from there.
    same_run_on_longer_input();
    run_is_after();
    quiet_steps_lead_on();
    let Ok(mut machine) = Machine::new(alloc, program) else {
        return Err(RunIo::Memory);
    };
    let mut left = steps;
    while left > 0 {
        let (made, finish) = stretch(reader, writer, &mut machine, left)?;
        if let Some(finish) = finish {
            return Ok(finish);
        }
        left -= made;
    }
    Ok(Finish::Steps)
}
