//! The work of the command `state`.
ghost use Rattle.std.specs.Prelude.{◌≡◌, IfErr, IfOk, Some, string_bytes};
ghost use Rattle.machine_run.specs.declared.run.RunIo.TheVariants as run;
ghost use Rattle.machine_state.specs.Command.{HasTold, IsStateRefusal, IsTextOf, IsTextRefusal, WritesState, WritesStateOf, text_bytes};

use crate::halt::run_to_halt;
use crate::text::state_text;
use machine_run::{MachineRefusal, RunIo, load_file, read_whole};
use pcode_machine::Machine;
use pcode_ops::Program;
use std::alloc::Global;
use std::io::{Read, Write};
use std::rt::Files;

/// What the command came to.
#[derive(Clone, Copy, Debug, PartialEq, Eq)]
pub enum Stated {
    /// The program waits or has ended, and the text was written.
    Written,
    /// The steps were spent before, and nothing was written.
    Spent,
}

/// Returns the text of the configuration in which a run of `program` on the whole `input` halts: it
/// waits for more, or has ended. Returns `None` exactly if all `steps` steps were made before.
/// Fails with `Memory`, and with nothing else, if memory runs out.
pub fn state_of_program(
    alloc: Global,
    program: &Program,
    input: &[u8],
    steps: u32,
) -> Result<Option<String>, RunIo>
    ensures ok { IfOk result (λ text. IsTextOf program.now input.now steps (text_bytes text)) }
    ensures err { IfErr result (λ e. e ≡ run.Memory) }
{
    let Ok(mut machine) = Machine::new(alloc, program) else {
        return Err(RunIo::Memory);
    };
    let Some(halt) = run_to_halt(&mut machine, input, steps) else {
        return Ok(None);
    };
    match state_text(alloc, &machine, halt) {
        Ok(text) => Ok(Some(text)),
        Err(_) => Err(RunIo::Memory),
    }
}

/// Writes a text. Fails with `Write`, and with nothing else, if a write fails.
pub fn write_text<W: Write>(writer: &mut W, text: &String) -> Result<Stated, RunIo>
    ensures ok { IfOk result (λ stated. HasTold (W.contents writer.old) (W.contents writer.new)
        (Some (string_bytes text.now)) stated) }
    ensures err { IfErr result (λ e. e ≡ run.Write) }
{
    match writer.write_all(text.as_bytes()) {
        Ok(()) => Ok(Stated::Written),
        Err(_) => Err(RunIo::Write),
    }
}

/// Writes the text of where a program halts, as `write_state` says.
fn write_state_of<R: Read, W: Write>(
    alloc: Global,
    program: &Program,
    steps: u32,
    reader: &mut R,
    writer: &mut W,
) -> Result<Stated, RunIo>
    ensures ok { IfOk result (λ stated. WritesStateOf program.now (R.remaining reader.old)
        (R.remaining reader.new) (W.contents writer.old) (W.contents writer.new) steps stated) }
    ensures err { IfErr result (IsTextRefusal writer) }
{
    let input = read_whole(alloc, reader, &mut 0)?;
    match state_of_program(alloc, program, input.as_slice(), steps)? {
        None => Ok(Stated::Spent),
        Some(text) => write_text(writer, &text),
    }
}

/// Writes the text of the configuration in which the program of a code file halts on all that
/// `reader` has left, after fewer than `steps` steps. If the steps are spent before, it writes
/// nothing.
///
/// Fails if the file is refused, as by `load_file`, before anything is read; if the input can't be
/// read to its end or memory runs out, before anything is written; or if a write fails (`Write`).
pub fn write_state<H: Files + AllocGlobal, R: Read, W: Write>(
    rt: &H,
    file: &str,
    steps: u32,
    reader: &mut R,
    writer: &mut W,
) -> Result<Stated, MachineRefusal>
    ensures ok { IfOk result (λ stated. WritesState (R.remaining reader.old)
        (R.remaining reader.new) (W.contents writer.old) (W.contents writer.new) steps stated) }
    ensures err { IfErr result (IsStateRefusal reader writer) }
{
    let program = load_file(rt, file)?;
    match write_state_of(rt.alloc(), &program, steps, reader, writer) {
        Ok(stated) => Ok(stated),
        Err(fault) => Err(MachineRefusal::Run(fault)),
    }
}
