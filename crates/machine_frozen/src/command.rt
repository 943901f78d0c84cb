//! The work of the command `frozen`.
ghost use Rattle.std.specs.Prelude.{◌≡◌, ◌⊎◌, IfErr, IfOk, IsSome};
ghost use Rattle.machine_run.specs.Files.{HasReadAll};
ghost use Rattle.machine_run.specs.declared.files.FileError.TheVariants as file;
ghost use Rattle.machine_run.specs.declared.refusal.MachineRefusal.TheVariants as machine;
ghost use Rattle.machine_run.specs.declared.run.RunIo.TheVariants as run;
ghost use Rattle.machine_state.specs.Command.{HasTold, text_bytes};
ghost use Rattle.machine_frozen.specs.declared.refusal.FrozenRefusal.TheVariants as refusal;
ghost use Rattle.machine_frozen.specs.Command.{IsCommandRefusal, IsOriginalRefusal, WritesOriginal, WritesOriginalOf};

use crate::answer::Opened;
use crate::refusal::FrozenRefusal;
use machine_run::{FileError, MachineRefusal, RunIo, read_file, read_whole};
use machine_state::{Stated, write_text};
use std::alloc::Global;
use std::io::{Read, Write};
use std::rt::Files;

/// Returns the refusal for a fault of a run.
fn fault_of(fault: RunIo) -> FrozenRefusal
    ensures { result ≡ refusal.Machine (machine.Run fault) }
{
    FrozenRefusal::Machine(MachineRefusal::Run(fault))
}

/// Returns all that `reader` has left. Fails with `Read` or `Memory` as `read_whole` does.
fn input_of<R: Read>(alloc: Global, reader: &mut R) -> Result<Vec<u8>, FrozenRefusal>
    ensures ok { IfOk result
        (λ bytes. HasReadAll (R.remaining reader.old) (R.remaining reader.new) bytes.items) }
    ensures err { IfErr result (λ e. (e ≡ refusal.Machine (machine.Run run.Read))
        ⊎ (e ≡ refusal.Machine (machine.Run run.Memory))) }
{
    match read_whole(alloc, reader, &mut 0) {
        Ok(bytes) => Ok(bytes),
        Err(RunIo::Memory) => Err(fault_of(RunIo::Memory)),
        Err(_) => Err(fault_of(RunIo::Read)),
    }
}

/// Writes a text, if there is one. Fails with `Write` if a write fails.
fn tell<W: Write>(writer: &mut W, text: Option<String>) -> Result<Stated, FrozenRefusal>
    ensures ok { IfOk result (λ stated. HasTold (W.contents writer.old) (W.contents writer.new)
        (text_bytes text) stated) }
    ensures err { IfErr result
        (λ e. (e ≡ refusal.Machine (machine.Run run.Write)) × IsSome text) }
{
    match text {
        None => Ok(Stated::Spent),
        Some(text) => match write_text(writer, &text) {
            Ok(stated) => Ok(stated),
            Err(_) => Err(fault_of(RunIo::Write)),
        },
    }
}

/// Writes the text of the configuration of the original where the program of a frozen code file's
/// bytes waits on all that `reader` has left, as `original_text` has it. If the steps are spent
/// before, it writes nothing.
///
/// Fails if the bytes are refused before anything is read; if the input can't be read to its end,
/// if it is refused, or if memory runs out, before anything is written; or if a write fails.
pub fn write_original<R: Read, W: Write>(
    alloc: Global,
    bytes: &[u8],
    steps: u32,
    reader: &mut R,
    writer: &mut W,
) -> Result<Stated, FrozenRefusal>
    ensures ok { IfOk result (λ stated. WritesOriginalOf bytes.now (R.remaining reader.old)
        (R.remaining reader.new) (W.contents writer.old) (W.contents writer.new) steps stated) }
    ensures err { IfErr result (IsOriginalRefusal R.remaining bytes.now steps reader writer) }
{
    let opened = Opened::load(alloc, bytes)?;
    let input = input_of(alloc, reader)?;
    let text = opened.text(alloc, input.as_slice(), steps)?;
    let stated = tell(writer, text)?;
    Ok(stated)
}

/// Returns the refusal of a file that is not read.
fn unread(error: FileError) -> FrozenRefusal
    ensures unreadable { error ≡ file.Unreadable → result ≡ refusal.Machine machine.File }
    ensures memory { error ≡ file.Memory → result ≡ refusal.Machine (machine.Run run.Memory) }
{
    FrozenRefusal::Machine(MachineRefusal::from(error))
}

/// Does what `write_original` does for a frozen code file. Fails, before anything is read or
/// written, if the file can't be read.
pub fn write_frozen<H: Files + AllocGlobal, R: Read, W: Write>(
    rt: &H,
    file: &str,
    steps: u32,
    reader: &mut R,
    writer: &mut W,
) -> Result<Stated, FrozenRefusal>
    ensures ok { IfOk result (λ stated. WritesOriginal (R.remaining reader.old)
        (R.remaining reader.new) (W.contents writer.old) (W.contents writer.new) steps stated) }
    ensures err { IfErr result (IsCommandRefusal R.remaining steps reader writer) }
{
    match read_file(rt, file) {
        Err(error) => Err(unread(error)),
        Ok(bytes) => {
            let stated = write_original(rt.alloc(), bytes.as_slice(), steps, reader, writer)?;
            Ok(stated)
        }
    }
}
