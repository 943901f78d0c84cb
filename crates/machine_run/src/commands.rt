//! The work of the commands `check`, `list` and `run` on a code file.
ghost use Rattle.std.specs.Prelude.{IfErr, IfOk};
ghost use Rattle.machine_run.specs.Files.{IsFileRefusal, IsLoadedProgram};
ghost use Rattle.machine_run.specs.Commands.{RunsBytes, RunsFile, RunsLoaded};
ghost use Rattle.machine_run.specs.Streams.{streams};

use crate::files::read_file;
use crate::loading::load;
use crate::refusal::MachineRefusal;
use crate::run::{Finish, RunIo, run_program};
use crate::streams::{ByteReader, ByteWriter};
use pcode_ops::Program;
use std::alloc::Global;
use std::io::{self, BufWriter, Write};
use std::rt::Files;

/// Runs a program, with the answer of a command.
fn run_loaded<R: ByteReader, W: ByteWriter>(
    alloc: Global,
    program: &Program,
    steps: u32,
    reader: &mut R,
    writer: &mut W,
) -> Result<Finish, MachineRefusal>
    ensures runs { RunsLoaded (streams R.remaining R.read_faults W.contents W.write_faults)
        program.now reader writer steps result }
{
    match run_program(alloc, reader, writer, program, steps) {
        Ok(finish) => Ok(finish),
        Err(fault) => Err(MachineRefusal::Run(fault)),
    }
}

/// Runs the program of a code file's bytes, for at most `steps` steps, as `run_program` does. If
/// `load` refuses the bytes, nothing is read or written.
pub fn run_bytes<R: ByteReader, W: ByteWriter>(
    alloc: Global,
    bytes: &[u8],
    steps: u32,
    reader: &mut R,
    writer: &mut W,
) -> Result<Finish, MachineRefusal>
    ensures runs { RunsBytes (streams R.remaining R.read_faults W.contents W.write_faults)
        bytes.now reader writer steps result }
{
    let program = load(alloc, bytes)?;
    run_loaded(alloc, &program, steps, reader, writer)
}

/// Runs the program of a code file for at most `steps` steps, as `run_program` does. If the file is
/// refused, as by `load_file`, nothing is read or written.
pub fn run_file<H: Files + AllocGlobal, R: ByteReader, W: ByteWriter>(
    rt: &H,
    file: &str,
    steps: u32,
    reader: &mut R,
    writer: &mut W,
) -> Result<Finish, MachineRefusal>
    ensures runs { RunsFile (streams R.remaining R.read_faults W.contents W.write_faults)
        reader writer steps result }
{
    let program = load_file(rt, file)?;
    run_loaded(rt.alloc(), &program, steps, reader, writer)
}

/// Returns the program of a code file. Fails if the file can't be read (`File`), if memory runs
/// out, or as `load` does if its bytes are no program.
pub fn load_file<H: Files + AllocGlobal>(rt: &H, file: &str) -> Result<Program, MachineRefusal>
    ensures ok { IfOk result IsLoadedProgram }
    ensures err { IfErr result IsFileRefusal }
{
    let bytes = read_file(rt, file)?;
    load(rt.alloc(), bytes.as_slice())
}

/// Writes the line of a checked program.
fn write_checked<W: Write>(writer: &mut W, program: &Program) -> io::Result<()> {
    let segment = program.file().number();
    let count = program.file().count();
    let reached = program.reached();
    writeln!(
        writer,
        "ok segment {segment} procedures {count} reached {reached}"
    )
}

/// Checks a code file. Writes the segment's number, and the numbers of its procedures and reached
/// offsets.
pub fn check_file<H: Files + AllocGlobal, W: Write>(
    rt: &H,
    file: &str,
    writer: &mut W,
) -> Result<(), MachineRefusal> {
    let program = load_file(rt, file)?;
    write_checked(writer, &program).or(Err(MachineRefusal::Run(RunIo::Write)))
}

/// Writes the whole listing of a program.
fn write_listing<W: Write + Drop>(program: &Program, pieces: &mut BufWriter<W>) -> io::Result<()> {
    program.write_listing(pieces)?;
    pieces.flush()
}

/// Lists the program of a code file, in pieces of 8,192 bytes.
pub fn list_file<H: Files + AllocGlobal, W: Write>(
    rt: &H,
    file: &str,
    writer: &mut W,
) -> Result<(), MachineRefusal> {
    let program = load_file(rt, file)?;
    let mut pieces = BufWriter::new(rt.alloc(), writer).or(Err(MachineRefusal::Run(
        RunIo::Memory,
    )))?;
    let written = write_listing(&program, &mut pieces);
    // What a failed write did not write is not tried again.
    let _ = pieces.into_parts();
    written.or(Err(MachineRefusal::Run(RunIo::Write)))
}
