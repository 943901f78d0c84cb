//! Commands over a writer that takes nothing, or that cannot be flushed.
use command_arguments::{DEFAULT_STEPS, NoRequest, request_of};
use group_sim::{ScriptRefusal, sim_file};
use machine_run::{Counting, MachineRefusal, RunIo, list_file, run_built_in, run_file};
use std::alloc::{AllocError, Global};
use std::fs;
use std::io::{self, ErrorKind, Write};
use std::test::Fail;
use test_programs::{PRINTS_A, code_file};

/// The code file that the tests write.
const PROGRAM: &str = "program_of_a_test";

/// The script that they write, which shows a group.
const SCRIPT: &str = "script_of_a_test";

const LISTING_OF_A: &[u8] = b"proc 1 level 0 params 2 data 1 enter 0 exit 12
00000 SLDC 65
00001 SRO 3
00003 SLDC 1
00004 LAO 3
00006 SLDC 0
00007 SLDC 1
00008 SLDC 0
00009 SLDC 0
00010 CSP 6
00012 RBP 0
";

/// A writer that takes all and cannot be flushed, or takes nothing.
#[derive(Drop)]
struct Sink {
    takes_all: bool,
    bytes: Vec<u8>,
}

impl Write for Sink {
    fn write(&mut self, bytes: &[u8]) -> io::Result<usize> {
        if !self.takes_all {
            return Ok(0);
        }
        self.bytes.extend_from_slice(bytes)?;
        Ok(bytes.len())
    }

    fn flush(&mut self) -> io::Result<()> {
        if self.takes_all {
            return Err(io::Error::from(ErrorKind::Other));
        }
        Ok(())
    }
}

/// What is printed.
#[derive(Clone, Copy, Debug)]
enum Work {
    BuiltIn,
    Run,
    List,
    Sim,
    Help,
}

/// Returns true if help cannot be written.
fn help_fails(alloc: Global, output: &mut Sink) -> Result<bool, AllocError> {
    let arguments = [String::from_str(alloc, "--help")?];
    let asked = request_of(alloc, &arguments);
    match &asked {
        Err(NoRequest::Help(help)) => Ok(write!(output, "{help}").is_err()),
        _ => Ok(false),
    }
}

/// Returns true if the work is refused as a failed write. A run does not read its input.
fn is_refused(rt: &HostRuntime, work: Work, output: &mut Sink) -> Result<bool, AllocError> {
    let refusal = match work {
        Work::BuiltIn => run_built_in(rt.alloc(), DEFAULT_STEPS, output).err(),
        Work::Run => {
            let mut input = Counting::new(&b"X"[..]);
            let mut output = Counting::new(output);
            let ran = run_file(rt, PROGRAM, DEFAULT_STEPS, &mut input, &mut output);
            if input.inner.is_empty() {
                None
            } else {
                ran.err()
            }
        }
        Work::List => list_file(rt, PROGRAM, output).err(),
        Work::Sim => match sim_file(rt, PROGRAM, SCRIPT, output) {
            Err(ScriptRefusal::Machine(refusal)) => Some(refusal),
            _ => None,
        },
        Work::Help => return help_fails(rt.alloc(), output),
    };
    Ok(matches!(refusal, Some(MachineRefusal::Run(RunIo::Write))))
}

/// What is printed, and whether its writer takes all and cannot be flushed, or takes nothing.
const ROWS: [(Work, bool); 6] = [
    (Work::BuiltIn, false),
    (Work::Run, false),
    (Work::List, false),
    (Work::Sim, false),
    (Work::Help, false),
    (Work::List, true),
];

/// Writes the code file and the script.
fn write_files(rt: &HostRuntime) -> io::Result<()> {
    let file = code_file(rt.alloc(), b"        ", &PRINTS_A)?;
    fs::write(rt, PROGRAM, file.as_slice())?;
    fs::write(rt, SCRIPT, b"size 1 session 7\nshow\n")
}

/// Shows what no clause says: what is printed by a program, a listing, a script and help is refused
/// as a failed write where its writer takes nothing, and a listing where it cannot be flushed.
#[test]
fn a_writer_that_takes_nothing(rt: HostRuntime) -> Result<(), Fail> {
    write_files(&rt)?;
    for (work, takes_all) in ROWS {
        let taken: &[u8] = if takes_all { LISTING_OF_A } else { b"" };
        let bytes = Vec::new(rt.alloc());
        let mut output = Sink { takes_all, bytes };
        assert!(rt; is_refused(&rt, work, &mut output)?, "{work:?}");
        assert!(rt; output.bytes.as_slice() == taken, "{work:?}");
    }
    fs::remove_file(&rt, PROGRAM)?;
    fs::remove_file(&rt, SCRIPT)?;
    Ok(())
}
