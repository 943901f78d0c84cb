//! What the program does with its arguments.
use crate::codes::CODES;
use crate::commands::perform;
use crate::conclusion::{BAD_WORDS, Conclusion, DONE, Refusal, conclude, refuse};
use command_arguments::{DEFAULT_STEPS, NoRequest, request_of};
use machine_run::{MachineRefusal, RunIo, run_built_in};
use std::fs::File;
use std::io::{self, Read, Write};
use std::net::Net;
use std::rt::{Env, Files};
use std::time::Clock;

/// The version of the program, which is the newest of CHANGELOG.md.
const VERSION: &str = "0.21.0";

/// Returns the status once a text was written, or could not be.
fn status_of<E: Write>(errors: &mut E, written: io::Result<()>) -> u8 {
    match written {
        Ok(()) => DONE,
        Err(_) => refuse(errors, Refusal::Machine(MachineRefusal::Run(RunIo::Write))),
    }
}

/// Writes the text that these arguments ask for beside the commands: the version, or the table of
/// codes. Returns the status, or `None` if they ask for something else.
fn write_text<W: Write, E: Write>(
    writer: &mut W,
    errors: &mut E,
    arguments: &[String],
) -> Option<u8> {
    let written = match arguments {
        [only] if only.as_str() == "--version" => writeln!(writer, "pgroup {VERSION}"),
        [first, second] if first.as_str() == "help" && second.as_str() == "codes" => {
            write!(writer, "{CODES}")
        }
        _ => return None,
    };
    Some(status_of(errors, written))
}

/// Writes why the arguments ask for no command. Returns the status.
pub fn explain<W: Write, E: Write>(writer: &mut W, errors: &mut E, reason: NoRequest) -> u8 {
    match reason {
        NoRequest::Help(help) => {
            let written = write!(writer, "{help}");
            status_of(errors, written)
        }
        NoRequest::Fault(fault) => {
            let _ = write!(errors, "{fault}");
            BAD_WORDS
        }
        NoRequest::Memory => refuse(errors, Refusal::Machine(MachineRefusal::Run(RunIo::Memory))),
    }
}

/// Does what the program does with these arguments, which are without its own name, on an input, an
/// output and an error stream. Without arguments it runs the built-in program. Arguments that ask
/// for help, for the table of codes or for the version do nothing else. Returns the status: 0; 1
/// refused; 2 a fault of the command line; 3 an execution error; 4 the steps are spent. A fault of
/// the error stream is ignored.
pub fn command<
    H: Files<File = File> + Net + Clock + Env + AllocGlobal + Copy + Drop,
    R: Read,
    W: Write,
    E: Write,
>(rt: &H, arguments: &[String], reader: &mut R, writer: &mut W, errors: &mut E) -> u8 {
    if arguments.is_empty() {
        let ran = run_built_in(rt.alloc(), DEFAULT_STEPS, writer);
        return conclude(errors, Conclusion::of_run(ran));
    }
    if let Some(status) = write_text(writer, errors, arguments) {
        return status;
    }
    match request_of(rt.alloc(), arguments) {
        Ok(asked) => {
            let conclusion = perform(rt, &asked, reader, writer, errors);
            conclude(errors, conclusion)
        }
        Err(reason) => explain(writer, errors, reason),
    }
}
