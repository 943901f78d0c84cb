//! `run FILE [--steps N]`.
use crate::request::Request;
use crate::shared_arguments::{FILE, on_file, steps_arg, steps_of};
use crate::value::{ArgumentFault, text_of};
use clap::{ArgMatches, Command};
use std::alloc::{AllocError, Global};

/// The name of the command.
pub const NAME: &str = "run";

/// The end of the command's help.
const HELP: &str = "Example:
  pgroup run examples/echo.code --steps 5000

Exit status:
  0  the program has ended; or it waits, and its input has ended: `waits`
  1  refused: `refused` and a code such as F3, O5 or E1, or `refused file`
  2  a fault of the command line
  3  an execution error: its number, its procedure and its offset
  4  N steps were made, and the program has not ended: `steps`
`pgroup help codes` explains the codes, docs/FORMATS.md the errors.";

/// Returns the command's arguments, as clap reads them.
pub fn arguments<'a>(alloc: Global) -> Result<Command<'a>, AllocError> {
    let about = "Runs a code file on standard input and output";
    on_file(alloc, NAME, about, HELP)?.arg(steps_arg(alloc))
}

/// Returns what the arguments ask for.
pub fn read<'a>(matches: &ArgMatches<'a>) -> Result<Request<'a>, ArgumentFault<'a>> {
    Ok(Request::Run {
        file: text_of(matches, FILE)?,
        steps: steps_of(matches)?,
    })
}
