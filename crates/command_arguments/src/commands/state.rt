//! `state FILE [--steps N]`.
use crate::request::Request;
use crate::shared_arguments::{FILE, on_file, steps_arg, steps_of};
use crate::value::{ArgumentFault, text_of};
use clap::{ArgMatches, Command};
use std::alloc::{AllocError, Global};

/// The name of the command.
pub const NAME: &str = "state";

/// The end of the command's help.
const HELP: &str = "It runs FILE on all of its standard input, to where the program waits for more
or has ended, and writes nothing of what the program writes. Then it prints
memory, frames, stack, and how many bytes were read and written.

Example:
  pgroup state examples/echo.code --steps 5000

Exit status:
  0  printed: the program waits, or has ended, also by an execution error
  1  refused: `refused` and a code such as F3, O5 or E1, or `refused file`
  2  a fault of the command line
  4  N steps were made before: `steps`, and nothing is printed
`pgroup help codes` explains the codes, docs/FORMATS.md what is printed.";

/// Returns the command's arguments, as clap reads them.
pub fn arguments<'a>(alloc: Global) -> Result<Command<'a>, AllocError> {
    let about = "Prints where a code file's program stands after all of standard input";
    on_file(alloc, NAME, about, HELP)?.arg(steps_arg(alloc))
}

/// Returns what the arguments ask for.
pub fn read<'a>(matches: &ArgMatches<'a>) -> Result<Request<'a>, ArgumentFault<'a>> {
    Ok(Request::State {
        file: text_of(matches, FILE)?,
        steps: steps_of(matches)?,
    })
}
