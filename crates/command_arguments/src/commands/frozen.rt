//! `frozen FILE [--steps N]`.
use crate::request::Request;
use crate::shared_arguments::{FILE, on_file, steps_arg, steps_of};
use crate::value::{ArgumentFault, text_of};
use clap::{ArgMatches, Command};
use std::alloc::{AllocError, Global};

/// The name of the command.
pub const NAME: &str = "frozen";

/// The end of the command's help.
const HELP: &str = "FILE is a code file of tools/freeze. On no input it prints where the original
program stood when it was frozen, as `pgroup state` would. On more input, it
prints where the original stands after that. It refuses FILE unless it has seen
that FILE goes on from there as its original does.

Example:
  pgroup frozen adventure.frozen.code < /dev/null

Exit status:
  0  printed: FILE goes on as its original, which waits
  1  refused: `refused` and a code such as Z6, F3 or E1, or `refused file`
  2  a fault of the command line
  4  N steps were made before: `steps`, and nothing is printed
`pgroup help codes` explains the codes, docs/FORMATS.md what is printed.";

/// Returns the command's arguments, as clap reads them.
pub fn arguments<'a>(alloc: Global) -> Result<Command<'a>, AllocError> {
    let about = "Checks a frozen code file, and prints where its original stands";
    on_file(alloc, NAME, about, HELP)?.arg(steps_arg(alloc))
}

/// Returns what the arguments ask for.
pub fn read<'a>(matches: &ArgMatches<'a>) -> Result<Request<'a>, ArgumentFault<'a>> {
    Ok(Request::Frozen {
        file: text_of(matches, FILE)?,
        steps: steps_of(matches)?,
    })
}
