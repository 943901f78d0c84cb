//! `check FILE`.
use crate::request::Request;
use crate::shared_arguments::{FILE, on_file};
use crate::value::{ArgumentFault, text_of};
use clap::{ArgMatches, Command};
use std::alloc::{AllocError, Global};

/// The name of the command.
pub const NAME: &str = "check";

/// The end of the command's help.
const HELP: &str = "Example:
  pgroup check examples/echo.code

Exit status:
  0  FILE can be run: the line has the segment's number, and how many
     procedures and reached offsets it has
  1  refused: `refused` and a code such as F3, O5 or E1, or `refused file`
  2  a fault of the command line
`pgroup help codes` explains the codes.";

/// Returns the command's arguments, as clap reads them.
pub fn arguments<'a>(alloc: Global) -> Result<Command<'a>, AllocError> {
    let about = "Checks a code file, and counts its reached offsets";
    on_file(alloc, NAME, about, HELP)
}

/// Returns what the arguments ask for.
pub fn read<'a>(matches: &ArgMatches<'a>) -> Result<Request<'a>, ArgumentFault<'a>> {
    let file = text_of(matches, FILE)?;
    Ok(Request::Check { file })
}
