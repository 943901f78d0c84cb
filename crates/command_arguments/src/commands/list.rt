//! `list FILE`.
use crate::request::Request;
use crate::shared_arguments::{FILE, on_file};
use crate::value::{ArgumentFault, text_of};
use clap::{ArgMatches, Command};
use std::alloc::{AllocError, Global};

/// The name of the command.
pub const NAME: &str = "list";

/// The end of the command's help.
const HELP: &str = "Example:
  pgroup list examples/echo.code

Exit status:
  0  all is listed
  1  refused: `refused` and a code such as F3, O5 or E1, or `refused file`
  2  a fault of the command line
`pgroup help codes` explains the codes, docs/FORMATS.md the instructions.";

/// Returns the command's arguments, as clap reads them.
pub fn arguments<'a>(alloc: Global) -> Result<Command<'a>, AllocError> {
    let about = "Lists the reached instructions of a code file";
    on_file(alloc, NAME, about, HELP)
}

/// Returns what the arguments ask for.
pub fn read<'a>(matches: &ArgMatches<'a>) -> Result<Request<'a>, ArgumentFault<'a>> {
    let file = text_of(matches, FILE)?;
    Ok(Request::List { file })
}
