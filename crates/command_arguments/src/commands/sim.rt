//! `sim FILE SCRIPT`.
use crate::request::Request;
use crate::shared_arguments::{FILE, on_file, text_arg};
use crate::value::{Argument, ArgumentFault, text_of};
use clap::{ArgMatches, Command};
use std::alloc::{AllocError, Global};

const SCRIPT: Argument = Argument::Required("SCRIPT");

/// The name of the command.
pub const NAME: &str = "sim";

/// The end of the command's help.
const HELP: &str = "Example:
  pgroup sim examples/echo.code examples/group/leader_falls.script

Exit status:
  0  all lines of SCRIPT have happened
  1  refused: `refused` and a code such as F3, O5 or E1, or `refused file`;
     for a line of SCRIPT its number, and `refused` with V1 to V6, `script`
     or `settle`
  2  a fault of the command line
`pgroup help codes` explains the codes, docs/FORMATS.md what a script says.";

/// Returns the command's arguments, as clap reads them.
pub fn arguments<'a>(alloc: Global) -> Result<Command<'a>, AllocError> {
    let about = "Runs a code file in a group, by a script";
    let script = "What happens to the group, line by line";
    on_file(alloc, NAME, about, HELP)?.arg(text_arg(alloc, SCRIPT, script))
}

/// Returns what the arguments ask for.
pub fn read<'a>(matches: &ArgMatches<'a>) -> Result<Request<'a>, ArgumentFault<'a>> {
    let file = text_of(matches, FILE)?;
    let script = text_of(matches, SCRIPT)?;
    Ok(Request::Sim { file, script })
}
