//! `net FILE SIZE TURNS`.
use crate::request::Request;
use crate::shared_arguments::{FILE, SIZE, TURNS, on_file, size_arg, value_arg};
use crate::value::{ArgumentFault, byte_of, count_of, text_of};
use clap::{ArgMatches, Command};
use std::alloc::{AllocError, Global};

/// The name of the command.
pub const NAME: &str = "net";

/// The end of the command's help.
const HELP: &str = "Standard input is read whole, and typed at node 1. At the end a line tells of
each node how much it knows, and what its console shows. With PGROUP_LOG=1 in
the environment a line on standard error says when the program ends at a node.

Example:
  printf 'hi.' | pgroup net examples/echo.code 3 40

Exit status:
  0  each node had its turns
  1  refused: `refused` and a code such as F3, O5, E1 or D7, or
     `refused file` or `refused socket`
  2  a fault of the command line
`pgroup help codes` explains the codes.";

/// Returns the command's arguments, as clap reads them.
pub fn arguments<'a>(alloc: Global) -> Result<Command<'a>, AllocError> {
    let about = "Runs a code file in a group in one process, on loopback UDP";
    on_file(alloc, NAME, about, HELP)?
        .arg(size_arg(alloc))?
        .arg(value_arg(alloc, TURNS, "How many turns each node has"))
}

/// Returns what the arguments ask for.
pub fn read<'a>(matches: &ArgMatches<'a>) -> Result<Request<'a>, ArgumentFault<'a>> {
    let file = text_of(matches, FILE)?;
    let size = byte_of(matches, SIZE)?;
    let turns = count_of(matches, TURNS)?;
    Ok(Request::Net { file, size, turns })
}
