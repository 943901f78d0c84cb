//! `show SIZE SESSION HEX`.
use crate::request::Request;
use crate::shared_arguments::{SESSION, SIZE, value_arg};
use crate::value::{Argument, ArgumentFault, byte_of, count_of, text_of};
use clap::{ArgMatches, Command};
use std::alloc::{AllocError, Global};

const HEX: Argument = Argument::Required("HEX");

/// The name of the command.
pub const NAME: &str = "show";

/// The end of the command's help.
const HELP: &str = "Example, which prints `prepare from 1 ballot 1.1 place 0`:
  pgroup show 3 7 50470201010300000007000000010100000000

Exit status:
  0  printed
  1  refused: `refused` and a code, G1 to G12, E1 or E3
  2  a fault of the command line, among them `bad hex`
`pgroup help codes` explains the codes, docs/FORMATS.md what is printed.";

/// Returns the command's arguments, as clap reads them.
pub fn arguments<'a>(alloc: Global) -> Result<Command<'a>, AllocError> {
    let size = "The number of the group's nodes, 0 to 255";
    let session = "The group's session, 0 to 4294967295";
    let hex = "The bytes in hexadecimal digits, two for each byte";
    Command::new(alloc, NAME)
        .about("Prints a datagram")
        .after_help(HELP)
        .arg(value_arg(alloc, SIZE, size))?
        .arg(value_arg(alloc, SESSION, session))?
        .arg(value_arg(alloc, HEX, hex))
}

/// Returns what the arguments ask for.
pub fn read<'a>(matches: &ArgMatches<'a>) -> Result<Request<'a>, ArgumentFault<'a>> {
    let size = byte_of(matches, SIZE)?;
    let session = count_of(matches, SESSION)?;
    let digits = text_of(matches, HEX)?;
    Ok(Request::Show {
        size,
        session,
        digits,
    })
}
