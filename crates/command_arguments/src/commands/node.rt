//! `node FILE ID SIZE SESSION RECORD TURNS ADDR.. [--seen N] [--campaign] [--keys ADDR]`.
use crate::request::{NodeArguments, Request};
use crate::shared_arguments::{
    FILE, SESSION, SIZE, TURNS, on_file, option_arg, size_arg, text_arg, value_arg,
};
use crate::value::{
    Argument, ArgumentFault, SENDABLE, address_in, byte_of, count_of, large_in, path_of,
    refused_value, text_of,
};
use clap::{Arg, ArgAction, ArgMatches, Command};
use std::alloc::{AllocError, Global};
use std::net::SocketAddr;

const ID: Argument = Argument::Required("ID");

const RECORD: Argument = Argument::Required("RECORD");

const ADDR: Argument = Argument::Several("ADDR");

const SEEN: Argument = Argument::Optional("seen", "N");

const KEYS: Argument = Argument::Optional("keys", "ADDR");

/// The usage, in two lines: it is too long for one.
const USAGE: &str = "pgroup node [OPTIONS] <FILE> <ID> <SIZE> <SESSION> <RECORD> <TURNS>
                   <ADDR>...";

/// The name of the command.
pub const NAME: &str = "node";

/// The end of the command's help.
const HELP: &str = "The output of the program is written to standard output. docs/GROUP.md tells
how a group is run. With PGROUP_LOG=1 in the environment the node says what it
does, line by line, on standard error. With PGROUP_TRACE=FILE it appends each
of its calls to FILE; docs/FORMATS.md has the lines.

Example, node 1 of 3:
  pgroup node examples/echo.code 1 3 7 record1 4294967295 \\
    127.0.0.1:7001 127.0.0.1:7002 127.0.0.1:7003 \\
    --keys 127.0.0.1:7101 --campaign

Exit status:
  0  the node had its turns
  1  refused, with one line:
     refused file      FILE cannot be read
     refused F.., O..  FILE is no code file, or none that can be run
     refused D7, D8    SIZE or ID is out of range
     refused E1, D1    memory ran out
     refused E2, E3    standard input or output failed
     refused socket    an address is taken, or is none of this machine's
     refused D2        RECORD cannot be loaded or saved
     refused D9        RECORD is damaged, or is that of another node
     refused D10       RECORD has been started 4294967295 times
     refused D5        the node has typed 4294967295 keys in this start
     refused D11, D12  --campaign, where no ballot or no place is left
  2  a fault of the command line
`pgroup help codes` explains the codes.";

/// Adds the options to the command.
fn with_options<'a>(alloc: Global, node: Command<'a>) -> Result<Command<'a>, AllocError> {
    let seen = "How many bytes of the output were seen before, and are not
written again [default: 0]";
    let campaign = "Asks to lead before the first turn";
    let keys = "Where typed bytes come, as datagrams of at most 64 bytes;
an empty one has the node ask to lead
[default: standard input, read whole]";
    let campaign = Arg::new(alloc, "campaign")
        .long("campaign")
        .action(ArgAction::SetTrue)
        .help(campaign);
    node.arg(option_arg(alloc, SEEN, seen))?
        .arg(campaign)?
        .arg(option_arg(alloc, KEYS, keys))
}

/// Returns the command's arguments, as clap reads them.
pub fn arguments<'a>(alloc: Global) -> Result<Command<'a>, AllocError> {
    let about = "Runs a code file at one node of a group, on UDP";
    let session = "The group's session, 0 to 4294967295";
    let addresses = "The address of each node in order, as 127.0.0.1:7001";
    let addresses = value_arg(alloc, ADDR, addresses)
        .num_args(1..)
        .action(ArgAction::Append);
    let node = on_file(alloc, NAME, about, HELP)?
        .override_usage(USAGE)
        .arg(value_arg(alloc, ID, "The node's number, from 1 on"))?
        .arg(size_arg(alloc))?
        .arg(value_arg(alloc, SESSION, session))?
        .arg(text_arg(alloc, RECORD, "The file of the node's record"))?
        .arg(value_arg(alloc, TURNS, "How many turns the node has"))?
        .arg(addresses)?;
    with_options(alloc, node)
}

const OTHER: &str = "an address that no other node has";

const OWN: &str = "an address that no node has";

/// Reads the address of one more node: not 0.0.0.0, from which no datagram comes, and not one of
/// those before it.
fn read_address<'a>(text: &'a str, others: &[SocketAddr]) -> Result<SocketAddr, ArgumentFault<'a>> {
    let address = address_in(ADDR, text)?;
    if address.ip().is_unspecified() {
        return Err(refused_value(ADDR, text, SENDABLE));
    }
    if others.contains(&address) {
        return Err(refused_value(ADDR, text, OTHER));
    }
    Ok(address)
}

/// The addresses of the nodes, as many as the group has, and each another.
fn read_addresses<'a>(
    alloc: Global,
    matches: &ArgMatches<'a>,
    size: u8,
) -> Result<Vec<SocketAddr>, ArgumentFault<'a>> {
    let texts = matches.get_strs(ADDR.name()).unwrap_or(&[]);
    let mut addresses = Vec::new(alloc);
    for text in texts {
        addresses.push(read_address(text, addresses.as_slice())?)?;
    }
    let count = addresses.len();
    if count != usize::from(size) {
        return Err(ArgumentFault::Addresses { size, count });
    }
    Ok(addresses)
}

/// The number of `--seen`, 0 where it is not there.
fn read_seen<'a>(matches: &ArgMatches<'a>) -> Result<u64, ArgumentFault<'a>> {
    match matches.get_str(SEEN.name()) {
        None => Ok(0),
        Some(text) => large_in(SEEN, text),
    }
}

/// The address of `--keys`, if it is there. No node has it.
fn read_keys<'a>(
    matches: &ArgMatches<'a>,
    nodes: &[SocketAddr],
) -> Result<Option<SocketAddr>, ArgumentFault<'a>> {
    let Some(text) = matches.get_str(KEYS.name()) else {
        return Ok(None);
    };
    let address = address_in(KEYS, text)?;
    if nodes.contains(&address) {
        return Err(refused_value(KEYS, text, OWN));
    }
    Ok(Some(address))
}

/// Returns what the arguments ask for.
pub fn read<'a>(alloc: Global, matches: &ArgMatches<'a>) -> Result<Request<'a>, ArgumentFault<'a>> {
    let file = text_of(matches, FILE)?;
    let node = byte_of(matches, ID)?;
    let size = byte_of(matches, SIZE)?;
    let session = count_of(matches, SESSION)?;
    let record = path_of(matches, RECORD)?;
    let turns = count_of(matches, TURNS)?;
    let addresses = read_addresses(alloc, matches, size)?;
    let seen = read_seen(matches)?;
    let keys = read_keys(matches, addresses.as_slice())?;
    Ok(Request::Node(NodeArguments {
        file,
        node,
        size,
        session,
        record,
        turns,
        addresses,
        seen,
        campaigns: matches.get_flag("campaign"),
        keys,
    }))
}
