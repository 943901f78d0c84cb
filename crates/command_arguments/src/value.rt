//! The values of arguments, and what is wrong with them.
ghost use Rattle.std.specs.Prelude.{◌≡◌, ◌≢◌, ◌↔◌, ◌∷◌, [], IsTrue};
ghost use Rattle.std.specs.Net.Addr.{IsMulticastV4, ipv4_octets};
ghost use Rattle.std.specs.Net.Socket.{v4_ip, v4_port};

use clap::ArgMatches;
use digits::decimal;
use std::alloc::{AllocError, AllocFailed};
use std::fmt;
use std::net::{SocketAddr, SocketAddrV4};

/// An argument of the command line that has a value. As text it is as help shows it.
#[derive(Clone, Copy, Debug, PartialEq, Eq)]
pub enum Argument {
    /// A required argument, by its name.
    Required(&'static str),
    /// One required argument or more, by their name.
    Several(&'static str),
    /// The value of an option: the option's name, and the value's.
    Optional(&'static str, &'static str),
}

impl Argument {
    /// Returns the name under which its value is found.
    pub fn name(self) -> &'static str {
        match self {
            Argument::Required(name) | Argument::Several(name) | Argument::Optional(name, _) =>
                name,
        }
    }

    /// Returns the name of its value, as help shows it.
    pub fn value_name(self) -> &'static str {
        match self {
            Argument::Required(name) | Argument::Several(name) | Argument::Optional(_, name) =>
                name,
        }
    }
}

impl fmt::Display for Argument {
    fn fmt<W: fmt::Write>(&self, f: &mut fmt::Formatter<W>) -> fmt::Result {
        match *self {
            Argument::Required(name) => write!(f, "<{name}>"),
            Argument::Several(name) => write!(f, "<{name}>..."),
            Argument::Optional(name, value) => write!(f, "--{name} <{value}>"),
        }
    }
}

/// What is wrong with arguments, or that memory ran out while they were read.
#[derive(Clone, Copy, Debug, PartialEq, Eq)]
pub enum ArgumentFault<'a> {
    /// An argument has a value that is not what it has to be.
    Value {
        value: &'a str,
        argument: Argument,
        wanted: &'static str,
    },
    /// There are more or fewer addresses than nodes.
    Addresses {
        size: u8,
        count: usize,
    },
    /// An argument is missing.
    Missing(Argument),
    Memory,
}

impl<'a> fmt::Display for ArgumentFault<'a> {
    fn fmt<W: fmt::Write>(&self, f: &mut fmt::Formatter<W>) -> fmt::Result {
        match self {
            ArgumentFault::Value {
                value,
                argument,
                wanted,
            } => write!(f, "invalid value '{value}' for '{argument}': {wanted}"),
            ArgumentFault::Addresses { size, count } => write!(
                f,
                "there is one ADDR for each node: SIZE is {size}, and the number of ADDR is {count}"
            ),
            ArgumentFault::Missing(argument) => write!(f, "'{argument}' is missing"),
            ArgumentFault::Memory => f.write_str("there is no memory"),
        }
    }
}

impl<'a> From<AllocError> for ArgumentFault<'a> {
    fn from(_: AllocError) -> ArgumentFault<'a> {
        ArgumentFault::Memory
    }
}

impl<'a, T: Drop> From<AllocFailed<T>> for ArgumentFault<'a> {
    fn from(_: AllocFailed<T>) -> ArgumentFault<'a> {
        ArgumentFault::Memory
    }
}

const BYTE: &str = "a number from 0 to 255 in decimal digits";

const COUNT: &str = "a number from 0 to 4294967295 in decimal digits";

const LARGE: &str = "a number from 0 to 18446744073709551615 in decimal digits";

const ADDRESS: &str = "an address of the form 127.0.0.1:7001";

pub const SENDABLE: &str = "an address of one machine, with a port from 1 to 65535";

const PATH: &str = "the path of a file";

/// Returns the fault of an argument whose value is not what is wanted.
pub fn refused_value<'a>(
    argument: Argument,
    value: &'a str,
    wanted: &'static str,
) -> ArgumentFault<'a> {
    ArgumentFault::Value {
        value,
        argument,
        wanted,
    }
}

/// Returns the text of a required argument.
pub fn text_of<'a>(
    matches: &ArgMatches<'a>,
    argument: Argument,
) -> Result<&'a str, ArgumentFault<'a>> {
    matches
        .get_str(argument.name())
        .ok_or(ArgumentFault::Missing(argument))
}

/// Reads a number from an argument's text, from 0 to 255.
fn byte_in<'a>(argument: Argument, value: &'a str) -> Result<u8, ArgumentFault<'a>> {
    match decimal(value).and_then(|number| u8::try_from(number).ok()) {
        Some(number) => Ok(number),
        None => Err(refused_value(argument, value, BYTE)),
    }
}

/// Reads a number from an argument's text, from 0 to 4,294,967,295.
pub fn count_in<'a>(argument: Argument, value: &'a str) -> Result<u32, ArgumentFault<'a>> {
    match decimal(value).and_then(|number| u32::try_from(number).ok()) {
        Some(number) => Ok(number),
        None => Err(refused_value(argument, value, COUNT)),
    }
}

/// Reads a number from an argument's text, from 0 to 18,446,744,073,709,551,615.
pub fn large_in<'a>(argument: Argument, value: &'a str) -> Result<u64, ArgumentFault<'a>> {
    decimal(value).ok_or(refused_value(argument, value, LARGE))
}

/// Returns true if a datagram to this address reaches one machine: its port is not 0, and it is
/// neither a multicast nor the broadcast address.
fn is_sendable(address: SocketAddrV4) -> bool
    ensures { IsTrue result ↔ ((v4_port address ≢ 0) × ¬ IsMulticastV4 (v4_ip address)
        × ¬ (ipv4_octets (v4_ip address) ≡ 255 ∷ 255 ∷ 255 ∷ 255 ∷ [])) }
{
    let ip = address.ip();
    address.port() != 0 && !ip.is_multicast() && !ip.is_broadcast()
}

/// Reads an address of the form `a.b.c.d:port` from an argument's text. It has to reach one
/// machine.
pub fn address_in<'a>(argument: Argument, value: &'a str) -> Result<SocketAddr, ArgumentFault<'a>> {
    match value.parse::<SocketAddrV4>() {
        Ok(address) if is_sendable(address) => Ok(SocketAddr::V4(address)),
        Ok(_) => Err(refused_value(argument, value, SENDABLE)),
        Err(_) => Err(refused_value(argument, value, ADDRESS)),
    }
}

/// Returns the path of a file. Fails if it is empty.
pub fn path_of<'a>(
    matches: &ArgMatches<'a>,
    argument: Argument,
) -> Result<&'a str, ArgumentFault<'a>> {
    let path = text_of(matches, argument)?;
    if path.is_empty() {
        return Err(refused_value(argument, path, PATH));
    }
    Ok(path)
}

/// Reads the number of a required argument, from 0 to 255.
pub fn byte_of<'a>(matches: &ArgMatches<'a>, argument: Argument) -> Result<u8, ArgumentFault<'a>> {
    byte_in(argument, text_of(matches, argument)?)
}

/// Reads the number of a required argument, from 0 to 4,294,967,295.
pub fn count_of<'a>(
    matches: &ArgMatches<'a>,
    argument: Argument,
) -> Result<u32, ArgumentFault<'a>> {
    count_in(argument, text_of(matches, argument)?)
}
