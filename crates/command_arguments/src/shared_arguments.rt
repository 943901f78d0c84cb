//! The arguments that several commands have, and how an argument is described to clap.
use crate::value::{Argument, ArgumentFault, count_in};
use clap::{Arg, ArgMatches, Command};
use std::alloc::{AllocError, Global};

pub const FILE: Argument = Argument::Required("FILE");

pub const SIZE: Argument = Argument::Required("SIZE");

pub const SESSION: Argument = Argument::Required("SESSION");

pub const TURNS: Argument = Argument::Required("TURNS");

const STEPS: Argument = Argument::Optional("steps", "N");

/// The most steps of a run, if the arguments do not say it.
pub const DEFAULT_STEPS: u32 = 1_000_000;

/// Describes a required argument: the path of a file, or digits of bytes. One that begins with a
/// hyphen comes after `--`.
pub fn text_arg<'a>(alloc: Global, argument: Argument, help: &'static str) -> Arg<'a> {
    Arg::new(alloc, argument.name()).required(true).help(help)
}

/// Describes a required argument. A number below 0 is taken too, so that it is refused as its
/// value.
pub fn value_arg<'a>(alloc: Global, argument: Argument, help: &'static str) -> Arg<'a> {
    text_arg(alloc, argument, help).allow_negative_numbers(true)
}

/// Describes an option with a value. A number below 0 is taken too, so that it is refused as its
/// value.
pub fn option_arg<'a>(alloc: Global, argument: Argument, help: &'static str) -> Arg<'a> {
    Arg::new(alloc, argument.name())
        .long(argument.name())
        .value_name(argument.value_name())
        .allow_negative_numbers(true)
        .help(help)
}

/// Describes a command whose first argument is FILE.
pub fn on_file<'a>(
    alloc: Global,
    name: &'static str,
    about: &'static str,
    after: &'static str,
) -> Result<Command<'a>, AllocError> {
    let file = text_arg(alloc, FILE, "A UCSD II.0 code file with one linked segment");
    Command::new(alloc, name)
        .about(about)
        .after_help(after)
        .arg(file)
}

/// Describes the option `--steps` of `run` and `state`.
pub fn steps_arg<'a>(alloc: Global) -> Arg<'a> {
    option_arg(
        alloc,
        STEPS,
        "How many steps at most, in decimal digits [default: 1000000]",
    )
}

/// Returns how many steps the arguments allow.
pub fn steps_of<'a>(matches: &ArgMatches<'a>) -> Result<u32, ArgumentFault<'a>> {
    match matches.get_str(STEPS.name()) {
        None => Ok(DEFAULT_STEPS),
        Some(text) => count_in(STEPS, text),
    }
}

/// Describes the argument SIZE of `net` and `node`.
pub fn size_arg<'a>(alloc: Global) -> Arg<'a> {
    value_arg(
        alloc,
        SIZE,
        "The number of the group's nodes: 1, 3, 5, 7 or 9",
    )
}
