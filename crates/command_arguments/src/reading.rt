//! The arguments of the command line, read.
use crate::commands::{Name, all_arguments};
use crate::request::Request;
use crate::value::ArgumentFault;
use clap::error::ErrorKind;
use clap::{ArgMatches, Error};
use std::alloc::{AllocError, Global};
use std::rt::Env;
use std::string::String;
use std::{env, io};

/// Why the arguments ask for no command: help, a fault in them, or memory that ran out.
#[derive(Drop)]
pub enum NoRequest {
    /// The text of help.
    Help(Error),
    /// The text of the fault.
    Fault(String),
    Memory,
}

impl From<AllocError> for NoRequest {
    fn from(_error: AllocError) -> NoRequest {
        NoRequest::Memory
    }
}

/// Returns the text before and after the advice to put an argument that begins with a hyphen after
/// `--`, in clap's text of an unknown option. The advice helps only if the argument is a path, and
/// clap gives it for every argument.
fn around_advice(text: &str) -> Option<(&str, &str)> {
    let (fault, others) = text.split_once("\n\n  tip: to pass '")?;
    let (_, usage) = others.rsplit_once("\n\nUsage: ")?;
    Some((fault, usage))
}

/// Returns the text of a fault that clap has found in the arguments.
fn text_of_fault(alloc: Global, error: &Error) -> Result<String, AllocError> {
    let text = format!(in alloc; "{error}")?;
    if error.kind() != ErrorKind::UnknownArgument {
        return Ok(text);
    }
    match around_advice(text.as_str()) {
        Some((fault, usage)) => format!(in alloc; "{fault}\n\nUsage: {usage}"),
        None => Ok(text),
    }
}

/// Returns why clap has found no command in the arguments.
fn unread(alloc: Global, error: Error) -> NoRequest {
    match error.kind() {
        ErrorKind::OutOfMemory => NoRequest::Memory,
        ErrorKind::DisplayHelp => NoRequest::Help(error),
        _ => match text_of_fault(alloc, &error) {
            Ok(text) => NoRequest::Fault(text),
            Err(_) => NoRequest::Memory,
        },
    }
}

/// Returns the text of a fault in the arguments of a command.
fn text_of_argument_fault(
    alloc: Global,
    name: Name,
    fault: ArgumentFault<'_>,
) -> Result<String, AllocError> {
    let what = format!(in alloc; "{fault}")?;
    let error = name
        .alone(alloc)?
        .error(ErrorKind::ValueValidation, what.as_str())?;
    format!(in alloc; "{error}")
}

/// Returns the refusal of a fault in the arguments of a command.
fn refused(alloc: Global, name: Name, fault: ArgumentFault<'_>) -> NoRequest {
    if fault == ArgumentFault::Memory {
        return NoRequest::Memory;
    }
    match text_of_argument_fault(alloc, name, fault) {
        Ok(text) => NoRequest::Fault(text),
        Err(_) => NoRequest::Memory,
    }
}

/// Returns the refusal of arguments for a fault that is in no command's arguments.
fn refused_whole(alloc: Global, kind: ErrorKind, what: &str) -> Result<NoRequest, AllocError> {
    let error = all_arguments(alloc)?.error(kind, what)?;
    Ok(NoRequest::Fault(format!(in alloc; "{error}")?))
}

/// Returns the refusal of arguments that name no command.
fn no_command(alloc: Global) -> Result<NoRequest, AllocError> {
    refused_whole(alloc, ErrorKind::MissingSubcommand, "a command is missing")
}

/// Reads arguments, which are without the program's own name. Fails if they ask for help or have a
/// fault that clap finds.
fn read_arguments<'a>(alloc: Global, arguments: &'a [String]) -> Result<ArgMatches<'a>, NoRequest> {
    match all_arguments(alloc)?.try_get_matches_from(arguments) {
        Ok(matches) => Ok(matches),
        Err(error) => Err(unread(alloc, error)),
    }
}

/// Returns the command that the arguments name, with its own arguments.
fn command_in<'m, 'a>(matches: &'m ArgMatches<'a>) -> Option<(Name, &'m ArgMatches<'a>)> {
    let (argument, own) = matches.subcommand()?;
    Some((Name::of(argument)?, own))
}

/// Returns what arguments ask for, which are without the program's own name. Fails if they ask for
/// help, if there is a fault in them, or if memory runs out.
pub fn request_of<'a>(alloc: Global, arguments: &'a [String]) -> Result<Request<'a>, NoRequest> {
    let matches = read_arguments(alloc, arguments)?;
    let Some((name, own)) = command_in(&matches) else {
        return Err(no_command(alloc)?);
    };
    match name.read(alloc, own) {
        Ok(asked) => Ok(asked),
        Err(fault) => Err(refused(alloc, name, fault)),
    }
}

/// Returns the arguments of the command line without the program's own name. Fails if memory runs
/// out, or if an argument is not UTF-8.
pub fn arguments_of<H: Env + AllocGlobal>(rt: &H) -> Result<Vec<String>, NoRequest> {
    match env::args(rt) {
        Ok(arguments) => Ok(arguments.skip(1).collect(rt.alloc())?),
        Err(error) => match error.kind() {
            io::ErrorKind::InvalidData => Err(refused_whole(
                rt.alloc(),
                ErrorKind::ValueValidation,
                "a word of the command line is not UTF-8",
            )?),
            _ => Err(NoRequest::Memory),
        },
    }
}
