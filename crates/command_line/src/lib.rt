//! The command line of `pgroup`: the work of each command, its texts and its statuses.
//!
//! It is for the program `pgroup`. Call first:
//!
//! - `command(rt, arguments, reader, writer, errors)`, which does what the arguments ask for and
//!   returns the status;
//! - `explain(writer, errors, reason)`, which writes why arguments ask for no command.
#![tactic(auto)]

mod codes;
mod commands;
mod conclusion;
mod datagram;
mod environment;
mod program;

pub use program::{command, explain};
