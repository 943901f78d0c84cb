//! The arguments of the command line, read: which command they ask for, and with which values.
//!
//! It is for the program `pgroup`, and for tests of its arguments. It does nothing that the
//! arguments ask for, and knows neither machine nor group. Call first:
//!
//! - `arguments_of(rt)`, which returns the arguments that the program was given;
//! - `request_of(alloc, arguments)`, which returns what they ask for: a command with its values, or
//!   help;
//!   or what is wrong with them.
//!
//! Each command is a module of `commands`. To add one, write its module and name it there.
#![tactic(auto)]

mod commands;
mod reading;
mod request;
mod shared_arguments;
mod value;

pub use reading::{NoRequest, arguments_of, request_of};
pub use request::{NodeArguments, Request};
pub use shared_arguments::DEFAULT_STEPS;
