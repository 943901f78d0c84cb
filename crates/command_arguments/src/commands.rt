//! The commands. Each is a module with its arguments and its help.
mod check;
mod frozen;
mod list;
mod net;
mod node;
mod run;
mod show;
mod sim;
mod state;

use crate::request::Request;
use crate::value::ArgumentFault;
use clap::{ArgMatches, Command};
use std::alloc::{AllocError, Global};

/// What help says after the list of commands. No line of help has more than 80 columns.
const HELP: &str = "Examples:
  pgroup run examples/echo.code
  pgroup help node

Exit status:
  0  done; or the program that runs waits, and its input has ended: `waits`
  1  refused: `refused` and a code such as F3, O5, E1 or D2
  2  a fault of the command line
  3  an execution error of the program
  4  the steps are spent, and the program has not ended: `steps`
`pgroup help codes` explains the codes, docs/FORMATS.md what is printed.";

/// A command by its name.
#[derive(Clone, Copy, Debug, PartialEq, Eq)]
pub enum Name {
    Check,
    List,
    Run,
    State,
    Frozen,
    Show,
    Sim,
    Net,
    Node,
}

/// All commands, in the order of help.
static ALL: [Name; 9] = [
    Name::Check,
    Name::List,
    Name::Run,
    Name::State,
    Name::Frozen,
    Name::Show,
    Name::Sim,
    Name::Net,
    Name::Node,
];

/// Names an item of the command's module, or calls a function of it.
macro_rules! in_module {
    ($command:expr, $($item:tt)*) => {
        match $command {
            Name::Check => check::$($item)*,
            Name::List => list::$($item)*,
            Name::Run => run::$($item)*,
            Name::State => state::$($item)*,
            Name::Frozen => frozen::$($item)*,
            Name::Show => show::$($item)*,
            Name::Sim => sim::$($item)*,
            Name::Net => net::$($item)*,
            Name::Node => node::$($item)*,
        }
    };
}

impl Name {
    /// Returns the name of the command.
    pub fn as_str(self) -> &'static str {
        in_module!(self, NAME)
    }

    /// Returns the command that an argument names, if it names one.
    pub fn of(argument: &str) -> Option<Name> {
        for name in ALL {
            if name.as_str() == argument {
                return Some(name);
            }
        }
        None
    }

    /// Returns the command's arguments, as clap reads them.
    fn arguments<'a>(self, alloc: Global) -> Result<Command<'a>, AllocError> {
        in_module!(self, arguments(alloc))
    }

    /// Returns what the command's arguments ask for, or what is wrong with them.
    pub fn read<'a>(
        self,
        alloc: Global,
        matches: &ArgMatches<'a>,
    ) -> Result<Request<'a>, ArgumentFault<'a>> {
        match self {
            Name::Check => check::read(matches),
            Name::List => list::read(matches),
            Name::Run => run::read(matches),
            Name::State => state::read(matches),
            Name::Frozen => frozen::read(matches),
            Name::Show => show::read(matches),
            Name::Sim => sim::read(matches),
            Name::Net => net::read(matches),
            Name::Node => node::read(alloc, matches),
        }
    }

    /// Returns the command by itself, for the texts of its faults: its usage begins with `pgroup`
    /// too.
    pub fn alone<'a>(self, alloc: Global) -> Result<Command<'a>, AllocError> {
        let argument = self.as_str();
        let full_name = format!(in alloc; "pgroup {argument}")?;
        self.arguments(alloc)?.bin_name(full_name.as_str())
    }
}

/// Returns the arguments of all commands, as clap reads them. Without one of them the built-in
/// program runs, so that usage shows the command as optional.
pub fn all_arguments<'a>(alloc: Global) -> Result<Command<'a>, AllocError> {
    let about = "Runs UCSD Pascal II.0 p-code programs, alone or in a group of nodes.
Without words it runs a built-in program, which prints A.";
    let mut all = Command::new(alloc, "pgroup")
        .bin_name("pgroup")?
        .no_binary_name(true)
        .about(about)
        .after_help(HELP);
    for name in ALL {
        all = all.subcommand(name.arguments(alloc)?)?;
    }
    Ok(all)
}
