//! How a command ends, with its refusals, its texts and its status.
use crate::datagram::ShowFault;
use group_sim::{LineFault, ScriptRefusal};
use machine_frozen::FrozenRefusal;
use machine_run::{Finish, MachineRefusal};
use machine_state::Stated;
use node_io::GroupFault;
use paxos_msg::WireFault;
use pcode_machine::End;
use std::io::Write;
use thiserror::Error;

/// The status of a command that did its work.
pub const DONE: u8 = 0;

/// The status of a refusal.
const REFUSED: u8 = 1;

/// The status of a fault in the arguments.
pub const BAD_WORDS: u8 = 2;

/// The status of an execution error of the program.
const EXECUTION_ERROR: u8 = 3;

/// The status of a run whose steps are spent.
const STEPS_SPENT: u8 = 4;

/// A refusal, with status 1. Its text follows the word `refused`.
#[derive(Clone, Copy, Debug, Error)]
pub enum Refusal {
    #[error(transparent)]
    Machine(#[from] MachineRefusal),
    #[error(transparent)]
    Frozen(#[from] FrozenRefusal),
    #[error(transparent)]
    Group(#[from] GroupFault),
    /// The bytes of a datagram are none of the group.
    #[error(transparent)]
    Datagram(WireFault),
    /// A line of a script: its number comes before the word `refused`.
    #[error("{fault}")]
    Line { line: usize, fault: LineFault },
}

impl From<ScriptRefusal> for Refusal {
    fn from(refusal: ScriptRefusal) -> Refusal {
        match refusal {
            ScriptRefusal::Machine(refusal) => Refusal::Machine(refusal),
            ScriptRefusal::Line { line, fault } => Refusal::Line { line, fault },
        }
    }
}

/// How a command ends.
#[derive(Clone, Copy, Debug)]
pub enum Conclusion {
    /// It did its work.
    Done,
    /// It ran a program.
    Ran(Finish),
    /// The word HEX is no bytes.
    BadHex,
    Refused(Refusal),
}

impl Conclusion {
    /// Returns the conclusion of a command that returns nothing.
    pub fn of_done<F: Into<Refusal>>(done: Result<(), F>) -> Conclusion {
        match done {
            Ok(()) => Conclusion::Done,
            Err(refusal) => Conclusion::Refused(refusal.into()),
        }
    }

    /// Returns the conclusion of a run.
    pub fn of_run(ran: Result<Finish, MachineRefusal>) -> Conclusion {
        match ran {
            Ok(finish) => Conclusion::Ran(finish),
            Err(refusal) => Conclusion::Refused(Refusal::Machine(refusal)),
        }
    }

    /// Returns the conclusion of `state` and of `frozen`.
    pub fn of_state<F: Into<Refusal>>(stated: Result<Stated, F>) -> Conclusion {
        match stated {
            Ok(Stated::Written) => Conclusion::Done,
            Ok(Stated::Spent) => Conclusion::Ran(Finish::Steps),
            Err(refusal) => Conclusion::Refused(refusal.into()),
        }
    }

    /// Returns the conclusion of `show`.
    pub fn of_show(shown: Result<(), ShowFault>) -> Conclusion {
        match shown {
            Ok(()) => Conclusion::Done,
            Err(ShowFault::BadHex) => Conclusion::BadHex,
            Err(ShowFault::Datagram(fault)) => Conclusion::Refused(Refusal::Datagram(fault)),
            Err(ShowFault::Run(fault)) => {
                Conclusion::Refused(Refusal::Machine(MachineRefusal::Run(fault)))
            }
        }
    }
}

/// Writes the text of a conclusion, if it has one. Returns its status.
pub fn conclude<E: Write>(errors: &mut E, conclusion: Conclusion) -> u8 {
    match conclusion {
        Conclusion::Done => DONE,
        Conclusion::Ran(finish) => conclude_run(errors, finish),
        Conclusion::BadHex => {
            let _ = writeln!(errors, "bad hex");
            BAD_WORDS
        }
        Conclusion::Refused(refusal) => refuse(errors, refusal),
    }
}

/// Writes a refusal. Returns its status.
pub fn refuse<E: Write>(errors: &mut E, refusal: Refusal) -> u8 {
    let _ = match refusal {
        Refusal::Line { line, fault } => writeln!(errors, "line {line} refused {fault}"),
        Refusal::Machine(_) | Refusal::Frozen(_) | Refusal::Group(_) | Refusal::Datagram(_) => {
            writeln!(errors, "refused {refusal}")
        }
    };
    REFUSED
}

/// Writes how a run ended. Returns its status.
fn conclude_run<E: Write>(errors: &mut E, finish: Finish) -> u8 {
    match finish {
        Finish::Normal | Finish::Error(End::Normal) => DONE,
        Finish::Error(
            End::Error {
                number,
                procedure,
                at,
            },
        ) => {
            let _ = writeln!(
                errors,
                "execution error {number} in procedure {procedure} at {at}"
            );
            EXECUTION_ERROR
        }
        Finish::Waits => {
            let _ = writeln!(errors, "waits");
            DONE
        }
        Finish::Steps => {
            let _ = writeln!(errors, "steps");
            STEPS_SPENT
        }
    }
}
