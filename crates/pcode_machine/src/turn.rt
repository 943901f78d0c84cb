//! Transfers, ends, turns and pauses of a machine.
ghost use Rattle.std.specs.Prelude.{◌≡◌};
ghost use Rattle.pcode_machine.specs.Errors.{error_of};
ghost use Rattle.pcode_machine.specs.declared.turn.Stop.TheVariants.{Error};

use crate::errors::ExecutionError;
use pcode_frames::Halt;
use thiserror::Error;

/// The direction of a transfer: bytes come from the input to memory, or go from memory to the
/// output.
#[derive(Clone, Copy, Debug, PartialEq, Eq)]
pub enum Direction {
    Reading,
    Writing,
}

/// A transfer: bytes that are still to be moved, at least one.
#[derive(Clone, Copy, Debug, PartialEq, Eq)]
pub struct Transfer {
    pub direction: Direction,
    /// The unit's number. Unit 1 writes what is read from it.
    pub unit: u16,
    /// The byte address of the next byte.
    pub address: i32,
    /// The number of bytes that are left.
    pub left: u16,
    /// The offset of the instruction that started it.
    pub at: u32,
}

/// Why an instruction has no next one.
#[derive(Clone, Copy, Debug, PartialEq, Eq)]
pub enum Stop {
    /// The program has ended normally.
    Normal,
    /// An execution error.
    Error(ExecutionError),
}

impl From<Halt> for Stop {
    ghost from_gives = { λ halt stop. stop ≡ Error (error_of halt) };

    fn from(halt: Halt) -> Self {
        Stop::Error(ExecutionError::from(halt))
    }
}

impl From<ExecutionError> for Stop {
    ghost from_gives = { λ error stop. stop ≡ Error error };

    fn from(error: ExecutionError) -> Self {
        Stop::Error(error)
    }
}

/// How a program ends.
#[derive(Clone, Copy, Debug, PartialEq, Eq)]
pub enum End {
    Normal,
    /// An execution error: its number, the procedure, and the instruction's offset in bytes from
    /// the segment's start.
    Error { number: u8, procedure: u8, at: u32 },
}

/// What a step did.
#[derive(Clone, Copy, Debug, PartialEq, Eq)]
pub enum Turn {
    /// It neither took nor wrote a byte.
    Went,
    /// It wrote this byte.
    Wrote(u8),
    /// It took the byte that was offered.
    Took,
    /// It took the byte that was offered, and wrote this one.
    TookAndWrote(u8),
    /// Nothing changed: it waits for a byte.
    Waits,
    /// Nothing changed: the program has ended.
    Ended(End),
}

/// Why a run of a machine pauses.
#[derive(Clone, Copy, Debug, PartialEq, Eq)]
pub enum Pause {
    /// All steps were made.
    Spent,
    /// The machine waits for a byte.
    Wants,
    /// The last step wrote this byte.
    Wrote(u8),
    /// The program has ended.
    Ended(End),
}

/// Why there is no machine.
#[derive(Clone, Copy, Debug, PartialEq, Eq, Error)]
pub enum MachineFault {
    /// Out of memory.
    #[error("M1")]
    Memory,
}
