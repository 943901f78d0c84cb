//! The refusals of the command `frozen`.
use machine_run::MachineRefusal;
use thiserror::Error;

/// Why a frozen code file is refused. The text follows the word `refused`.
#[derive(Clone, Copy, Debug, Error)]
pub enum FrozenRefusal {
    /// The file does not end as a frozen one does.
    #[error("Z1")]
    NotFrozen,
    /// The file is too short for what its end says that it has.
    #[error("Z2")]
    Damaged,
    /// The original that it has is no program.
    #[error("Z3 {0}")]
    Original(MachineRefusal),
    /// On no input it ends, or it has read or written before it waits.
    #[error("Z4")]
    Wakes,
    /// It ends on the input.
    #[error("Z5")]
    Ends,
    /// The state in which it waits is not one of its original but for places.
    #[error("Z6")]
    State,
    /// From there on it does not do what its original does.
    #[error("Z7")]
    Program,
    /// The numbers of bytes that were read or written do not fit.
    #[error("Z8")]
    Counts,
    /// It is no program itself, or memory ran out.
    #[error(transparent)]
    Machine(MachineRefusal),
}
