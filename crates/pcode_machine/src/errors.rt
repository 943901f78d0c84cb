//! Execution errors, by name.
ghost use Rattle.std.specs.Prelude.{◌≡◌};
ghost use Rattle.pcode_machine.specs.Errors.{error_number};

use pcode_frames::Halt;

/// Why an instruction or a transfer cannot be executed. If several errors apply, `StackUnderflow`
/// comes first and `NoRoom` last.
#[derive(Clone, Copy, Debug, PartialEq, Eq)]
pub enum ExecutionError {
    /// Number 0: the stack has fewer words than the instruction takes.
    StackUnderflow,
    /// Number 1: a value is outside its bounds.
    OutOfRange,
    /// Number 4: no room for one more word on the stack, frame, or live word of memory.
    NoRoom,
    /// Number 6: the divisor is 0.
    DivisionByZero,
    /// Number 7: an addressed word or byte is not live.
    BadAddress,
    /// Number 10: the last transfer named a unit that does not exist.
    NoUnit,
    /// Number 14: the program called HALT.
    Halted,
}

impl ExecutionError {
    /// Returns the error's number.
    pub fn number(self) -> u8
        ensures { result ≡ error_number self }
    {
        match self {
            ExecutionError::StackUnderflow => 0,
            ExecutionError::OutOfRange => 1,
            ExecutionError::NoRoom => 4,
            ExecutionError::DivisionByZero => 6,
            ExecutionError::BadAddress => 7,
            ExecutionError::NoUnit => 10,
            ExecutionError::Halted => 14,
        }
    }
}

impl From<Halt> for ExecutionError {
    ghost use Rattle.pcode_machine.specs.Errors.{error_of as error_of_halt};

    ghost from_gives = { λ halt error. error ≡ error_of_halt halt };

    fn from(halt: Halt) -> Self {
        match halt {
            Halt::Empty => ExecutionError::StackUnderflow,
            Halt::Overflow => ExecutionError::NoRoom,
            Halt::BadMemory => ExecutionError::BadAddress,
        }
    }
}
