//! Why a call, a return, a push or a pop is refused.
ghost use Rattle.std.specs.Prelude.{◌≡◌};
ghost use Rattle.pcode_frames.specs.Frames.{halt_number};

use thiserror::Error;

/// Why a call, a return, a push or a pop is refused. A refusal changes nothing.
#[derive(Clone, Copy, Debug, PartialEq, Eq, Error)]
pub enum Halt {
    /// The evaluation stack has too few words.
    #[error("too few words on the evaluation stack")]
    Empty,
    /// No room is left for words on the evaluation stack, for words of memory or for a frame.
    #[error("no room is left")]
    Overflow,
    /// A word of memory is not live.
    #[error("a word of memory is not live")]
    BadMemory,
}

impl Halt {
    /// Returns the number of the execution error: 0 for `Empty`, 4 for `Overflow`, and 7 for
    /// `BadMemory`.
    pub fn number(self) -> u8
        ensures { result ≡ halt_number self }
    {
        match self {
            Halt::Empty => 0,
            Halt::Overflow => 4,
            Halt::BadMemory => 7,
        }
    }
}
