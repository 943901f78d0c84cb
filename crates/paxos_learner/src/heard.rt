//! The answers of a learner.
ghost use Rattle.std.specs.Prelude.{◌≡◌};
ghost use Rattle.paxos_learner.specs.declared.heard.LearnerFault.TheVariants.{Memory};

use std::alloc::AllocError;
use thiserror::Error;

/// The effect of a message on a learner.
#[derive(Clone, Copy, Debug, PartialEq, Eq)]
pub enum Heard {
    /// Nothing has changed.
    Passed,
    /// Only the tally of its place has changed.
    Counted,
    /// Its place is learned now.
    Learned,
}

/// The fault of a learner. Its text is the refusal's code.
#[derive(Clone, Copy, Debug, PartialEq, Eq, Error)]
pub enum LearnerFault {
    /// Out of memory. Nothing has changed.
    #[error("N1")]
    Memory,
}

impl From<AllocError> for LearnerFault {
    ghost from_gives = { λ _ e. e ≡ Memory };

    fn from(_: AllocError) -> Self {
        LearnerFault::Memory
    }
}
