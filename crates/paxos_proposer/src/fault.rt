//! Faults of a proposer.
ghost use Rattle.paxos_proposer.specs.declared.fault.ProposerFault.TheVariants.{Memory};
ghost use Rattle.std.specs.Prelude.{◌≡◌};

use std::alloc::AllocError;
use thiserror::Error;

/// The fault of a proposer. Its text is the refusal's code.
#[derive(Clone, Copy, Debug, PartialEq, Eq, Error)]
pub enum ProposerFault {
    /// Out of memory. Nothing has changed.
    #[error("P1")]
    Memory,
    /// There is no greater round than the greatest one, 4,294,967,295.
    #[error("P2")]
    RoundsSpent,
    /// A value is offered, and the next place is 65,536: the last place is 65,535.
    #[error("P3")]
    PlacesSpent,
}

impl From<AllocError> for ProposerFault {
    ghost from_gives = { λ _ fault. fault ≡ Memory };

    fn from(_error: AllocError) -> ProposerFault {
        ProposerFault::Memory
    }
}
