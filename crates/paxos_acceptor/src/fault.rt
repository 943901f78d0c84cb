//! Faults of an acceptor.
ghost use Rattle.std.specs.Prelude.{◌≡◌};
ghost use Rattle.paxos_acceptor.specs.declared.fault.AcceptorFault.TheVariants.{Memory};

use std::alloc::AllocError;
use thiserror::Error;

/// The fault of an acceptor. Its text is the refusal's code.
#[derive(Clone, Copy, Debug, PartialEq, Eq, Error)]
pub enum AcceptorFault {
    /// Out of memory. Nothing has changed.
    #[error("A1")]
    Memory,
    /// The store's device failed. The record is as it was, and from now on each `new_start`,
    /// `prepare` and `accept` fails with `Closed`. If the acceptor was being opened there is none,
    /// and the store is given back.
    #[error("A2")]
    Store,
    /// The store failed before.
    #[error("A3")]
    Closed,
    /// The store has no record, or one out of its ranges.
    #[error("A4")]
    BadRecord,
    /// There were 4,294,967,295 starts.
    #[error("A5")]
    StartsSpent,
}

impl From<AllocError> for AcceptorFault {
    ghost from_gives = { λ _ e. e ≡ Memory };

    fn from(_: AllocError) -> Self {
        AcceptorFault::Memory
    }
}
