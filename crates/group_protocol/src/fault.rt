//! Why a node refuses a call.
ghost use Rattle.std.specs.Prelude.{◌≡◌};
ghost use Rattle.group_protocol.specs.Calls.{node_fault};
ghost use Rattle.group_protocol.specs.Fault.{code_of};

use paxos_acceptor::AcceptorFault;
use paxos_learner::LearnerFault;
use std::alloc::AllocError;
use std::error::Error;
use std::fmt;

/// Why a node refuses a call. Its text is its code.
#[derive(Clone, Copy, Debug, PartialEq, Eq)]
pub enum NodeFault {
    /// Out of memory.
    Memory,
    /// The store's device failed.
    Store,
    /// The store failed before.
    Stopped,
    /// 256 keys wait.
    Busy,
    /// The serials of this start are spent.
    SerialSpent,
    /// The outbox is not empty.
    OutboxFull,
    /// The size is even or above 9.
    Size,
    /// The node is 0 or above the size.
    Id,
    /// The store has no record, or one that is out of its ranges.
    BadRecord,
    /// There were 4,294,967,295 starts.
    StartsSpent,
    /// The rounds are spent.
    RoundsSpent,
    /// All places are learned.
    PlacesSpent,
}

impl NodeFault {
    /// Returns the code of the refusal, `D1` to `D12`.
    pub fn code(self) -> &'static str
        ensures { result.now ≡ code_of self }
    {
        match self {
            NodeFault::Memory => "D1",
            NodeFault::Store => "D2",
            NodeFault::Stopped => "D3",
            NodeFault::Busy => "D4",
            NodeFault::SerialSpent => "D5",
            NodeFault::OutboxFull => "D6",
            NodeFault::Size => "D7",
            NodeFault::Id => "D8",
            NodeFault::BadRecord => "D9",
            NodeFault::StartsSpent => "D10",
            NodeFault::RoundsSpent => "D11",
            NodeFault::PlacesSpent => "D12",
        }
    }
}

impl fmt::Display for NodeFault {
    ghost use Rattle.std.specs.Prelude.{Some};
    ghost use Rattle.group_protocol.specs.Fault.{code_of};

    ghost output = { λ fault. Some (code_of fault) };

    fn fmt<W: fmt::Write>(&self, f: &mut fmt::Formatter<W>) -> fmt::Result {
        write!(f, "{}", self.code())
    }
}

impl Error for NodeFault {}

/// Returns the node's fault for an acceptor's fault.
pub fn node_fault(fault: AcceptorFault) -> NodeFault
    ensures { result ≡ node_fault fault }
{
    match fault {
        AcceptorFault::Memory => NodeFault::Memory,
        AcceptorFault::Store => NodeFault::Store,
        AcceptorFault::Closed => NodeFault::Stopped,
        AcceptorFault::BadRecord => NodeFault::BadRecord,
        AcceptorFault::StartsSpent => NodeFault::StartsSpent,
    }
}

/// A learner fails only if memory runs out.
impl From<LearnerFault> for NodeFault {
    ghost use Rattle.std.specs.Prelude.{◌≡◌};
    ghost use Rattle.group_protocol.specs.declared.fault.NodeFault.TheVariants.{Memory};

    ghost from_gives = { λ _ fault. fault ≡ Memory };

    fn from(_: LearnerFault) -> Self {
        NodeFault::Memory
    }
}

impl From<AllocError> for NodeFault {
    ghost use Rattle.std.specs.Prelude.{◌≡◌};
    ghost use Rattle.group_protocol.specs.declared.fault.NodeFault.TheVariants.{Memory};

    ghost from_gives = { λ _ fault. fault ≡ Memory };

    fn from(_: AllocError) -> Self {
        NodeFault::Memory
    }
}
