//! Why a group or a node on UDP ends early.
use group_node::{NodeFault, StartRefused};
use machine_run::{MachineRefusal, RunIo};
use std::alloc::{AllocError, AllocFailed};
use thiserror::Error;

/// Why a group or a node on UDP ends early. The text follows the word `refused`.
#[derive(Clone, Copy, Debug, Error)]
pub enum GroupFault {
    /// A socket can't be made.
    #[error("socket")]
    Socket,
    /// A node refuses to start, or refuses a call.
    #[error(transparent)]
    Node(NodeFault),
    /// The code file is refused, memory ran out, the input can't be read, or the output can't be
    /// written.
    #[error(transparent)]
    Machine(MachineRefusal),
}

impl From<MachineRefusal> for GroupFault {
    ghost use Rattle.std.specs.Prelude.{◌≡◌};
    ghost use Rattle.node_io.specs.declared.fault.GroupFault.TheVariants.{Machine};

    ghost from_gives = { λ refusal e. e ≡ Machine refusal };

    fn from(refusal: MachineRefusal) -> GroupFault {
        GroupFault::Machine(refusal)
    }
}

impl From<RunIo> for GroupFault {
    ghost use Rattle.std.specs.Prelude.{◌≡◌};
    ghost use Rattle.machine_run.specs.declared.refusal.MachineRefusal.TheVariants.{Run};
    ghost use Rattle.node_io.specs.declared.fault.GroupFault.TheVariants.{Machine};

    ghost from_gives = { λ fault e. e ≡ Machine (Run fault) };

    fn from(fault: RunIo) -> GroupFault {
        GroupFault::Machine(MachineRefusal::Run(fault))
    }
}

impl From<NodeFault> for GroupFault {
    ghost use Rattle.std.specs.Prelude.{◌≡◌};
    ghost use Rattle.node_io.specs.declared.fault.GroupFault.TheVariants as group;

    ghost from_gives = { λ fault e. e ≡ group.Node fault };

    fn from(fault: NodeFault) -> GroupFault {
        GroupFault::Node(fault)
    }
}

impl<S: Drop> From<StartRefused<S>> for GroupFault {
    ghost use Rattle.std.specs.Prelude.{◌≡◌};
    ghost use Rattle.node_io.specs.declared.fault.GroupFault.TheVariants as group;

    ghost from_gives = { λ refused e. e ≡ group.Node refused.fault };

    fn from(refused: StartRefused<S>) -> GroupFault {
        GroupFault::Node(refused.fault)
    }
}

impl From<AllocError> for GroupFault {
    ghost use Rattle.std.specs.Prelude.{◌≡◌};
    ghost use Rattle.node_io.specs.Refusals.{no_memory};

    ghost from_gives = { λ _ e. e ≡ no_memory };

    fn from(_: AllocError) -> GroupFault {
        GroupFault::from(RunIo::Memory)
    }
}

impl<T: Drop> From<AllocFailed<T>> for GroupFault {
    ghost use Rattle.std.specs.Prelude.{◌≡◌};
    ghost use Rattle.node_io.specs.Refusals.{no_memory};

    ghost from_gives = { λ _ e. e ≡ no_memory };

    fn from(_: AllocFailed<T>) -> GroupFault {
        GroupFault::from(RunIo::Memory)
    }
}
