//! The refusals of the command `sim`.
use crate::simulation::Stopped;
use group_world::{ScriptFault, WorldFault};
use machine_run::MachineRefusal;
use thiserror::Error;

/// Why a line of a script is refused. The text follows the word `refused`.
#[derive(Clone, Copy, Debug, Error)]
pub enum LineFault {
    /// It is not a line of a script.
    #[error("script")]
    Unread,
    /// It is a settle with too many deliveries.
    #[error("settle")]
    TooLong,
    /// The world refuses it, or memory runs out for it.
    #[error(transparent)]
    World(WorldFault),
}

/// Why `sim` is refused.
#[derive(Clone, Copy, Debug)]
pub enum ScriptRefusal {
    /// One of the files or the output is at fault.
    Machine(MachineRefusal),
    /// A line of the script is at fault, by its number from 1.
    Line { line: usize, fault: LineFault },
}

impl From<MachineRefusal> for ScriptRefusal {
    ghost use Rattle.std.specs.Prelude.{◌≡◌};
    ghost use Rattle.group_sim.specs.declared.refusal.ScriptRefusal.TheVariants.{Machine};

    ghost from_gives = { λ refusal r. r ≡ Machine refusal };

    fn from(refusal: MachineRefusal) -> ScriptRefusal {
        ScriptRefusal::Machine(refusal)
    }
}

impl From<ScriptFault> for ScriptRefusal {
    ghost use Rattle.std.specs.Prelude.{◌≡◌, false, true};
    ghost use Rattle.group_world.specs.declared.fault.WorldFault.TheVariants as world;
    ghost use Rattle.group_sim.specs.declared.refusal.LineFault.TheVariants.{Unread, World};
    ghost use Rattle.group_sim.specs.declared.refusal.ScriptRefusal.TheVariants.{Line};

    ghost from_gives = { λ fault r.
        (fault.memory ≡ true → r ≡ Line fault.line (World world.Memory))
        × (fault.memory ≡ false → r ≡ Line fault.line Unread) };

    fn from(fault: ScriptFault) -> ScriptRefusal {
        ScriptRefusal::Line {
            line: fault.line,
            fault: if fault.memory {
                LineFault::World(WorldFault::Memory)
            } else {
                LineFault::Unread
            },
        }
    }
}

impl From<Stopped> for ScriptRefusal {
    ghost use Rattle.std.specs.Prelude.{◌≡◌, None, Some};
    ghost use Rattle.group_world.specs.declared.fault.WorldFault.{WorldFault};
    ghost use Rattle.group_sim.specs.declared.refusal.LineFault.TheVariants.{TooLong, World};
    ghost use Rattle.group_sim.specs.declared.refusal.ScriptRefusal.TheVariants.{Line};

    ghost from_gives = { λ stopped r.
        ((fault : WorldFault) → stopped.fault ≡ Some fault
        → r ≡ Line stopped.line (World fault))
        × (stopped.fault ≡ None → r ≡ Line stopped.line TooLong) };

    fn from(stopped: Stopped) -> ScriptRefusal {
        let line = stopped.line;
        let fault = match stopped.fault {
            Some(fault) => LineFault::World(fault),
            None => LineFault::TooLong,
        };
        ScriptRefusal::Line { line, fault }
    }
}
