//! Stores, which keep a record over restarts.
ghost use Rattle.paxos_msg.specs.Records.{changed};
ghost use Rattle.std.specs.Prelude.{◌≡◌, ◌<◌};
ghost use Rattle.paxos_msg.specs.declared.record.Change.TheVariants.{Start};
ghost use Rattle.paxos_msg.specs.Messages.{IsAscending};
ghost use Rattle.paxos_acceptor.specs.declared.store.StoreFault.TheVariants.{Memory};
ghost use Rattle.paxos_acceptor.specs.Stores.{HasSameOwner, Loaded, LoadsFrom, MayLoadNoMore, Saved, SavesTo};
ghost use Rattle.paxos_msg.specs.declared.limits.TheConstants.{LAST_START};

use paxos_msg::{Change, Record};
use std::alloc::AllocError;

/// The fault of a store.
#[derive(Clone, Copy, Debug, PartialEq, Eq)]
pub enum StoreFault {
    /// Out of memory. The stored record is as it was.
    Memory,
    /// The device failed, and the count of faults rose. After a save that failed, a restart finds
    /// the old record or the changed one.
    Device,
    /// The bytes are no record.
    Bad,
}

impl From<AllocError> for StoreFault {
    ghost from_gives = { λ _ e. e ≡ Memory };

    fn from(_: AllocError) -> Self {
        StoreFault::Memory
    }
}

/// A keeper of a record, over restarts too. Contracts know the record of an honest store. One that
/// fails at will is for tests: its device fails exactly as its plan says. Whose record it is stays
/// over all calls.
pub trait Store {
    ghost use Rattle.paxos_acceptor.specs.Stores.{StoreKind};

    /// What contracts know of the stores of this type.
    ghost kind: { StoreKind Self };

    /// Returns the stored record. An honest store returns the one that it has, which stays, and
    /// never fails with `Bad`. A store that fails at will never fails with `Device`. The plan of
    /// any store stays. `Device` counts one more fault, and nothing else counts one.
    fn load(&mut self) -> Result<Record, StoreFault>
        ensures loaded { Loaded kind self result }
        ensures may { LoadsFrom kind self.old self.new result };

    /// Makes `change` in the stored record. An honest store has the changed record after `Ok`, the
    /// old one after `Memory`, and one of the two after `Device`. The call never fails with `Bad`.
    /// `Device` counts one more fault, and nothing else counts one.
    ///
    /// The votes of an honest store's record must ascend by place, and for a start it must have
    /// fewer than 4,294,967,295 starts. No save is `Ok` under a plan. `Device` uses the plan up,
    /// and no other answer changes it. A store that fails at will fails with `Device` only under a
    /// plan, and then has the record that the plan says.
    fn save(&mut self, change: &Change) -> Result<(), StoreFault>
        requires starts { kind.honest → change.now ≡ Start
            → (kind.state self.old).stored.starts < LAST_START }
        requires ascending { kind.honest → IsAscending (kind.state self.old).stored.votes }
        ensures saved { Saved kind change.now self result }
        ensures may { SavesTo kind (changed (kind.state self.old).stored change.now)
            self.old self.new result };

    /// Returns how often the device has failed.
    ///
    /// The count stops at its greatest value. One more fault leaves it there.
    fn faults(&self) -> u64
        ensures { result ≡ (kind.state self.now).faults };

    /// Gives a store that fails at will this plan for its next save: a fault that leaves the
    /// changed record (`Some(true)`) or the old one (`Some(false)`), or no fault (`None`). Whose
    /// store it is, the record of an honest store, and the count of faults stay. Of an honest store
    /// a restart may load no more than before.
    fn fail_next(&mut self, plan: Option<bool>)
        ensures same { kind.honest → (kind.state self.new).stored ≡ (kind.state self.old).stored }
        ensures may { kind.honest → MayLoadNoMore kind self.old self.new }
        ensures owner { HasSameOwner kind self.old self.new }
        ensures plan { kind.fails_at_will → (kind.state self.new).plan ≡ plan }
        ensures faults { (kind.state self.new).faults ≡ (kind.state self.old).faults };
}
