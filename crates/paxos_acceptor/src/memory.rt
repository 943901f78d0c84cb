//! A store in memory.
ghost use Rattle.std.specs.Prelude.{◌≡◌, ◌<◌, Err, IsErrOf, None};
ghost use Rattle.paxos_msg.specs.declared.record.Change.TheVariants.{Start};
ghost use Rattle.paxos_msg.specs.Messages.{IsAscending};
ghost use Rattle.paxos_acceptor.specs.Memories.{Loads, SavesByPlan, memory_kind};
ghost use Rattle.paxos_msg.specs.declared.limits.TheConstants.{LAST_START};

use crate::store::{Store, StoreFault};
use base::count_fault;
use paxos_msg::{Change, Record};
use std::marker::Model;

/// A record in memory, and the planned fault of the next save, if any.
#[derive(Drop)]
pub struct MemoryStore {
    record: Record,
    plan: Option<bool>,
    faults: u64,
}

impl Model for MemoryStore {
    ghost use Rattle.paxos_acceptor.specs.Stores.{StoreState};

    ghost Value = { StoreState };

    ghost view = { λ s. record { stored = s.record; plan = s.plan; faults = s.faults } };
}

impl MemoryStore {
    /// Returns a store that has the record `kept`, no plan, and no counted fault.
    pub fn new(kept: Record) -> MemoryStore
        ensures { (result.stored ≡ kept) × (result.plan ≡ None) × (result.faults ≡ 0) }
    {
        MemoryStore {
            record: kept,
            plan: None,
            faults: 0,
        }
    }

    /// Returns the record that a load finds.
    pub fn stored(&self) -> &Record
        ensures { result.now ≡ self.now.stored }
    {
        &self.record
    }
}

impl Store for MemoryStore {
    ghost kind = { memory_kind };

    /// Returns the record, and changes nothing. Fails only with `Memory`.
    fn load(&mut self) -> Result<Record, StoreFault>
        ensures { Loads self.old self.new result }
    {
        Ok(self.record.clone()?)
    }

    /// Makes `change`. It is `Ok` only without a plan, and fails with `Device` only under one.
    /// After `Device` the store has the record that the plan says and no plan, and has counted one
    /// more fault. After `Memory`, the only other fault, nothing has changed.
    fn save(&mut self, change: &Change) -> Result<(), StoreFault>
        requires starts { change.now ≡ Start → self.old.stored.starts < LAST_START }
        requires ascending { IsAscending self.old.stored.votes }
        ensures by_plan { SavesByPlan self.old self.new change.now result }
        ensures good { ¬ IsErrOf result StoreFault.Bad }
    {
        if self.plan != Some(false) {
            self.record.change(*change)?;
        }
        if self.plan.is_none() {
            return Ok(());
        }
        self.plan = None;
        self.faults = count_fault(self.faults);
        Err(StoreFault::Device)
    }

    fn faults(&self) -> u64
        ensures { result ≡ self.now.faults }
    {
        self.faults
    }

    /// Sets the plan to `plan`, and changes nothing else.
    fn fail_next(&mut self, plan: Option<bool>)
        ensures { self.new ≡ record self.old { plan = plan } }
    {
        self.plan = plan;
    }
}
