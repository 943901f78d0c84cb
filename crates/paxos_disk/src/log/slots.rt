//! The record of a log while its entries are read.
ghost use Rattle.std.specs.Prelude.{◌≡◌, ◌<◌, ◌↔◌, [], ◌∷◌, ◌++◌, length, IfOk, IsTrue, OnOk};
ghost use Rattle.paxos_msg.specs.Records.{empty_record, with_vote};
ghost use Rattle.paxos_acceptor.specs.Records.{IsNext, IsRecord};
ghost use Rattle.paxos_disk.specs.Entries.{IsEntry, MakesChange};
ghost use Rattle.paxos_disk.specs.Slots.{AreInSlots, slotted_votes};

use crate::log::entry::{entries_stay_in_ranges, is_next};
use paxos_acceptor::Me;
use paxos_msg::{Ballot, Change, Record, Vote, Votes};
use std::alloc::{AllocError, Global};
use std::marker::Model;

/// A record whose votes are in the slots of their places, so that a vote is put there without
/// moving another, in whatever order they come.
pub(crate) struct RecordSlots {
    starts: u32,
    promised: Option<Ballot>,
    slots: Vec<Option<Vote>>,
    alloc: Global,
}

impl Drop for RecordSlots {
    fn drop(self) {
        let RecordSlots {
            starts: _starts,
            promised: _promised,
            slots: _slots,
            alloc: _alloc,
        } = self;
    }
}

impl Model for RecordSlots {
    ghost use Rattle.paxos_msg.specs.Batches.{Record as Kept};
    ghost use Rattle.paxos_disk.specs.Slots.{AreInSlots, slotted_votes};

    ghost Value = { Kept };

    ghost view = { λ s. record {
      starts = s.starts;
      promised = s.promised;
      votes = slotted_votes s.slots.items;
    } };

    ghost invariant = { λ s. AreInSlots 0 s.slots.items };
}

/// Makes slots until there is one of this place. The votes stay.
fn reach(slots: &mut Vec<Option<Vote>>, place: usize) -> Result<(), AllocError>
    requires { AreInSlots 0 slots.old.items }
    ensures long { OnOk result (place < length slots.new.items) }
    ensures votes { slotted_votes slots.new.items ≡ slotted_votes slots.old.items }
    ensures places { AreInSlots 0 slots.new.items }
{
    while slots.len() <= place {
        slots.push(None)?;
    }
    Ok(())
}

/// Puts a vote into the slot of its place.
fn put(slots: &mut Vec<Option<Vote>>, vote: Vote)
    requires long { vote.place < length slots.old.items }
    requires places { AreInSlots 0 slots.old.items }
    ensures votes { slotted_votes slots.new.items ≡ with_vote (slotted_votes slots.old.items) vote }
    ensures places { AreInSlots 0 slots.new.items }
{
    let place = vote.place as usize;
    slots[place] = Some(vote);
}

/// Appends a vote, if there is one.
fn push_if(votes: &mut Vec<Vote>, slot: Option<Vote>) -> Result<(), AllocError>
    ensures { OnOk result (votes.new.items ≡ votes.old.items ++ slotted_votes (slot ∷ [])) }
{
    if let Some(vote) = slot {
        votes.push(vote)?;
    }
    Ok(())
}

/// Returns the votes, one after another.
fn votes_of(alloc: Global, slots: &[Option<Vote>]) -> Result<Vec<Vote>, AllocError>
    ensures { IfOk result (λ votes. votes.items ≡ slotted_votes slots.now) }
{
    let mut votes = Vec::new(alloc);
    for slot in slots {
        push_if(&mut votes, *slot)?;
    }
    Ok(votes)
}

impl RecordSlots {
    /// Returns the record before the first start.
    pub(crate) fn new(alloc: Global) -> RecordSlots
        ensures { result ≡ empty_record }
    {
        RecordSlots {
            starts: 0,
            promised: None,
            slots: Vec::new(alloc),
            alloc,
        }
    }

    /// Returns true if the change can be made to the record, as `is_next` does.
    pub(crate) fn is_next(&self, change: &Change) -> bool
        ensures { IsTrue result ↔ IsNext self.now change.now }
    {
        is_next(self.starts, self.promised, change)
    }

    /// Makes a change that can be made. After an error nothing has changed.
    pub(crate) fn enter(&mut self, change: Change, me: Me) -> Result<(), AllocError>
        requires ranges { IsRecord me.group.size self.old }
        requires entry { IsEntry me.group.size self.old change }
        ensures { MakesChange me.group.size self.old self.new change result }
    {
        entries_stay_in_ranges();
        match change {
            Change::Start => self.starts += 1,
            Change::Promise(ballot) => self.promised = Some(ballot),
            Change::Ballotted(place, ballot, value) => {
                reach(&mut self.slots, place as usize)?;
                let vote = Vote {
                    place,
                    ballot,
                    value,
                };
                put(&mut self.slots, vote);
                self.promised = Some(ballot);
            }
        }
        Ok(())
    }

    /// Returns the record.
    pub(crate) fn into_record(self) -> Result<Record, AllocError>
        ensures { IfOk result (λ r. r ≡ self) }
    {
        let RecordSlots {
            starts,
            promised,
            slots,
            alloc,
        } = self;
        let votes = votes_of(alloc, slots.as_slice())?;
        Ok(Record {
            starts,
            promised,
            votes: Votes::new(votes),
        })
    }
}
