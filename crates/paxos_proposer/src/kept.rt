//! The kept votes of a proposer.
ghost use Rattle.std.specs.Prelude.{◌≡◌, ◌+◌, ◌<◌, ◌≤◌, [], All, OnOk};
ghost use Rattle.paxos_msg.specs.Messages.{kept_vote_at};
ghost use Rattle.paxos_msg.specs.Records.{with_vote};
ghost use Rattle.paxos_proposer.specs.Proposer.{is_kept_from};
ghost use Rattle.paxos_msg.specs.Places.{votes_from};

use indexmap::IndexMap;
use paxos_msg::{Ballot, Value, Vote};
use std::alloc::{AllocError, Global};
use std::marker::Model;

/// A vote without its place, which is its key.
#[derive(Clone, Copy)]
pub(crate) struct Report {
    ballot: Ballot,
    value: Value,
}

/// The kept vote of each place. Contracts see the votes in ascending order of place, and how many
/// more have room. Each call takes one search at most, however many votes are kept.
#[derive(Drop)]
pub(crate) struct KeptVotes {
    reports: IndexMap<u32, Report>,
    // The greatest place that has a vote, if there is one.
    greatest: Option<u32>,
}

impl Model for KeptVotes {
    ghost use Rattle.indexmap.specs.IndexMap.{spare};
    ghost use Rattle.paxos_proposer.specs.KeptVotes.{IsGreatestPlace, Kept, reported_votes};

    ghost Value = { Kept };

    ghost view = { λ k. record {
      votes = reported_votes k.reports.entries;
      room = spare k.reports;
    } };

    ghost invariant = { λ k. IsGreatestPlace (reported_votes k.reports.entries) k.greatest };
}

impl KeptVotes {
    /// Returns no votes. It takes no memory.
    pub fn new(alloc: Global) -> KeptVotes
        ensures { result.votes ≡ [] }
    {
        KeptVotes {
            reports: IndexMap::new(alloc),
            greatest: None,
        }
    }

    /// Returns the kept vote at `place`.
    pub fn at(&self, place: u32) -> Option<Vote>
        ensures { result ≡ kept_vote_at self.now.votes place }
    {
        let report = self.reports.get(&place)?;
        Some(Vote {
            place,
            ballot: report.ballot,
            value: report.value,
        })
    }

    /// Returns true if a vote is kept at `place` or above it. It takes no search.
    pub fn is_from(&self, place: u32) -> bool
        ensures { result ≡ is_kept_from self.now.votes place }
    {
        match self.greatest {
            Some(greatest) => place <= greatest,
            None => false,
        }
    }

    /// Makes room for `count` more votes. The votes stay, also after an error.
    pub fn make_room(&mut self, count: usize) -> Result<(), AllocError>
        ensures votes { self.new.votes ≡ self.old.votes }
        ensures room { OnOk result (count ≤ self.new.room) }
    {
        self.reports.reserve(count)
    }

    /// Keeps `vote`, and drops the one that was kept at its place, if there was one. There is room
    /// for a vote, and the call takes at most that.
    pub fn put(&mut self, vote: Vote)
        requires { 0 < self.old.room }
        ensures votes { self.new.votes ≡ with_vote self.old.votes vote }
        ensures room { self.old.room ≤ self.new.room + 1 }
    {
        let report = Report {
            ballot: vote.ballot,
            value: vote.value,
        };
        self.reports.insert(vote.place, report).unwrap();
        self.greatest = self.greatest.max(Some(vote.place));
    }

    /// Drops the vote at `place`, if there is one. No vote is at a smaller place.
    pub fn pass(&mut self, place: u32)
        requires { All (λ vote. place ≤ vote.place) self.old.votes }
        ensures { self.new.votes ≡ votes_from (place + 1) self.old.votes }
    {
        self.reports.swap_remove(&place);
        if self.greatest == Some(place) {
            self.greatest = None;
        }
    }
}
