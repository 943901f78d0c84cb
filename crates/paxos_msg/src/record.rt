//! The record of an acceptor, and its changes.
ghost use Rattle.std.specs.Prelude.{◌≡◌, ◌<◌, OnOk, OnErr};
ghost use Rattle.paxos_msg.specs.declared.record.Change.TheVariants.{Start};
ghost use Rattle.paxos_msg.specs.Messages.{IsAscending};
ghost use Rattle.paxos_msg.specs.Records.{changed, empty_record};
ghost use Rattle.paxos_msg.specs.declared.limits.TheConstants.{LAST_START};

use crate::ballot::Ballot;
use crate::value::{Value, Vote};
use crate::votes::Votes;
use std::alloc::{AllocError, Global};

/// The part of an acceptor that its store keeps.
#[derive(Clone, Drop)]
pub struct Record<V = Value> {
    /// The number of starts of the node.
    pub starts: u32,
    /// The greatest ballot that it has promised.
    pub promised: Option<Ballot>,
    /// At most one vote for each place, none above the promised ballot.
    pub votes: Votes<V>,
}

/// One change of a record.
#[derive(Clone, Copy, Debug, PartialEq, Eq)]
pub enum Change<V = Value> {
    /// One more start.
    Start,
    /// The promised ballot becomes this one.
    Promise(Ballot),
    /// The vote at the place becomes this one, and the promised ballot its ballot.
    Ballotted(u32, Ballot, V),
}

impl Record {
    /// Returns the record before the first start.
    ///
    /// It takes no memory.
    pub fn new(alloc: Global) -> Record
        ensures { result ≡ empty_record }
    {
        Record {
            starts: 0,
            promised: None,
            votes: Votes::new(Vec::new(alloc)),
        }
    }

    /// Makes `change` in the record (`changed`). The votes must ascend by place, and for a start
    /// there must be fewer than 4,294,967,295 starts. After an error the record is as it was.
    pub fn change(&mut self, change: Change) -> Result<(), AllocError>
        requires starts { change ≡ Start → self.old.starts < LAST_START }
        requires ascending { IsAscending self.old.votes }
        ensures ok { OnOk result (self.new ≡ changed self.old change) }
        ensures err { OnErr result (self.new ≡ self.old) }
    {
        match change {
            Change::Start => self.starts += 1,
            Change::Promise(ballot) => self.promised = Some(ballot),
            Change::Ballotted(place, ballot, value) => {
                self.votes.insert(Vote {
                    place,
                    ballot,
                    value,
                })?;
                self.promised = Some(ballot);
            }
        }
        Ok(())
    }
}
