//! A list of votes.
ghost use Rattle.std.specs.Prelude.{◌≡◌, OnOk, OnErr};
ghost use Rattle.paxos_msg.specs.Messages.{IsAscending};
ghost use Rattle.paxos_msg.specs.Records.{with_vote};

use crate::value::{Value, Vote};
use crate::voted::insert_vote;
use std::alloc::AllocError;
use std::marker::Model;

/// A list of votes, in ascending order of place. It is made from a `Vec` and turned back into one
/// without memory.
#[derive(Clone, Drop)]
pub struct Votes<V = Value> {
    items: Vec<Vote<V>>,
}

impl<V> Model for Votes<V> {
    ghost use Rattle.std.specs.Prelude.{List};
    ghost use Rattle.paxos_msg.specs.declared.value.Vote.{Vote};

    ghost Value = { List (Vote V) };

    ghost view = { λ v. v.items.items };
}

impl Votes {
    /// Wraps a vector of votes.
    pub fn new(items: Vec<Vote>) -> Votes
        ensures { result ≡ items.items }
    {
        Votes { items }
    }

    /// Returns the vector of the votes.
    pub fn into_vec(self) -> Vec<Vote>
        ensures { result.items ≡ self }
    {
        let Votes { items } = self;
        items
    }

    /// Returns the votes as a slice.
    pub fn as_slice(&self) -> &[Vote]
        ensures { result.now ≡ self.now }
    {
        self.items.as_slice()
    }

    /// Puts `vote` among votes that ascend by place. It replaces the vote at its place, if there is
    /// one. After an error the votes are as they were.
    pub fn insert(&mut self, vote: Vote) -> Result<(), AllocError>
        requires { IsAscending self.old }
        ensures ok { OnOk result (self.new ≡ with_vote self.old vote) }
        ensures err { OnErr result (self.new ≡ self.old) }
    {
        insert_vote(&mut self.items, vote)
    }
}
