//! The votes of a promise that lies in a datagram.
use crate::reading::raw_vote_of;
use crate::value::Vote;
use std::alloc::AllocError;
use std::marker::Model;

/// The votes that bytes spell, in the order in which they stand: an iterator that reads each vote
/// when it returns it. Reading finds them in the bytes of a Promise, in ascending order of place.
#[derive(Drop)]
pub struct LentVotes<'a> {
    bytes: &'a [u8],
    count: u32,
}

impl<'a> Model for LentVotes<'a> {
    ghost use Rattle.std.specs.Prelude.{List};
    ghost use Rattle.paxos_msg.specs.Batches.{Vote};
    ghost use Rattle.paxos_msg.specs.Raw.{votes_left};

    ghost Value = { List Vote };

    ghost view = { λ v. votes_left v.count v.bytes.now };
}

impl<'a> LentVotes<'a> {
    ghost use Rattle.std.specs.Prelude.{◌≡◌};
    ghost use Rattle.paxos_msg.specs.Raw.{votes_left};

    /// Returns the `count` votes at the front of the bytes.
    pub(crate) fn new(bytes: &'a [u8], count: u32) -> LentVotes<'a>
        ensures { result ≡ votes_left count bytes.now }
    {
        LentVotes { bytes, count }
    }

    /// Returns an iterator over the same votes, from the next one on.
    pub fn iter(&self) -> LentVotes<'a>
        ensures { result ≡ self.now }
    {
        LentVotes {
            bytes: self.bytes,
            count: self.count,
        }
    }
}

impl<'a> Clone for LentVotes<'a> {
    ghost use Rattle.std.specs.Prelude.{◌≡◌, ⊤};

    ghost is_clone = { λ s r. r ≡ s };

    ghost is_infallible = { λ _. ⊤ };

    /// Returns an iterator over the same votes, from the next one on. It never fails.
    fn clone(&self) -> Result<LentVotes<'a>, AllocError> {
        Ok(self.iter())
    }
}

impl<'a> Iterator for LentVotes<'a> {
    ghost use Rattle.std.specs.Iterator.{YieldsFirst, item_count};

    type Item = Vote;

    ghost next_gives = { YieldsFirst (λ votes. votes) };

    ghost remaining = { item_count (λ votes. votes) };

    /// Returns the next vote. It returns each vote once, in order, and then no more.
    #[tactic(auto, using(crate::proofs::VotesLeft::none_left, crate::proofs::VotesLeft::first_left, crate::proofs::VotesLeft::none_more))]
    fn next(&mut self) -> Option<Vote> {
        if self.count == 0 {
            return None;
        }
        match raw_vote_of(self.bytes) {
            Ok((vote, taken)) => {
                let (_, rest) = self.bytes.split_at(taken);
                self.bytes = rest;
                self.count -= 1;
                Some(vote)
            }
            Err(_) => {
                self.count = 0;
                None
            }
        }
    }
}
