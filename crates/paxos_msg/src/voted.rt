//! Search and insertion in a list of votes in ascending order of place.
ghost use Rattle.std.specs.Prelude.{◌≡◌, ◌+◌, ◌<◌, ◌≤◌, IfOk, IfErr, OnOk, OnErr, IsOk, vec_len, vec_capacity};
ghost use Rattle.paxos_msg.specs.Messages.{IsAscending, kept_vote_at};
ghost use Rattle.paxos_msg.specs.Places.{IsGapIn, IsPlaceIn};
ghost use Rattle.paxos_msg.specs.Records.{with_vote};

use crate::value::Vote;
use std::alloc::AllocError;

/// Returns the index of the vote at `place`, or as an error the index at which it would be.
fn search(votes: &[Vote], place: u32) -> Result<usize, usize>
    requires { IsAscending votes.now }
    ensures found { IfOk result (IsPlaceIn votes.now place) }
    ensures absent { IfErr result (IsGapIn votes.now place) }
{
    votes.binary_search_by_key(&place, |vote| vote.place)
}

/// Returns the vote at `place`, if there is one. The votes must ascend by place.
///
/// It takes one search.
pub fn find_vote(votes: &[Vote], place: u32) -> Option<Vote>
    requires { IsAscending votes.now }
    ensures { result ≡ kept_vote_at votes.now place }
{
    match search(votes, place) {
        Ok(at) => Some(votes[at]),
        Err(_) => None,
    }
}

/// Puts `vote` among votes that ascend by place. It replaces the vote at its place, if there is
/// one. The votes ascend after it too, and there is at most one more. The capacity never shrinks.
/// With room for one more vote the call never fails. After an error the votes are as they were.
///
/// With such room it takes no memory.
pub fn insert_vote(votes: &mut Vec<Vote>, vote: Vote) -> Result<(), AllocError>
    requires { IsAscending votes.old.items }
    ensures ok { OnOk result (votes.new.items ≡ with_vote votes.old.items vote) }
    ensures err { OnErr result (votes.new.items ≡ votes.old.items) }
    ensures ascending { IsAscending votes.new.items }
    ensures room { vec_len votes.old < vec_capacity votes.old → IsOk result }
    ensures capacity { vec_capacity votes.old ≤ vec_capacity votes.new }
    ensures len { vec_len votes.new ≤ vec_len votes.old + 1 }
{
    match search(votes, vote.place) {
        Ok(at) => votes[at] = vote,
        Err(at) => votes.insert(at, vote)?,
    }
    Ok(())
}
