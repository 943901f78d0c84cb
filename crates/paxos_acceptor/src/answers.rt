//! The answers of an acceptor.
ghost use Rattle.std.specs.Prelude.{◌≡◌, ◌≤◌, IfOk, drop, length, take};
ghost use Rattle.paxos_msg.specs.Messages.{IsAscending};
ghost use Rattle.paxos_msg.specs.declared.message.Body.TheVariants as body;
ghost use Rattle.paxos_acceptor.specs.Answers.{AreAtPlaces, greater_promise, is_promised, place_after, upto_of, value_under};
ghost use Rattle.paxos_msg.specs.Places.{votes_from};
ghost use Rattle.paxos_msg.specs.declared.limits.TheConstants.{MOST_VOTES};

use paxos_msg::limits::{MOST_VOTES, PLACES};
use paxos_msg::{Ballot, Body, Value, Vote, Votes};
use std::alloc::{AllocError, Global};

/// Returns the promised ballot, if it is greater than `ballot`.
pub fn greater_promise(promised: Option<Ballot>, ballot: Ballot) -> Option<Ballot>
    ensures { result ≡ greater_promise promised ballot }
{
    match promised {
        Some(greater) if ballot < greater => Some(greater),
        _ => None,
    }
}

/// Returns true if `ballot` is the promised ballot.
pub(crate) fn is_promised(promised: Option<Ballot>, ballot: Ballot) -> bool
    ensures { result ≡ is_promised promised ballot }
{
    match promised {
        Some(promised) => promised == ballot,
        None => false,
    }
}

/// Returns the value of the vote, if it is under `ballot`.
pub(crate) fn value_under(vote: Option<Vote>, ballot: Ballot) -> Option<Value>
    ensures { result ≡ value_under vote ballot }
{
    match vote {
        Some(vote) if vote.ballot == ballot => Some(vote.value),
        _ => None,
    }
}

/// Returns the answer that reports `vote`.
pub(crate) fn accepted(vote: &Vote) -> Body
    ensures { result ≡ body.Accepted vote.now.ballot vote.now.place vote.now.value }
{
    Body::Accepted {
        ballot: vote.ballot,
        place: vote.place,
        value: vote.value,
    }
}

/// Returns the number of votes at places before `from`, by one search.
fn count_before(votes: &[Vote], from: u32) -> usize
    requires { IsAscending votes.now }
    ensures within { result ≤ length votes.now }
    ensures rest { drop result votes.now ≡ votes_from from votes.now }
{
    votes.partition_point(|vote| vote.place < from)
}

/// Returns the place after the last of the votes.
fn place_after(votes: &[Vote]) -> u32
    requires { AreAtPlaces votes.now }
    ensures { result ≡ place_after votes.now }
{
    match votes.last() {
        Some(vote) => vote.place + 1,
        None => 0,
    }
}

/// Returns the place up to which a part reports that has the first 8 of these votes: all places,
/// unless there are more.
fn upto(remaining: &[Vote]) -> u32
    requires { AreAtPlaces remaining.now }
    ensures { result ≡ upto_of remaining.now }
{
    if remaining.len() > MOST_VOTES {
        place_after(&remaining[..MOST_VOTES])
    } else {
        PLACES
    }
}

/// Returns the first `most` votes, or all if there are fewer.
fn first_votes(alloc: Global, votes: &[Vote], most: usize) -> Result<Vec<Vote>, AllocError>
    ensures { IfOk result (λ first. first.items ≡ take most votes.now) }
{
    votes.iter().copied().take(most).collect(alloc)
}

/// Returns the part of a promise for the places from `first` on. It reports the first 8 votes
/// there.
pub(crate) fn part_from(
    alloc: Global,
    ballot: Ballot,
    first: u32,
    votes: &[Vote],
) -> Result<Body, AllocError>
    requires in_order { IsAscending votes.now }
    requires places { AreAtPlaces votes.now }
    ensures { IfOk result
        (λ part. part ≡ body.Promise ballot first (upto_of (votes_from first votes.now))
        (take MOST_VOTES (votes_from first votes.now))) }
{
    let remaining = &votes[count_before(votes, first)..];
    Ok(Body::Promise {
        ballot,
        first,
        upto: upto(remaining),
        votes: Votes::new(first_votes(alloc, remaining, MOST_VOTES)?),
    })
}
