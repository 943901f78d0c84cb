//! The kept votes after a part of a promise.
ghost use Rattle.std.specs.Prelude.{◌≡◌, ◌+◌, ◌<◌, ◌≤◌, OnOk, OnErr, length};
ghost use Rattle.paxos_proposer.specs.Proposer.{greater, heard, heard_one};
ghost use Rattle.paxos_msg.specs.declared.limits.TheConstants.{MOST_VOTES};

use crate::kept::KeptVotes;
use paxos_msg::limits::MOST_VOTES;
use paxos_msg::{LentVotes, Vote};
use std::alloc::AllocError;

/// Returns the vote of the greater ballot. Of equal ballots it is the one that is kept.
fn greater(kept: Option<Vote>, vote: Vote) -> Vote
    ensures { result ≡ greater kept vote }
{
    match kept {
        Some(kept) if vote.ballot <= kept.ballot => kept,
        _ => vote,
    }
}

/// Keeps a reported vote if it is for a place from `low` on and no kept vote there has a greater or
/// equal ballot.
fn hear_one(low: u32, vote: Vote, kept: &mut KeptVotes)
    requires { 0 < kept.old.room }
    ensures votes { kept.new.votes ≡ heard_one low kept.old.votes vote }
    ensures room { kept.old.room ≤ kept.new.room + 1 }
{
    if vote.place < low {
        return;
    }
    let before = kept.at(vote.place);
    kept.put(greater(before, vote));
}

/// Hears these votes, at most 8, one after another, each as `hear_one` does (`heard`). After an
/// error the kept votes are as before.
pub(crate) fn hear_votes(
    low: u32,
    votes: LentVotes<'_>,
    kept: &mut KeptVotes,
) -> Result<(), AllocError>
    requires { length votes ≤ MOST_VOTES }
    ensures ok { OnOk result (kept.new.votes ≡ heard low kept.old.votes votes.entry) }
    ensures err { OnErr result (kept.new.votes ≡ kept.old.votes) }
{
    kept.make_room(MOST_VOTES)?;
    for vote in votes {
        hear_one(low, vote, kept);
    }
    Ok(())
}
