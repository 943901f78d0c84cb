//! The votes of a record of version 1.
ghost use Rattle.std.specs.Prelude.{◌≤◌, IfOk, Some};
ghost use Rattle.paxos_msg.specs.Reading.{Gives};
ghost use Rattle.paxos_disk.specs.RecordReading.{ReadsAs, vote_at_v1, votes_of};
ghost use Rattle.paxos_disk.specs.declared.record.version.Version.TheVariants.{One};
ghost use Rattle.paxos_msg.specs.declared.limits.TheConstants.{LAST_PLACE};

use crate::record::reading::number_of;
use paxos_acceptor::StoreFault;
use paxos_msg::limits::LAST_PLACE;
use paxos_msg::{Ballot, Group, Vote, WireFault, read_ballot, read_value_v1};
use std::alloc::Global;

/// Reads the vote at the front of the bytes. Returns it and the bytes after it. Its place is at
/// least `low`, and its ballot at most `most`.
#[tactic(auto, unfolding(crate::specs::RecordReading::vote_at_v1))]
fn vote_of_v1(
    group: Group,
    most: Ballot,
    low: u32,
    bytes: &[u8],
) -> Result<(Vote, &[u8]), WireFault>
    ensures exact { Gives (λ x. (x.0, x.1.now)) result (vote_at_v1 group.size most low bytes.now) }
    ensures place { IfOk result (λ x. x.0.place ≤ LAST_PLACE) }
{
    let (place, rest) = number_of(bytes)?;
    if place < low {
        return Err(WireFault::Order);
    }
    if place > LAST_PLACE {
        return Err(WireFault::Place);
    }
    let (ballot, taken) = read_ballot(rest, group)?;
    if most < ballot {
        return Err(WireFault::Ballot);
    }
    let rest = &rest[taken..];
    let (value, taken) = read_value_v1(rest, group)?;
    let vote = Vote {
        place,
        ballot,
        value,
    };
    Ok((vote, &rest[taken..]))
}

/// Reads `count` votes under the ballot, which have to be all of the bytes.
pub(crate) fn votes_of_v1(
    alloc: Global,
    group: Group,
    ballot: Ballot,
    count: u32,
    bytes: &[u8],
) -> Result<Vec<Vote>, StoreFault>
    ensures { ReadsAs (λ votes. votes.items) result
        (votes_of One group.size (Some ballot) count bytes.now) }
{
    let mut votes = Vec::new(alloc);
    let mut rest = bytes;
    let mut low = 0;
    for _ in 0..count {
        let Ok((vote, after)) = vote_of_v1(group, ballot, low, rest) else {
            return Err(StoreFault::Bad);
        };
        low = vote.place + 1;
        let Ok(()) = votes.push(vote) else {
            return Err(StoreFault::Memory);
        };
        rest = after;
    }
    if !rest.is_empty() {
        return Err(StoreFault::Bad);
    }
    Ok(votes)
}
