//! Tests of the ranges of a message, which say if it has a spelling.
ghost use Rattle.std.specs.Prelude.{◌↔◌, ◌<◌, IsTrue};
ghost use Rattle.paxos_msg.specs.Ballots.{IsBelow, IsAtMost};
ghost use Rattle.paxos_msg.specs.Keys.{AreOwnKeys, batches};
ghost use Rattle.paxos_msg.specs.Fits.{IsNode, IsBallot, IsBatch, IsValue, IsVote, AreVotes};
ghost use Rattle.paxos_msg.specs.Datagrams.{Fits};

use crate::ballot::Ballot;
use crate::bodies::fits_body;
use crate::limits::MOST_CHARACTERS;
use crate::message::{Group, Msg};
use crate::reading::is_batch;
use crate::value::{Value, Vote};

/// Returns true if a group of `size` nodes has the node.
fn is_node(size: u8, node: u8) -> bool
    ensures { IsTrue result ↔ IsNode size node }
{
    0 < node && node <= size
}

/// Returns true if the round of `ballot` is at least 1 and its node is one of a group of `size`
/// nodes.
pub fn fits_ballot(size: u8, ballot: Ballot) -> bool
    ensures { IsTrue result ↔ IsBallot size ballot }
{
    0 < ballot.round && is_node(size, ballot.node)
}

/// Returns true if there are 1 to 32 characters, and the serials of their keys, from `first` on,
/// are 1 to 4,294,967,295.
fn fits_batch(first: u32, bytes: &[u8]) -> bool
    ensures { IsTrue result ↔ IsBatch first bytes.now }
{
    bytes.len() <= MOST_CHARACTERS && is_batch(first, bytes.len() as u8)
}

/// Returns true if `value` is a no-op, or a batch of keys in its ranges: its node is one of a group
/// of `size` nodes, its start is at least 1, and its serials are 1 to 4,294,967,295.
pub(crate) fn fits_value(size: u8, value: Value) -> bool
    ensures { IsTrue result ↔ IsValue size value }
{
    match value {
        Value::Noop => true,
        Value::Keys {
            node,
            start,
            first,
            bytes,
        } => is_node(size, node) && 0 < start && fits_batch(first, bytes.as_slice()),
    }
}

/// Returns true if `value` has keys, and all were typed at `node`.
pub(crate) fn are_own_keys(node: u8, value: Value) -> bool
    ensures { IsTrue result ↔ AreOwnKeys batches node value }
{
    match value {
        Value::Noop => false,
        Value::Keys {
            node: typed,
            bytes,
            ..
        } => {
            let _bytes = bytes.len();
            typed == node
        }
    }
}

/// Returns true if `ballot` is below `other`.
pub(crate) fn is_below(ballot: Ballot, other: Ballot) -> bool
    ensures { IsTrue result ↔ IsBelow ballot other }
{
    ballot.round < other.round || (ballot.round == other.round && ballot.node < other.node)
}

/// Returns true if `ballot` is not above `other`.
fn is_at_most(ballot: Ballot, other: Ballot) -> bool
    ensures { IsTrue result ↔ IsAtMost ballot other }
{
    ballot.round < other.round || (ballot.round == other.round && ballot.node <= other.node)
}

/// Returns true if `vote` may be part of a promise under `ballot`, at a place from `low` up to and
/// without `upto`.
fn fits_vote(size: u8, ballot: Ballot, low: u32, upto: u32, vote: Vote) -> bool
    ensures { IsTrue result ↔ IsVote size ballot low upto vote }
{
    low <= vote.place
        && vote.place < upto
        && fits_ballot(size, vote.ballot)
        && is_at_most(vote.ballot, ballot)
        && fits_value(size, vote.value)
}

/// Returns true if `votes` are in their ranges, at ascending places from `first` up to and without
/// `upto`, under ballots that are not above `ballot`.
pub fn fits_votes(size: u8, ballot: Ballot, first: u32, upto: u32, votes: &[Vote]) -> bool
    ensures { IsTrue result ↔ AreVotes size ballot first upto votes.now }
{
    let mut low = first;
    for vote in votes {
        if !fits_vote(size, ballot, low, upto, *vote) {
            return false;
        }
        low = vote.place + 1;
    }
    true
}

/// Returns true if `message` has a spelling in the group: its sender is a node of it, and its body
/// is in its ranges.
pub fn fits(message: &Msg, group: Group) -> bool
    ensures { IsTrue result ↔ Fits group message.now }
{
    is_node(group.size, message.sender) && fits_body(group.size, message.sender, &message.body)
}
