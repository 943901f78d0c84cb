//! Majorities and chosen values, computed.

ghost use Rattle.std.specs.Prelude.{◌≡◌, ◌↔◌, ◌≤◌, IsTrue};
ghost use Rattle.paxos_msg.specs.declared.message.Body.TheVariants.{Accepted};
ghost use Rattle.paxos_msg.specs.Ballots.{count_of, IsMajority};
ghost use Rattle.paxos_msg.specs.Chosen.{IsChosen, IsChosenBy, is_listed};
ghost use Rattle.paxos_msg.specs.Messages.{IsSent};

use crate::ballot::Ballot;
use crate::message::{Body, Msg};
use crate::value::Value;

/// Returns how many of the nodes 1 to `size` are listed.
#[tactic(auto, using(crate::proofs::CountingNodes::count_next))]
fn count_nodes(size: u8, members: &[u8]) -> usize
    ensures count { result ≡ count_of (is_listed members.now) size }
    ensures few { result ≤ size }
{
    let mut count: usize = 0;
    for before in 0..size {
        if members.contains(&(before + 1)) {
            count += 1;
        }
    }
    count
}

/// Returns true if the listed nodes are a majority of the nodes 1 to `size`. A node that is listed
/// twice counts once, and one above `size` does not count.
pub fn is_majority(size: u8, members: &[u8]) -> bool
    ensures { IsTrue result ↔ IsMajority size (is_listed members.now) }
{
    usize::from(size) < 2 * count_nodes(size, members)
}

/// Returns true if the two values are equal.
fn is_same(value: Value, other: Value) -> bool
    ensures { IsTrue result ↔ (value ≡ other) }
{
    value == other
}

/// Returns true if by `m` the node says that it has accepted the value at the place under the
/// ballot.
fn says_accepted(m: &Msg, node: u8, ballot: Ballot, place: u32, value: &Value) -> bool
    ensures { IsTrue result
        ↔ (m.now ≡ record { sender = node; body = Accepted ballot place value.now }) }
{
    match &m.body {
        Body::Accepted {
            ballot: under,
            place: at,
            value: accepted,
        } => m.sender == node && *under == ballot && *at == place && is_same(*accepted, *value),
        _ => false,
    }
}

/// Returns true if the node has sent that it accepted the value at the place under the ballot.
fn has_accepted(sent: &[Msg], node: u8, ballot: Ballot, place: u32, value: &Value) -> bool
    ensures { IsTrue result ↔ IsSent sent.now node (Accepted ballot place value.now) }
{
    for i in 0..sent.len() {
        if says_accepted(&sent[i], node, ballot, place, value) {
            return true;
        }
    }
    false
}

/// Returns true if the messages in `sent` show that the ballot has chosen the value at the place.
#[tactic(auto, using(crate::proofs::CountingNodes::none_counted))]
fn is_chosen_by(size: u8, sent: &[Msg], ballot: Ballot, place: u32, value: &Value) -> bool
    ensures { IsTrue result ↔ IsChosenBy size sent.now ballot place value.now }
{
    let mut accepted: usize = 0;
    for before in 0..size {
        if has_accepted(sent, before + 1, ballot, place, value) {
            accepted += 1;
        }
    }
    usize::from(size) < 2 * accepted
}

/// Returns true if the messages in `sent` show that the value is chosen at the place.
pub fn is_chosen(size: u8, sent: &[Msg], place: u32, value: Value) -> bool
    ensures { IsTrue result ↔ IsChosen size sent.now place value }
{
    let value = &value;
    for i in 0..sent.len() {
        if let Body::Accepted { ballot, .. } = &sent[i].body {
            if is_chosen_by(size, sent, *ballot, place, value) {
                return true;
            }
        }
    }
    false
}
