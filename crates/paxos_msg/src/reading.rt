//! Reads the fields of a datagram. Each function reads the field at the front of the bytes. It
//! returns the field and the bytes after it, or, where it has a value, the number of bytes that it
//! takes.
ghost use Rattle.std.specs.Prelude.{◌≡◌, ◌≤◌, ◌<◌, IfErr, IfOk, Ok, Err, drop, length};
ghost use Rattle.paxos_msg.specs.Reading.{Gives, first_byte, bytes_at, number_at, ballot_at, own_ballot_at, place_at, is_batch, characters_at, value_at, own_keys_at, vote_at, votes_at, GivesField};
ghost use Rattle.paxos_msg.specs.Raw.{Takes, raw_ballot_at, raw_characters_at, raw_keys_at, raw_value_at, raw_vote_at, keys_rest_at, PassesVote, votes_left};
ghost use Rattle.paxos_msg.specs.declared.limits.TheConstants.{MOST_CHARACTERS, PLACES};

use crate::ballot::Ballot;
use crate::characters::Characters;
use crate::fault::WireFault;
use crate::limits::{LAST_SERIAL, MOST_CHARACTERS};
use crate::value::{Value, Vote};
use byteorder::{BigEndian, ByteOrder};

/// The places of a promise, and its ballot.
#[derive(Clone, Copy)]
pub(crate) struct Part {
    /// The group's size.
    pub(crate) size: u8,
    pub(crate) ballot: Ballot,
    pub(crate) first: u32,
    /// The place after the last one.
    pub(crate) upto: u32,
}

/// Reads one byte. Fails with `Short` if there is none.
#[inline]
pub(crate) fn first_byte(bytes: &[u8]) -> Result<(u8, &[u8]), WireFault>
    ensures exact { Gives (λ x. (x.0, x.1.now)) result (first_byte bytes.now) }
    ensures taken { IfOk result (λ x. Takes 1 bytes.now x.1.now) }
{
    match bytes {
        [] => Err(WireFault::Short),
        [byte, rest @ ..] => Ok((*byte, rest)),
    }
}

/// Reads a number of four bytes, high byte first. Fails with `Short` if there are fewer.
#[inline]
pub(crate) fn number_of(bytes: &[u8]) -> Result<(u32, &[u8]), WireFault>
    ensures exact { Gives (λ x. (x.0, x.1.now)) result (number_at bytes.now) }
    ensures taken { IfOk result (λ x. Takes 4 bytes.now x.1.now) }
{
    if bytes.len() < 4 {
        return Err(WireFault::Short);
    }
    Ok((BigEndian::read_u32(bytes), &bytes[4..]))
}

/// Reads a ballot without a test of its fields. Fails with `Short` if it ends too soon.
#[inline]
#[tactic(auto, unfolding(crate::specs::Raw::raw_ballot_at))]
fn raw_ballot_of(bytes: &[u8]) -> Result<(Ballot, &[u8]), WireFault>
    ensures exact { Gives (λ x. (x.0, x.1.now)) result (raw_ballot_at bytes.now) }
    ensures taken { IfOk result (λ x. Takes 5 bytes.now x.1.now) }
{
    let (round, rest) = number_of(bytes)?;
    let (node, rest) = first_byte(rest)?;
    Ok((Ballot { round, node }, rest))
}

/// Reads a ballot of a group of `size` nodes. Fails with `Ballot` if the round is 0 or the node is
/// not of the group, and with `Short` if it ends too soon.
#[inline]
#[tactic(auto, unfolding(crate::specs::Reading::ballot_at, crate::specs::Raw::raw_ballot_at))]
pub(crate) fn ballot_of(size: u8, bytes: &[u8]) -> Result<(Ballot, &[u8]), WireFault>
    ensures exact { Gives (λ x. (x.0, x.1.now)) result (ballot_at size bytes.now) }
    ensures raw { IfOk result (λ x. raw_ballot_at bytes.now ≡ Ok (x.0, x.1.now)) }
    ensures taken { IfOk result (λ x. Takes 5 bytes.now x.1.now) }
{
    let (round, rest) = number_of(bytes)?;
    if round == 0 {
        return Err(WireFault::Ballot);
    }
    let (node, rest) = first_byte(rest)?;
    if node == 0 || node > size {
        return Err(WireFault::Ballot);
    }
    Ok((Ballot { round, node }, rest))
}

/// Reads a ballot of the sender's own. Fails as `ballot_of` does, and with `Ballot` if its node is
/// another one.
#[inline]
#[tactic(auto, unfolding(crate::specs::Reading::own_ballot_at))]
pub(crate) fn own_ballot_of(
    size: u8,
    sender: u8,
    bytes: &[u8],
) -> Result<(Ballot, &[u8]), WireFault>
    ensures { Gives (λ x. (x.0, x.1.now)) result (own_ballot_at size sender bytes.now) }
{
    let (ballot, rest) = ballot_of(size, bytes)?;
    if ballot.node != sender {
        return Err(WireFault::Ballot);
    }
    Ok((ballot, rest))
}

/// Reads a place. Fails with `Place` if it is above `most`, and with `Short` if it ends too soon.
#[inline]
#[tactic(auto, unfolding(crate::specs::Reading::place_at))]
pub(crate) fn place_of(most: u32, bytes: &[u8]) -> Result<(u32, &[u8]), WireFault>
    ensures exact { Gives (λ x. (x.0, x.1.now)) result (place_at most bytes.now) }
    ensures most { IfOk result (λ x. x.0 ≤ most) }
{
    let (place, rest) = number_of(bytes)?;
    if place > most {
        return Err(WireFault::Place);
    }
    Ok((place, rest))
}

/// Reads `count` characters, 1 to 32. Fails with `Short` if there are fewer.
#[inline]
fn characters_in(count: u8, bytes: &[u8]) -> Result<(Characters, usize), WireFault>
    requires some { 0 < count }
    requires few { count ≤ MOST_CHARACTERS }
    ensures { GivesField bytes.now result (bytes_at count bytes.now) }
{
    let count = usize::from(count);
    if bytes.len() < count {
        return Err(WireFault::Short);
    }
    Ok((Characters::new(&bytes[..count]).unwrap(), count))
}

/// Reads characters after their number. Fails with `Value` if the number is 0 or above 32, and with
/// `Short` if they end too soon.
#[inline]
#[tactic(auto, unfolding(crate::specs::Raw::raw_characters_at))]
fn raw_characters_of(bytes: &[u8]) -> Result<(Characters, usize), WireFault>
    ensures { GivesField bytes.now result (raw_characters_at bytes.now) }
{
    let (count, rest) = first_byte(bytes)?;
    if count == 0 || usize::from(count) > MOST_CHARACTERS {
        return Err(WireFault::Value);
    }
    let (characters, taken) = characters_in(count, rest)?;
    Ok((characters, 1 + taken))
}

/// Returns true if `count` keys with the serials from `first` on are a batch: 1 to 32 keys, whose
/// serials are 1 to 4,294,967,295.
#[inline]
pub(crate) fn is_batch(first: u32, count: u8) -> bool
    ensures { result ≡ is_batch first count }
{
    0 < first
        && 0 < count
        && usize::from(count) <= MOST_CHARACTERS
        && first - 1 <= LAST_SERIAL - u32::from(count)
}

/// Reads the characters of a batch after their number. `first` is the serial of the first key.
/// Fails with `Value` if they are no batch, and with `Short` if they end too soon.
#[inline]
#[tactic(auto, unfolding(crate::specs::Reading::characters_at, crate::specs::Raw::raw_characters_at))]
fn characters_of(first: u32, bytes: &[u8]) -> Result<(Characters, usize), WireFault>
    ensures exact { GivesField bytes.now result (characters_at first bytes.now) }
    ensures raw { IfOk result (λ x. raw_characters_at bytes.now ≡ Ok (x.0, drop x.1 bytes.now)) }
{
    let (count, rest) = first_byte(bytes)?;
    if !is_batch(first, count) {
        return Err(WireFault::Value);
    }
    let (characters, taken) = characters_in(count, rest)?;
    Ok((characters, 1 + taken))
}

/// Reads the fields of a batch after its node, without a test of its start and serials.
#[inline]
#[tactic(auto, unfolding(crate::specs::Raw::raw_keys_at))]
fn raw_keys_of(node: u8, bytes: &[u8]) -> Result<(Value, usize), WireFault>
    ensures { GivesField bytes.now result (raw_keys_at node bytes.now) }
{
    let (start, rest) = number_of(bytes)?;
    let (first, rest) = number_of(rest)?;
    let (bytes, taken) = raw_characters_of(rest)?;
    let keys = Value::Keys {
        node,
        start,
        first,
        bytes,
    };
    Ok((keys, 8 + taken))
}

/// Reads a value without a test of its node, start and serials. Fails with `Value` if its tag is
/// neither 0 nor 1, or it has no characters or more than 32, and with `Short` if it ends too soon.
#[inline]
#[tactic(auto, unfolding(crate::specs::Raw::raw_value_at))]
fn raw_value_of(bytes: &[u8]) -> Result<(Value, usize), WireFault>
    ensures { GivesField bytes.now result (raw_value_at bytes.now) }
{
    let (tag, rest) = first_byte(bytes)?;
    if tag == 0 {
        return Ok((Value::Noop, 1));
    }
    if tag != 1 {
        return Err(WireFault::Value);
    }
    let (node, rest) = first_byte(rest)?;
    let (keys, taken) = raw_keys_of(node, rest)?;
    Ok((keys, 2 + taken))
}

/// Reads a vote without a test of its numbers.
#[inline]
#[tactic(auto, using(crate::proofs::VotesLeft::ballot_drop), unfolding(crate::specs::Raw::raw_vote_at))]
pub(crate) fn raw_vote_of(bytes: &[u8]) -> Result<(Vote, usize), WireFault>
    ensures { GivesField bytes.now result (raw_vote_at bytes.now) }
{
    let (place, rest) = number_of(bytes)?;
    let (ballot, rest) = raw_ballot_of(rest)?;
    let (value, taken) = raw_value_of(rest)?;
    let vote = Vote {
        place,
        ballot,
        value,
    };
    Ok((vote, 9 + taken))
}

/// Reads the fields of a batch after its node. Fails with `Value` if its start is 0 or its
/// characters are no batch, and with `Short` if it ends too soon.
#[inline]
#[tactic(auto, unfolding(crate::specs::Raw::keys_rest_at, crate::specs::Raw::raw_keys_at))]
fn keys_rest_of(node: u8, bytes: &[u8]) -> Result<(Value, usize), WireFault>
    ensures exact { GivesField bytes.now result (keys_rest_at node bytes.now) }
    ensures raw { IfOk result (λ x. raw_keys_at node bytes.now ≡ Ok (x.0, drop x.1 bytes.now)) }
{
    let (start, rest) = number_of(bytes)?;
    if start == 0 {
        return Err(WireFault::Value);
    }
    let (first, rest) = number_of(rest)?;
    let (bytes, taken) = characters_of(first, rest)?;
    let keys = Value::Keys {
        node,
        start,
        first,
        bytes,
    };
    Ok((keys, 8 + taken))
}

/// Reads a value, a no-op or a batch of keys of a node of a group of `size` nodes, and the number
/// of its bytes. Fails with `Value` if its tag is neither 0 nor 1, its node is not of the group,
/// its start is 0, or its characters are no batch. Fails with `Short` if it ends too soon.
#[inline]
#[tactic(auto, unfolding(crate::specs::Reading::value_at, crate::specs::Reading::keys_at, crate::specs::Raw::keys_rest_at, crate::specs::Raw::raw_value_at))]
pub(crate) fn value_of(size: u8, bytes: &[u8]) -> Result<(Value, usize), WireFault>
    ensures exact { GivesField bytes.now result (value_at size bytes.now) }
    ensures raw { IfOk result (λ x. raw_value_at bytes.now ≡ Ok (x.0, drop x.1 bytes.now)) }
{
    let (tag, rest) = first_byte(bytes)?;
    if tag == 0 {
        return Ok((Value::Noop, 1));
    }
    if tag != 1 {
        return Err(WireFault::Value);
    }
    let (node, rest) = first_byte(rest)?;
    if !(0 < node && node <= size) {
        return Err(WireFault::Value);
    }
    let (keys, taken) = keys_rest_of(node, rest)?;
    Ok((keys, 2 + taken))
}

/// Reads keys that were typed at the sender, and the number of their bytes. Fails with `Value` if
/// the tag is not 1, the node is not of the group or not the sender, the start is 0, or the
/// characters are no batch. Fails with `Short` if they end too soon.
#[inline]
#[tactic(auto, unfolding(crate::specs::Reading::own_keys_at, crate::specs::Reading::keys_at, crate::specs::Raw::keys_rest_at))]
pub(crate) fn own_keys_of(size: u8, sender: u8, bytes: &[u8]) -> Result<(Value, usize), WireFault>
    ensures { GivesField bytes.now result (own_keys_at size sender bytes.now) }
{
    let (tag, rest) = first_byte(bytes)?;
    if tag != 1 {
        return Err(WireFault::Value);
    }
    let (node, rest) = first_byte(rest)?;
    if !(0 < node && node <= size && node == sender) {
        return Err(WireFault::Value);
    }
    let (keys, taken) = keys_rest_of(node, rest)?;
    Ok((keys, 2 + taken))
}

/// Reads a vote at a place from `low` on, which is one above the place of the vote before. Fails
/// with `Order` if its place is below `low`, with `Place` if the promise does not report on it,
/// with `Ballot` if its ballot is out of range or above the promise's, and as `value_of` does.
#[inline]
#[tactic(auto, using(crate::proofs::VotesLeft::ballot_drop), unfolding(crate::specs::Reading::vote_at, crate::specs::Raw::raw_vote_at))]
pub(crate) fn vote_of(part: Part, low: u32, bytes: &[u8]) -> Result<(Vote, usize), WireFault>
    ensures exact { GivesField bytes.now result
        (vote_at part.size part.ballot part.first part.upto low bytes.now) }
    ensures raw { IfOk result (λ x. raw_vote_at bytes.now ≡ Ok (x.0, drop x.1 bytes.now)) }
    ensures place { IfOk result (λ x. x.0.place < part.upto) }
{
    let (place, rest) = number_of(bytes)?;
    if place < low {
        return Err(WireFault::Order);
    }
    if place < part.first || part.upto <= place {
        return Err(WireFault::Place);
    }
    let (ballot, rest) = ballot_of(part.size, rest)?;
    if part.ballot < ballot {
        return Err(WireFault::Ballot);
    }
    let (value, taken) = value_of(part.size, rest)?;
    let vote = Vote {
        place,
        ballot,
        value,
    };
    Ok((vote, 9 + taken))
}

/// Checks one vote. Returns its place and the bytes after it. Fails as `vote_of` does.
fn pass_vote(part: Part, low: u32, bytes: &[u8]) -> Result<(u32, &[u8]), WireFault>
    ensures read { IfOk result
        (λ x. PassesVote part.size part.ballot part.first part.upto low bytes.now x.0 x.1.now) }
    ensures err { IfErr result
        (λ e. vote_at part.size part.ballot part.first part.upto low bytes.now ≡ Err e) }
    ensures place { IfOk result (λ x. x.0 < part.upto) }
{
    match vote_of(part, low, bytes) {
        Ok((vote, taken)) => Ok((vote.place, &bytes[taken..])),
        Err(fault) => Err(fault),
    }
}

/// Checks `count` votes of a promise. Returns the bytes after them. Fails as the first vote that
/// has a fault.
#[tactic(auto, using(crate::proofs::VotesLeft::few_left))]
pub(crate) fn after_votes(part: Part, count: u32, bytes: &[u8]) -> Result<&[u8], WireFault>
    requires { part.upto ≤ PLACES }
    ensures exact { Gives (λ rest. (votes_left count bytes.now, rest.now)) result
        (votes_at part.size part.ballot part.first part.upto 0 count bytes.now) }
    ensures few { length (votes_left count bytes.now) ≤ count }
{
    let mut rest = bytes;
    let mut low = 0;
    for _ in 0..count {
        let (place, after) = pass_vote(part, low, rest)?;
        rest = after;
        low = place + 1;
    }
    Ok(rest)
}
