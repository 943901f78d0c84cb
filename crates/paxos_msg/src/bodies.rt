//! The kinds of messages: of each body its number, its ranges, its writing and its reading.
ghost use Rattle.std.specs.Prelude.{◌≡◌, ◌↔◌, ◌+◌, ◌<◌, ◌≤◌, ◌++◌, ◌∷◌, IsTrue, length, vec_len, vec_capacity};
ghost use Rattle.paxos_msg.specs.declared.message.Body.TheVariants as body;
ghost use Rattle.paxos_msg.specs.declared.limits.TheConstants.{MOST_VOTES};
ghost use Rattle.paxos_msg.specs.Bodies.{IsBody, HasUpTo, accept_at, accepted_at, ask_at, body_at, body_bytes, kind_of, prepare_at, promise_at, refused_at, said, submit_at, tell_at};
ghost use Rattle.paxos_msg.specs.Reading.{Gives};
ghost use Rattle.paxos_msg.specs.Spelling.{Puts, ballot_bytes, number_bytes, value_bytes, votes_bytes};

use crate::ballot::Ballot;
use crate::fault::WireFault;
use crate::lent::LentVotes;
use crate::limits::{LAST_PLACE, MOST_VOTES, PLACES};
use crate::message::{Body, BodyView};
use crate::ranges::{are_own_keys, fits_ballot, fits_value, fits_votes, is_below};
use crate::reading::{
    Part, after_votes, ballot_of, first_byte, own_ballot_of, own_keys_of, place_of, value_of,
};
use crate::spelling::{put_ballot, put_byte, put_number, put_value, put_votes};
use crate::value::{Value, Vote};

/// The greatest number of a message's kind. Kinds are 1 to 8.
pub const LAST_KIND: u8 = 8;

/// Returns the number of a body's kind, 1 to `LAST_KIND`.
pub(crate) fn kind(body: &Body) -> u8
    ensures { result ≡ kind_of body.now }
{
    match body {
        Body::Prepare { .. } => 1,
        Body::Promise { .. } => 2,
        Body::Accept { .. } => 3,
        Body::Accepted { .. } => 4,
        Body::Refused { .. } => 5,
        Body::Submit { .. } => 6,
        Body::Ask { .. } => 7,
        Body::Tell { .. } => 8,
    }
}

/// Returns true if a promise is in its ranges: `upto` is at most 65,536, `first` is below it, and
/// there are at most 8 votes, each in order.
fn fits_promise(size: u8, ballot: Ballot, first: u32, upto: u32, votes: &[Vote]) -> bool
    ensures { IsTrue result ↔ IsBody size 0 (body.Promise ballot first upto votes.now) }
{
    fits_ballot(size, ballot)
        && first <= LAST_PLACE
        && upto <= PLACES
        && first < upto
        && votes.len() <= MOST_VOTES
        && fits_votes(size, ballot, first, upto, votes)
}

/// Returns true if a body that `sender` sends is in its ranges.
pub(crate) fn fits_body(size: u8, sender: u8, body: &Body) -> bool
    ensures { IsTrue result ↔ IsBody size sender body.now }
{
    match body {
        Body::Prepare { ballot, from } => {
            fits_ballot(size, *ballot) && ballot.node == sender && *from <= LAST_PLACE
        }
        Body::Promise {
            ballot,
            first,
            upto,
            votes,
        } => fits_promise(size, *ballot, *first, *upto, votes.as_slice()),
        Body::Accept {
            ballot,
            place,
            value,
        } => {
            fits_ballot(size, *ballot)
                && ballot.node == sender
                && *place <= LAST_PLACE
                && fits_value(size, *value)
        }
        Body::Accepted {
            ballot,
            place,
            value,
        } => fits_ballot(size, *ballot) && *place <= LAST_PLACE && fits_value(size, *value),
        Body::Refused { ballot, promised } => {
            fits_ballot(size, *ballot)
                && fits_ballot(size, *promised)
                && is_below(*ballot, *promised)
        }
        Body::Submit { key } => fits_value(size, *key) && are_own_keys(sender, *key),
        Body::Ask { from } => *from <= PLACES,
        Body::Tell { place, value } => *place <= LAST_PLACE && fits_value(size, *value),
    }
}

/// Appends the fields of a promise: its ballot, the places from `first` up to `upto`, the number of
/// votes in one byte, and the votes.
fn put_promise(ballot: Ballot, first: u32, upto: u32, votes: &[Vote], out: &mut Vec<u8>)
    requires few { length votes.now ≤ MOST_VOTES }
    requires room { vec_len out.old + 14 + length (votes_bytes votes.now) ≤ vec_capacity out.old }
    ensures { Puts out.old out.new
        (ballot_bytes ballot ++ number_bytes first ++ number_bytes upto
        ++ length votes.now ∷ votes_bytes votes.now) }
{
    put_ballot(ballot, out);
    put_number(first, out);
    put_number(upto, out);
    put_byte(votes.len() as u8, out);
    put_votes(votes, out);
}

/// Appends a ballot, a place and a value.
fn put_proposal(ballot: Ballot, place: u32, value: Value, out: &mut Vec<u8>)
    requires room { vec_len out.old + 9 + length (value_bytes value) ≤ vec_capacity out.old }
    ensures { Puts out.old out.new
        (ballot_bytes ballot ++ number_bytes place ++ value_bytes value) }
{
    put_ballot(ballot, out);
    put_number(place, out);
    put_value(value, out);
}

/// Appends a body. A promise has at most 8 votes.
pub(crate) fn put_body(body: &Body, out: &mut Vec<u8>)
    requires few { HasUpTo MOST_VOTES body.now }
    requires room { vec_len out.old + length (body_bytes body.now) ≤ vec_capacity out.old }
    ensures { Puts out.old out.new (body_bytes body.now) }
{
    match body {
        Body::Prepare { ballot, from } => {
            put_ballot(*ballot, out);
            put_number(*from, out);
        }
        Body::Promise {
            ballot,
            first,
            upto,
            votes,
        } => put_promise(*ballot, *first, *upto, votes.as_slice(), out),
        Body::Accept {
            ballot,
            place,
            value,
        }
        | Body::Accepted {
            ballot,
            place,
            value,
        } => put_proposal(*ballot, *place, *value, out),
        Body::Refused { ballot, promised } => {
            put_ballot(*ballot, out);
            put_ballot(*promised, out);
        }
        Body::Submit { key } => put_value(*key, out),
        Body::Ask { from } => put_number(*from, out),
        Body::Tell { place, value } => {
            put_number(*place, out);
            put_value(*value, out);
        }
    }
}

/// Reads the body of a Prepare: a ballot of the sender's own, and the first place asked for.
#[tactic(auto, unfolding(crate::specs::Bodies::prepare_at))]
fn prepare_of(size: u8, sender: u8, bytes: &[u8]) -> Result<(BodyView<'_>, &[u8]), WireFault>
    ensures { Gives (λ x. (said x.0, x.1.now)) result (prepare_at size sender bytes.now) }
{
    let (ballot, rest) = own_ballot_of(size, sender, bytes)?;
    let (from, rest) = place_of(LAST_PLACE, rest)?;
    Ok((BodyView::Prepare { ballot, from }, rest))
}

/// Reads the body of a Promise. Fails with `Place` if `upto` is above 65,536 or not above `first`,
/// and with `Count` if there are more than 8 votes.
#[tactic(auto, unfolding(crate::specs::Bodies::promise_at))]
fn promise_of(size: u8, bytes: &[u8]) -> Result<(BodyView<'_>, &[u8]), WireFault>
    ensures { Gives (λ x. (said x.0, x.1.now)) result (promise_at size bytes.now) }
{
    let (ballot, rest) = ballot_of(size, bytes)?;
    let (first, rest) = place_of(LAST_PLACE, rest)?;
    let (upto, rest) = place_of(PLACES, rest)?;
    if upto <= first {
        return Err(WireFault::Place);
    }
    let (count, rest) = first_byte(rest)?;
    if usize::from(count) > MOST_VOTES {
        return Err(WireFault::Count);
    }
    let part = Part {
        size,
        ballot,
        first,
        upto,
    };
    let count = u32::from(count);
    let after = after_votes(part, count, rest)?;
    let body = BodyView::Promise {
        ballot,
        first,
        upto,
        votes: LentVotes::new(rest, count),
    };
    Ok((body, after))
}

/// Reads the body of an Accept: a ballot of the sender's own, a place and a value.
#[tactic(auto, unfolding(crate::specs::Bodies::accept_at))]
fn accept_of(size: u8, sender: u8, bytes: &[u8]) -> Result<(BodyView<'_>, &[u8]), WireFault>
    ensures { Gives (λ x. (said x.0, x.1.now)) result (accept_at size sender bytes.now) }
{
    let (ballot, rest) = own_ballot_of(size, sender, bytes)?;
    let (place, rest) = place_of(LAST_PLACE, rest)?;
    let (value, taken) = value_of(size, rest)?;
    let body = BodyView::Accept {
        ballot,
        place,
        value,
    };
    Ok((body, &rest[taken..]))
}

/// Reads the body of an Accepted: a ballot, a place and a value.
#[tactic(auto, unfolding(crate::specs::Bodies::accepted_at))]
fn accepted_of(size: u8, bytes: &[u8]) -> Result<(BodyView<'_>, &[u8]), WireFault>
    ensures { Gives (λ x. (said x.0, x.1.now)) result (accepted_at size bytes.now) }
{
    let (ballot, rest) = ballot_of(size, bytes)?;
    let (place, rest) = place_of(LAST_PLACE, rest)?;
    let (value, taken) = value_of(size, rest)?;
    let body = BodyView::Accepted {
        ballot,
        place,
        value,
    };
    Ok((body, &rest[taken..]))
}

/// Reads the body of a Refused. Fails with `Ballot` also if the promised ballot is not above the
/// refused one.
#[tactic(auto, unfolding(crate::specs::Bodies::refused_at))]
fn refused_of(size: u8, bytes: &[u8]) -> Result<(BodyView<'_>, &[u8]), WireFault>
    ensures { Gives (λ x. (said x.0, x.1.now)) result (refused_at size bytes.now) }
{
    let (ballot, rest) = ballot_of(size, bytes)?;
    let (promised, rest) = ballot_of(size, rest)?;
    if promised <= ballot {
        return Err(WireFault::Ballot);
    }
    Ok((BodyView::Refused { ballot, promised }, rest))
}

/// Reads the body of a Submit: keys that were typed at the sender.
#[tactic(auto, unfolding(crate::specs::Bodies::submit_at))]
fn submit_of(size: u8, sender: u8, bytes: &[u8]) -> Result<(BodyView<'_>, &[u8]), WireFault>
    ensures { Gives (λ x. (said x.0, x.1.now)) result (submit_at size sender bytes.now) }
{
    let (key, taken) = own_keys_of(size, sender, bytes)?;
    Ok((BodyView::Submit { key }, &bytes[taken..]))
}

/// Reads the body of an Ask: a place, at most 65,536.
#[tactic(auto, unfolding(crate::specs::Bodies::ask_at))]
fn ask_of(bytes: &[u8]) -> Result<(BodyView<'_>, &[u8]), WireFault>
    ensures { Gives (λ x. (said x.0, x.1.now)) result (ask_at bytes.now) }
{
    let (from, rest) = place_of(PLACES, bytes)?;
    Ok((BodyView::Ask { from }, rest))
}

/// Reads the body of a Tell: a place and a value.
#[tactic(auto, unfolding(crate::specs::Bodies::tell_at))]
fn tell_of(size: u8, bytes: &[u8]) -> Result<(BodyView<'_>, &[u8]), WireFault>
    ensures { Gives (λ x. (said x.0, x.1.now)) result (tell_at size bytes.now) }
{
    let (place, rest) = place_of(LAST_PLACE, bytes)?;
    let (value, taken) = value_of(size, rest)?;
    Ok((BodyView::Tell { place, value }, &rest[taken..]))
}

/// Reads the body of a message of kind `kind`, 1 to `LAST_KIND`, from `sender`. Returns it and the
/// bytes after it.
#[tactic(auto, unfolding(crate::specs::Bodies::body_at))]
pub(crate) fn body_of(
    size: u8,
    kind: u8,
    sender: u8,
    bytes: &[u8],
) -> Result<(BodyView<'_>, &[u8]), WireFault>
    requires above { 0 < kind }
    requires most { kind ≤ LAST_KIND }
    ensures { Gives (λ x. (said x.0, x.1.now)) result (body_at size kind sender bytes.now) }
{
    match kind {
        1 => prepare_of(size, sender, bytes),
        2 => promise_of(size, bytes),
        3 => accept_of(size, sender, bytes),
        4 => accepted_of(size, bytes),
        5 => refused_of(size, bytes),
        6 => submit_of(size, sender, bytes),
        7 => ask_of(bytes),
        8 => tell_of(size, bytes),
        _ => unreachable!(),
    }
}
