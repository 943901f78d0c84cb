//! Datagrams as text, and the work of the command `show`.
ghost use Rattle.std.specs.Prelude.{◌≤◌, length};
ghost use Rattle.paxos_msg.specs.declared.limits.TheConstants.{MOST_VOTES};
ghost use Rattle.paxos_msg.specs.Bodies.{HasUpTo};

use digits::{HexError, hex_bytes};
use machine_run::RunIo;
use paxos_msg::{Ballot, BodyView, Group, LentVotes, Value, View, Vote, WireFault, decode};
use std::alloc::Global;
use std::io::{self, Write};

/// Why a datagram is not printed.
#[derive(Clone, Copy, Debug)]
pub enum ShowFault {
    /// The digits are no bytes.
    BadHex,
    /// The bytes are no datagram of the group.
    Datagram(WireFault),
    /// Memory ran out, or the write failed.
    Run(RunIo),
}

/// Writes the line of a vote.
fn write_vote<W: Write>(writer: &mut W, vote: Vote) -> io::Result<()> {
    let place = vote.place;
    let ballot = vote.ballot;
    let value = vote.value;
    writeln!(writer, "vote {place} {ballot} {value}")
}

/// Writes the line of a promise, and a line for each of its votes.
fn write_promise<W: Write>(
    writer: &mut W,
    sender: u8,
    ballot: Ballot,
    first: u32,
    upto: u32,
    votes: &LentVotes<'_>,
) -> io::Result<()>
    requires { length votes.now ≤ MOST_VOTES }
{
    let count = votes.iter().count();
    writeln!(
        writer,
        "promise from {sender} ballot {ballot} first {first} upto {upto} votes {count}"
    )?;
    for vote in votes.iter() {
        write_vote(writer, vote)?;
    }
    Ok(())
}

/// Writes the line of an accept or an accepted. `word` says which.
fn write_accept<W: Write>(
    writer: &mut W,
    word: &str,
    sender: u8,
    ballot: Ballot,
    place: u32,
    value: Value,
) -> io::Result<()> {
    writeln!(
        writer,
        "{word} from {sender} ballot {ballot} place {place} {value}"
    )
}

/// Writes the line of a message, and a line for each vote of a promise.
fn write_message<W: Write>(writer: &mut W, view: &View<'_>) -> io::Result<()>
    requires { HasUpTo MOST_VOTES (view.now).body }
{
    let sender = view.sender;
    match &view.body {
        BodyView::Prepare { ballot, from } => {
            writeln!(writer, "prepare from {sender} ballot {ballot} place {from}")
        }
        BodyView::Promise {
            ballot,
            first,
            upto,
            votes,
        } => write_promise(writer, sender, *ballot, *first, *upto, votes),
        BodyView::Accept {
            ballot,
            place,
            value,
        } => write_accept(writer, "accept", sender, *ballot, *place, *value),
        BodyView::Accepted {
            ballot,
            place,
            value,
        } => write_accept(writer, "accepted", sender, *ballot, *place, *value),
        BodyView::Refused { ballot, promised } => {
            writeln!(
                writer,
                "refused from {sender} ballot {ballot} promised {promised}"
            )
        }
        BodyView::Submit { key } => writeln!(writer, "submit from {sender} {key}"),
        BodyView::Ask { from } => writeln!(writer, "ask from {sender} place {from}"),
        BodyView::Tell { place, value } => {
            writeln!(writer, "tell from {sender} place {place} {value}")
        }
    }
}

/// Writes the datagram of `group` that the hexadecimal digits spell. Fails with `BadHex` before any
/// other fault of the digits or the datagram.
pub fn show<W: Write>(
    alloc: Global,
    group: Group,
    digits: &str,
    writer: &mut W,
) -> Result<(), ShowFault> {
    let bytes = match hex_bytes(alloc, digits) {
        Ok(bytes) => bytes,
        Err(HexError::Bad) => return Err(ShowFault::BadHex),
        Err(HexError::Memory) => return Err(ShowFault::Run(RunIo::Memory)),
    };
    match decode(bytes.as_slice(), group) {
        Err(fault) => Err(ShowFault::Datagram(fault)),
        Ok(view) => write_message(writer, &view).or(Err(ShowFault::Run(RunIo::Write))),
    }
}
