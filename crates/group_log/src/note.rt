//! What a node says of itself, as text.
ghost use Rattle.std.specs.Prelude.{◌≡◌, IfOk, string_bytes};
ghost use Rattle.group_log.specs.Notes.{line_text};

use crate::drops::Drops;
use group_protocol::NodeFault;
use paxos_msg::limits::PLACES;
use paxos_msg::{Ballot, Group};
use pcode_machine::End;
use std::alloc::{AllocError, Global};
use std::fmt;
use std::net::SocketAddr;

/// How a node's run ended.
#[derive(Clone, Copy, Debug, PartialEq, Eq)]
pub enum ProcessEnd {
    /// All turns were made.
    Turns,
    /// The node refused to start, or to go on.
    Node(NodeFault),
    /// A socket could not be made, memory ran out, or the output could not be written.
    Other,
}

/// What a node says of itself.
#[derive(Clone, Copy, Debug)]
pub enum Note<'a> {
    /// Its code file, of this path, cannot be read.
    NoFile(&'a str),
    /// No socket can be made at this address.
    NoSocket(SocketAddr),
    /// Its record, of this path, cannot be loaded, or a save of it has failed.
    NoRecord(&'a str),
    /// Its record, of this path, is none that this node of this group can have.
    BadRecord(&'a str),
    /// It has started for the first time, over no record or an empty one.
    StartedNew(Group),
    /// It has started over a record, which counts this start.
    Started {
        group: Group,
        starts: u32,
        promised: Option<Ballot>,
        places: usize,
    },
    /// It asks for promises under this ballot.
    Campaigns(Ballot),
    /// It was asked to campaign, and refused.
    CampaignRefused(NodeFault),
    /// It leads: a majority has promised under this ballot.
    Leads(Ballot),
    /// Its ballot was refused, and `by` is the greatest one that it knows of.
    BallotRefused {
        ballot: Ballot,
        by: Option<Ballot>,
    },
    /// It has dropped datagrams since the last note of this kind.
    Dropped(Drops),
    /// It has sent so many datagrams to other nodes since the last such count, and the system took
    /// none.
    Unsent(u32),
    /// The keys that wait are this many, and typed bytes are left for which there is no room.
    Full(usize),
    /// So many places are learned, from place 0 on.
    Places(u32),
    /// So many places are learned, from place 0 on, and so many typed keys wait.
    Known {
        places: u32,
        waiting: usize,
    },
    /// A line of its trace cannot be written, or the record could not be read for it. No line is
    /// written from then on.
    TraceLost,
    /// Its program has ended. The node goes on, and reads no more keys.
    Program(End),
    /// Its run has ended.
    Ended(ProcessEnd),
}

/// A ballot as text: `ROUND.NODE`, or `-` for none.
#[derive(Clone, Copy)]
struct Shown(Option<Ballot>);

impl fmt::Display for Shown {
    ghost use Rattle.std.specs.Prelude.{Some};
    ghost use Rattle.group_log.specs.Notes.{ballot_or_dash};

    ghost output = { λ shown. Some (ballot_or_dash shown.0) };

    fn fmt<W: fmt::Write>(&self, f: &mut fmt::Formatter<W>) -> fmt::Result {
        match self.0 {
            Some(Ballot { round, node }) => write!(f, "{round}.{node}"),
            None => write!(f, "-"),
        }
    }
}

impl fmt::Display for ProcessEnd {
    ghost use Rattle.std.specs.Prelude.{Some};
    ghost use Rattle.group_log.specs.Notes.{end_text};

    ghost output = { λ end. Some (end_text end) };

    fn fmt<W: fmt::Write>(&self, f: &mut fmt::Formatter<W>) -> fmt::Result {
        match self {
            ProcessEnd::Turns => write!(f, "ended"),
            ProcessEnd::Node(fault) => write!(f, "ended refused {fault}"),
            ProcessEnd::Other => write!(f, "ended refused"),
        }
    }
}

/// The source of a dropped datagram as text, or nothing.
#[derive(Clone, Copy)]
struct LastSource(Option<SocketAddr>);

impl fmt::Display for LastSource {
    ghost use Rattle.std.specs.Prelude.{Some};
    ghost use Rattle.group_log.specs.Notes.{last_source_text};

    ghost output = { λ last. Some (last_source_text last.0) };

    fn fmt<W: fmt::Write>(&self, f: &mut fmt::Formatter<W>) -> fmt::Result {
        match self.0 {
            Some(address) => write!(f, " last source {address}"),
            None => Ok(()),
        }
    }
}

/// How a program ended, as text.
#[derive(Clone, Copy)]
struct HowEnded(End);

impl fmt::Display for HowEnded {
    ghost use Rattle.std.specs.Prelude.{Some};
    ghost use Rattle.group_log.specs.Notes.{program_text};

    ghost output = { λ how. Some (program_text how.0) };

    fn fmt<W: fmt::Write>(&self, f: &mut fmt::Formatter<W>) -> fmt::Result {
        match self.0 {
            End::Normal => write!(f, "program ended"),
            End::Error {
                number,
                procedure,
                at,
            } => write!(
                f,
                "program ended execution error {number} in procedure {procedure} at {at}"
            ),
        }
    }
}

/// Why a campaign is refused, in words, where a person can do something about it.
#[derive(Clone, Copy)]
struct Because(NodeFault);

impl fmt::Display for Because {
    ghost use Rattle.std.specs.Prelude.{Some};
    ghost use Rattle.group_log.specs.Notes.{because_text};

    ghost output = { λ because. Some (because_text because.0) };

    fn fmt<W: fmt::Write>(&self, f: &mut fmt::Formatter<W>) -> fmt::Result {
        match self.0 {
            NodeFault::PlacesSpent => write!(
                f,
                ": all places are taken, so there is nothing to lead for"
            ),
            _ => Ok(()),
        }
    }
}

impl fmt::Display for Drops {
    ghost use Rattle.std.specs.Prelude.{Some};
    ghost use Rattle.group_log.specs.Notes.{drops_text};

    ghost output = { λ drops. Some (drops_text drops) };

    fn fmt<W: fmt::Write>(&self, f: &mut fmt::Formatter<W>) -> fmt::Result {
        write!(
            f,
            "dropped source {} version {} size {} session {} damaged {}{}",
            self.source,
            self.version,
            self.size,
            self.session,
            self.damaged,
            LastSource(self.last_source)
        )
    }
}

impl fmt::Display for Note<'_> {
    ghost use Rattle.std.specs.Prelude.{Some};
    ghost use Rattle.group_log.specs.Notes.{note_text};

    ghost output = { λ note. Some (note_text note) };

    fn fmt<W: fmt::Write>(&self, f: &mut fmt::Formatter<W>) -> fmt::Result {
        match self {
            Note::NoFile(path) => write!(f, "file {path} cannot be read"),
            Note::NoSocket(address) => write!(f, "socket {address} cannot be made"),
            Note::NoRecord(path) => write!(f, "record {path} cannot be loaded or saved"),
            Note::BadRecord(path) => write!(f, "record {path} is damaged, or another node's"),
            Note::StartedNew(Group { size, session }) => {
                write!(f, "started size {size} session {session} record new")
            }
            Note::Started {
                group: Group { size, session },
                starts,
                promised,
                places,
            } => write!(
                f,
                "started size {size} session {session} starts {starts} promised {} places {places}",
                Shown(*promised)
            ),
            Note::Campaigns(ballot) => write!(f, "campaigns ballot {}", Shown(Some(*ballot))),
            Note::CampaignRefused(fault) => {
                write!(f, "campaign refused {fault}{}", Because(*fault))
            }
            Note::Leads(ballot) => write!(f, "leads ballot {}", Shown(Some(*ballot))),
            Note::BallotRefused { ballot, by } => write!(
                f,
                "refused by {} ballot {}",
                Shown(*by),
                Shown(Some(*ballot))
            ),
            Note::Dropped(drops) => write!(f, "{drops}"),
            Note::Unsent(count) => { write!(f, "cannot send: none of {count} datagrams was taken") }
            Note::Full(waiting) => write!(
                f,
                "no room for typed keys: {waiting} wait to be chosen, and more are held back"
            ),
            Note::Places(places) => write!(f, "places {places} of {PLACES}"),
            Note::Known { places, waiting } => {
                write!(f, "known front {places} waiting {waiting}")
            }
            Note::TraceLost => write!(f, "trace lost: it cannot be written"),
            Note::Program(end) => write!(f, "{}", HowEnded(*end)),
            Note::Ended(end) => write!(f, "{end}"),
        }
    }
}

/// Returns the line of `note`: the time of `millis` milliseconds in seconds with three decimals,
/// then `node`, then the text of the note and a line feed. Fails if memory runs out.
///
/// The time is from the start of 1970 on, in UTC, as `date +%s.%3N` prints it.
pub fn line_of(alloc: Global, millis: u64, node: u8, note: &Note<'_>) -> Result<String, AllocError>
    ensures { IfOk result (λ line. string_bytes line ≡ line_text millis node note.now) }
{
    let seconds = millis / 1_000;
    let tenths = millis / 100 % 10;
    let hundredths = millis / 10 % 10;
    let thousandths = millis % 10;
    format!(in alloc; "{seconds}.{tenths}{hundredths}{thousandths} node {node} {note}\n")
}
