//! The ranges of a record.
ghost use Rattle.std.specs.Prelude.{◌↔◌, IsTrue};
ghost use Rattle.paxos_acceptor.specs.Records.{AreKept, IsRecord};

use crate::me::Me;
use paxos_msg::limits::PLACES;
use paxos_msg::{Ballot, Record, Vote, fits_ballot, fits_votes};

/// Returns true if the votes may be kept with the promised ballot. Without one there are none. Else
/// their places ascend and none is above it.
fn are_kept(size: u8, promised: Option<Ballot>, votes: &[Vote]) -> bool
    ensures { IsTrue result ↔ AreKept size promised votes.now }
{
    match promised {
        None => votes.is_empty(),
        Some(ballot) => fits_ballot(size, ballot) && fits_votes(size, ballot, 0, PLACES, votes),
    }
}

/// Returns true if the record is in its ranges: the votes ascend by place, none is above the
/// promised ballot, and each field is in its range. Without a promised ballot there are no votes.
pub fn record_fits(kept: &Record, me: Me) -> bool
    ensures { IsTrue result ↔ IsRecord me.group.size kept.now }
{
    // The prover knows the range of a field once it is read.
    let _starts = kept.starts;
    are_kept(me.group.size, kept.promised, kept.votes.as_slice())
}
