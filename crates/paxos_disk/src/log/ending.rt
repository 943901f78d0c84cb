//! The end of a log, where an entry may have been cut or torn.
ghost use Rattle.std.specs.Prelude.{◌↔◌, ◌-◌, IsTrue};
ghost use Rattle.paxos_disk.specs.Ending.{AreZeros, HasLost, IsCutBatch, IsCutVote, IsEnd, IsLogEnd, IsTornEnd};

use crate::disk::sectors::to_edge;
use crate::log::append::MOST_APPENDED;
use crate::log::reading::first_entry;
use crate::record::version::Version;
use paxos_msg::Group;
use paxos_msg::limits::MOST_CHARACTERS;

/// What may stand behind the whole entries of a log.
#[derive(Clone, Copy)]
pub(crate) enum Ending {
    /// An entry that was cut.
    Cut,
    /// The same, or what a crash may have left of an append, in a file of this many bytes.
    Torn(usize),
}

/// Returns true if bytes of a batch are missing after its tag. In version 2 its count says how many
/// it has.
fn is_cut_batch(version: Version, bytes: &[u8]) -> bool
    ensures { IsTrue result ↔ IsCutBatch version bytes.now }
{
    if bytes.len() < 10 {
        return true;
    }
    match version {
        Version::One => false,
        Version::Two => {
            let count = bytes[9];
            0 < count
                && usize::from(count) <= MOST_CHARACTERS
                && bytes.len() < 10 + usize::from(count)
        }
    }
}

/// Returns true if bytes of a vote are missing after its tag.
fn is_cut_vote(version: Version, bytes: &[u8]) -> bool
    ensures { IsTrue result ↔ IsCutVote version bytes.now }
{
    bytes.len() < 10 || (bytes[9] == 1 && is_cut_batch(version, &bytes[10..]))
}

/// Returns true if the bytes are nothing, or an entry that was cut. They have no whole entry and no
/// unknown tag.
fn is_end(version: Version, bytes: &[u8]) -> bool
    ensures { IsTrue result ↔ IsEnd version bytes.now }
{
    match bytes {
        [] => true,
        [2, rest @ ..] => rest.len() < 5,
        [3, rest @ ..] => is_cut_vote(version, rest),
        _ => false,
    }
}

/// Returns true if the bytes are zeros alone.
fn are_zeros(bytes: &[u8]) -> bool
    ensures { IsTrue result ↔ AreZeros bytes.now }
{
    bytes.iter().all(|byte| *byte == 0)
}

/// Returns true if the bytes from this offset of a file on are zeros up to the next sector, or from
/// there on.
fn has_lost(at: usize, bytes: &[u8]) -> bool
    ensures { IsTrue result ↔ HasLost at bytes.now }
{
    let edge = to_edge(at);
    if edge < bytes.len() {
        are_zeros(&bytes[..edge]) || are_zeros(&bytes[edge..])
    } else {
        !bytes.is_empty() && are_zeros(bytes)
    }
}

/// Returns true if the bytes from this offset of a file on are what a crash may have left of one
/// append.
fn is_torn_end(version: Version, group: Group, at: usize, bytes: &[u8]) -> bool
    ensures { IsTrue result ↔ IsTornEnd version group.size at bytes.now }
{
    bytes.len() <= MOST_APPENDED
        && has_lost(at, bytes)
        && first_entry(version, group, bytes).is_err()
}

/// Returns true if the bytes may stand behind the whole entries of a log.
pub(crate) fn is_over(ending: Ending, version: Version, group: Group, bytes: &[u8]) -> bool
    ensures { IsTrue result ↔ IsLogEnd ending version group.size bytes.now }
{
    match ending {
        Ending::Cut => is_end(version, bytes),
        Ending::Torn(total) => {
            is_end(version, bytes)
                || is_torn_end(version, group, total.saturating_sub(bytes.len()), bytes)
        }
    }
}
