//! Reads the entries of a log.
ghost use Rattle.std.specs.Prelude.{◌≡◌, ◌↔◌, ℕ, List, IfOk, IsErr, Ok};
ghost use Rattle.paxos_msg.specs.declared.record.Change.{Change};
ghost use Rattle.paxos_msg.specs.declared.value.Value.{Value};
ghost use Rattle.paxos_msg.specs.Fits.{AreBytes};
ghost use Rattle.paxos_msg.specs.Reading.{Gives, GivesField};
ghost use Rattle.paxos_disk.specs.declared.record.version.Version.{Version};
ghost use Rattle.paxos_disk.specs.Entries.{BeginsEntry};
ghost use Rattle.paxos_disk.specs.LogReading.{entry_at, log_promise_at, log_vote_at, tagged, value_in};

use crate::record::reading::number_of;
use crate::record::version::Version;
use paxos_msg::grammar::{
    ballot_is_spelling, number_is_spelling, value_is_spelling, value_v1_is_spelling,
    votes_are_spelling,
};
use paxos_msg::limits::LAST_PLACE;
use paxos_msg::{Change, Group, Value, WireFault, read_ballot, read_value, read_value_v1};

/// Reads the value at the front of the bytes in that version, and the number of its bytes.
fn value_of(version: Version, group: Group, bytes: &[u8]) -> Result<(Value, usize), WireFault>
    ensures { GivesField bytes.now result (value_in version group.size bytes.now) }
{
    match version {
        Version::One => read_value_v1(bytes, group),
        Version::Two => read_value(bytes, group),
    }
}

/// Reads a promise after its tag. Returns it and the bytes after it.
fn promise_of(group: Group, bytes: &[u8]) -> Result<(Change, &[u8]), WireFault>
    ensures { Gives (λ x. (x.0, x.1.now)) result (log_promise_at group.size bytes.now) }
{
    let (ballot, taken) = read_ballot(bytes, group)?;
    Ok((Change::Promise(ballot), &bytes[taken..]))
}

/// Reads a vote after its tag. Returns it and the bytes after it.
#[tactic(auto, unfolding(crate::specs::LogReading::log_vote_at, paxos_msg::specs::Reading::place_at))]
fn vote_of(version: Version, group: Group, bytes: &[u8]) -> Result<(Change, &[u8]), WireFault>
    ensures { Gives (λ x. (x.0, x.1.now)) result (log_vote_at version group.size bytes.now) }
{
    let (place, rest) = number_of(bytes)?;
    if place > LAST_PLACE {
        return Err(WireFault::Place);
    }
    let (ballot, taken) = read_ballot(rest, group)?;
    let rest = &rest[taken..];
    let (value, taken) = value_of(version, group, rest)?;
    Ok((Change::Ballotted(place, ballot, value), &rest[taken..]))
}

/// Reads the change after this tag. Returns it and the bytes after it.
fn tagged(
    version: Version,
    group: Group,
    tag: u8,
    bytes: &[u8],
) -> Result<(Change, &[u8]), WireFault>
    ensures { Gives (λ x. (x.0, x.1.now)) result (tagged version group.size tag bytes.now) }
{
    match tag {
        1 => Ok((Change::Start, bytes)),
        2 => promise_of(group, bytes),
        3 => vote_of(version, group, bytes),
        _ => Err(WireFault::Kind),
    }
}

/// Reads the first entry. Returns it and the bytes after it.
#[tactic(auto, unfolding(crate::specs::LogReading::entry_at))]
fn entry_of(version: Version, group: Group, bytes: &[u8]) -> Result<(Change, &[u8]), WireFault>
    ensures { Gives (λ x. (x.0, x.1.now)) result (entry_at version group.size bytes.now) }
{
    match bytes {
        [] => Err(WireFault::Short),
        [tag, rest @ ..] => tagged(version, group, *tag, rest),
    }
}

/// An entry is read exactly where the bytes begin with its spelling.
pub(crate) fn entry_is_spelling()
    ensures { (version : Version) (size : ℕ) (bytes : List ℕ) (c : Change Value) (rest : List ℕ)
        → AreBytes bytes → (entry_at version size bytes ≡ Ok (c, rest))
        ↔ BeginsEntry version size bytes c rest }
{
    ballot_is_spelling();
    number_is_spelling();
    value_is_spelling();
    value_v1_is_spelling();
    votes_are_spelling();
}

/// Reads the first entry. Returns it and the bytes after it. Fails if the bytes begin with no
/// entry.
pub(crate) fn first_entry(
    version: Version,
    group: Group,
    bytes: &[u8],
) -> Result<(Change, &[u8]), WireFault>
    ensures found { IfOk result (λ x. BeginsEntry version group.size bytes.now x.0 x.1.now) }
    ensures only { (c : Change Value) (rest : List ℕ)
        → BeginsEntry version group.size bytes.now c rest
        → IfOk result (λ x. (x.0 ≡ c) × (x.1.now ≡ rest)) }
    ensures none { IsErr result → (c : Change Value) (rest : List ℕ)
        → ¬ BeginsEntry version group.size bytes.now c rest }
{
    entry_is_spelling();
    entry_of(version, group, bytes)
}
