//! A record as bytes.
ghost use Rattle.std.specs.Prelude.{◌≡◌, ◌↔◌, ◌++◌, ◌+◌, ◌*◌, ◌^◌, ◌<◌, ◌≤◌, ℕ, List, length, vec_len, vec_capacity, IfOk, IsErrOf, OnErr, Ok, Err};
ghost use Rattle.paxos_msg.specs.declared.record.Record.{Record};
ghost use Rattle.paxos_msg.specs.declared.record.Change.{Change};
ghost use Rattle.paxos_msg.specs.declared.value.Value.{Value};
ghost use Rattle.paxos_msg.specs.Fits.{AreBytes};
ghost use Rattle.paxos_msg.specs.Records.{changed};
ghost use Rattle.paxos_msg.specs.Spelling.{Puts, number_bytes, votes_bytes};
ghost use Rattle.paxos_acceptor.specs.declared.me.Me.{Me};
ghost use Rattle.paxos_disk.specs.declared.record.version.Version.TheVariants.{One, Two};
ghost use Rattle.paxos_disk.specs.Entries.{IsEntry, MakesChange};
ghost use Rattle.paxos_acceptor.specs.Records.{IsRecord};
ghost use Rattle.paxos_disk.specs.Records.{Rec, record_header, promised_bytes, record_bytes};
ghost use Rattle.paxos_disk.specs.RecordReading.{record_at};
ghost use Rattle.paxos_disk.specs.Version1.{Rec1};
ghost use Rattle.paxos_msg.specs.declared.limits.TheConstants.{PLACES};

use crate::log::entry::enter;
use crate::record::reading::record_of;
use crate::record::version::Version;
use paxos_acceptor::{Me, StoreFault};
use paxos_msg::grammar::{
    ballot_is_spelling, number_is_spelling, value_v1_is_spelling, votes_are_short,
    votes_are_spelling,
};
use paxos_msg::limits::PLACES;
use paxos_msg::{Ballot, Change, Record, Vote, put_ballot, put_number, put_votes};
use std::alloc::{AllocError, Global};

/// Returns the record of `me` whose spelling in version 2 is all of the bytes. Each spelling is
/// read, memory aside. Fails with `Bad` only if they are no such spelling, and else only with
/// `Memory`.
pub fn record_decode(alloc: Global, bytes: &[u8], me: Me) -> Result<Record, StoreFault>
    // The record that is read has this spelling.
    ensures found { IfOk result (λ kept. Rec me bytes.now kept) }
    // Each spelling is read.
    ensures only { (r : Record Value) → Rec me bytes.now r → IfOk result (λ kept. kept ≡ r) }
    ensures bad { IsErrOf result StoreFault.Bad → (r : Record Value) → ¬ Rec me bytes.now r }
    ensures others { ¬ IsErrOf result StoreFault.Device }
{
    record_is_spelling();
    record_of(alloc, Version::Two, bytes, me)
}

/// Returns the record of `me` whose spelling in version 1 is all of the bytes. Each of its votes is
/// for a no-op or a batch of one key. Each spelling is read, memory aside. Fails with `Bad` only if
/// they are no such spelling, and else only with `Memory`.
pub fn record_migrate(alloc: Global, bytes: &[u8], me: Me) -> Result<Record, StoreFault>
    // The record that is read has this spelling.
    ensures found { IfOk result (λ kept. Rec1 me bytes.now kept) }
    // Each spelling is read.
    ensures only { (r : Record Value) → Rec1 me bytes.now r → IfOk result (λ kept. kept ≡ r) }
    ensures bad { IsErrOf result StoreFault.Bad → (r : Record Value) → ¬ Rec1 me bytes.now r }
    ensures others { ¬ IsErrOf result StoreFault.Device }
{
    record_is_spelling();
    record_of(alloc, Version::One, bytes, me)
}

/// Bytes are read as a record in a version exactly where they are its spelling in that version and
/// it is in its ranges.
pub(crate) fn record_is_spelling()
    ensures two { (me : Me) (bytes : List ℕ) (r : Record Value) → me.group.session < 2 ^ 32
        → AreBytes bytes → (record_at Two me bytes ≡ Ok r) ↔ Rec me bytes r }
    ensures one { (me : Me) (bytes : List ℕ) (r : Record Value) → me.group.session < 2 ^ 32
        → AreBytes bytes → (record_at One me bytes ≡ Ok r) ↔ Rec1 me bytes r }
{
    ballot_is_spelling();
    number_is_spelling();
    value_v1_is_spelling();
    votes_are_spelling();
}

/// Appends the header of a record of version 2.
fn put_header(me: Me, out: &mut Vec<u8>)
    requires room { vec_len out.old + 9 ≤ vec_capacity out.old }
    ensures { Puts out.old out.new (record_header 2 me) }
{
    out.push_reserved(b'P');
    out.push_reserved(b'R');
    out.push_reserved(Version::Two.byte());
    out.push_reserved(me.node);
    out.push_reserved(me.group.size);
    put_number(me.group.session, out);
}

/// Appends the promised ballot, or zeros.
fn put_promised(promised: Option<Ballot>, out: &mut Vec<u8>)
    requires room { vec_len out.old + 5 ≤ vec_capacity out.old }
    ensures { Puts out.old out.new (promised_bytes promised) }
{
    match promised {
        Some(ballot) => put_ballot(ballot, out),
        None => {
            put_number(0, out);
            out.push_reserved(0);
        }
    }
}

/// Appends the number of votes, and the votes.
fn put_kept(votes: &[Vote], out: &mut Vec<u8>)
    requires few { length votes.now < 2 ^ 32 }
    requires room { vec_len out.old + 4 + length (votes_bytes votes.now) ≤ vec_capacity out.old }
    ensures { Puts out.old out.new (number_bytes (length votes.now) ++ votes_bytes votes.now) }
{
    put_number(votes.len() as u32, out);
    put_votes(votes, out);
}

/// Returns the length in bytes of the longest spelling of a record with this many votes.
fn most_bytes(votes: usize) -> usize
    requires { votes ≤ PLACES + 1 }
    ensures { result ≡ 22 + 52 * votes }
{
    22 + 52 * votes
}

/// Appends the spelling of the record in version 2. The record is in its ranges.
fn put_record(kept: &Record, me: Me, out: &mut Vec<u8>)
    requires ranges { IsRecord me.group.size kept.now }
    requires room { vec_len out.old + (22 + 52 * length kept.now.votes) ≤ vec_capacity out.old }
    ensures { Puts out.old out.new (record_bytes me kept.now) }
{
    kept_votes_are_few();
    put_header(me, out);
    put_number(kept.starts, out);
    put_promised(kept.promised, out);
    put_kept(kept.votes.as_slice(), out);
}

/// Returns the one spelling of the record in version 2. The record must be in its ranges. Fails
/// only with `Memory`.
pub fn record_encode(alloc: Global, kept: &Record, me: Me) -> Result<Vec<u8>, StoreFault>
    requires { IsRecord me.group.size kept.now }
    ensures ok { IfOk result (λ bytes. bytes.items ≡ record_bytes me kept.now) }
    ensures err { OnErr result (result ≡ Err StoreFault.Memory) }
{
    kept_votes_are_few();
    let mut out = Vec::with_capacity(alloc, most_bytes(kept.votes.as_slice().len()))?;
    put_record(kept, me, &mut out);
    Ok(out)
}

/// Makes a change that can be made, and returns the spelling of the changed record. The room for
/// both is made first, so after an error nothing has changed.
pub(crate) fn spell_changed(
    alloc: Global,
    kept: &mut Record,
    change: Change,
    me: Me,
) -> Result<Vec<u8>, AllocError>
    requires ranges { IsRecord me.group.size kept.old }
    requires entry { IsEntry me.group.size kept.old change }
    ensures makes { MakesChange me.group.size kept.old kept.new change result }
    ensures spelled { IfOk result
        (λ bytes. bytes.items ≡ record_bytes me (changed kept.old change)) }
{
    kept_votes_are_few();
    let mut bytes = Vec::with_capacity(alloc, most_bytes(kept.votes.as_slice().len() + 1))?;
    enter(kept, change, me)?;
    put_record(kept, me, &mut bytes);
    Ok(bytes)
}

/// A record has at most 65,536 votes, each spelled with at most 52 bytes. A change adds at most one
/// vote.
fn kept_votes_are_few()
    ensures few { (size : ℕ) (r : Record Value) → IsRecord size r → length r.votes ≤ PLACES }
    ensures short { (size : ℕ) (r : Record Value) → IsRecord size r
        → length (votes_bytes r.votes) ≤ 52 * length r.votes }
    ensures one_more { (r : Record Value) (c : Change Value)
        → length (changed r c).votes ≤ length r.votes + 1 }
{
    votes_are_short();
}
