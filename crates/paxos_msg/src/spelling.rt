//! Writes the parts of a datagram at the end of a vector. Each function needs the room to be made
//! before, so it takes no memory and cannot fail.
ghost use Rattle.std.specs.Prelude.{◌+◌, ◌≤◌, ◌∷◌, [], length, vec_len, vec_capacity};
ghost use Rattle.paxos_msg.specs.Spelling.{Puts, number_bytes, ballot_bytes, value_bytes, vote_bytes, votes_bytes};
ghost use Rattle.paxos_msg.specs.Datagrams.{header_bytes};

use crate::ballot::Ballot;
use crate::characters::Characters;
use crate::message::Group;
use crate::value::{Value, Vote};
use std::mem;

/// The version of the datagrams.
const VERSION: u8 = 2;

/// Appends a byte.
#[inline(always)]
pub(crate) fn put_byte(byte: u8, out: &mut Vec<u8>)
    requires room { vec_len out.old + 1 ≤ vec_capacity out.old }
    ensures { Puts out.old out.new (byte ∷ []) }
{
    out.push_reserved(byte);
}

/// Appends bytes. Where the vector is a local one of the caller, no store of a byte can change its
/// length and pointer, and the loop becomes one copy of a block. That is why this function is
/// inlined.
#[inline(always)]
fn put_bytes(bytes: &[u8], out: &mut Vec<u8>)
    requires room { vec_len out.old + length bytes.now ≤ vec_capacity out.old }
    ensures { Puts out.old out.new bytes.now }
{
    for byte in bytes {
        out.push_reserved(*byte);
    }
}

/// Appends a number: four bytes, high byte first. The vector must have room for them.
#[inline(always)]
pub fn put_number(number: u32, out: &mut Vec<u8>)
    requires room { vec_len out.old + 4 ≤ vec_capacity out.old }
    ensures { Puts out.old out.new (number_bytes number) }
{
    let [first, second, third, fourth] = number.to_be_bytes();
    out.push_reserved(first);
    out.push_reserved(second);
    out.push_reserved(third);
    out.push_reserved(fourth);
}

/// Appends a ballot: its round and its node, five bytes. The vector must have room for them.
pub fn put_ballot(ballot: Ballot, out: &mut Vec<u8>)
    requires room { vec_len out.old + 5 ≤ vec_capacity out.old }
    ensures { Puts out.old out.new (ballot_bytes ballot) }
{
    put_number(ballot.round, out);
    put_byte(ballot.node, out);
}

/// Appends characters: their number, in one byte, and each of them.
#[inline(always)]
fn put_characters(characters: Characters, out: &mut Vec<u8>)
    requires room { vec_len out.old + 1 + length characters ≤ vec_capacity out.old }
    ensures { Puts out.old out.new (length characters ∷ characters) }
{
    put_byte(characters.len(), out);
    put_bytes(characters.as_slice(), out);
}

/// Appends a value. A no-op is a 0. Keys are a 1, the node, start and first serial, the number of
/// keys in one byte, and the characters: 12 to 43 bytes. The vector must have room for them.
pub fn put_value(value: Value, out: &mut Vec<u8>)
    requires room { vec_len out.old + length (value_bytes value) ≤ vec_capacity out.old }
    ensures { Puts out.old out.new (value_bytes value) }
{
    match value {
        Value::Noop => put_byte(0, out),
        Value::Keys {
            node,
            start,
            first,
            bytes,
        } => {
            // Through a reference each store of a byte might change the vector's length and
            // pointer. Those of a local vector stay in registers. Neither step takes memory.
            let empty = Vec::new(*out.allocator());
            let mut own = mem::replace(out, empty);
            put_byte(1, &mut own);
            put_byte(node, &mut own);
            put_number(start, &mut own);
            put_number(first, &mut own);
            put_characters(bytes, &mut own);
            *out = own;
        }
    }
}

/// Appends a vote: its place, ballot and value.
fn put_vote(vote: Vote, out: &mut Vec<u8>)
    requires room { vec_len out.old + length (vote_bytes vote) ≤ vec_capacity out.old }
    ensures { Puts out.old out.new (vote_bytes vote) }
{
    put_number(vote.place, out);
    put_ballot(vote.ballot, out);
    put_value(vote.value, out);
}

/// Appends votes, each as its place, ballot and value. The vector must have room for them.
pub fn put_votes(votes: &[Vote], out: &mut Vec<u8>)
    requires room { vec_len out.old + length (votes_bytes votes.now) ≤ vec_capacity out.old }
    ensures { Puts out.old out.new (votes_bytes votes.now) }
{
    for vote in votes {
        put_vote(*vote, out);
    }
}

/// Appends the header of a datagram of kind `kind`, ten bytes.
pub(crate) fn put_header(group: Group, kind: u8, sender: u8, out: &mut Vec<u8>)
    requires room { vec_len out.old + 10 ≤ vec_capacity out.old }
    ensures { Puts out.old out.new (header_bytes group kind sender) }
{
    put_byte(b'P', out);
    put_byte(b'G', out);
    put_byte(VERSION, out);
    put_byte(kind, out);
    put_byte(sender, out);
    put_byte(group.size, out);
    put_number(group.session, out);
}
