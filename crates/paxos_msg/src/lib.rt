//! Messages of a group, their bytes as datagrams, the records of its acceptors, and the laws of the
//! protocol.
//!
//! For who writes a node, or a tool that reads its traffic. Encode first: `encode(alloc, &message,
//! group)?` gives the datagram of a message for which `fits(&message, group)` holds; `encode_into`
//! writes it into a vector that has the room. Then `decode(bytes, group)?` reads a datagram as a
//! `View`. Its votes stay in the datagram, and it takes no memory. `insert_vote` and `find_vote`
//! keep votes in ascending order of place, and `Record::change` makes one change of an acceptor's
//! record.
//!
//! `laws` and `grammar` have empty functions: the contract of each is a law of the definitions.
//! `limits` names each limit of the protocol.
#![tactic(auto)]

mod ballot;
mod bodies;
mod characters;
pub mod choosing;
mod decoding;
mod encoding;
mod fault;
pub mod grammar;
pub mod laws;
mod lent;
pub mod limits;
mod message;
mod ranges;
mod reading;
mod record;
mod spelling;
mod value;
mod version1;
mod voted;
mod votes;

pub use ballot::Ballot;
pub use bodies::LAST_KIND;
pub use characters::Characters;
pub use decoding::{decode, read_ballot, read_number, read_value, read_votes};
pub use encoding::{encode, encode_into};
pub use fault::WireFault;
pub use lent::LentVotes;
pub use limits::PLACES;
pub use message::{Body, BodyView, Group, Msg, View};
pub use ranges::{fits, fits_ballot, fits_votes};
pub use record::{Change, Record};
pub use spelling::{put_ballot, put_number, put_value, put_votes};
pub use value::{Value, Vote};
pub use version1::read_value_v1;
pub use voted::{find_vote, insert_vote};
pub use votes::Votes;
