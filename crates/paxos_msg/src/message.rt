//! Messages, as values and as they lie in a datagram.
use crate::ballot::Ballot;
use crate::lent::LentVotes;
use crate::value::Value;
use crate::votes::Votes;
use std::marker::Model;

/// A group of nodes.
#[derive(Clone, Copy, Debug, PartialEq, Eq, Hash)]
pub struct Group {
    /// Its nodes are 1 to `size`.
    pub size: u8,
    /// A number that distinguishes groups.
    pub session: u32,
}

/// The body of a message. Places are 0 to 65,535.
#[derive(Drop)]
pub enum Body<V = Value> {
    /// The proposer asks for promises under its ballot, for places from `from` on.
    Prepare {
        ballot: Ballot,
        from: u32,
    },
    /// An acceptor promises to accept nothing below the ballot. It reports its votes at the places
    /// from `first` up to and without `upto`, which is at most 65,536.
    Promise {
        ballot: Ballot,
        first: u32,
        upto: u32,
        votes: Votes<V>,
    },
    /// The proposer asks to accept a value at a place.
    Accept {
        ballot: Ballot,
        place: u32,
        value: V,
    },
    /// An acceptor has accepted the value.
    Accepted {
        ballot: Ballot,
        place: u32,
        value: V,
    },
    /// An acceptor has promised a greater ballot.
    Refused {
        ballot: Ballot,
        promised: Ballot,
    },
    /// A node asks the leader to put its keys at a place.
    Submit {
        key: V,
    },
    /// A node asks for what is learned from a place on, which is at most 65,536.
    Ask {
        from: u32,
    },
    /// A node reports the value that it has learned at a place.
    Tell {
        place: u32,
        value: V,
    },
}

/// A message and the node that sent it.
#[derive(Drop)]
pub struct Msg<V = Value> {
    /// 1 to the group's size.
    pub sender: u8,
    pub body: Body<V>,
}

/// The body of a message in a datagram: a [`Body`] whose votes are still in the
/// datagram.
#[derive(Drop)]
pub enum BodyView<'a> {
    /// The proposer asks for promises under its ballot, for places from `from` on.
    Prepare {
        ballot: Ballot,
        from: u32,
    },
    /// An acceptor promises, and reports its votes at the places from `first` up to and without
    /// `upto`: at most 8.
    Promise {
        ballot: Ballot,
        first: u32,
        upto: u32,
        votes: LentVotes<'a>,
    },
    /// The proposer asks to accept a value at a place.
    Accept {
        ballot: Ballot,
        place: u32,
        value: Value,
    },
    /// An acceptor has accepted the value.
    Accepted {
        ballot: Ballot,
        place: u32,
        value: Value,
    },
    /// An acceptor has promised a greater ballot.
    Refused {
        ballot: Ballot,
        promised: Ballot,
    },
    /// A node asks the leader to put its keys at a place.
    Submit {
        key: Value,
    },
    /// A node asks for what is learned from a place on, which is at most 65,536.
    Ask {
        from: u32,
    },
    /// A node reports the value that it has learned at a place.
    Tell {
        place: u32,
        value: Value,
    },
}

/// A message that lies in a datagram, and the node that sent it.
#[derive(Drop)]
pub struct View<'a> {
    /// 1 to the group's size.
    pub sender: u8,
    pub body: BodyView<'a>,
}

impl<'a> Model for View<'a> {
    ghost use Rattle.paxos_msg.specs.Batches.{Msg};
    ghost use Rattle.paxos_msg.specs.Bodies.{said};

    ghost Value = { Msg };

    ghost view = { λ v. record { sender = v.sender; body = said v.body } };
}
