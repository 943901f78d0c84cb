//! Where the header of a datagram has what is looked at before the datagram is read (`decode` of
//! `paxos_msg` reads it).

/// The index of the message's kind.
pub(crate) const KIND: usize = 3;

/// The index of the sender's number.
pub(crate) const SENDER: usize = 4;
