//! What a node sends.
use std::marker::Model;

/// The addressees of a packet.
#[derive(Clone, Copy, Debug, PartialEq, Eq)]
pub enum To {
    /// To all nodes of the group, the sender included.
    All,
    /// The node of this number.
    One(u8),
}

/// A datagram and its addressees.
#[derive(Drop)]
pub struct Packet {
    pub to: To,
    /// The bytes of the datagram, at most 440.
    pub bytes: Vec<u8>,
}

impl Model for Packet {
    ghost use Rattle.group_protocol.specs.Packets.{Datagram};

    ghost Value = { Datagram };

    ghost view = { λ p. record { to = p.to; bytes = p.bytes.items } };
}
