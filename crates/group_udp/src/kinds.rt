//! What the kind of a datagram tells before the datagram is read.
ghost use Rattle.std.specs.Prelude.{◌≢◌, ◌↔◌, IsTrue, None};
ghost use Rattle.paxos_msg.specs.Batches.{Msg};
ghost use Rattle.paxos_msg.specs.Datagrams.{Msgs};
ghost use Rattle.paxos_msg.specs.declared.message.Group.{Group};
ghost use Rattle.group_protocol.specs.Known.{Known};
ghost use Rattle.group_protocol.specs.Protocol.{on_message};
ghost use Rattle.group_udp.specs.Kinds.{IsAsk, IsSaving};

use crate::header::KIND;

/// The kind of an Ask.
const ASK: u8 = 7;

/// The kinds of the messages at which a node may save: a Prepare and an Accept.
const SAVING: [u8; 2] = [1, 3];

/// Returns true if a message is an Ask, by the datagram that spells it.
pub fn is_ask(datagram: &[u8]) -> bool
    ensures kind { (g : Group) (m : Msg) → Msgs g datagram.now m
        → (IsTrue result ↔ IsAsk m.body) }
{
    datagram.get(KIND) == Some(&ASK)
}

/// Returns true if a node may save at a message, by the datagram that spells it.
pub fn may_save(datagram: &[u8]) -> bool
    ensures kind { (g : Group) (m : Msg) → Msgs g datagram.now m
        → (IsTrue result ↔ IsSaving m.body) }
    ensures saves { (g : Group) (n : Known) (m : Msg) → Msgs g datagram.now m
        → (on_message n m.sender m.body).saves ≢ None → IsTrue result }
{
    match datagram.get(KIND) {
        Some(kind) => SAVING.contains(kind),
        None => false,
    }
}
