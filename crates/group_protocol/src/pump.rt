//! Proposals, one after another, whose Accepts go into an outbox.
ghost use Rattle.std.specs.Prelude.{◌≡◌, ◌≢◌, ◌+◌, ◌<◌, ◌≤◌, ◌++◌, None, IfSome, IsSome, IsTrue, length};
ghost use Rattle.paxos_msg.specs.Fits.{IsValue};
ghost use Rattle.paxos_proposer.specs.Proposer.{next_of, next_value};
ghost use Rattle.paxos_msg.specs.declared.limits.TheConstants.{PLACES};
ghost use Rattle.paxos_proposer.specs.declared.proposer.TheConstants.{MOST_PUMPED};
ghost use Rattle.group_protocol.specs.Packets.{datagrams_of, GrowsBy, HasRoom};
ghost use Rattle.group_protocol.specs.Pump.{accepts_of, propose, pump, stop};
ghost use Rattle.group_protocol.specs.Ranges.{IsMember, IsOwnProposer};

use crate::laws::proposals_fit;
use crate::limits::MOST_PUMPED;
use crate::outbox::Outbox;
use crate::packet::To;
use paxos_acceptor::Me;
use paxos_msg::{Body, Value};
use paxos_proposer::Proposer;

/// Proposes at the next place, if the proposer may, and puts the Accept into the outbox, to all.
/// Returns true if it did.
pub(crate) fn propose(
    proposer: &mut Proposer,
    offered: Option<Value>,
    me: Me,
    outbox: &mut Outbox,
) -> bool
    requires me { IsMember me }
    requires own { IsOwnProposer me proposer.old.known }
    requires value { IfSome offered (IsValue me.group.size) }
    requires place { IsSome offered → next_of proposer.old.known ≢ PLACES }
    requires sure { 0 < proposer.old.room }
    requires room { HasRoom 1 outbox.old }
    ensures known { proposer.new.known
        ≡ (propose proposer.old.known (next_value proposer.old.known offered) stop).proposer }
    ensures packets { outbox.new.packets
        ≡ outbox.old.packets
        ++ datagrams_of me (accepts_of
        (propose proposer.old.known (next_value proposer.old.known offered) stop).made) }
    ensures some { IsTrue result → IsSome (next_value proposer.old.known offered) }
    ensures none { ¬ IsTrue result → next_value proposer.old.known offered ≡ None }
    ensures own { IsOwnProposer me proposer.new.known }
    ensures sure { proposer.old.room ≤ proposer.new.room + 1 }
    ensures grows { GrowsBy 1 outbox.old outbox.new }
{
    proposals_fit();
    match proposer.next_accept(offered) {
        Ok(Some(vote)) => {
            let accept = Body::Accept {
                ballot: vote.ballot,
                place: vote.place,
                value: vote.value,
            };
            outbox.put(me, To::All, accept);
            true
        }
        Ok(None) => false,
        Err(_) => unreachable!(),
    }
}

/// Proposes what the proposer gives with nothing offered, at one place after another, at most 16
/// times. Returns how often it did.
pub(crate) fn pump(proposer: &mut Proposer, me: Me, outbox: &mut Outbox) -> u8
    requires me { IsMember me }
    requires own { IsOwnProposer me proposer.old.known }
    requires sure { MOST_PUMPED ≤ proposer.old.room }
    requires room { HasRoom MOST_PUMPED outbox.old }
    ensures known { proposer.new.known ≡ (pump MOST_PUMPED proposer.old.known).proposer }
    ensures packets { outbox.new.packets
        ≡ outbox.old.packets
        ++ datagrams_of me (accepts_of (pump MOST_PUMPED proposer.old.known).made) }
    ensures made { result ≡ length (pump MOST_PUMPED proposer.old.known).made }
    ensures few { result ≤ MOST_PUMPED }
    ensures own { IsOwnProposer me proposer.new.known }
    ensures sure { proposer.old.room ≤ proposer.new.room + MOST_PUMPED }
    ensures grows { GrowsBy MOST_PUMPED outbox.old outbox.new }
{
    for made in 0..MOST_PUMPED {
        if !propose(proposer, None, me, outbox) {
            return made;
        }
    }
    MOST_PUMPED
}
