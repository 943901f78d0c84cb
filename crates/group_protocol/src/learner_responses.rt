//! What a node does at an Accepted, a Tell and an Ask, with its learner.
ghost use Rattle.std.specs.Prelude.{◌≡◌, ℕ, ◌+◌, ◌<◌, ◌≤◌, ◌++◌, [], OnErr, Some};
ghost use Rattle.std.specs.FinMap.{get};
ghost use Rattle.std.specs.Option.{option_to_list};
ghost use Rattle.paxos_msg.specs.declared.message.Body.TheVariants.{Accepted, Ask, Tell};
ghost use Rattle.paxos_msg.specs.declared.limits.TheConstants.{PLACES};
ghost use Rattle.group_protocol.specs.Protocol.{NeedsMemory};
ghost use Rattle.paxos_msg.specs.declared.value.Value.{Value};
ghost use Rattle.paxos_msg.specs.Bodies.{IsBody};
ghost use Rattle.paxos_msg.specs.Fits.{IsNode, IsPlace};
ghost use Rattle.group_protocol.specs.Calls.{Does, MayLackMemory};
ghost use Rattle.group_protocol.specs.LearnerResponses.{on_accepted, on_ask, on_tell, tell_packet};
ghost use Rattle.group_protocol.specs.Packets.{datagrams_of, GrowsBy, HasRoom};
ghost use Rattle.group_protocol.specs.Ranges.{IsGroupBallot, IsGroupValue};

use crate::fault::NodeFault;
use crate::laws::{packets_fit, responses_fit};
use crate::limits::MOST_TOLD;
use crate::outbox::Outbox;
use crate::packet::To;
use crate::protocol::Protocol;
use paxos_acceptor::{Me, Store};
use paxos_learner::Learner;
use paxos_msg::{Ballot, Body, Value};

/// Puts a Tell of what is learned at `place` into the outbox, for node `to`, if a value is learned
/// there.
fn tell_at(learner: &Learner, to: u8, place: u32, me: Me, outbox: &mut Outbox)
    requires node { IsNode me.group.size me.node }
    requires fits { (v : Value) → get learner.now.learned place ≡ Some v
        → IsBody me.group.size me.node (Tell place v) }
    requires room { HasRoom 1 outbox.old }
    ensures packets { outbox.new.packets
        ≡ outbox.old.packets
        ++ datagrams_of me (option_to_list (tell_packet learner.now.learned to place)) }
    ensures grows { GrowsBy 1 outbox.old outbox.new }
{
    if let Some(value) = learner.learned(place) {
        outbox.put(me, To::One(to), Body::Tell { place, value });
    }
}

impl<S: Store> Protocol<S> {
    /// Hears an Accepted.
    pub(crate) fn on_accepted(
        &mut self,
        sender: u8,
        ballot: Ballot,
        place: u32,
        value: Value,
    ) -> Result<(), NodeFault>
        requires sender { IsNode self.old.known.me.group.size sender }
        requires ballot { IsGroupBallot self.old.known ballot }
        requires place { IsPlace place }
        requires value { IsGroupValue self.old.known value }
        ensures does { Does self.old self.new [] []
            (on_accepted self.old.known sender ballot place value) result }
        ensures needs { OnErr result
            (NeedsMemory self.old.known sender (Accepted ballot place value)) }
        ensures store { self.new.store ≡ self.old.store }
        ensures others { MayLackMemory result }
    {
        responses_fit();
        self.learner.on_accepted(sender, ballot, place, value)?;
        Ok(())
    }

    /// Hears a Tell.
    pub(crate) fn on_tell(&mut self, place: u32, value: Value) -> Result<(), NodeFault>
        requires place { IsPlace place }
        requires value { IsGroupValue self.old.known value }
        ensures does { Does self.old self.new [] [] (on_tell self.old.known place value) result }
        ensures needs { (j : ℕ) → OnErr result (NeedsMemory self.old.known j (Tell place value)) }
        ensures store { self.new.store ≡ self.old.store }
        ensures others { MayLackMemory result }
    {
        responses_fit();
        self.learner.on_tell(place, value)?;
        Ok(())
    }

    /// Answers an Ask: sends the sender Tells of what is learned from `from` on, up to the front,
    /// at most 16 places.
    pub(crate) fn on_ask(
        &mut self,
        sender: u8,
        from: u32,
        outbox: &mut Outbox,
    ) -> Result<(), NodeFault>
        requires from { from ≤ PLACES }
        requires empty { outbox.old.packets ≡ [] }
        ensures does { Does self.old self.new outbox.old.packets outbox.new.packets
            (on_ask self.old.known sender from) result }
        ensures needs { OnErr result (NeedsMemory self.old.known sender (Ask from)) }
        ensures store { self.new.store ≡ self.old.store }
        ensures others { MayLackMemory result }
    {
        packets_fit();
        let upto = self.learner.known_front().min(from + MOST_TOLD);
        outbox.make_ready(upto.saturating_sub(from) as usize)?;
        for place in from..upto {
            tell_at(&self.learner, sender, place, self.me, outbox);
        }
        Ok(())
    }
}
