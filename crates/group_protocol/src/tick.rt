//! What a node does at a tick.
ghost use Rattle.std.specs.Prelude.{◌≡◌, ◌⊎◌, ◌+◌, ◌<◌, ◌≤◌, [], ◌∷◌, ◌++◌, Err, IsSome, IsTrue, OnErr, Some, is_some};
ghost use Rattle.std.specs.Option.{option_to_list};
ghost use Rattle.paxos_msg.specs.declared.message.Body.TheVariants.{Ask};
ghost use Rattle.paxos_msg.specs.Bodies.{IsBody};
ghost use Rattle.paxos_msg.specs.declared.limits.TheConstants.{MOST_NODES};
ghost use Rattle.group_protocol.specs.declared.limits.TheConstants.{MOST_AGAIN, TICK_PACKETS};
ghost use Rattle.group_protocol.specs.Calls.{Does, MayLackMemory};
ghost use Rattle.group_protocol.specs.Tick.{accept_again, accepts_again, asks_again, on_tick, prepares_again, submits};
ghost use Rattle.group_protocol.specs.WaitingKeys.{batch_of};
ghost use Rattle.group_protocol.specs.Packets.{datagrams_of, GrowsBy, HasRoom, to_all};
ghost use Rattle.group_protocol.specs.Pump.{pump};
ghost use Rattle.group_protocol.specs.Ranges.{IsMember, IsOwnProposer, MaySubmit};

use crate::fault::NodeFault;
use crate::laws::{packets_fit, what_goes_out_fits};
use crate::limits::{MOST_AGAIN, TICK_PACKETS};
use crate::outbox::Outbox;
use crate::packet::To;
use crate::protocol::Protocol;
use crate::pump::pump;
use paxos_acceptor::{Me, Store};
use paxos_learner::Learner;
use paxos_msg::limits::{LAST_PLACE, PLACES};
use paxos_msg::{Body, Value};
use paxos_proposer::Proposer;

/// Asks an acceptor to promise the rest, if it has not promised all places.
fn ask_again(proposer: &Proposer, node: u8, me: Me, outbox: &mut Outbox)
    requires me { IsMember me }
    requires own { IsOwnProposer me proposer.now.known }
    requires node { node ≤ MOST_NODES }
    requires room { HasRoom 1 outbox.old }
    ensures packets { outbox.new.packets
        ≡ outbox.old.packets
        ++ datagrams_of me (option_to_list (asks_again proposer.now.known node)) }
    ensures grows { GrowsBy 1 outbox.old outbox.new }
{
    packets_fit();
    let from = proposer.coverage(node);
    if from < PLACES {
        let ballot = proposer.ballot();
        outbox.put(me, To::One(node), Body::Prepare { ballot, from });
    }
}

/// Asks each acceptor that has not promised all places to promise the rest, unless a majority has
/// promised all.
fn prepare_again(proposer: &Proposer, me: Me, outbox: &mut Outbox)
    requires me { IsMember me }
    requires own { IsOwnProposer me proposer.now.known }
    requires room { HasRoom MOST_NODES outbox.old }
    ensures packets { outbox.new.packets
        ≡ outbox.old.packets ++ datagrams_of me (prepares_again proposer.now.known) }
    ensures grows { GrowsBy MOST_NODES outbox.old outbox.new }
{
    if proposer.is_covered(LAST_PLACE) {
        return;
    }
    for before in 0..me.group.size {
        ask_again(proposer, before + 1, me, outbox);
    }
}

/// Puts the Accept of what is proposed at `place` into the outbox again, if the place is not
/// learned. Returns true if it did.
fn accept_again(
    learner: &Learner,
    proposer: &Proposer,
    place: u32,
    me: Me,
    outbox: &mut Outbox,
) -> bool
    requires me { IsMember me }
    requires own { IsOwnProposer me proposer.now.known }
    requires room { HasRoom 1 outbox.old }
    ensures packets { outbox.new.packets
        ≡ outbox.old.packets
        ++ datagrams_of me (option_to_list
        (accept_again learner.now.learned proposer.now.known place)) }
    ensures some { result ≡ is_some (accept_again learner.now.learned proposer.now.known place) }
    ensures none { ¬ IsTrue result → outbox.new ≡ outbox.old }
    ensures grows { GrowsBy 1 outbox.old outbox.new }
{
    packets_fit();
    if learner.learned(place).is_some() {
        return false;
    }
    match proposer.proposed(place) {
        Some(value) => {
            let ballot = proposer.ballot();
            let accept = Body::Accept {
                ballot,
                place,
                value,
            };
            outbox.put(me, To::All, accept);
            true
        }
        None => false,
    }
}

/// Sends again the Accepts of the places that are not learned: the 16 lowest. Places from 1,024
/// above the front on are never learned. So it looks at no more than 1,024 places without an Accept
/// to send.
fn accept_all_again(learner: &Learner, proposer: &Proposer, me: Me, outbox: &mut Outbox)
    requires me { IsMember me }
    requires own { IsOwnProposer me proposer.now.known }
    requires room { HasRoom MOST_AGAIN outbox.old }
    ensures packets { outbox.new.packets
        ≡ outbox.old.packets
        ++ datagrams_of me (accepts_again learner.now.learned proposer.now.known) }
    ensures grows { GrowsBy MOST_AGAIN outbox.old outbox.new }
{
    let mut sent: u8 = 0;
    for place in learner.known_front()..proposer.next_place() {
        if sent == MOST_AGAIN {
            return;
        }
        if accept_again(learner, proposer, place, me, outbox) {
            sent += 1;
        }
    }
}

/// Submits the batch, if there is one.
fn submit(batch: Option<Value>, me: Me, outbox: &mut Outbox)
    requires me { IsMember me }
    requires batch { MaySubmit me batch }
    requires room { HasRoom 1 outbox.old }
    ensures packets { outbox.new.packets ≡ outbox.old.packets ++ datagrams_of me (submits batch) }
    ensures grows { GrowsBy 1 outbox.old outbox.new }
{
    if let Some(key) = batch {
        outbox.put(me, To::All, Body::Submit { key });
    }
}

/// Submits the batch, if there is one, and asks all for what is learned from `from` on.
fn ask(batch: Option<Value>, from: u32, me: Me, outbox: &mut Outbox)
    requires me { IsMember me }
    requires batch { MaySubmit me batch }
    requires from { IsBody me.group.size me.node (Ask from) }
    requires room { HasRoom 2 outbox.old }
    ensures { outbox.new.packets
        ≡ outbox.old.packets ++ datagrams_of me (submits batch ++ to_all (Ask from) ∷ []) }
{
    submit(batch, me, outbox);
    outbox.put(me, To::All, Body::Ask { from });
}

impl<S: Store> Protocol<S> {
    /// Returns the first keys that wait, at most 32, as one batch.
    fn batch(&self) -> Option<Value>
        ensures { result ≡ batch_of self.now.known self.now.known.waiting }
    {
        let bytes = self.waiting.batch()?;
        Some(Value::Keys {
            node: self.me.node,
            start: self.acceptor.record().starts,
            first: self.waiting.first() as u32,
            bytes,
        })
    }

    /// Asks for more promises, sends Accepts again, pumps, submits and asks, in this order. All
    /// room is made before.
    pub(crate) fn on_tick(&mut self, outbox: &mut Outbox) -> Result<(), NodeFault>
        requires empty { outbox.old.packets ≡ [] }
        ensures does { Does self.old self.new outbox.old.packets outbox.new.packets
            (on_tick self.old.known) result }
        ensures needs { OnErr result
            ((outbox.old.ready < TICK_PACKETS) ⊎ IsSome self.old.known.proposer) }
        ensures store { self.new.store ≡ self.old.store }
        ensures others { MayLackMemory result }
    {
        packets_fit();
        what_goes_out_fits();
        outbox.make_ready(TICK_PACKETS)?;
        let me = self.me;
        let batch = self.batch();
        let from = self.learner.known_front();
        if let Some(proposer) = &mut self.proposer {
            let Ok(()) = proposer.reserve() else {
                return Err(NodeFault::Memory);
            };
            prepare_again(proposer, me, outbox);
            accept_all_again(&self.learner, proposer, me, outbox);
            pump(proposer, me, outbox);
        }
        ask(batch, from, me, outbox);
        Ok(())
    }
}
