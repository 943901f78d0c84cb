//! What a node does at a campaign, a Promise, a Refused and a Submit, with its proposer.
ghost use Rattle.std.specs.Prelude.{◌≡◌, ℕ, ◌+◌, ◌<◌, ◌≤◌, ◌++◌, [], ◌∷◌, Err, OnErr, Some, length, option_map, IfSome, OnOk, false};
ghost use Rattle.paxos_msg.specs.declared.message.Body.TheVariants.{Submit};
ghost use Rattle.paxos_msg.specs.declared.limits.TheConstants.{MOST_CHARACTERS, PLACES};
ghost use Rattle.paxos_proposer.specs.declared.proposer.TheConstants.{MOST_PUMPED};
ghost use Rattle.group_protocol.specs.Protocol.{NeedsMemory, response_to};
ghost use Rattle.paxos_msg.specs.declared.value.Value.{Value};
ghost use Rattle.paxos_msg.specs.Fits.{IsBallot, IsPlace, IsValue};
ghost use Rattle.paxos_msg.specs.Datagrams.{Fits};
ghost use Rattle.group_protocol.specs.Calls.{Does, IsCampaignRefused, Knows, MayFailToSave, MayLackMemory, DoesAndSaves};
ghost use Rattle.group_protocol.specs.ProposerResponses.{on_refused, greater_ballot, unless_refused, are_known, on_submit, is_known, is_known_key, offer_after, offered_with, prepare_from, on_campaign, beginning};
ghost use Rattle.group_protocol.specs.Packets.{datagrams_of, GrowsBy, HasRoom};
ghost use Rattle.paxos_proposer.specs.Proposer.{IsPromisePart, asks_after, heard_promise};
ghost use Rattle.paxos_msg.specs.declared.record.Change.TheVariants.{Promise};
ghost use Rattle.paxos_msg.specs.Ballots.{IsBelow};
ghost use Rattle.paxos_msg.specs.Keys.{keys_from};
ghost use Rattle.base.specs.Calls.{FailsOnlyWith};
ghost use Rattle.paxos_acceptor.specs.Follows.{Follows};
ghost use Rattle.paxos_learner.specs.Entered.{key_of};
ghost use Rattle.group_protocol.specs.Known.{front};
ghost use Rattle.group_protocol.specs.Pump.{accepts_of, pump};
ghost use Rattle.group_protocol.specs.Ranges.{IsGroupBallot, IsGroupValue, IsMember, IsOwnProposer};

use crate::fault::{NodeFault, node_fault};
use crate::laws::responses_fit;
use crate::limits::{MESSAGE_PACKETS, MOST_PUMPED};
use crate::outbox::Outbox;
use crate::packet::To;
use crate::protocol::Protocol;
use crate::pump::{propose, pump};
use paxos_acceptor::laws::{greater_ballots_are_promised, promises_fit};
use paxos_acceptor::{Acceptor, AcceptorFault, Me, Store};
use paxos_learner::laws::key_tests_are_exact;
use paxos_learner::{KeySet, TypedKey};
use paxos_msg::laws::tests_are_exact;
use paxos_msg::limits::{MOST_CHARACTERS, PLACES};
use paxos_msg::{Ballot, Body, Value, View};
use paxos_proposer::laws::{ballot_stays, what_goes_out_fits as accepts_fit};
use paxos_proposer::{Proposer, next_ballot};

/// Asks `acceptor` for its promises from the place `from` on, if there is one.
fn prepare_from(ballot: Ballot, acceptor: u8, from: Option<u32>, me: Me, outbox: &mut Outbox)
    requires me { IsMember me }
    requires ballot { IsBallot me.group.size ballot }
    requires own { ballot.node ≡ me.node }
    requires from { IfSome from IsPlace }
    requires room { HasRoom 1 outbox.old }
    ensures packets { outbox.new.packets
        ≡ outbox.old.packets ++ datagrams_of me (prepare_from ballot acceptor from) }
    ensures grows { GrowsBy 1 outbox.old outbox.new }
{
    if let Some(from) = from {
        outbox.put(me, To::One(acceptor), Body::Prepare { ballot, from });
    }
}

/// Takes a part of a promise under the proposer's own ballot, asks its acceptor for the rest, and
/// pumps. All room is made before.
fn take_part(
    proposer: &mut Proposer,
    view: &View<'_>,
    me: Me,
    outbox: &mut Outbox,
) -> Result<(), NodeFault>
    requires me { IsMember me }
    requires own { IsOwnProposer me proposer.old.known }
    requires part { IsPromisePart proposer.old.known.ballot view.now.body }
    requires fits { Fits me.group view.now }
    requires empty { outbox.old.packets ≡ [] }
    ensures known { OnOk result
        (proposer.new.known ≡ (pump MOST_PUMPED
        (heard_promise proposer.old.known view.now.sender view.now.body)).proposer) }
    ensures packets { OnOk result
        (outbox.new.packets ≡ datagrams_of me
        (prepare_from proposer.old.known.ballot view.now.sender
        (asks_after proposer.old.known view.now.sender view.now.body)
        ++ accepts_of (pump MOST_PUMPED
        (heard_promise proposer.old.known view.now.sender view.now.body)).made)) }
    ensures err { OnErr result
        ((proposer.new.known ≡ proposer.old.known) × (outbox.new.packets ≡ outbox.old.packets)) }
    ensures others { MayLackMemory result }
    ensures own { IsOwnProposer me proposer.new.known }
{
    accepts_fit();
    ballot_stays();
    let Ok(()) = proposer.reserve() else {
        return Err(NodeFault::Memory);
    };
    outbox.make_ready(MESSAGE_PACKETS)?;
    let Ok(asks_on) = proposer.on_promise(view.sender, view) else {
        return Err(NodeFault::Memory);
    };
    prepare_from(proposer.ballot(), view.sender, asks_on, me, outbox);
    pump(proposer, me, outbox);
    Ok(())
}

/// Pumps, and then offers the value, if the pump leaves room for it. Its keys count as offered from
/// then on, if the offer gives an Accept. All room is made before.
fn offer(
    proposer: &mut Proposer,
    offered: &mut KeySet,
    value: &Value,
    me: Me,
    outbox: &mut Outbox,
) -> Result<(), NodeFault>
    requires me { IsMember me }
    requires own { IsOwnProposer me proposer.old.known }
    requires value { IsValue me.group.size value.now }
    requires empty { outbox.old.packets ≡ [] }
    ensures known { OnOk result
        (proposer.new.known
        ≡ (offer_after (pump MOST_PUMPED proposer.old.known) value.now).proposer) }
    ensures offered { OnOk result
        (offered.new.keys ≡ offered_with offered.old.keys value.now
        (offer_after (pump MOST_PUMPED proposer.old.known) value.now).made) }
    ensures packets { OnOk result
        (outbox.new.packets ≡ datagrams_of me
        (accepts_of (pump MOST_PUMPED proposer.old.known).made
        ++ accepts_of (offer_after (pump MOST_PUMPED proposer.old.known) value.now).made)) }
    ensures err { OnErr result
        ((proposer.new.known ≡ proposer.old.known) × (offered.new.keys ≡ offered.old.keys)
        × (outbox.new.packets ≡ outbox.old.packets)) }
    ensures others { MayLackMemory result }
    ensures own { IsOwnProposer me proposer.new.known }
{
    let Ok(()) = proposer.reserve() else {
        return Err(NodeFault::Memory);
    };
    outbox.make_ready(MESSAGE_PACKETS)?;
    offered.reserve(MOST_CHARACTERS)?;
    let made = pump(proposer, me, outbox);
    let next = proposer.next_place();
    if made < MOST_PUMPED && next < PLACES && !proposer.is_kept_from(next) {
        if propose(proposer, Some(*value), me, outbox) {
            offered.insert(*value);
        }
    }
    Ok(())
}

/// Promises a ballot above all that were promised. The votes of this promise are not needed: the
/// Prepare brings them.
fn promise<S: Store>(
    acceptor: &mut Acceptor<S>,
    ballot: Ballot,
    from: u32,
) -> Result<(), AcceptorFault>
    requires ballot { IsBallot acceptor.old.me.group.size ballot }
    requires above { IfSome acceptor.old.kept.promised (λ b. IsBelow b ballot) }
    ensures follows { Follows S.kind (Some (Promise ballot)) acceptor.old acceptor.new result }
    ensures others { FailsOnlyWith (AcceptorFault.Closed ∷ AcceptorFault.Memory
        ∷ AcceptorFault.Store ∷ []) result }
{
    greater_ballots_are_promised();
    if let Err(fault) = acceptor.prepare(ballot, from) {
        return Err(fault);
    }
    Ok(())
}

/// Returns the greater of two ballots, if there was one before.
fn greater_ballot(remembered: Option<Ballot>, promised: Ballot) -> Ballot
    ensures { result ≡ greater_ballot remembered promised }
{
    match remembered {
        Some(remembered) if !(remembered < promised) => remembered,
        _ => promised,
    }
}

/// Returns the proposer, unless its ballot was refused.
fn unless_refused(ballot: Ballot, proposer: Option<Proposer>) -> Option<Proposer>
    ensures { option_map (λ p. p.known) result
        ≡ unless_refused ballot (option_map (λ p. p.known) proposer) }
{
    tests_are_exact();
    match proposer {
        Some(proposer) if proposer.on_refused(ballot) => {
            proposer.drop_ballot();
            None
        }
        kept => kept,
    }
}

impl<S: Store> Protocol<S> {
    /// Begins a ballot of the node's own: promises it, and asks all for their promises from the
    /// known front on.
    pub(crate) fn on_campaign(&mut self, outbox: &mut Outbox) -> Result<(), NodeFault>
        requires open { self.old.is_stopped ≡ false }
        requires empty { outbox.old.packets ≡ [] }
        ensures responds { DoesAndSaves S.kind (on_campaign self.old.known) self outbox result }
        ensures refuses { IsCampaignRefused self.old.known result }
        ensures others { FailsOnlyWith (NodeFault.RoundsSpent ∷ NodeFault.PlacesSpent
            ∷ NodeFault.Memory ∷ NodeFault.Store ∷ []) result }
    {
        let promised = self.acceptor.record().promised;
        let Ok(ballot) = next_ballot(promised, self.remembered, self.me.node) else {
            return Err(NodeFault::RoundsSpent);
        };
        if self.learner.known_front() == PLACES {
            return Err(NodeFault::PlacesSpent);
        }
        outbox.make_ready(1)?;
        self.begin_ballot(ballot, outbox)
    }

    /// Begins a ballot at the known front. A buffer is ready.
    fn begin_ballot(&mut self, ballot: Ballot, outbox: &mut Outbox) -> Result<(), NodeFault>
        requires ballot { IsGroupBallot self.old.known ballot }
        requires own { ballot.node ≡ self.old.known.me.node }
        requires above { IfSome self.old.known.kept.promised (λ b. IsBelow b ballot) }
        requires place { front self.old.known < PLACES }
        requires open { self.old.is_stopped ≡ false }
        requires empty { outbox.old.packets ≡ [] }
        requires ready { 0 < outbox.old.ready }
        ensures responds { DoesAndSaves S.kind (beginning self.old.known ballot) self outbox
            result }
        ensures others { MayFailToSave result }
    {
        accepts_fit();
        promises_fit();
        greater_ballots_are_promised();
        // It says that a restart may load no other record.
        let _record = self.record();
        let from = self.learner.known_front();
        match promise(&mut self.acceptor, ballot, from) {
            Ok(()) => (),
            Err(fault) => return Err(node_fault(fault)),
        }
        self.proposer = Some(Proposer::begin(self.alloc, ballot, from, self.me.group.size));
        // A set that is cleared keeps its table, and clearing goes over all of it.
        self.offered = KeySet::new(self.alloc);
        outbox.put(self.me, To::All, Body::Prepare { ballot, from });
        Ok(())
    }

    /// Takes a part of a promise, if it is for the ballot of the node's own proposer.
    pub(crate) fn on_promise(
        &mut self,
        ballot: Ballot,
        view: &View<'_>,
        outbox: &mut Outbox,
    ) -> Result<(), NodeFault>
        requires part { IsPromisePart ballot view.now.body }
        requires fits { Fits self.old.known.me.group view.now }
        requires empty { outbox.old.packets ≡ [] }
        ensures does { Does self.old self.new outbox.old.packets outbox.new.packets
            (response_to self.old.known view.now.sender view.now.body) result }
        ensures needs { OnErr result (NeedsMemory self.old.known view.now.sender view.now.body) }
        ensures store { self.new.store ≡ self.old.store }
        ensures others { MayLackMemory result }
    {
        responses_fit();
        let Some(proposer) = &mut self.proposer else {
            return Ok(());
        };
        if proposer.ballot() != ballot {
            return Ok(());
        }
        take_part(proposer, view, self.me, outbox)
    }

    /// Remembers the promised ballot that a Refused reports, if it is greater than the remembered
    /// one, and drops the proposer if its ballot was refused.
    pub(crate) fn on_refused(&mut self, ballot: Ballot, promised: Ballot)
        ensures { Knows self.old self.new (on_refused self.old.known ballot promised).node }
    {
        responses_fit();
        self.remembered = Some(greater_ballot(self.remembered, promised));
        self.proposer = unless_refused(ballot, self.proposer.take());
    }

    /// Returns true if the key is learned, or offered under the node's ballot.
    fn is_known_key(&self, key: TypedKey) -> bool
        ensures { result ≡ is_known_key self.now.known (key_of key) }
    {
        key_tests_are_exact();
        self.learner.has_learned(key) || self.offered.contains(key)
    }

    /// Returns true if each of the keys with these characters is known. Their serials go on from
    /// `first`.
    fn are_known(&self, node: u8, start: u32, first: u32, bytes: &[u8]) -> bool
        requires { length bytes.now ≤ MOST_CHARACTERS }
        ensures { result ≡ are_known self.now.known (keys_from node start first bytes.now) }
    {
        let mut serial = u64::from(first);
        for byte in bytes {
            let key = TypedKey {
                serial,
                start,
                node,
                byte: *byte,
            };
            if !self.is_known_key(key) {
                return false;
            }
            serial += 1;
        }
        true
    }

    /// Returns true if each key of the value is known.
    fn is_known(&self, value: &Value) -> bool
        ensures { result ≡ is_known self.now.known value.now }
    {
        match value {
            Value::Noop => true,
            Value::Keys {
                node,
                start,
                first,
                bytes,
            } => self.are_known(*node, *start, *first, bytes.as_slice()),
        }
    }

    /// Offers the value of a Submit after a pump, if the node leads and does not know each key of
    /// the value. All room is made before.
    pub(crate) fn on_submit(&mut self, value: &Value, outbox: &mut Outbox) -> Result<(), NodeFault>
        requires value { IsGroupValue self.old.known value.now }
        requires empty { outbox.old.packets ≡ [] }
        ensures does { Does self.old self.new outbox.old.packets outbox.new.packets
            (on_submit self.old.known value.now) result }
        ensures needs { (j : ℕ) → OnErr result (NeedsMemory self.old.known j (Submit value.now)) }
        ensures store { self.new.store ≡ self.old.store }
        ensures others { MayLackMemory result }
    {
        responses_fit();
        let is_known = self.is_known(value);
        let Some(proposer) = &mut self.proposer else {
            return Ok(());
        };
        if is_known || !proposer.is_covered(proposer.next_place()) {
            return Ok(());
        }
        offer(proposer, &mut self.offered, value, self.me, outbox)
    }
}
