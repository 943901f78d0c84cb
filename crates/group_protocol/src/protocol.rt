//! A node's part in the protocol: its parts, a typed key, and the calls with an outbox. Its start
//! is in `start`.
ghost use Rattle.std.specs.Prelude.{◌≡◌, ◌⊎◌, ◌+◌, ◌<◌, ◌≤◌, [], ◌∷◌, false, length, IfErr, IfOk, IsErrOf, IsSome, OnOk};
ghost use Rattle.paxos_msg.specs.declared.limits.TheConstants.{LAST_SERIAL};
ghost use Rattle.group_protocol.specs.declared.limits.TheConstants.{MOST_WAITING, TICK_PACKETS};
ghost use Rattle.base.specs.Calls.{FailsOnlyWith};
ghost use Rattle.paxos_acceptor.specs.Stores.{HasSameOwner, IsStoreOf, MayLoadNoMore, MayLoadOnly};
ghost use Rattle.group_protocol.specs.Ranges.{IsInRange};
ghost use Rattle.group_protocol.specs.Known.{on_typed, new_key, next_serial};
ghost use Rattle.paxos_msg.specs.Datagrams.{Fits};
ghost use Rattle.group_protocol.specs.Calls.{Does, DoesAndSaves, IsCampaignRefused, IsAdmitted, RefusesUnlessAdmitted, Knows, IsTypingRefused, MayFailToSave, RefusesIfStopped};
ghost use Rattle.group_protocol.specs.Protocol.{answer_to, NeedsMemory, response_to};
ghost use Rattle.group_protocol.specs.ProposerResponses.{is_leading, on_campaign, own_ballot};
ghost use Rattle.group_protocol.specs.Tick.{on_tick};
ghost use Rattle.group_protocol.specs.WaitingKeys.{without_read};

use crate::config::Config;
use crate::fault::NodeFault;
use crate::laws::{responses_fit, what_goes_out_fits};
use crate::limits::{MOST_PACKETS, MOST_WAITING};
use crate::outbox::Outbox;
use crate::waiting_keys::Waiting;
use paxos_acceptor::{Acceptor, Me, Store};
use paxos_learner::{KeySet, Learner};
use paxos_msg::limits::LAST_SERIAL;
use paxos_msg::{Ballot, BodyView, Characters, Record, Value, View};
use paxos_proposer::Proposer;
use std::alloc::Global;
use std::marker::Model;

/// The acceptor, the learner and the proposer of one node, and the keys that were typed at it.
///
/// A call is one event. What the node has to send goes into an outbox. A call that saves does so
/// before it sends, at most once, and makes all its room before that: after `Memory` nothing has
/// changed. After `Store` nothing was sent, and every further call that can be refused is
/// `Stopped`.
pub struct Protocol<S: Store> {
    pub(crate) me: Me,
    pub(crate) acceptor: Acceptor<S>,
    pub(crate) learner: Learner,
    pub(crate) proposer: Option<Proposer>,
    // The greatest ballot that a Refused reported to the node.
    pub(crate) remembered: Option<Ballot>,
    // The keys that were offered under the proposer's ballot.
    pub(crate) offered: KeySet,
    pub(crate) waiting: Waiting,
    pub(crate) alloc: Global,
}

impl<S: Store + Drop> Drop for Protocol<S> {
    fn drop(self) {
        let Protocol {
            me: _me,
            acceptor: _acceptor,
            learner: _learner,
            proposer: _proposer,
            remembered: _remembered,
            offered: _offered,
            waiting: _waiting,
            alloc: _alloc,
        } = self;
    }
}

impl<S: Store> Model for Protocol<S> {
    ghost use Rattle.std.specs.Prelude.{◌≡◌};
    ghost use Rattle.group_protocol.specs.States.{IsInStep, Protocol as State, protocol_of};
    ghost use Rattle.std.specs.Coded.{codes};
    ghost use Rattle.paxos_learner.specs.Codes.{learner_code};

    ghost Value = { State S };

    ghost coded = { Prim.hlevel (codes, learner_code) };

    ghost view = { λ p. protocol_of p.me p.acceptor p.learner p.proposer p.remembered
        p.offered p.waiting };

    ghost invariant = { λ p. (p.acceptor.me ≡ p.me) × IsInStep S.kind
        (protocol_of p.me p.acceptor p.learner p.proposer p.remembered
        p.offered p.waiting) };
}

impl<S: Store> Protocol<S> {
    /// Types `byte` at the node. Returns its key, with this node, this start and the next serial,
    /// from 1 on. The key waits as the last (`on_typed`). Fails with `Stopped` if a save has
    /// failed, else with `Busy` if 256 keys wait, else with `SerialSpent` if the serial
    /// 4,294,967,295 was given. A refusal changes nothing.
    ///
    /// The key waits at least until it is below the known front. The call allocates nothing.
    pub fn typed(&mut self, byte: u8) -> Result<Value, NodeFault>
        ensures ok { IfOk result (λ v. v ≡ new_key self.old.known byte) }
        ensures knows { OnOk result
            (Knows self.old self.new (on_typed self.old.known byte).node) }
        ensures err { IfErr result (λ _. self.new ≡ self.old) }
        ensures stopped { RefusesIfStopped self.old result }
        ensures refuses { self.old.is_stopped ≡ false → IsTypingRefused self.old.known result }
        ensures others { FailsOnlyWith (NodeFault.Stopped ∷ NodeFault.Busy
            ∷ NodeFault.SerialSpent ∷ []) result }
    {
        if self.is_stopped() {
            return Err(NodeFault::Stopped);
        }
        if self.waiting.len() >= MOST_WAITING {
            return Err(NodeFault::Busy);
        }
        if self.waiting.next_serial() > u64::from(LAST_SERIAL) {
            return Err(NodeFault::SerialSpent);
        }
        Ok(self.on_typed(byte))
    }

    /// Takes the message `view`: changes and saves what `on_message` defines for its kind, and puts
    /// what that sends into `outbox`. Fails with `Stopped` if a save has failed, else with
    /// `OutboxFull` if `outbox` is not empty, else with `Memory` or `Store`. `Memory` comes only
    /// where the message may need some (`NeedsMemory`), and never at a Refused.
    ///
    /// `view` has a spelling in the node's group, as each message has that `decode` returns. After
    /// `Ok` the first waiting keys, up to one that is not below the known front, wait no more.
    pub fn on_message(&mut self, view: &View<'_>, outbox: &mut Outbox) -> Result<(), NodeFault>
        requires fits { Fits self.old.known.me.group view.now }
        ensures admitted { RefusesUnlessAdmitted self.old outbox.old.packets result }
        ensures responds { DoesAndSaves S.kind (answer_to view.now self.old.known) self outbox
            result }
        ensures needs { IsErrOf result NodeFault.Memory
            → NeedsMemory self.old.known view.now.sender view.now.body }
        ensures others { FailsOnlyWith (NodeFault.Stopped ∷ NodeFault.OutboxFull
            ∷ NodeFault.Memory ∷ NodeFault.Store ∷ []) result }
    {
        self.admit_call(outbox)?;
        self.respond(view, outbox)?;
        self.drop_read();
        Ok(())
    }

    /// Begins the node's next ballot, as `on_campaign` defines, and puts its Prepare into `outbox`.
    /// Fails with `Stopped` and `OutboxFull` as `on_message` does, else with `RoundsSpent` if
    /// `last_round` is 4,294,967,295, else with `PlacesSpent` if the known front is 65,536, else
    /// with `Memory` or `Store`.
    ///
    /// The ballot's round is one above `last_round`, the greatest round of a ballot that the node
    /// has promised or that a Refused reported to it in this start. The node promises the ballot,
    /// and asks all nodes for their promises from the known front on. A proposer that it had is
    /// dropped.
    pub fn campaign(&mut self, outbox: &mut Outbox) -> Result<(), NodeFault>
        ensures admitted { RefusesUnlessAdmitted self.old outbox.old.packets result }
        ensures responds { DoesAndSaves S.kind (on_campaign self.old.known) self outbox result }
        ensures refuses { IsAdmitted self.old outbox.old.packets
            → IsCampaignRefused self.old.known result }
        ensures others { FailsOnlyWith (NodeFault.Stopped ∷ NodeFault.OutboxFull
            ∷ NodeFault.RoundsSpent ∷ NodeFault.PlacesSpent ∷ NodeFault.Memory
            ∷ NodeFault.Store ∷ []) result }
    {
        self.admit_call(outbox)?;
        self.on_campaign(outbox)
    }

    /// Does what a node does from time to time, as `on_tick` defines, and puts what it sends into
    /// `outbox`. The store stays as it is. Fails with `Stopped` and `OutboxFull` as `on_message`
    /// does, else only with `Memory`, which never comes if the node has no proposer and `outbox`
    /// has 43 buffers ready.
    ///
    /// In this order the node asks acceptors for more promises, sends its open Accepts again,
    /// proposes, submits the first keys that wait, and asks for what was learned.
    pub fn tick(&mut self, outbox: &mut Outbox) -> Result<(), NodeFault>
        ensures admitted { RefusesUnlessAdmitted self.old outbox.old.packets result }
        ensures does { Does self.old self.new outbox.old.packets outbox.new.packets
            (on_tick self.old.known) result }
        ensures needs { IsErrOf result NodeFault.Memory
            → (outbox.old.ready < TICK_PACKETS) ⊎ IsSome self.old.known.proposer }
        ensures store { self.new.store ≡ self.old.store }
        ensures others { FailsOnlyWith (NodeFault.Stopped ∷ NodeFault.OutboxFull
            ∷ NodeFault.Memory ∷ []) result }
    {
        self.admit_call(outbox)?;
        self.on_tick(outbox)
    }

    /// Returns the node's learner: what it has learned, and the input that the learned keys make.
    pub fn learner(&self) -> &Learner
        ensures { result.now ≡ self.now.known.learner }
    {
        &self.learner
    }

    /// Returns the acceptor's record. An honest store has the same one, unless a save has failed,
    /// and a restart may load no other of it. All that the node knows is in its ranges, and the
    /// store is its own.
    pub fn record(&self) -> &Record
        ensures same { result.now ≡ self.now.known.kept }
        ensures ranges { IsInRange self.now.known }
        ensures owned { IsStoreOf S.kind self.now.known.me self.now.store }
        ensures stored { S.kind.honest → self.now.is_stopped ≡ false
            → (S.kind.state self.now.store).stored ≡ self.now.known.kept }
        ensures loads { S.kind.honest → self.now.is_stopped ≡ false
            → MayLoadOnly S.kind self.now.store self.now.known.kept }
    {
        self.acceptor.record()
    }

    /// Returns the ballot of the node's proposer, if it has one: the ballot under which it asks to
    /// lead, or leads.
    ///
    /// It is that of its last campaign of this start, until the node promises a greater one or
    /// hears that this one was refused.
    pub fn ballot(&self) -> Option<Ballot>
        ensures { result ≡ own_ballot self.now.known.proposer }
    {
        let proposer = self.proposer.as_ref()?;
        Some(proposer.ballot())
    }

    /// Returns true exactly if the node leads: it has a proposer, and under its ballot a majority
    /// has promised the place at which it proposes next.
    pub fn is_leading(&self) -> bool
        ensures { result ≡ is_leading self.now.known.proposer }
    {
        match &self.proposer {
            Some(proposer) => proposer.is_covered(proposer.next_place()),
            None => false,
        }
    }

    /// Returns the greatest ballot that a Refused has reported to the node in this start, if one
    /// has.
    pub fn refusing_ballot(&self) -> Option<Ballot>
        ensures { result ≡ self.now.known.remembered }
    {
        self.remembered
    }

    /// Returns the number of typed keys that wait, at most 256.
    pub fn waiting(&self) -> usize
        ensures count { result ≡ length self.now.known.waiting }
        ensures few { result ≤ MOST_WAITING }
    {
        self.waiting.len()
    }

    /// Returns true exactly if a save has failed.
    ///
    /// Then each further call that can be refused is `Stopped`.
    pub fn is_stopped(&self) -> bool
        ensures { result ≡ self.now.is_stopped }
    {
        self.acceptor.is_closed()
    }

    /// Passes `plan` on to the store: how its next save fails, or `None`. A store that fails at
    /// will then has this plan. The record of an honest store, what a restart may load of it, the
    /// count of faults and the node stay.
    pub fn fail_next(&mut self, plan: Option<bool>)
        ensures same { S.kind.honest
            → (S.kind.state self.new.store).stored ≡ (S.kind.state self.old.store).stored }
        ensures may { S.kind.honest → MayLoadNoMore S.kind self.old.store self.new.store }
        ensures owner { HasSameOwner S.kind self.old.store self.new.store }
        ensures plan { S.kind.fails_at_will → (S.kind.state self.new.store).plan ≡ plan }
        ensures faults { (S.kind.state self.new.store).faults
            ≡ (S.kind.state self.old.store).faults }
        ensures rest { (self.new.known ≡ self.old.known)
            × (self.new.is_stopped ≡ self.old.is_stopped) }
    {
        self.acceptor.fail_next(plan);
    }

    /// Returns the store as it is.
    pub fn into_store(self) -> S
        ensures { result ≡ self.store }
    {
        let Protocol {
            me: _me,
            acceptor,
            learner: _learner,
            proposer: _proposer,
            remembered: _remembered,
            offered: _offered,
            waiting: _waiting,
            alloc: _alloc,
        } = self;
        acceptor.into_store()
    }
}

impl<S: Store> Protocol<S> {
    /// Lets one more key wait. Returns it as a batch of one.
    fn on_typed(&mut self, byte: u8) -> Value
        requires room { length self.old.known.waiting < MOST_WAITING }
        requires serial { next_serial self.old.known ≤ LAST_SERIAL }
        ensures key { result ≡ new_key self.old.known byte }
        ensures knows { Knows self.old self.new (on_typed self.old.known byte).node }
    {
        what_goes_out_fits();
        let first = self.waiting.next_serial() as u32;
        self.waiting.push(byte);
        Value::Keys {
            node: self.me.node,
            start: self.acceptor.record().starts,
            first,
            bytes: Characters::from(byte),
        }
    }

    /// Checks that the node admits a call that may send. Fails with `Stopped` if its store has
    /// failed, and with `OutboxFull` if the outbox has too little room.
    fn admit_call(&self, outbox: &Outbox) -> Result<(), NodeFault>
        ensures admitted { RefusesUnlessAdmitted self.now outbox.now.packets result }
        ensures loads { S.kind.honest → self.now.is_stopped ≡ false
            → MayLoadOnly S.kind self.now.store self.now.known.kept }
        ensures others { FailsOnlyWith (NodeFault.Stopped ∷ NodeFault.OutboxFull ∷ []) result }
    {
        // It says that a restart may load no other record.
        let _record = self.record();
        if self.is_stopped() {
            return Err(NodeFault::Stopped);
        }
        if outbox.free() < MOST_PACKETS {
            return Err(NodeFault::OutboxFull);
        }
        Ok(())
    }

    /// Does what the message's kind asks for.
    fn respond(&mut self, view: &View<'_>, outbox: &mut Outbox) -> Result<(), NodeFault>
        requires fits { Fits self.old.known.me.group view.now }
        requires open { self.old.is_stopped ≡ false }
        requires empty { outbox.old.packets ≡ [] }
        ensures responds { DoesAndSaves S.kind
            (response_to self.old.known view.now.sender view.now.body) self outbox result }
        ensures needs { IsErrOf result NodeFault.Memory
            → NeedsMemory self.old.known view.now.sender view.now.body }
        ensures others { MayFailToSave result }
    {
        let sender = view.sender;
        // It says that an honest store has the node's record, and no other for a restart.
        let _record = self.record();
        match &view.body {
            BodyView::Prepare { ballot, from } => self.on_prepare(*ballot, *from, outbox),
            BodyView::Promise { ballot, .. } => self.on_promise(*ballot, view, outbox),
            BodyView::Accept {
                ballot,
                place,
                value,
            } => self.on_accept(*ballot, *place, *value, outbox),
            BodyView::Accepted {
                ballot,
                place,
                value,
            } => self.on_accepted(sender, *ballot, *place, *value),
            BodyView::Refused { ballot, promised } => {
                self.on_refused(*ballot, *promised);
                Ok(())
            }
            BodyView::Submit { key } => self.on_submit(key, outbox),
            BodyView::Ask { from } => self.on_ask(sender, *from, outbox),
            BodyView::Tell { place, value } => self.on_tell(*place, *value),
        }
    }

    /// Drops the waiting keys that are below the front.
    fn drop_read(&mut self)
        ensures { Knows self.old self.new (without_read self.old.known) }
    {
        responses_fit();
        let start = self.acceptor.record().starts;
        self.waiting.leave_read(&self.learner, self.me.node, start);
    }
}
