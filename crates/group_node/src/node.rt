//! One node of a group.
ghost use Rattle.std.specs.Prelude.{◌≡◌, ◌+◌, ◌⊎◌, ◌<◌, ◌≤◌, ℕ, List, [], ◌∷◌, false, length, option_map, slice_get, IsSome, IfErr, IfNone, IfOk, IsErrOf, OnErr, OnSome};
ghost use Rattle.std.specs.FinMap.{get};
ghost use Rattle.paxos_msg.specs.Datagrams.{Fits};
ghost use Rattle.base.specs.Calls.{FailsOnlyWith, IsAmong};
ghost use Rattle.paxos_acceptor.specs.Stores.{HasSameOwner, IsStoreOf, MayLoadNoMore, MayLoadOnly};
ghost use Rattle.paxos_learner.specs.Learner.{IsFront};
ghost use Rattle.paxos_msg.specs.declared.limits.TheConstants.{PLACES};
ghost use Rattle.group_protocol.specs.declared.limits.TheConstants.{MOST_WAITING, TICK_PACKETS};
ghost use Rattle.group_protocol.specs.Calls.{IsCampaignRefused, IsAdmitted, IsTypingRefused, RefusesIfStopped};
ghost use Rattle.group_node.specs.Calls.{Responds, Sends};
ghost use Rattle.group_protocol.specs.Protocol.{answer_to, NeedsMemory};
ghost use Rattle.group_protocol.specs.Known.{on_typed, front, new_key};
ghost use Rattle.group_protocol.specs.ProposerResponses.{is_leading, own_ballot, on_campaign};
ghost use Rattle.group_protocol.specs.Tick.{on_tick};
ghost use Rattle.group_node.specs.NodeCalls.{running, unreleased_by};
ghost use Rattle.group_node.specs.Output.{IsReplay, no_progress, RunsOn};
ghost use Rattle.group_node.specs.Player.{IsPlayed, progress_of};
ghost use Rattle.group_protocol.specs.Ranges.{IsInRange};
ghost use Rattle.group_node.specs.Starting.{IsFresh, StartsByPlan, StartsHonestly, StartsByLoad};
ghost use Rattle.group_node.specs.States.{input};

use crate::player::{Player, Ran};
use group_protocol::laws::calls_keep_what_is_learned;
use group_protocol::{Config, NodeFault, Outbox, Protocol, StartRefused, Waiting, node_fault};
use paxos_acceptor::{Acceptor, OpenRefused, Store};
use paxos_learner::laws::input_grows;
use paxos_msg::limits::LAST_START;
use paxos_msg::{Ballot, Record, Value, View};
use pcode_machine::laws::{run_is_after, same_run_on_longer_input};
use pcode_ops::Program;
use std::alloc::{AllocError, Global};
use std::marker::Model;

/// One node of a group, over the store of its acceptor's record. It has its part in the protocol,
/// and the machine that runs the program on the keys of the learned places below the known front.
///
/// A call of a node is one event. What the node has to send goes into an outbox. A call that saves
/// does so before it sends, at most once, and makes all its room before that: after `Memory`
/// nothing has changed. After `Store` nothing was sent, and every further call that can be refused
/// is `Stopped`.
pub struct Node<'a, S: Store> {
    protocol: Protocol<S>,
    player: Player<'a>,
}

impl<'a, S: Store + Drop> Drop for Node<'a, S> {
    fn drop(self) {
        let Node {
            protocol: _protocol,
            player: _player,
        } = self;
    }
}

impl<'a, S: Store> Model for Node<'a, S> {
    ghost use Rattle.std.specs.Coded.{codes};
    ghost use Rattle.paxos_learner.specs.Codes.{learner_code};
    ghost use Rattle.group_node.specs.Player.{IsPlayed, progress_of};
    ghost use Rattle.group_node.specs.States.{input, NodeState};

    ghost Value = { NodeState S };

    ghost coded = { Prim.hlevel (codes, learner_code) };

    ghost view = { λ n. record { protocol = n.protocol; progress = progress_of n.player } };

    ghost invariant = { λ n. IsPlayed (input n.protocol.known) n.player };
}

/// Makes the room of a node besides its acceptor: for the machine and its output, and for the keys
/// that wait.
fn room<'a>(alloc: Global, program: &'a Program) -> Result<(Player<'a>, Waiting), AllocError>
    ensures player { IfOk result (λ x. progress_of x.0 ≡ no_progress program.now) }
    ensures exact { (input : List ℕ) → IfOk result (λ x. IsPlayed input x.0) }
    ensures waiting { IfOk result (λ x. x.1 ≡ record { first = 1; bytes = [] }) }
{
    Ok((Player::begin(alloc, program)?, Waiting::new(alloc)?))
}

impl<'a, S: Store> Node<'a, S> {
    /// Starts the node over the record that `store` loads, with one start more, which an honest
    /// store then has. The node has heard, learned, offered and typed nothing, and has no proposer.
    /// It is in its ranges and not stopped, and its machine has made no step. Fails with `Memory`,
    /// `Store`, `BadRecord` or `StartsSpent`.
    ///
    /// The node remembers no ballot that refused it, and its next key has the serial 1.
    ///
    /// Fails first as its load does; a `Bad` load is `BadRecord`. Then fails with `BadRecord`
    /// exactly if the loaded record is out of its ranges, and with `StartsSpent` exactly if one in
    /// its ranges counts 4,294,967,295 starts. Then fails with `Memory` if there is no room, and
    /// with `Store` if the save failed: all room is made before the save.
    ///
    /// A refusal gives the store back. An honest one has the record that it had; after `Store` it
    /// may have that with the start counted.
    ///
    /// The store is one of the node of `config`, or of none in particular.
    pub fn start(
        alloc: Global,
        program: &'a Program,
        config: Config,
        store: S,
    ) -> Result<Node<'a, S>, StartRefused<S>>
        requires owned { IsStoreOf S.kind config store }
        ensures once { StartsByLoad S.kind config store result }
        ensures fresh { IfOk result (IsFresh program.now) }
        ensures from { S.kind.honest → StartsHonestly S.kind config store result }
        ensures plan { StartsByPlan S.kind store result }
        ensures others { IfErr result (λ e. IsAmong (NodeFault.Memory ∷ NodeFault.Store
            ∷ NodeFault.BadRecord ∷ NodeFault.StartsSpent ∷ []) e.fault) }
    {
        let acceptor = match Acceptor::open(alloc, store, config.me()) {
            Ok(acceptor) => acceptor,
            Err(OpenRefused { fault, store }) => {
                let fault = node_fault(fault);
                return Err(StartRefused { fault, store });
            }
        };
        if acceptor.record().starts == LAST_START {
            let fault = NodeFault::StartsSpent;
            let store = acceptor.into_store();
            return Err(StartRefused { fault, store });
        }
        let Ok((player, waiting)) = room(alloc, program) else {
            let fault = NodeFault::Memory;
            let store = acceptor.into_store();
            return Err(StartRefused { fault, store });
        };
        let protocol = Protocol::start(alloc, &config, acceptor, waiting)?;
        Ok(Node { protocol, player })
    }

    /// Types `byte` at the node. Returns its key, with this node, this start and the next serial,
    /// from 1 on. The key waits as the last (`on_typed`). Fails with `Stopped` if a save has
    /// failed, else with `Busy` if 256 keys wait, else with `SerialSpent` if the serial
    /// 4,294,967,295 was given. A refusal changes nothing.
    ///
    /// The key waits at least until it is below the known front. The call allocates nothing.
    pub fn typed(&mut self, byte: u8) -> Result<Value, NodeFault>
        ensures ok { IfOk result (λ v. v ≡ new_key self.old.protocol.known byte) }
        ensures known { IfOk result
            (λ _. self.new.protocol.known ≡ (on_typed self.old.protocol.known byte).node) }
        ensures rest { (self.new.protocol.store ≡ self.old.protocol.store)
            × (self.new.protocol.is_stopped ≡ self.old.protocol.is_stopped)
            × (self.new.progress ≡ self.old.progress) }
        ensures err { IfErr result (λ _. self.new ≡ self.old) }
        ensures stopped { RefusesIfStopped self.old.protocol result }
        ensures refuses { self.old.protocol.is_stopped ≡ false
            → IsTypingRefused self.old.protocol.known result }
        ensures others { FailsOnlyWith (NodeFault.Stopped ∷ NodeFault.Busy
            ∷ NodeFault.SerialSpent ∷ []) result }
    {
        self.protocol.typed(byte)
    }

    /// Takes the message `view`: changes and saves what `on_message` defines for its kind, and puts
    /// what that sends into `outbox`. Fails with `Stopped` if a save has failed, else with
    /// `OutboxFull` if `outbox` is not empty, else with `Memory` or `Store`. `Memory` comes only
    /// where the message may need some (`NeedsMemory`), and never at a Refused.
    ///
    /// `view` has a spelling in the node's group, as each message has that `decode` returns. After
    /// `Ok` the first waiting keys, up to one that is not below the known front, wait no more.
    pub fn on_message(&mut self, view: &View<'_>, outbox: &mut Outbox) -> Result<(), NodeFault>
        requires fits { Fits self.old.protocol.known.me.group view.now }
        ensures responds { Responds S.kind (answer_to view.now) self outbox result }
        ensures needs { IsErrOf result NodeFault.Memory
            → NeedsMemory self.old.protocol.known view.now.sender view.now.body }
        ensures others { FailsOnlyWith (NodeFault.Stopped ∷ NodeFault.OutboxFull
            ∷ NodeFault.Memory ∷ NodeFault.Store ∷ []) result }
    {
        calls_keep_what_is_learned();
        input_grows();
        same_run_on_longer_input();
        self.protocol.on_message(view, outbox)
    }

    /// Begins the node's next ballot, as `on_campaign` defines, and puts its Prepare into `outbox`.
    /// Fails with `Stopped` and `OutboxFull` as `on_message` does, else with `RoundsSpent` if
    /// `last_round` is 4,294,967,295, else with `PlacesSpent` if the known front is 65,536, else
    /// with `Memory` or `Store`.
    ///
    /// The ballot's round is one above `last_round`, the greatest round of a ballot that the node
    /// has promised or that a Refused reported to it in this start. The node promises the ballot,
    /// and asks all nodes for their promises from the known front on. A proposer that it had is
    /// dropped, with what was offered to it. After an error nothing has changed, but after `Store`
    /// the node is stopped.
    pub fn campaign(&mut self, outbox: &mut Outbox) -> Result<(), NodeFault>
        ensures responds { Responds S.kind on_campaign self outbox result }
        ensures refuses { IsAdmitted self.old.protocol outbox.old.packets
            → IsCampaignRefused self.old.protocol.known result }
        ensures others { FailsOnlyWith (NodeFault.Stopped ∷ NodeFault.OutboxFull
            ∷ NodeFault.RoundsSpent ∷ NodeFault.PlacesSpent ∷ NodeFault.Memory
            ∷ NodeFault.Store ∷ []) result }
    {
        self.protocol.campaign(outbox)
    }

    /// Does what a node does from time to time, as `on_tick` defines, and puts what it sends into
    /// `outbox`. The store stays as it is. Fails with `Stopped` and `OutboxFull` as `on_message`
    /// does, else only with `Memory`, which never comes if the node has no proposer and `outbox`
    /// has 43 buffers ready.
    ///
    /// In this order the node asks acceptors for more promises, sends its open Accepts again,
    /// proposes, submits the first keys that wait, and asks for what was learned.
    pub fn tick(&mut self, outbox: &mut Outbox) -> Result<(), NodeFault>
        ensures sends { Sends on_tick self outbox result }
        ensures needs { IsErrOf result NodeFault.Memory
            → (outbox.old.ready < TICK_PACKETS) ⊎ IsSome self.old.protocol.known.proposer }
        ensures store { self.new.protocol.store ≡ self.old.protocol.store }
        ensures others { FailsOnlyWith (NodeFault.Stopped ∷ NodeFault.OutboxFull
            ∷ NodeFault.Memory ∷ []) result }
    {
        self.protocol.tick(outbox)
    }

    /// Runs the machine for at most `steps` steps on the keys of the places below the known front,
    /// while fewer than 256 bytes of output wait (`RunsOn`). Returns `More` if the steps are spent,
    /// else `Full` if 256 bytes wait, else `Waits` if the machine waits for a key, else `Ended`,
    /// and how. Each step is one of the program on that input, as `unreleased` says.
    ///
    /// Fails only with `Stopped`, exactly if a save has failed. Then nothing has changed. `More`
    /// also comes if this start has made 18,446,744,073,709,551,615 steps. The machine is kept
    /// between calls, so no step is made twice. The call allocates nothing.
    pub fn run(&mut self, steps: u32) -> Result<Ran, NodeFault>
        ensures runs { IfOk result
            (λ ran. RunsOn (input self.old.protocol.known) steps self.old.progress self.new.progress
            ran) }
        ensures protocol { self.new.protocol ≡ self.old.protocol }
        ensures err { OnErr result (self.new ≡ self.old) }
        ensures stopped { RefusesIfStopped self.old.protocol result }
        ensures others { FailsOnlyWith (NodeFault.Stopped ∷ []) result }
    {
        if self.protocol.is_stopped() {
            return Err(NodeFault::Stopped);
        }
        Ok(self.player.run(self.protocol.learner(), steps))
    }

    /// Releases the first byte of the output that waits. Returns its number, which is the number of
    /// bytes released before in this start, and the byte. If no byte waits, returns `None` and
    /// changes nothing.
    ///
    /// It has no refusal, and goes on after a failed save. It allocates nothing.
    pub fn release(&mut self) -> Option<(u64, u8)>
        ensures value { result
            ≡ option_map (λ b. (self.old.progress.released, b))
            (slice_get (unreleased_by (running self.old)) 0) }
        ensures some { OnSome result
            (self.new.progress ≡ record self.old.progress
            { released = self.old.progress.released + 1 }) }
        ensures none { IfNone result (self.new ≡ self.old) }
        ensures protocol { self.new.protocol ≡ self.old.protocol }
    {
        run_is_after();
        self.player.release()
    }

    /// Returns the number of output bytes that wait, at most 256: those that the steps so far have
    /// written and that were not released. Each of these steps is one on the input that is learned
    /// now, from the program's beginning (`IsReplay`).
    pub fn unreleased(&self) -> usize
        ensures count { result ≡ length (unreleased_by (running self.now)) }
        ensures replay { IsReplay (input self.now.protocol.known) self.now.progress }
    {
        run_is_after();
        self.player.unreleased_len()
    }

    /// Returns the node's part in the protocol.
    pub fn protocol(&self) -> &Protocol<S>
        ensures { result.now ≡ self.now.protocol }
    {
        &self.protocol
    }

    /// Returns the known front: the least place that is not learned, 0 to 65,536.
    pub fn known_front(&self) -> u32
        ensures front { result ≡ front self.now.protocol.known }
        ensures least { IsFront self.now.protocol.known.learner.learned result }
        ensures few { result ≤ PLACES }
    {
        self.protocol.learner().known_front()
    }

    /// Returns the value that is learned at `place`, if one is. `place` may be any number.
    pub fn learned(&self, place: u32) -> Option<Value>
        ensures { result ≡ get self.now.protocol.known.learner.learned place }
    {
        self.protocol.learner().learned(place)
    }

    /// Returns the acceptor's record. An honest store has the same one, unless a save has failed,
    /// and a restart may load no other of it. All that the node knows is in its ranges, and the
    /// store is its own.
    pub fn record(&self) -> &Record
        ensures same { result.now ≡ self.now.protocol.known.kept }
        ensures ranges { IsInRange self.now.protocol.known }
        ensures owned { IsStoreOf S.kind self.now.protocol.known.me self.now.protocol.store }
        ensures stored { S.kind.honest → self.now.protocol.is_stopped ≡ false
            → (S.kind.state self.now.protocol.store).stored ≡ self.now.protocol.known.kept }
        ensures loads { S.kind.honest → self.now.protocol.is_stopped ≡ false
            → MayLoadOnly S.kind self.now.protocol.store self.now.protocol.known.kept }
    {
        self.protocol.record()
    }

    /// Returns the ballot of the node's proposer, if it has one: the ballot under which it asks to
    /// lead, or leads.
    ///
    /// It is that of its last campaign of this start, until the node promises a greater one or
    /// hears that this one was refused.
    pub fn ballot(&self) -> Option<Ballot>
        ensures { result ≡ own_ballot self.now.protocol.known.proposer }
    {
        self.protocol.ballot()
    }

    /// Returns true exactly if the node leads: it has a proposer, and under its ballot a majority
    /// has promised the place at which it proposes next.
    pub fn is_leading(&self) -> bool
        ensures { result ≡ is_leading self.now.protocol.known.proposer }
    {
        self.protocol.is_leading()
    }

    /// Returns the greatest ballot that a Refused has reported to the node in this start, if one
    /// has.
    pub fn refusing_ballot(&self) -> Option<Ballot>
        ensures { result ≡ self.now.protocol.known.remembered }
    {
        self.protocol.refusing_ballot()
    }

    /// Returns the number of typed keys that wait, at most 256.
    pub fn waiting(&self) -> usize
        ensures count { result ≡ length self.now.protocol.known.waiting }
        ensures few { result ≤ MOST_WAITING }
    {
        self.protocol.waiting()
    }

    /// Returns true exactly if a save has failed.
    ///
    /// Then each further call that can be refused is `Stopped`.
    pub fn is_stopped(&self) -> bool
        ensures { result ≡ self.now.protocol.is_stopped }
    {
        self.protocol.is_stopped()
    }

    /// Passes `plan` on to the store: how its next save fails, or `None`. A store that fails at
    /// will then has this plan. The record of an honest store, what a restart may load of it, the
    /// count of faults and the node stay.
    pub fn fail_next(&mut self, plan: Option<bool>)
        ensures same { S.kind.honest
            → (S.kind.state self.new.protocol.store).stored
            ≡ (S.kind.state self.old.protocol.store).stored }
        ensures may { S.kind.honest
            → MayLoadNoMore S.kind self.old.protocol.store self.new.protocol.store }
        ensures owner { HasSameOwner S.kind self.old.protocol.store self.new.protocol.store }
        ensures plan { S.kind.fails_at_will → (S.kind.state self.new.protocol.store).plan ≡ plan }
        ensures faults { (S.kind.state self.new.protocol.store).faults
            ≡ (S.kind.state self.old.protocol.store).faults }
        ensures rest { (self.new.protocol.known ≡ self.old.protocol.known)
            × (self.new.protocol.is_stopped ≡ self.old.protocol.is_stopped)
            × (self.new.progress ≡ self.old.progress) }
    {
        self.protocol.fail_next(plan);
    }

    /// Returns the store as it is.
    pub fn into_store(self) -> S
        ensures { result ≡ self.entry.protocol.store }
    {
        let Node {
            protocol,
            player: _player,
        } = self;
        protocol.into_store()
    }
}
