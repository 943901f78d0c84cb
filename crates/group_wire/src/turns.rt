//! The turns of a node on its wire, and its receives between them.
ghost use Rattle.std.specs.Prelude.{◌≡◌, ◌≢◌, ◌↔◌, List, [], ◌∷◌, true, Option, Some, IfErr, IfOk, IsTrue, OnErr, OnOk};
ghost use Rattle.group_node.specs.Deeds.{Run};
ghost use Rattle.group_node.specs.Output.{RunsOn};
ghost use Rattle.group_node.specs.States.{input};
ghost use Rattle.group_wire.specs.declared.answers.Tick.TheVariants as tick;
ghost use Rattle.group_wire.specs.declared.limits.TheConstants.{TURN_STEPS};
ghost use Rattle.group_wire.specs.Arrivals.{Arrival, Ending, lost_of};
ghost use Rattle.group_wire.specs.Turns.{SameReleased, IsRefusedIfStopped, FailsAtEnd, HasHeard, HasTurned, HearsOut, HearsSome, IsHearingRefused, IsCaughtUp, IsTickDue, TellsOfOne, is_made};
ghost use Rattle.group_wire.specs.Doings.{ActsBy, ticked_if, ticking, transfers_of};
ghost use Rattle.group_wire.specs.Traffic.{Receives, Traffic, grown};

use crate::answers::{Received, Tick, Turned};
use crate::host::Host;
use crate::limits::{MOST_RECEIVES, TURN_STEPS};
use crate::rested::Rested;
use crate::sending::send_all;
use crate::trace_event::TraceEvent;
use crate::wire::Wire;
use group_node::{Node, NodeFault, Ran};
use group_protocol::laws::{calls_keep_what_is_learned, what_goes_out_fits};
use paxos_acceptor::Store;
use paxos_learner::laws::input_grows;
use paxos_msg::decode;
use paxos_msg::limits::LONGEST_DATAGRAM;
use pcode_machine::laws::output_only_grows;

/// Returns true if the node knows of nothing that is under way: none of its keys waits, and the
/// last place at which it has voted, if there is one, is the one below its known front.
fn is_caught_up<S: Store>(node: &Node<'_, S>) -> bool
    ensures { IsTrue result ↔ IsCaughtUp node.now.protocol.known }
{
    let front = node.known_front();
    let is_last_known = match node.record().votes.as_slice().last() {
        Some(vote) => vote.place.checked_add(1) == Some(front),
        None => front == 0,
    };
    is_last_known && node.waiting() == 0
}

/// Returns true if the tick of a turn is due at this node, which has rested so.
fn is_tick_due<S: Store>(node: &Node<'_, S>, rested: Rested) -> bool
    ensures { IsTrue result ↔ IsTickDue rested node.now.protocol.known }
{
    match rested {
        Rested::No => true,
        Rested::From(front) => front >= node.known_front() || !is_caught_up(node),
        Rested::Awaits(front) => front >= node.known_front() || node.waiting() > 0,
    }
}

/// Returns `Ok` for `Memory`, and `Err` for any other fault: a call that ran out of memory is left
/// out, and no refusal.
fn unless_memory(fault: NodeFault) -> Result<(), NodeFault>
    ensures memory { OnOk result (fault ≡ NodeFault.Memory) }
    ensures other { IfErr result (λ e. (e ≡ fault) × (fault ≢ NodeFault.Memory)) }
{
    match fault {
        NodeFault::Memory => Ok(()),
        _ => Err(fault),
    }
}

impl<'a, S: Store> Host<'a, S> {
    /// Takes the message that a datagram spells, and passes what the node sends at it to the wire.
    /// Drops a longer datagram than 1,400 bytes, and one that spells no message of the group. At
    /// `Err` the node has refused the message.
    fn hear_bytes<T: Wire>(&mut self, wire: &mut T, bytes: &[u8]) -> Result<Received, NodeFault>
        ensures hears { (from : Option Traffic)
            → T.traffic wire.old ≡ grown from (Receives (Some bytes.now) ∷ [])
            → (came : List Arrival) × (ending : Ending)
            × HearsSome came ending self.old self.new from
            (T.traffic wire.new)
            × TellsOfOne result came ending × FailsAtEnd S.kind ending self.new result }
        ensures refused { IsHearingRefused S.kind self.old self.new result }
    {
        if bytes.len() > LONGEST_DATAGRAM {
            return Ok(Received::Dropped);
        }
        let Ok(view) = decode(bytes, self.group) else {
            return Ok(Received::Dropped);
        };
        // A node in its ranges stays who it is.
        what_goes_out_fits();
        self.node.record();
        wire.trace(&TraceEvent::BeginsToHear(bytes));
        if let Err(fault) = self.node.on_message(&view, &mut self.outbox) {
            unless_memory(fault)?;
            return Ok(Received::Lost);
        }
        wire.trace(&TraceEvent::Heard(bytes));
        send_all(wire, &mut self.outbox, self.group.size);
        Ok(Received::Message)
    }

    /// Takes the next datagram, if one is there. Receives it into `buffer`.
    fn hear_next<T: Wire>(&mut self, wire: &mut T, buffer: &mut [u8]) -> Result<Received, NodeFault>
        ensures hears { (came : List Arrival) × (ending : Ending)
            × HearsSome came ending self.old self.new
            (T.traffic wire.old) (T.traffic wire.new)
            × TellsOfOne result came ending
            × FailsAtEnd S.kind ending self.new result }
        ensures refused { IsHearingRefused S.kind self.old self.new result }
    {
        let Some(count) = wire.receive(buffer) else {
            return Ok(Received::Nothing);
        };
        self.hear_bytes(wire, &buffer[..count])
    }

    /// Takes datagrams until none is there, at most 64. Returns the number of messages that were
    /// lost because memory ran out.
    fn hear_all<T: Wire>(&mut self, wire: &mut T) -> Result<u32, NodeFault>
        ensures hears { (came : List Arrival) × (ending : Ending)
            × HearsSome came ending self.old self.new
            (T.traffic wire.old) (T.traffic wire.new)
            × HearsOut S.kind came ending self.new result
            × IfOk result (λ lost. lost ≡ lost_of came) }
        ensures refused { IsHearingRefused S.kind self.old self.new result }
    {
        let mut buffer = [0u8; LONGEST_DATAGRAM + 1];
        let mut lost = 0u32;
        for _ in 0..MOST_RECEIVES {
            match self.hear_next(wire, &mut buffer)? {
                Received::Nothing => return Ok(lost),
                Received::Lost => lost += 1,
                Received::Dropped | Received::Message => {}
            }
        }
        Ok(lost)
    }

    /// Ticks, if the tick is due, and passes what the node sends to the wire. If memory runs out
    /// nothing changes.
    fn tick<T: Wire>(&mut self, wire: &mut T, rested: Rested) -> Result<Tick, NodeFault>
        ensures due { IfOk result (λ done.
            (done ≢ tick.NotDue) ↔ IsTickDue rested self.old.protocol.known) }
        ensures known { IfOk result (λ done.
            self.new.protocol.known ≡ (ticked_if (is_made done) self.old.protocol.known).node) }
        ensures traffic { IfOk result (λ done. T.traffic wire.new
            ≡ grown (T.traffic wire.old) (transfers_of self.old.protocol.known.me
            (ticking self.old.protocol.known.me (is_made done) self.old.protocol.known))) }
        ensures err { OnErr result
            ((self.new.protocol.known ≡ self.old.protocol.known)
            × (T.traffic wire.new ≡ T.traffic wire.old)) }
        ensures refused { IsRefusedIfStopped self.old result }
        ensures me { self.new.protocol.known.me ≡ self.old.protocol.known.me }
        ensures stays { self.new.protocol.is_stopped ≡ self.old.protocol.is_stopped }
        ensures store { self.new.protocol.store ≡ self.old.protocol.store }
        ensures progress { self.new.progress ≡ self.old.progress }
    {
        if self.node.is_stopped() {
            return Err(NodeFault::Stopped);
        }
        if !is_tick_due(&self.node, rested) {
            return Ok(Tick::NotDue);
        }
        if let Err(fault) = self.node.tick(&mut self.outbox) {
            unless_memory(fault)?;
            return Ok(Tick::Lost);
        }
        wire.trace(&TraceEvent::Ticked);
        send_all(wire, &mut self.outbox, self.group.size);
        Ok(Tick::Made)
    }

    /// Runs the machine for at most 1,000 steps. Returns why the run ended.
    fn run(&mut self) -> Result<Ran, NodeFault>
        ensures runs { IfOk result (λ ran.
            RunsOn (input self.old.protocol.known) TURN_STEPS self.old.progress self.new.progress
            ran) }
        ensures protocol { self.new.protocol ≡ self.old.protocol }
        ensures err { OnErr result (self.new ≡ self.old) }
        ensures refused { IsRefusedIfStopped self.old result }
    {
        self.node.run(TURN_STEPS)
    }

    /// Takes a turn, as `turn` says.
    fn take_turn<T: Wire>(&mut self, wire: &mut T, rested: Rested) -> Result<Turned, NodeFault>
        ensures turned { HasTurned S.kind rested self.old self.new (T.traffic wire.old)
            (T.traffic wire.new) result }
    {
        let lost = self.hear_all(wire)?;
        let tick = self.tick(wire, rested)?;
        let ran = self.run()?;
        wire.trace(&TraceEvent::Ran(TURN_STEPS));
        Ok(Turned { ran, tick, lost })
    }

    /// Receives once from `wire` between turns, as a turn does, without tick and steps
    /// (`HasHeard`). Returns that nothing came, or that a datagram was dropped, lost or heard.
    /// Fails only at a datagram that spells a message: with `Stopped` if a save had failed before,
    /// and with `Store` if one fails now.
    ///
    /// What the node sends at a message goes to `wire` at once. After a refusal the node knows what
    /// it knew, and has sent nothing. At `Store` one more fault is counted, and an honest store has
    /// the node's record or that of the message's response.
    pub fn hear<T: Wire>(&mut self, wire: &mut T) -> Result<Received, NodeFault>
        ensures heard { HasHeard S.kind self.old self.new (T.traffic wire.old)
            (T.traffic wire.new) result }
        ensures acts { ActsBy S.kind self.old self.new (T.traffic wire.old) (T.traffic wire.new)
            [] [] result }
        ensures stays { SameReleased self.old self.new }
    {
        calls_keep_what_is_learned();
        input_grows();
        output_only_grows();
        // For its contract: the machine is where a replay from the start is.
        self.unreleased();
        let mut buffer = [0u8; LONGEST_DATAGRAM + 1];
        self.hear_next(wire, &mut buffer)
    }

    /// Takes a turn on `wire`: receives until no datagram is there, at most 64 times, then ticks if
    /// the tick is due, then runs the machine for at most 1,000 steps (`HasTurned`). What these
    /// calls send goes to `wire`, in order. Returns why the run ended, what became of the tick, and
    /// how many messages were lost.
    ///
    /// `rested` has the known front of the node when it began to rest before this turn. The tick is
    /// due unless a place was learned since then, none of the node's keys waits, and the last place
    /// at which it has voted is the one below its known front (`IsTickDue`): then the node knows of
    /// nothing that such a tick could bring. If answers to what it would repeat are due
    /// (`Rested::Awaits`), its votes do not matter. Without a rest (`Rested::No`) the tick is
    /// always due.
    ///
    /// Fails with `Stopped` exactly if a save had failed before, or with `Store` if one fails now.
    /// The node hears each message of the group that a datagram spells, in order, but for those
    /// that are lost and counted, as memory ran out. A datagram is dropped only if it has more than
    /// 1,400 bytes or spells no message of the group. Memory may run out at the tick too: then
    /// there is none. What a call sends is handed to the wire in that call, each datagram once for
    /// each node that it is for.
    ///
    /// At `Stopped` the node hears and loses nothing. At `Store` the save failed at the message of
    /// the last datagram that came; the node is what the messages before it left, and an honest
    /// store has that node's record or that of the message's response. After a refusal there is no
    /// tick and no step, and the node is stopped; after `Ok` it is not.
    pub fn turn<T: Wire>(&mut self, wire: &mut T, rested: Rested) -> Result<Turned, NodeFault>
        ensures turned { HasTurned S.kind rested self.old self.new (T.traffic wire.old)
            (T.traffic wire.new) result }
        ensures acts { ActsBy S.kind self.old self.new (T.traffic wire.old) (T.traffic wire.new)
            (Run TURN_STEPS ∷ []) [] result }
        ensures stays { SameReleased self.old self.new }
    {
        calls_keep_what_is_learned();
        input_grows();
        output_only_grows();
        // The machine is where a replay from the start is.
        self.unreleased();
        let turned = self.take_turn(wire, rested);
        // And so it is after the turn.
        self.unreleased();
        turned
    }
}
