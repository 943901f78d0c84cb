//! A node's rest between two turns, and a turn.
ghost use Rattle.std.specs.Prelude.{◌≡◌, [], ◌∷◌, false, true, Err, Ok, IfErr, IfOk, OnOk};
ghost use Rattle.group_node.specs.Deeds.{Run};
ghost use Rattle.group_wire.specs.declared.answers.Turned.{Turned};
ghost use Rattle.group_wire.specs.declared.rested.Rested.{Rested};
ghost use Rattle.group_wire.specs.declared.limits.TheConstants.{TURN_STEPS};
ghost use Rattle.group_wire.specs.Doings.{HasActed};
ghost use Rattle.group_wire.specs.Turns.{HasTurned, SameReleased};
ghost use Rattle.group_protocol.specs.declared.fault.NodeFault.{NodeFault};
ghost use Rattle.node_io.specs.declared.fault.GroupFault.TheVariants as group;
ghost use Rattle.node_io.specs.Prompts.{GivesWhatCame};
ghost use Rattle.node_run.specs.Cycles.{HearsOnce, HearsAtRest, IsRestedSince};
ghost use Rattle.node_run.specs.Course.{FailsAt, HasRested};
ghost use Rattle.node_run.specs.Output.{SameProgram};
ghost use Rattle.node_run.specs.Keeping.{KeepsOutput, Works};

use crate::endpoints::Endpoints;
use crate::limits::MOST_RESTING;
use group_node::{Node, Ran};
use group_wire::laws::deeds_go_on;
use group_wire::{Host, Received, Rested, Tick};
use node_io::{GroupFault, Keyboard, RestingWire, Waited};
use paxos_acceptor::Store;
use paxos_msg::limits::MOST_CHARACTERS;

/// Returns true if the keyboard ends the rest of a node at which `waiting` keys wait: it has a
/// request, or bytes while no key waits. If keys wait, their batch is under way, and further bytes
/// can wait for the next tick.
fn is_calling<K: Keyboard>(keyboard: &K, waiting: usize) -> bool {
    keyboard.has_request() || (waiting == 0 && keyboard.has_bytes())
}

/// Waits at the wire of a node at which `waiting` keys wait. Returns true if its rest is over: it
/// has taken its time, or the keyboard calls.
fn wait<T: RestingWire, K: Keyboard>(endpoints: &mut Endpoints<T, K>, waiting: usize) -> bool
    ensures passed { T.traffic endpoints.new.wire ≡ T.traffic endpoints.old.wire }
    ensures looks { GivesWhatCame (K.keys endpoints.old.keyboard) []
        (K.keys endpoints.new.keyboard) }
    ensures retries { endpoints.new.retries ≡ endpoints.old.retries }
{
    match endpoints.wire.wait() {
        Waited::Over => true,
        Waited::Datagram => false,
        Waited::Keyboard => {
            endpoints.keyboard.note_came();
            endpoints.keyboard.look();
            is_calling(&endpoints.keyboard, waiting)
        }
    }
}

/// Returns true if the rest of a node is over once its known front has risen. That is so if no key
/// waits, or as many as a place takes. If fewer wait, the rest lasts as long as the wire says: a
/// turn after each learned place would propose one more place for the few keys that came
/// meanwhile, and repeat all that is under way. On a quick network such a rest is over at once.
fn ends_rest<T: RestingWire>(wire: &mut T, waiting: usize) -> bool
    ensures passed { T.traffic wire.new ≡ T.traffic wire.old }
{
    wire.note_learned();
    waiting == 0 || waiting >= MOST_CHARACTERS || wire.is_over()
}

/// Receives once, and waits if nothing came. Returns true if the rest is over: it has taken its
/// time, the keyboard calls, or the known front is past `front` and `ends_rest` returns true.
fn rest_once<T: RestingWire, K: Keyboard, S: Store>(
    host: &mut Host<'_, S>,
    endpoints: &mut Endpoints<T, K>,
    front: u32,
) -> Result<bool, GroupFault>
    requires works { Works host.old }
    ensures works { OnOk result (Works host.new) }
    ensures rests { HasRested S.kind host.old host.new (T.traffic endpoints.old.wire)
        (T.traffic endpoints.new.wire) result }
    ensures hears { HearsOnce S.kind host.old host.new (T.traffic endpoints.old.wire)
        (T.traffic endpoints.new.wire) result }
    ensures looks { GivesWhatCame (K.keys endpoints.old.keyboard) []
        (K.keys endpoints.new.keyboard) }
    ensures retries { endpoints.new.retries ≡ endpoints.old.retries }
    ensures output { KeepsOutput host.old host.new }
{
    match host.hear(&mut endpoints.wire) {
        Ok(Received::Nothing) => Ok(wait(endpoints, host.node().waiting())),
        Ok(_) if host.node().known_front() > front => {
            Ok(ends_rest(&mut endpoints.wire, host.node().waiting()))
        }
        Ok(_) => Ok(endpoints.wire.is_over()),
        Err(fault) => Err(GroupFault::Node(fault)),
    }
}

/// Hears what comes to a node that has nothing to do, until the rest has taken its time, the
/// keyboard calls, the known front has risen and `ends_rest` returns true, or 65,536 receives were
/// made. What a message asks for is done when it is heard, so it needs no tick; and a tick after
/// each would make the other nodes tick in turn, without end.
fn rest<T: RestingWire, K: Keyboard, S: Store>(
    host: &mut Host<'_, S>,
    endpoints: &mut Endpoints<T, K>,
) -> Result<(), GroupFault>
    requires works { Works host.old }
    ensures works { OnOk result (Works host.new) }
    ensures hears { HearsAtRest S.kind host.old host.new (T.traffic endpoints.old.wire)
        (T.traffic endpoints.new.wire) result }
    ensures looks { GivesWhatCame (K.keys endpoints.old.keyboard) []
        (K.keys endpoints.new.keyboard) }
    ensures retries { endpoints.new.retries ≡ endpoints.old.retries }
    ensures output { KeepsOutput host.old host.new }
{
    deeds_go_on::<S>();
    let front = host.node().known_front();
    endpoints.wire.begin_rest(front);
    for _ in 0..MOST_RESTING {
        match rest_once(host, endpoints, front) {
            Ok(false) => {}
            Ok(true) => return Ok(()),
            Err(fault) => return Err(fault),
        }
    }
    Ok(())
}

/// Rests, unless the node is busy, or the keyboard calls. A rest keeps what was released.
pub fn rest_unless_busy<T: RestingWire, K: Keyboard, S: Store>(
    host: &mut Host<'_, S>,
    endpoints: &mut Endpoints<T, K>,
    is_busy: bool,
) -> Result<(), GroupFault>
    requires works { Works host.old }
    ensures works { OnOk result (Works host.new) }
    ensures busy { is_busy ≡ true → (result ≡ Ok tt) × (host.new ≡ host.old)
        × (endpoints.new ≡ endpoints.old) }
    ensures hears { HearsAtRest S.kind host.old host.new (T.traffic endpoints.old.wire)
        (T.traffic endpoints.new.wire) result }
    ensures looks { GivesWhatCame (K.keys endpoints.old.keyboard) []
        (K.keys endpoints.new.keyboard) }
    ensures retries { endpoints.new.retries ≡ endpoints.old.retries }
    ensures output { KeepsOutput host.old host.new }
{
    deeds_go_on::<S>();
    if is_busy {
        return Ok(());
    }
    endpoints.keyboard.look();
    if is_calling(&endpoints.keyboard, host.node().waiting()) {
        return Ok(());
    }
    rest(host, endpoints)
}

/// Returns true if a node is busy after a run of its machine that stopped so: the machine has not
/// ended, and does not wait for a key.
pub fn is_busy_after(ran: Ran) -> bool {
    match ran {
        Ran::More | Ran::Full => true,
        Ran::Waits | Ran::Ended(_) => false,
    }
}

/// Returns what a turn is to know of its cycle, at the begin of which the node's known front was at
/// `begun`: that, and whether answers are due.
fn rested_since<T: RestingWire>(wire: &T, begun: u32) -> Rested
    ensures { IsRestedSince begun result }
{
    if wire.awaits_answers() {
        Rested::Awaits(begun)
    } else {
        Rested::From(begun)
    }
}

/// Returns true if the node leads, and has voted at a place that it has not learned: it waits for
/// answers.
fn leads_with_open_places<S: Store>(node: &Node<'_, S>) -> bool {
    let front = node.known_front();
    let last = node.record().votes.as_slice().last();
    node.is_leading() && last.is_some_and(|vote| vote.place >= front)
}

/// Tells the wire what became of the tick of a turn.
fn note_tick<T: RestingWire, S: Store>(wire: &mut T, node: &Node<'_, S>, tick: Tick)
    ensures passed { T.traffic wire.new ≡ T.traffic wire.old }
{
    match tick {
        Tick::Made => wire.note_ticked(),
        Tick::NotDue if leads_with_open_places(node) => wire.note_awaits(),
        Tick::NotDue | Tick::Lost => {}
    }
}

/// Takes a turn of a node on its wire. The node's known front was at `begun` when its cycle began.
/// Returns why its machine stopped.
pub fn own_turn<T: RestingWire, S: Store>(
    host: &mut Host<'_, S>,
    wire: &mut T,
    begun: u32,
) -> Result<Ran, GroupFault>
    requires works { Works host.old }
    ensures works { OnOk result (Works host.new) }
    ensures turned { IfOk result (λ ran. (rested : Rested) × IsRestedSince begun rested
        × (done : Turned) × HasTurned S.kind rested host.old host.new (T.traffic wire.old)
        (T.traffic wire.new) (Ok done) × (ran ≡ done.ran)) }
    ensures acts { OnOk result (HasActed host.old host.new (T.traffic wire.old) (T.traffic wire.new)
        (Run TURN_STEPS ∷ [])) }
    ensures refused { IfErr result
        (FailsAt S.kind host.old host.new (T.traffic wire.old) (T.traffic wire.new) []) }
    ensures fault { IfErr result (λ e. (rested : Rested) × IsRestedSince begun rested
        × (f : NodeFault) × HasTurned S.kind rested host.old host.new (T.traffic wire.old)
        (T.traffic wire.new) (Err f) × (e ≡ group.Node f)) }
    ensures program { SameProgram host.old host.new }
    ensures stays { SameReleased host.old host.new }
{
    let rested = rested_since(wire, begun);
    match host.turn(wire, rested) {
        Ok(turned) => {
            note_tick(wire, host.node(), turned.tick);
            Ok(turned.ran)
        }
        Err(fault) => Err(GroupFault::Node(fault)),
    }
}
