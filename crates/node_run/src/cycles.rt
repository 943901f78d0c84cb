//! The cycles of one node: each is a rest, a campaign once more if one is due, what the keyboard
//! asks for, a turn, and the release of all output.
ghost use Rattle.std.specs.Prelude.{◌≡◌, ℕ, List, IfErr, IsErrOf, OnOk, Option};
ghost use Rattle.paxos_acceptor.specs.Stores.{CountsIf};
ghost use Rattle.group_wire.specs.Turns.{SameReleased};
ghost use Rattle.node_run.specs.Cycles.{DoesCycle, DoesCycles, IsRun, TurnsOrEnds, run_moment};
ghost use Rattle.node_run.specs.Course.{CampaignsIf, around_of};
ghost use Rattle.node_run.specs.Runs.{IsEarlyEnd};
ghost use Rattle.node_run.specs.Keeping.{KeepsOutput, Works};
ghost use Rattle.node_io.specs.Refusals.{IsCampaignRefusal, IsCycleRefusal, IsWrittenCycleRefusal, write_failed};

use crate::answering::{Answered, answer_keyboard};
use crate::endpoints::Endpoints;
use crate::release::release_all;
use crate::rest::{is_busy_after, own_turn, rest_unless_busy};
use crate::retries::{Retried, campaign_again};
use group_log::{Log, Note};
use group_protocol::limits::MOST_WAITING;
use group_wire::laws::deeds_go_on;
use group_wire::{Host, Wire};
use machine_run::ByteWriter;
use node_io::{CountedWire, GroupFault, Keyboard};
use paxos_acceptor::Store;
use std::io::Write;
use std::time::Clock;

/// How a node is to run, over whatever store, wire and keyboard. Each cycle has one turn.
#[derive(Clone, Copy, Debug, PartialEq, Eq)]
pub struct RunPlan {
    /// How many turns it takes.
    pub turns: u32,
    /// How many bytes of the output were seen before this start. Released bytes with a smaller
    /// number are not written.
    pub seen: u64,
    /// True if it campaigns before its first turn.
    pub campaigns: bool,
}

/// Notes that the wire's trace is lost, if it was not said before, and what the wire has counted of
/// datagrams, if it is time for that.
fn note_wire<H: Clock, T: CountedWire, E: Write>(wire: &mut T, log: &mut Log<'_, H, E>)
    ensures passed { T.traffic wire.new ≡ T.traffic wire.old }
{
    if wire.take_trace_loss() {
        log.note(&Note::TraceLost);
    }
    if log.note_counts(&wire.drops(), &wire.sends()) {
        wire.clear_counts();
    }
}

/// Notes what the node did with what its keyboard gave, and that bytes are left because there is no
/// room for them.
fn note_answered<H: Clock, K: Keyboard, S: Store, E: Write>(
    host: &Host<'_, S>,
    keyboard: &K,
    answered: Answered,
    log: &mut Log<'_, H, E>,
) {
    if !log.is_on() {
        return;
    }
    if let Answered::CampaignRefused(fault) = answered {
        log.note(&Note::CampaignRefused(fault));
    }
    log.look(host.node().protocol());
    let waiting = host.node().waiting();
    log.note_full(waiting, waiting >= MOST_WAITING && keyboard.has_bytes());
}

/// Notes what the node did about a refused ballot.
fn note_retried<H: Clock, S: Store, E: Write>(
    host: &Host<'_, S>,
    retried: Retried,
    log: &mut Log<'_, H, E>,
) {
    if let Retried::CampaignRefused(fault) = retried {
        log.note(&Note::CampaignRefused(fault));
    }
    log.look(host.node().protocol());
}

/// Rests, unless the node is busy; campaigns again, if that is due; campaigns or types bytes, as
/// the keyboard asks; and takes its turn. Returns true if the node is busy then. Nothing is
/// released.
fn rest_and_turn<H: Clock, T: CountedWire, K: Keyboard, S: Store, E: Write>(
    host: &mut Host<'_, S>,
    endpoints: &mut Endpoints<T, K>,
    is_busy: bool,
    log: &mut Log<'_, H, E>,
) -> Result<bool, GroupFault>
    requires works { Works host.old }
    ensures works { OnOk result (Works host.new) }
    ensures stays { SameReleased host.old host.new }
    ensures turns { (written : Option (List ℕ)) → TurnsOrEnds S.kind
        (run_moment host.old (around_of T.traffic K.keys endpoints.old) written)
        (run_moment host.new (around_of T.traffic K.keys endpoints.new) written) result }
    ensures others { IfErr result IsCycleRefusal }
{
    let begun = host.node().known_front();
    rest_unless_busy(host, endpoints, is_busy)?;
    log.look(host.node().protocol());
    let retried = campaign_again(host, endpoints)?;
    note_retried(host, retried, log);
    let answered = answer_keyboard(host, endpoints)?;
    note_answered(host, &endpoints.keyboard, answered, log);
    let ran = own_turn(host, &mut endpoints.wire, begun)?;
    // For its contract: the machine is where a replay from the start is.
    host.unreleased();
    log.look(host.node().protocol());
    log.note_program_end(ran.end());
    note_wire(&mut endpoints.wire, log);
    Ok(is_busy_after(ran))
}

/// Makes a cycle: what `rest_and_turn` does, and then the release of all output. The bytes from
/// number `seen` on are written. Returns true if the node is busy.
fn cycle<H: Clock, T: CountedWire, K: Keyboard, S: Store, W: ByteWriter, E: Write>(
    host: &mut Host<'_, S>,
    seen: u64,
    endpoints: &mut Endpoints<T, K>,
    is_busy: bool,
    writer: &mut W,
    log: &mut Log<'_, H, E>,
) -> Result<bool, GroupFault>
    requires works { Works host.old }
    ensures works { OnOk result (Works host.new) }
    ensures cycle { DoesCycle S.kind seen
        (run_moment host.old (around_of T.traffic K.keys endpoints.old) (W.contents writer.old))
        (run_moment host.new (around_of T.traffic K.keys endpoints.new) (W.contents writer.new))
        result }
    ensures faults { CountsIf (IsErrOf result write_failed) (W.write_faults writer.old)
        (W.write_faults writer.new) }
    ensures others { IfErr result IsWrittenCycleRefusal }
{
    let more = rest_and_turn(host, endpoints, is_busy, log)?;
    release_all(host, seen, &mut endpoints.wire, writer)?;
    Ok(more)
}

/// Makes as many cycles as the plan has turns, up to the first refusal: a failed save, spent
/// serials, or a failed write.
fn play<H: Clock, T: CountedWire, K: Keyboard, S: Store, W: ByteWriter, E: Write>(
    host: &mut Host<'_, S>,
    plan: RunPlan,
    endpoints: &mut Endpoints<T, K>,
    writer: &mut W,
    log: &mut Log<'_, H, E>,
) -> Result<(), GroupFault>
    requires works { Works host.old }
    ensures cycles { DoesCycles S.kind plan.seen plan.turns
        (run_moment host.old (around_of T.traffic K.keys endpoints.old) (W.contents writer.old))
        (run_moment host.new (around_of T.traffic K.keys endpoints.new) (W.contents writer.new))
        result }
    ensures faults { CountsIf (IsErrOf result write_failed) (W.write_faults writer.old)
        (W.write_faults writer.new) }
    ensures others { IfErr result IsWrittenCycleRefusal }
{
    let mut is_busy = true;
    for _ in 0..plan.turns {
        is_busy = cycle(host, plan.seen, endpoints, is_busy, writer, log)?;
    }
    Ok(())
}

/// Campaigns, if `is_asked`.
fn campaign_if<T: Wire, S: Store>(
    host: &mut Host<'_, S>,
    wire: &mut T,
    is_asked: bool,
) -> Result<(), GroupFault>
    requires works { Works host.old }
    ensures works { OnOk result (Works host.new) }
    ensures acts { CampaignsIf S.kind is_asked host.old host.new (T.traffic wire.old)
        (T.traffic wire.new) result }
    ensures output { KeepsOutput host.old host.new }
    ensures others { IfErr result IsCampaignRefusal }
{
    deeds_go_on::<S>();
    if is_asked {
        host.campaign(wire)?;
    }
    Ok(())
}

/// Campaigns, if the plan says so, and then makes the cycles. A campaign that is refused ends it,
/// and nothing is written.
pub fn campaign_and_play<H: Clock, T: CountedWire, K: Keyboard, S: Store, W: ByteWriter, E: Write>(
    host: &mut Host<'_, S>,
    plan: RunPlan,
    endpoints: &mut Endpoints<T, K>,
    writer: &mut W,
    log: &mut Log<'_, H, E>,
) -> Result<(), GroupFault>
    requires works { Works host.old }
    ensures run { IsRun S.kind plan
        (run_moment host.old (around_of T.traffic K.keys endpoints.old) (W.contents writer.old))
        (run_moment host.new (around_of T.traffic K.keys endpoints.new) (W.contents writer.new))
        result }
    ensures faults { CountsIf (IsErrOf result write_failed) (W.write_faults writer.old)
        (W.write_faults writer.new) }
    ensures others { IfErr result (IsEarlyEnd plan) }
{
    campaign_if(host, &mut endpoints.wire, plan.campaigns)?;
    play(host, plan, endpoints, writer, log)
}
