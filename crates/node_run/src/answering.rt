//! What a node does with what its keyboard gives before a turn.
ghost use Rattle.std.specs.Prelude.{◌≡◌, ◌<◌, ◌↔◌, IfOk, IsTrue, OnErr, OnOk};
ghost use Rattle.node_run.specs.Course.{around_of};
ghost use Rattle.node_run.specs.Answering.{AnswersWhatCame, HasAnsweredKeyboard, HasCampaignedAsAsked, HasTypedGiven, LeadsAboveItsVotes, left_once_given, retries_after, room_of};
ghost use Rattle.node_run.specs.Keeping.{KeepsOutput, Works};

use crate::endpoints::Endpoints;
use crate::limits::MOST_RETRIES;
use group_node::{Node, NodeFault};
use group_protocol::limits::MOST_WAITING;
use group_wire::laws::deeds_go_on;
use group_wire::{Host, TraceEvent, Wire};
use node_io::{GroupFault, Keyboard};
use paxos_acceptor::Store;

/// What a node did with what its keyboard gave.
#[derive(Clone, Copy, Debug, PartialEq, Eq)]
pub enum Answered {
    /// It took the bytes, each once and in order.
    Bytes,
    /// It was asked to campaign, and did.
    Campaigned,
    /// It was asked to campaign. It leads already, and each of its votes is below its known front.
    Ignored,
    /// It was asked to campaign, and could not.
    CampaignRefused(NodeFault),
}

/// Traces typed bytes.
fn trace_typed<T: Wire>(wire: &mut T, bytes: &[u8])
    ensures passed { T.traffic wire.new ≡ T.traffic wire.old }
{
    for byte in bytes {
        wire.trace(&TraceEvent::Pressed(*byte));
    }
}

/// Types what the keyboard gives now.
fn type_given<T: Wire, K: Keyboard, S: Store>(
    host: &mut Host<'_, S>,
    endpoints: &mut Endpoints<T, K>,
) -> Result<(), GroupFault>
    requires works { Works host.old }
    ensures works { Works host.new }
    ensures typed { HasTypedGiven host.old host.new (K.keys endpoints.old.keyboard)
        (K.keys endpoints.new.keyboard) result }
    ensures takes { (K.keys endpoints.new.keyboard).left
        ≡ left_once_given (room_of host.old) (K.keys endpoints.old.keyboard).left }
    ensures passed { T.traffic endpoints.new.wire ≡ T.traffic endpoints.old.wire }
    ensures retries { endpoints.new.retries ≡ endpoints.old.retries }
    ensures output { KeepsOutput host.old host.new }
{
    let mut buffer = [0u8; MOST_WAITING];
    let count = endpoints.keyboard.give(&mut buffer, host.node().waiting());
    let given = &buffer[..count];
    let mut bytes = given;
    let pressed = host.press(&mut bytes);
    let typed = count.saturating_sub(bytes.len());
    trace_typed(&mut endpoints.wire, &given[..typed]);
    Ok(pressed?)
}

/// Returns true if the node leads without a gap: each vote of its record is at a place below its
/// known front.
fn leads_above_its_votes<S: Store>(node: &Node<'_, S>) -> bool
    ensures { IsTrue result ↔ LeadsAboveItsVotes node.now.protocol.known }
{
    let front = node.known_front();
    let votes = node.record().votes.as_slice();
    node.is_leading() && votes.iter().all(|vote| vote.place < front)
}

/// Campaigns, as the node was asked to, unless it leads without a gap: a new ballot would only
/// cost time. Returns `CampaignRefused` if no ballot or no place is left or memory ran out: that
/// ends nothing, and the node goes on as it was.
fn campaign_when_asked<T: Wire, S: Store>(
    host: &mut Host<'_, S>,
    wire: &mut T,
) -> Result<Answered, GroupFault>
    requires works { Works host.old }
    ensures works { OnOk result (Works host.new) }
    ensures campaigned { HasCampaignedAsAsked S.kind host.old host.new
        (T.traffic wire.old) (T.traffic wire.new) result }
    ensures output { KeepsOutput host.old host.new }
{
    deeds_go_on::<S>();
    if leads_above_its_votes(host.node()) {
        return Ok(Answered::Ignored);
    }
    match host.campaign(wire) {
        Ok(()) => Ok(Answered::Campaigned),
        Err(fault @ (NodeFault::Stopped | NodeFault::Store)) => Err(GroupFault::Node(fault)),
        Err(fault) => Ok(Answered::CampaignRefused(fault)),
    }
}

/// Campaigns, as the keyboard has asked. If the campaign begins, the node may campaign three times
/// more, should its ballot be refused.
fn answer_request<T: Wire, K: Keyboard, S: Store>(
    host: &mut Host<'_, S>,
    endpoints: &mut Endpoints<T, K>,
) -> Result<Answered, GroupFault>
    requires works { Works host.old }
    ensures works { OnOk result (Works host.new) }
    ensures campaigned { HasCampaignedAsAsked S.kind host.old host.new
        (T.traffic endpoints.old.wire) (T.traffic endpoints.new.wire) result }
    ensures untyped { endpoints.new.keyboard ≡ endpoints.old.keyboard }
    ensures retries { IfOk result (λ answer.
        endpoints.new.retries ≡ retries_after answer endpoints.old.retries) }
    ensures retries_stay { OnErr result (endpoints.new.retries ≡ endpoints.old.retries) }
    ensures output { KeepsOutput host.old host.new }
{
    let answered = campaign_when_asked(host, &mut endpoints.wire)?;
    endpoints.retries = match answered {
        Answered::Campaigned => MOST_RETRIES,
        _ => 0,
    };
    Ok(answered)
}

/// Looks at the keyboard before a turn, and campaigns if it asks for that, or types what it gives.
/// Returns what the node did.
pub fn answer_keyboard<T: Wire, K: Keyboard, S: Store>(
    host: &mut Host<'_, S>,
    endpoints: &mut Endpoints<T, K>,
) -> Result<Answered, GroupFault>
    requires works { Works host.old }
    ensures works { OnOk result (Works host.new) }
    ensures answered { HasAnsweredKeyboard S.kind host.old host.new
        (around_of T.traffic K.keys endpoints.old)
        (around_of T.traffic K.keys endpoints.new) result }
    ensures takes { IfOk result (λ answer. AnswersWhatCame S.kind answer host.old host.new
        (around_of T.traffic K.keys endpoints.old) (around_of T.traffic K.keys endpoints.new)) }
    ensures output { KeepsOutput host.old host.new }
{
    endpoints.keyboard.look();
    if endpoints.keyboard.take_request() {
        return answer_request(host, endpoints);
    }
    type_given(host, endpoints)?;
    Ok(Answered::Bytes)
}
