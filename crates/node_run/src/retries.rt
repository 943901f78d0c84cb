//! What a node does if the ballot of a campaign that it was asked for is refused.
ghost use Rattle.std.specs.Prelude.{◌↔◌, false, IsTrue, OnOk};
ghost use Rattle.node_run.specs.Course.{around_of};
ghost use Rattle.node_run.specs.Retries.{HasRetried, IsBallotRefused};
ghost use Rattle.node_run.specs.Keeping.{KeepsOutput, Works};

use crate::endpoints::Endpoints;
use group_node::{Node, NodeFault};
use group_wire::laws::deeds_go_on;
use group_wire::{Host, Wire};
use node_io::{GroupFault, Keyboard};
use paxos_acceptor::Store;

/// What a node did about a refused ballot.
#[derive(Clone, Copy, Debug, PartialEq, Eq)]
pub enum Retried {
    /// It did not campaign, as that was not due (`IsRetryDue`).
    NotDue,
    /// It campaigned again.
    Campaigned,
    /// It had to campaign again, and could not.
    CampaignRefused(NodeFault),
}

/// Returns true if the node has no ballot, and the greatest ballot that a Refused has reported to
/// it is above the one that it has promised.
fn is_ballot_refused<S: Store>(node: &Node<'_, S>) -> bool
    ensures { IsTrue result ↔ IsBallotRefused node.now.protocol.known }
{
    match (node.refusing_ballot(), node.record().promised) {
        (Some(refusing), Some(promised)) => node.ballot().is_none() && promised < refusing,
        _ => false,
    }
}

/// Campaigns once more, above the greatest ballot that a Refused has reported to the node, if it
/// was asked to campaign and has no ballot any more. It does so as often as `endpoints.retries`
/// says, which is 3 after a request: no more if it leads now, and not while it has promised a
/// ballot that is not below the reported one. A campaign that does not begin ends that, and the
/// node continues as it was.
pub fn campaign_again<T: Wire, K: Keyboard, S: Store>(
    host: &mut Host<'_, S>,
    endpoints: &mut Endpoints<T, K>,
) -> Result<Retried, GroupFault>
    requires works { Works host.old }
    ensures works { OnOk result (Works host.new) }
    ensures retried { HasRetried S.kind host.old host.new
        (around_of T.traffic K.keys endpoints.old)
        (around_of T.traffic K.keys endpoints.new) result }
    ensures output { KeepsOutput host.old host.new }
{
    deeds_go_on::<S>();
    if host.node().is_leading() {
        endpoints.retries = 0;
    }
    if endpoints.retries == 0 || !is_ballot_refused(host.node()) {
        return Ok(Retried::NotDue);
    }
    endpoints.retries -= 1;
    match host.campaign(&mut endpoints.wire) {
        Ok(()) => Ok(Retried::Campaigned),
        Err(fault @ (NodeFault::Stopped | NodeFault::Store)) => Err(GroupFault::Node(fault)),
        Err(fault) => {
            endpoints.retries = 0;
            Ok(Retried::CampaignRefused(fault))
        }
    }
}
