//! Tallies of places that are not learned.
ghost use Rattle.std.specs.Prelude.{◌≡◌, ◌≤◌};
ghost use Rattle.paxos_msg.specs.Tests.{is_majority};
ghost use Rattle.paxos_learner.specs.Tallies.{begun_tally, joined_tally, tallied, has_node};
ghost use Rattle.paxos_msg.specs.declared.limits.TheConstants.{MOST_NODES};

use crate::node_set::NodeSet;
use paxos_msg::{Ballot, Value};
use std::marker::Model;

/// The nodes that accepted a value at one place under a ballot.
#[derive(Clone, Copy)]
pub struct Tally {
    ballot: Ballot,
    value: Value,
    nodes: NodeSet,
}

impl Model for Tally {
    ghost use Rattle.paxos_learner.specs.Tallies.{Tally as Heard};

    ghost Value = { Heard };

    ghost view = { λ t. record { ballot = t.ballot; value = t.value; nodes = t.nodes } };

    ghost inverse = { λ t. record { ballot = t.ballot; value = t.value; nodes = t.nodes } };
}

impl Tally {
    /// Returns a tally of one node alone.
    fn begun(node: u8, ballot: Ballot, value: Value) -> Tally
        requires { node ≤ MOST_NODES }
        ensures { result ≡ begun_tally node ballot value }
    {
        let mut nodes = NodeSet::new();
        nodes.insert(node);
        Tally {
            ballot,
            value,
            nodes,
        }
    }

    /// Returns the tally with this node as well, or `None` if it has the node.
    fn joined(self, node: u8) -> Option<Tally>
        requires { node ≤ MOST_NODES }
        ensures { result ≡ joined_tally self node }
    {
        let Tally {
            ballot,
            value,
            mut nodes,
        } = self;
        if nodes.contains(node) {
            return None;
        }
        nodes.insert(node);
        Some(Tally {
            ballot,
            value,
            nodes,
        })
    }

    /// Returns the accepted value.
    pub fn value(&self) -> Value
        ensures { result ≡ self.now.value }
    {
        self.value
    }

    /// Returns true if the nodes of the tally are more than half of the nodes 1 to `size`.
    pub fn is_majority(&self, size: u8) -> bool
        requires { size ≤ MOST_NODES }
        ensures { result ≡ is_majority size (has_node self.now.nodes) }
    {
        u32::from(size) < 2 * self.nodes.count(size)
    }
}

/// Returns the tally at a place after `node`, 0 to 9, has accepted the value under the ballot.
/// Returns `None` if nothing changes.
pub fn tallied(old: Option<Tally>, node: u8, ballot: Ballot, value: Value) -> Option<Tally>
    requires { node ≤ MOST_NODES }
    ensures { result ≡ tallied old node ballot value }
{
    match old {
        Some(tally) if ballot <= tally.ballot => {
            if tally.ballot == ballot && tally.value == value {
                tally.joined(node)
            } else {
                None
            }
        }
        _ => Some(Tally::begun(node, ballot, value)),
    }
}
