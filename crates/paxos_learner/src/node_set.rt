//! Sets of nodes.
ghost use Rattle.std.specs.Prelude.{◌≡◌, ◌≤◌};
ghost use Rattle.paxos_msg.specs.Ballots.{count_of};
ghost use Rattle.paxos_learner.specs.Tallies.{has_node, no_nodes, with_node};
ghost use Rattle.paxos_msg.specs.declared.limits.TheConstants.{MOST_NODES};

use std::marker::Model;

/// A set of nodes 0 to 9. A node is in the set if the bit of its number is set.
#[derive(Clone, Copy)]
pub struct NodeSet {
    bits: u16,
}

impl Model for NodeSet {
    ghost use Rattle.std.specs.Prelude.{Bool, List, ◌<◌, ◌+◌, ◌^◌};
    ghost use Rattle.paxos_learner.specs.Masks.{mask_back, mask_of, nodes_of};
    ghost use Rattle.paxos_msg.specs.declared.limits.TheConstants.{MOST_NODES};

    ghost Value = { List Bool };

    ghost view = { λ s. nodes_of s.bits };

    ghost invariant = { λ s. s.bits < 2 ^ (MOST_NODES + 1) };

    ghost inverse = { λ nodes. record { bits = mask_of nodes } };

    ghost inverse_ok = { λ s h. λ i. record { bits = mask_back s.bits h i } };
}

impl NodeSet {
    /// Returns a set without nodes.
    pub fn new() -> NodeSet
        ensures { result ≡ no_nodes }
    {
        NodeSet { bits: 0 }
    }

    /// Returns true if the node is in the set.
    pub fn contains(&self, node: u8) -> bool
        requires { node ≤ MOST_NODES }
        ensures { result ≡ has_node self.now node }
    {
        (self.bits >> node) & 1 == 1
    }

    /// Adds the node.
    pub fn insert(&mut self, node: u8)
        requires { node ≤ MOST_NODES }
        ensures { self.new ≡ with_node self.old node }
    {
        self.bits |= 1 << node;
    }

    /// Returns how many of the nodes 1 to `size` are in the set.
    pub fn count(&self, size: u8) -> u32
        requires { size ≤ MOST_NODES }
        ensures count { result ≡ count_of (has_node self.now) size }
        ensures few { result ≤ size }
    {
        let from_one = self.bits >> 1;
        (from_one & ((1 << size) - 1)).count_ones()
    }
}
