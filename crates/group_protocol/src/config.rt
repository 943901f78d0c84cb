//! The node's number and its group.
ghost use Rattle.std.specs.Prelude.{◌≡◌, ◌↔◌, ◌<◌, ◌⊎◌, IfOk, IfErr, IsErrOf};
ghost use Rattle.group_protocol.specs.States.{IsConfig, IsSize};

use crate::fault::NodeFault;
use paxos_acceptor::Me;
use paxos_msg::Group;
use paxos_msg::limits::MOST_NODES;
use std::marker::Model;

/// A node of a group of 1, 3, 5, 7 or 9 nodes.
#[derive(Drop)]
pub struct Config {
    me: Me,
}

impl Model for Config {
    ghost use Rattle.paxos_acceptor.specs.declared.me.Me.{Me};
    ghost use Rattle.group_protocol.specs.States.{IsConfig};

    ghost Value = { Me };

    ghost view = { λ c. c.me };

    ghost invariant = { λ c. IsConfig c.me };
}

impl Config {
    /// Returns node `node` of the group of `size` nodes with the number `session`, which
    /// distinguishes groups. Fails with `Size` exactly if `size` is even or above 9, and otherwise
    /// with `Id` exactly if `node` is 0 or above `size`.
    pub fn new(node: u8, size: u8, session: u32) -> Result<Config, NodeFault>
        ensures ok { IfOk result
            (λ c. c ≡ record { node = node; group = record { size = size; session = session } }) }
        ensures size { IsErrOf result NodeFault.Size ↔ ¬ IsSize size }
        ensures id { IsErrOf result NodeFault.Id ↔ (IsSize size × ((node ≡ 0) ⊎ (size < node))) }
        ensures others { IfErr result (λ e. (e ≡ NodeFault.Size) ⊎ (e ≡ NodeFault.Id)) }
    {
        if size % 2 == 0 || size > MOST_NODES {
            return Err(NodeFault::Size);
        }
        if node == 0 || size < node {
            return Err(NodeFault::Id);
        }
        let group = Group { size, session };
        Ok(Config {
            me: Me { node, group },
        })
    }

    /// Returns the number of the node, 1 up to the size, and its group of 1, 3, 5, 7 or 9 nodes.
    pub fn me(&self) -> Me
        ensures me { result ≡ self.now }
        ensures ranges { IsConfig self.now }
    {
        self.me
    }
}
