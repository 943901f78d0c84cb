//! A node with its outbox.
ghost use Rattle.std.specs.Prelude.{◌≡◌, ◌+◌, [], ◌∷◌, length, Option, option_map, slice_get, IfNone, OnSome};
ghost use Rattle.paxos_acceptor.specs.Stores.{IsStoreOf};
ghost use Rattle.group_node.specs.Deeds.{Campaign};
ghost use Rattle.group_node.specs.NodeCalls.{running, unreleased_by};
ghost use Rattle.group_node.specs.Output.{IsReplay};
ghost use Rattle.group_node.specs.States.{input};
ghost use Rattle.group_wire.specs.Campaigns.{HasCampaigned};
ghost use Rattle.group_wire.specs.Doings.{ActsBy, HasActed};
ghost use Rattle.group_wire.specs.Traffic.{Traffic};
ghost use Rattle.group_wire.specs.Turns.{SameReleased};
ghost use Rattle.group_wire.specs.Starts.{HasStarted};

use crate::sending::send_all;
use crate::trace_event::TraceEvent;
use crate::wire::Wire;
use group_node::{Config, Node, NodeFault, Outbox, StartRefused};
use paxos_acceptor::Store;
use paxos_msg::Group;
use pcode_ops::Program;
use std::alloc::Global;
use std::marker::Model;

/// A node of a group with its outbox. Each call that sends or receives gets the node's wire, and
/// what the node sends in a call goes out in that call. So contracts see a host as its node.
pub struct Host<'a, S: Store> {
    pub(crate) node: Node<'a, S>,
    // Empty between two calls.
    pub(crate) outbox: Outbox,
    pub(crate) group: Group,
}

impl<'a, S: Store + Drop> Drop for Host<'a, S> {
    fn drop(self) {
        let Host {
            node: _node,
            outbox: _outbox,
            group: _group,
        } = self;
    }
}

impl<'a, S: Store> Model for Host<'a, S> {
    ghost use Rattle.std.specs.Prelude.{◌≡◌, []};
    ghost use Rattle.std.specs.Coded.{codes};
    ghost use Rattle.paxos_learner.specs.Codes.{learner_code};
    ghost use Rattle.group_node.specs.States.{NodeState};

    ghost Value = { NodeState S };

    ghost coded = { Prim.hlevel (codes, learner_code) };

    ghost view = { λ h. h.node };

    ghost invariant = { λ h. (h.node.protocol.known.me.group ≡ h.group)
        × (h.outbox.packets ≡ []) };
}

impl<'a, S: Store> Host<'a, S> {
    /// Starts the node over the record that one load of `store` returns, as `Node::start` says
    /// (`HasStarted`). A refusal gives the store back, and exactly `Store` counts one more fault.
    /// Fails with `Memory` too if memory runs out for the outbox; then nothing was loaded.
    ///
    /// The store is one of the node of `config`, or of none in particular.
    pub fn start(
        alloc: Global,
        program: &'a Program,
        config: Config,
        store: S,
    ) -> Result<Host<'a, S>, StartRefused<S>>
        requires owned { IsStoreOf S.kind config store }
        ensures starts { HasStarted S.kind config program.now store result }
    {
        let group = config.me().group;
        let Ok(outbox) = Outbox::new(alloc) else {
            let fault = NodeFault::Memory;
            return Err(StartRefused { fault, store });
        };
        match Node::start(alloc, program, config, store) {
            Ok(node) => Ok(Host {
                node,
                outbox,
                group,
            }),
            Err(refused) => Err(refused),
        }
    }

    /// Returns the host's node.
    pub fn node(&self) -> &Node<'a, S>
        ensures { result.now ≡ self.now }
    {
        &self.node
    }

    /// Begins the node's next ballot, as `campaign` says.
    fn begin_campaign<T: Wire>(&mut self, wire: &mut T) -> Result<(), NodeFault>
        ensures campaigned { HasCampaigned S.kind self.old self.new
            (T.traffic wire.old) (T.traffic wire.new) result }
        ensures stays { SameReleased self.old self.new }
    {
        wire.trace(&TraceEvent::BeginsToCampaign);
        self.node.campaign(&mut self.outbox)?;
        wire.trace(&TraceEvent::Campaigned);
        send_all(wire, &mut self.outbox, self.group.size);
        Ok(())
    }

    /// Begins the node's next ballot, as `on_campaign` defines, and passes what it sends to `wire`
    /// at once (`HasCampaigned`). Its refusals come as those of `Node::campaign`, but none for a
    /// full outbox. After a refusal nothing was sent.
    pub fn campaign<T: Wire>(&mut self, wire: &mut T) -> Result<(), NodeFault>
        ensures campaigned { HasCampaigned S.kind self.old self.new
            (T.traffic wire.old) (T.traffic wire.new) result }
        ensures acts { ActsBy S.kind self.old self.new (T.traffic wire.old) (T.traffic wire.new)
            (Campaign ∷ []) (Campaign ∷ []) result }
        ensures stays { SameReleased self.old self.new }
    {
        self.begin_campaign(wire)
    }

    /// Releases the first byte of the output that waits. Returns its number, which is the number of
    /// bytes released before in this start, and the byte. If no byte waits, returns `None` and
    /// changes nothing.
    pub fn release(&mut self) -> Option<(u64, u8)>
        ensures value { result
            ≡ option_map (λ b. (self.old.progress.released, b))
            (slice_get (unreleased_by (running self.old)) 0) }
        ensures some { OnSome result
            (self.new.progress
            ≡ record self.old.progress { released = self.old.progress.released + 1 }) }
        ensures none { IfNone result (self.new ≡ self.old) }
        ensures protocol { self.new.protocol ≡ self.old.protocol }
        ensures acts { (passed : Option Traffic) → HasActed self.old self.new passed passed [] }
    {
        self.node.release()
    }

    /// Returns the number of bytes of output that wait, at most 256, as `Node::unreleased` says.
    pub fn unreleased(&self) -> usize
        ensures count { result ≡ length (unreleased_by (running self.now)) }
        ensures replay { IsReplay (input self.now.protocol.known) self.now.progress }
    {
        self.node.unreleased()
    }

    /// Returns the store as it is.
    pub fn into_store(self) -> S
        ensures { result ≡ self.entry.protocol.store }
    {
        let Host {
            node,
            outbox: _outbox,
            group: _group,
        } = self;
        node.into_store()
    }
}
