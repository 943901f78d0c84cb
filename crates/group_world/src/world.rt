//! A group whose invariant is known: after each event the claims of the main theorem hold.
ghost use Rattle.std.specs.Prelude.{◌≡◌, ◌↔◌, ◌⊎◌, length, option_and_then, option_map, slice_get, IfErr, IfOk, IsErrOf, OnOk};
ghost use Rattle.group_protocol.specs.States.{IsSize};
ghost use Rattle.group_world.specs.Group.{member_at, new_world, world_state};
ghost use Rattle.group_node.specs.NodeCalls.{running};
ghost use Rattle.group_world.specs.Refusals.{Applies};
ghost use Rattle.group_rules.specs.Claims.{ConsolesAgree, ConsolesGrow, ConsolesHoldOutput, HasNoGap, LearnedAgree, LearnedChosen, LearnedStays};
ghost use Rattle.group_rules.specs.Claims.{KeysOnce, SerialsInOrder};

use crate::event::{Done, Event};
use crate::fault::WorldFault;
use crate::group::GroupState;
use crate::laws::{deeds_keep_it_sound, worlds_follow_the_rules};
use group_node::{Node, Packet};
use group_rules::laws::{claims_follow, steps_keep_it};
use paxos_acceptor::MemoryStore;
use paxos_msg::limits::MOST_NODES;
use paxos_msg::{Group, Record, Value};
use pcode_ops::Program;
use std::alloc::Global;
use std::marker::Model;

/// A group of 1, 3, 5, 7 or 9 nodes that run one program, all that they have sent, and all that was
/// typed. Each node is a real one over a store in memory. What nodes send are datagrams, which a
/// delivery reads again.
pub struct World<'a> {
    group: GroupState<'a>,
}

impl<'a> Drop for World<'a> {
    fn drop(self) {
        let World { group: _group } = self;
    }
}

impl<'a> Model for World<'a> {
    ghost use Rattle.std.specs.Coded.{codes};
    ghost use Rattle.paxos_learner.specs.Codes.{learner_code};
    ghost use Rattle.group_world.specs.Sound.{Holds};
    ghost use Rattle.group_world.specs.Group as state;

    ghost Value = { state.World };

    ghost coded = { Prim.hlevel (codes, learner_code) };

    ghost view = { λ w. w.group };

    ghost invariant = { λ w. Holds w.group };
}

impl<'a> World<'a> {
    /// Makes a group of `size` nodes in which nothing has happened: all are down, with empty
    /// records, and their consoles have shown nothing. `session` is a number that distinguishes
    /// groups. Fails with `Size` exactly if `size` is even or above 9, and otherwise only with
    /// `Memory`.
    pub fn new(
        alloc: Global,
        program: &'a Program,
        size: u8,
        session: u32,
    ) -> Result<World<'a>, WorldFault>
        ensures begun { IfOk result
            (λ w. w ≡ new_world program.now (record { size = size; session = session })) }
        ensures size { IsErrOf result WorldFault.Size ↔ ¬ IsSize size }
        ensures fit { OnOk result (IsSize size) }
        ensures others { IfErr result (λ e. (e ≡ WorldFault.Size) ⊎ (e ≡ WorldFault.Memory)) }
    {
        deeds_keep_it_sound();
        worlds_follow_the_rules();
        steps_keep_it();
        if size % 2 == 0 || size > MOST_NODES {
            return Err(WorldFault::Size);
        }
        match GroupState::new(alloc, program, Group { size, session }) {
            Ok(group) => Ok(World { group }),
            Err(_) => Err(WorldFault::Memory),
        }
    }

    /// Performs `event`. Each act but a crash calls a function of `Node`: a press calls `typed`, a
    /// delivery `on_message` with the message that the datagram of that number spells, and each
    /// other act the function of its name. Its save, if it makes one, goes as `event` says. `Done`
    /// says what came of it: if the node itself refuses the call, that is `Ok` too
    /// (`Done::Refused`), and nothing has changed.
    ///
    /// Fails with `NoNode` if there is no such node, else with `NoMessage` if no message of that
    /// number was sent, else with `NodeDown` if the node is down, or at a start `NodeUp` if it is
    /// up, else only with `Memory`. Then nothing has changed. After a save that fails the node is
    /// down, nothing was sent, and the next start finds the old record or the changed one. A crash
    /// leaves the record and the console.
    ///
    /// Whatever happened before, the claims of the main theorem hold of the group after it. What
    /// was learned and shown before stays, also if the event is refused.
    #[tactic(none)]
    pub fn apply(&mut self, event: &Event) -> Result<Done, WorldFault>
        ensures applies { Applies self.old event.now result self.new }
        ensures learned_stays { LearnedStays (world_state self.old) (world_state self.new) }
        ensures consoles_grow { ConsolesGrow (world_state self.old) (world_state self.new) }
        ensures learned_agree { LearnedAgree (world_state self.new) }
        ensures learned_chosen { LearnedChosen (world_state self.new) }
        ensures consoles_hold_output { ConsolesHoldOutput (world_state self.new) }
        ensures consoles_agree { ConsolesAgree (world_state self.new) }
        ensures no_gap { HasNoGap (world_state self.new) }
        ensures key_once { KeysOnce (world_state self.new) }
        ensures serials_in_order { SerialsInOrder (world_state self.new) }
    {
        deeds_keep_it_sound();
        claims_follow();
        if let Some(fault) = self.group.refusal(&event.act) {
            return Err(fault);
        }
        self.group.perform(&event.act, event.save.plan())
    }

    /// Returns the number of messages that were sent.
    pub fn sent(&self) -> usize
        ensures { result ≡ length self.now.sent }
    {
        self.group.sent.len()
    }

    /// Returns the message with the number `number`, if there is one: its datagram, and to whom it
    /// goes. Messages are counted from 0 in the order in which they were sent.
    pub fn message(&self, number: usize) -> Option<&Packet>
        ensures { option_map (λ packet. packet.now) result ≡ slice_get self.now.sent number }
    {
        self.group.sent.get(number)
    }

    /// Returns the typed key with the number `number`, if there is one, as a batch of one. Keys are
    /// counted from 0 in the order in which they were typed.
    pub fn typed(&self, number: usize) -> Option<Value>
        ensures { result ≡ slice_get self.now.typed number }
    {
        self.group.typed.get(number).copied()
    }

    /// Returns the bytes that the console of `node` has shown, if there is such a node.
    pub fn console(&self, node: u8) -> Option<&[u8]>
        ensures { option_map (λ bytes. bytes.now) result
            ≡ option_map (λ m. m.console) (member_at self.now.members node) }
    {
        Some(self.group.member(node)?.console())
    }

    /// Returns the node with the number `node`, if there is one and it is up.
    pub fn node(&self, node: u8) -> Option<&Node<'a, MemoryStore>>
        ensures { option_map (λ n. running n.now) result
            ≡ option_and_then (λ m. m.node) (member_at self.now.members node) }
    {
        self.group.member(node)?.node()
    }

    /// Returns the record that the next start of `node` finds, if there is such a node.
    pub fn record(&self, node: u8) -> Option<&Record>
        ensures { option_map (λ r. r.now) result
            ≡ option_map (λ m. m.kept) (member_at self.now.members node) }
    {
        Some(self.group.member(node)?.record())
    }
}
