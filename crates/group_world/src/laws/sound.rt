//! Laws of what holds of every world: deeds keep it sound, and what follows for a sound one.
ghost use Rattle.std.specs.Prelude.{◌≡◌, ℕ, Bool, List, Option};
ghost use Rattle.pcode_file.specs.Parts.{Parts};
ghost use Rattle.paxos_msg.specs.declared.message.Group.{Group};
ghost use Rattle.paxos_msg.specs.Fits.{IsGroup};
ghost use Rattle.group_protocol.specs.States.{IsSize};
ghost use Rattle.group_node.specs.Deeds.{Deed};
ghost use Rattle.group_rules.specs.Leads.{NodeDeed, initial, LeadsByRules};
ghost use Rattle.group_world.specs.declared.event.Event.{Event};
ghost use Rattle.group_world.specs.Member.{Member};
ghost use Rattle.group_world.specs.Processes.{after_log, Entry, IsLog};
ghost use Rattle.group_world.specs.declared.event.Done.{Done};
ghost use Rattle.group_world.specs.Event.{DoesAt, HearsOf, IsStepAt, LeadsBy};
ghost use Rattle.group_world.specs.Group.{new_world, World, world_state};
ghost use Rattle.group_world.specs.Sound.{Holds, IsSound};

use group_node::laws::learning_keeps_the_output;
use group_protocol::laws::{
    calls_are_lawful, lawful_calls_go_on, others_keep_it_backed, what_goes_out_fits,
};
use group_rules::laws::{calls_are_deeds, output_is_a_deed, steps_keep_it};
use paxos_acceptor::laws::backing;
use paxos_learner::laws::one_front;
use paxos_msg::grammar::spelling_is_read;

/// A world is sound before all events, and each deed of a node keeps it sound, if it hears only
/// what was sent. In a sound world, a deed that is not refused is a step of the rules
/// (`WorldStep`), and one that is refused changes nothing.
pub fn deeds_keep_it_sound()
    ensures begins { (p : Parts) (group : Group) → IsSize group.size → IsGroup group
        → IsSound (new_world p group) }
    ensures goes_on { (w v : World) (i : ℕ) (plan : Option Bool) (deed : Deed) (d : Done)
        → IsSound w → HearsOf w.group w.sent deed → DoesAt w i plan deed d v → IsSound v }
    ensures step { (w v : World) (i : ℕ) (plan : Option Bool) (deed : Deed) (d : Done)
        → IsSound w → HearsOf w.group w.sent deed → DoesAt w i plan deed d v
        → IsStepAt (world_state w) i deed d (world_state v) }
{
    calls_are_lawful();
    what_goes_out_fits();
    learning_keeps_the_output();
    lawful_calls_go_on();
    others_keep_it_backed();
    calls_are_deeds();
    output_is_a_deed();
    one_front();
    backing();
    spelling_is_read();
}

/// The invariant of a world (`Holds`) holds before all events, and each deed of a node keeps it, if
/// the node hears only what was sent.
pub fn deeds_keep_what_holds()
    ensures begins { (p : Parts) (group : Group) → IsSize group.size → IsGroup group
        → Holds (new_world p group) }
    ensures goes_on { (w v : World) (i : ℕ) (plan : Option Bool) (deed : Deed) (d : Done) → Holds w
        → HearsOf w.group w.sent deed → DoesAt w i plan deed d v → Holds v }
{
    deeds_keep_it_sound();
    worlds_follow_the_rules();
    steps_keep_it();
}

/// A list of events, and a log of processes, lead from a sound world to a sound one. Some deeds
/// lead by the rules from the first to the second, as `world_state` shows them. `world_state` of
/// a new world is `initial`.
pub fn worlds_follow_the_rules()
    ensures first { (p : Parts) (group : Group)
        → world_state (new_world p group) ≡ initial p group.size }
    ensures events { (w v : World) (events : List Event) → IsSound w → LeadsBy w events v
        → IsSound v
        × ((deeds : List NodeDeed) × LeadsByRules (world_state w) deeds (world_state v)) }
    ensures log { (w : World) (log : List Entry) (now : List Member) → IsSound w → IsLog w log now
        → IsSound (after_log w log now)
        × ((deeds : List NodeDeed)
        × LeadsByRules (world_state w) deeds (world_state (after_log w log now))) }
{
    deeds_keep_it_sound();
}
