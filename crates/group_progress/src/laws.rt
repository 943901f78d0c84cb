//! The laws that a group can go on, as long as starts, rounds and places are left.
ghost use Rattle.std.specs.Prelude.{ℕ, ◌+◌, ◌<◌, ◌≤◌, ◌≢◌, Bool, IsTrue, List, Option, length};
ghost use Rattle.pcode_file.specs.Parts.{Parts};
ghost use Rattle.paxos_acceptor.specs.declared.me.Me.{Me};
ghost use Rattle.paxos_msg.specs.declared.limits.TheConstants.{LAST_SERIAL};
ghost use Rattle.paxos_msg.specs.declared.message.Group.{Group};
ghost use Rattle.paxos_msg.specs.Ballots.{IsMajority};
ghost use Rattle.paxos_msg.specs.Fits.{IsGroup};
ghost use Rattle.paxos_msg.specs.Keys.{keys_of};
ghost use Rattle.group_protocol.specs.declared.fault.NodeFault.TheVariants.{OutboxFull};
ghost use Rattle.group_protocol.specs.declared.limits.TheConstants.{MOST_WAITING};
ghost use Rattle.group_protocol.specs.Known.{new_key, next_serial};
ghost use Rattle.group_protocol.specs.States.{IsSize};
ghost use Rattle.group_node.specs.Deeds.{Deed};
ghost use Rattle.group_node.specs.NodeCalls.{Running};
ghost use Rattle.group_world.specs.declared.event.Act.TheVariants.{Press};
ghost use Rattle.group_world.specs.declared.event.Done.TheVariants.{Applied, Refused};
ghost use Rattle.group_world.specs.declared.event.Event.{Event};
ghost use Rattle.group_world.specs.Deeds.{DoesDeed, Left};
ghost use Rattle.group_world.specs.Event.{Goes, LeadsBy, kept_event};
ghost use Rattle.group_world.specs.Group.{IsUp, World, new_world};
ghost use Rattle.group_world.specs.Member.{Member};
ghost use Rattle.group_world.specs.Processes.{Entry, IsLog, after_log};
ghost use Rattle.group_progress.specs.GoingOn.{AllHaveFinishedReading, AllHaveReadAndShown, AllTakeKeys, AllMayShow, HaveLeft, HaveLeftFor, HaveOpen, MayReach, MayReachWithin, keys_waiting, most_messages, most_ticks};
ghost use Rattle.group_progress.specs.Processes.{ProcessesMayReach};

mod below;
mod fair;

use below::what_lies_below;
pub use fair::{
    fair_runs_get_a_leader, fair_runs_go_on, fair_runs_learn, fair_runs_need_peace,
    fair_runs_need_submits, fair_runs_need_ticks, fair_runs_promise, fair_runs_propose,
    fair_runs_read, fair_runs_spread_keys, led_runs_show, some_run_is_fair,
};
use group_world::laws::{events_are_processes, processes_are_events};

/// All that waits can be read within so many events. From each world that is reached,
/// some events of the nodes of a majority, at most so many, lead to one in which each of them is up
/// and has read each key that waited at one of them, and no key waits there any more.
///
/// All votes of the majority are below `left.top`, and the known front of each of its nodes (0 if
/// the node is down) is at most `k` places below that. The numbers are linear in `k` and in the
/// batches of the keys.
pub fn all_can_be_read_within()
    ensures { (p : Parts) (group : Group) (events : List Event) (w : World) (members : ℕ → Bool)
        (k : ℕ) → IsSize group.size → IsGroup group → LeadsBy (new_world p group) events w
        → IsMajority w.group.size members → (left : HaveLeft members w)
        → HaveOpen k left.top members w
        → MayReachWithin (most_ticks w.group.size k (length (keys_waiting members w)))
        (most_messages w.group.size k (length (keys_waiting members w))) members w
        (AllHaveFinishedReading members w.group.size (keys_waiting members w)) }
{
    what_lies_below();
}

/// No world is stuck. Whatever has happened to a group, and whatever is lost of what is on its
/// way, the nodes of each majority can go on by themselves, unless their numbers are spent: events
/// of theirs lead to a world in which each of them is up and has read each key that waited at one
/// of them, and no key waits there any more.
pub fn no_world_is_stuck()
    ensures { (p : Parts) (group : Group) (events : List Event) (w : World) (members : ℕ → Bool)
        → IsSize group.size → IsGroup group → LeadsBy (new_world p group) events w
        → IsMajority w.group.size members → HaveLeft members w
        → MayReach members w
        (AllHaveFinishedReading members w.group.size (keys_waiting members w)) }
{
    all_can_be_read_within();
}

/// A node of the majority that is up takes a byte that is typed now, if fewer than 256 keys wait
/// there and a serial is left. Events of the majority's nodes then lead to a world in which each of
/// them has read this key, and no key waits there. Starts, rounds, and places for the key and for
/// all that wait have to be left (`HaveLeftFor`).
pub fn a_typed_key_can_be_read()
    ensures { (p : Parts) (group : Group) (events : List Event) (w : World) (members : ℕ → Bool)
        (i byte : ℕ) (m : Member) (q : Running) → IsSize group.size → IsGroup group
        → LeadsBy (new_world p group) events w → IsMajority w.group.size members
        → HaveLeftFor (length (keys_waiting members w) + 1) members w → IsTrue (members i)
        → IsUp w i m q → byte < 256 → length q.known.waiting < MOST_WAITING
        → next_serial q.known < LAST_SERIAL + 1
        → (v : World) × Goes w (kept_event (Press i byte)) Applied v
        × MayReach members v
        (AllHaveFinishedReading members w.group.size (keys_of (new_key q.known byte))) }
{
    no_world_is_stuck();
    what_lies_below();
}

/// No node stays full, unless numbers are spent. If 256 keys wait at a node of the majority, so
/// that it refuses a typed byte, events of these nodes lead to a world in which none of them
/// refuses one for that. No deed is refused as `OutboxFull`: a deed knows no outbox. That a host
/// hands out what a deed sends before the next one is promised by `Host`.
pub fn no_node_stays_full()
    ensures keys { (p : Parts) (group : Group) (events : List Event) (w : World)
        (members : ℕ → Bool) → IsSize group.size → IsGroup group
        → LeadsBy (new_world p group) events w → IsMajority w.group.size members
        → HaveLeft members w → MayReach members w (AllTakeKeys members w.group.size) }
    ensures outbox { (p : Parts) (me : Me) (m : Member) (plan : Option Bool) (deed : Deed)
        (left : Left) → DoesDeed p me m plan deed left → left.answer ≢ Refused OutboxFull }
{
    no_world_is_stuck();
}

/// No console is stuck. In each world that is reached, a node that is up can show, by itself, all
/// that the program writes on what the node has learned, in any number of steps below 2^64.
pub fn no_console_is_stuck()
    ensures { (p : Parts) (group : Group) (events : List Event) (w : World) (members : ℕ → Bool)
        → IsSize group.size → IsGroup group → LeadsBy (new_world p group) events w
        → AllMayShow members w }
{
    what_lies_below();
}

/// From each world that is reached the nodes of a majority can read all keys that wait at them, so
/// that none waits, and then each show what the program writes on what it has read, in any number
/// of steps below 2^64, unless their numbers are spent.
pub fn all_can_be_read_and_shown()
    ensures { (p : Parts) (group : Group) (events : List Event) (w : World) (members : ℕ → Bool)
        (steps : ℕ) → IsSize group.size → IsGroup group → LeadsBy (new_world p group) events w
        → IsMajority w.group.size members → HaveLeft members w → steps ≤ 18446744073709551615
        → MayReach members w
        (AllHaveReadAndShown members w.group.size (keys_waiting members w) steps) }
{
    no_world_is_stuck();
    what_lies_below();
}

/// No group of processes is stuck. Whatever they have done, and whatever is lost, deeds of the
/// processes of each majority, unless their numbers are spent, lead to a group in which each of
/// them is up and has read all keys that waited at them, no key waits there, and its console begins
/// with what the program writes on what it has read, in any number of steps below 2^64.
pub fn no_group_is_stuck()
    ensures { (p : Parts) (group : Group) (log : List Entry) (now : List Member)
        (members : ℕ → Bool) (steps : ℕ) → IsSize group.size → IsGroup group
        → IsLog (new_world p group) log now → IsMajority group.size members
        → HaveLeft members (after_log (new_world p group) log now) → steps ≤ 18446744073709551615
        → ProcessesMayReach members (after_log (new_world p group) log now)
        (AllHaveReadAndShown members group.size
        (keys_waiting members (after_log (new_world p group) log now)) steps) }
{
    all_can_be_read_and_shown();
    processes_are_events();
    events_are_processes();
}

/// Starts, rounds and places are left (`HaveLeft`) before all events, whichever nodes are meant.
pub fn all_is_left_at_first()
    ensures { (p : Parts) (group : Group) (members : ℕ → Bool) → IsSize group.size
        → HaveLeft members (new_world p group) }
{}
