//! Laws of processes, each of which is a node of a group.
ghost use Rattle.std.specs.Prelude.{◌≡◌, ◌++◌, List};
ghost use Rattle.pcode_file.specs.Parts.{Parts};
ghost use Rattle.paxos_msg.specs.declared.message.Group.{Group};
ghost use Rattle.paxos_acceptor.specs.declared.me.Me.{Me};
ghost use Rattle.group_protocol.specs.Packets.{Datagram};
ghost use Rattle.group_world.specs.declared.event.Event.{Event};
ghost use Rattle.group_world.specs.Event.{LeadsBy};
ghost use Rattle.group_world.specs.Group.{World};
ghost use Rattle.group_rules.specs.Claims.{ConsolesAgree, ConsolesGrow, ConsolesHoldOutput, HasNoGap, LearnedAgree, LearnedChosen, LearnedStays};
ghost use Rattle.group_world.specs.Member.{Member};
ghost use Rattle.group_rules.specs.Claims.{KeysOnce, SerialsInOrder};
ghost use Rattle.group_world.specs.Processes.{AlwaysLaterOfProcesses, AlwaysOfProcesses, AreEvents, AreEventsOf, Entry, HasMoment, IsCarried, IsHistory, IsLog, MayBeLogged, after_log};
ghost use Rattle.group_rules.specs.Claims.{ConsolesShowReleased};
ghost use Rattle.group_world.specs.Timed.{AllHearEarlier, IsByTime, Timed, untimed};

use crate::laws::sound::{deeds_keep_it_sound, worlds_follow_the_rules};
use group_rules::laws::headline as rules_headline;
use pcode_machine::laws::run_is_after;

/// What the processes of a group do is what a list of events does. It is about every log of a group
/// in one order of time, in which each process does what its node's calls say, its store keeps its
/// record, and what a process hears was sent before. The events of the log, entry by entry, lead
/// from the group before it to the nodes after it, with all that was sent and typed.
pub fn processes_are_events()
    ensures { (w : World) (log : List Entry) (now : List Member) → IsLog w log now
        → AreEvents w log now }
{}

/// Any events that are those of a log, entry by entry, lead to its nodes: if a message was sent
/// more than once, whichever number they have for it.
pub fn events_of_logs_lead()
    ensures { (w : World) (log : List Entry) (now : List Member) (events : List Event)
        → IsLog w log now → AreEventsOf w.group w.sent log events
        → LeadsBy w events (after_log w log now) }
{}

/// If events lead from `w` to `v`, some log of processes leads there too, and these are its events
/// (`MayBeLogged`). So `processes_are_events` leaves out no list of events, and its premise can be
/// met whenever events lead.
pub fn events_are_processes()
    ensures { (w v : World) (events : List Event) → LeadsBy w events v
        → MayBeLogged w events v }
{}

/// A log in the order of time, by a clock, is carried if each deed hears only what a deed sent that
/// began earlier. A deed begins when its receive has returned, and sends then. So if a network
/// carries what was sent, a clock that is the same for all nodes gives such a log.
pub fn time_orders_logs()
    ensures { (group : Group) (sent : List Datagram) (log : List Timed) → IsByTime log
        → AllHearEarlier group log log → IsCarried group sent (untimed log) }
{}

/// The main theorem for processes. It is about every program, every group of 1, 3, 5, 7 or 9 nodes,
/// and every log of its processes from the group in which nothing has happened: starts, messages,
/// typed bytes, campaigns, ticks, runs, releases and crashes, with saves that fail or not.
pub fn processes_headline()
    ensures learned_agree { AlwaysOfProcesses LearnedAgree }
    ensures learned_chosen { AlwaysOfProcesses LearnedChosen }
    ensures consoles_hold_output { AlwaysOfProcesses ConsolesHoldOutput }
    ensures consoles_agree { AlwaysOfProcesses ConsolesAgree }
    ensures no_gap { AlwaysOfProcesses HasNoGap }
    ensures key_once { AlwaysOfProcesses KeysOnce }
    ensures serials_in_order { AlwaysOfProcesses SerialsInOrder }
    ensures learned_stays { AlwaysLaterOfProcesses LearnedStays }
    ensures consoles_grow { AlwaysLaterOfProcesses ConsolesGrow }
{
    deeds_keep_it_sound();
    worlds_follow_the_rules();
    rules_headline();
}

/// If a process is up, the bytes that it has released since its start are the first bytes of its
/// console. The console may have more. So what a process has written to its terminal, from a number
/// on, is a part of the console of which the main theorem speaks.
pub fn processes_show()
    ensures shows { AlwaysOfProcesses ConsolesShowReleased }
{
    deeds_keep_it_sound();
    worlds_follow_the_rules();
    rules_headline();
}

/// Between two parts of a log there are nodes, which the first part leaves and from which the
/// second one goes on. So each prefix of a log is a log, and what holds of every log holds at each
/// moment of one.
pub fn prefixes_of_logs()
    ensures { (w : World) (log more : List Entry) (now : List Member) → IsLog w (log ++ more) now
        → HasMoment w log more now }
{}

/// A node and its entries determine the node after them. A world and a log determine the nodes
/// after it.
pub fn logs_have_one_end()
    ensures node { (p : Parts) (me : Me) (m : Member) (entries : List Entry) (last other : Member)
        → IsHistory p me m entries last → IsHistory p me m entries other → other ≡ last }
    ensures nodes { (w : World) (log : List Entry) (now other : List Member) → IsLog w log now
        → IsLog w log other → other ≡ now }
{
    run_is_after();
}
