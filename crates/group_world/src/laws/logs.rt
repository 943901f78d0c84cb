//! Laws that the claims about logs can be broken and met: logs written down by hand.
ghost use Rattle.std.specs.Prelude.{ℕ, [], ◌∷◌, ◌≡◌, ◌<◌, ◌≤◌, List, length, map};
ghost use Rattle.pcode_file.specs.Parts.{Parts};
ghost use Rattle.paxos_msg.specs.declared.message.Body.TheVariants.{Ask};
ghost use Rattle.group_protocol.specs.Packets.{to_all};
ghost use Rattle.group_world.specs.declared.event.Outcome.TheVariants.{FailedOld, Kept};
ghost use Rattle.group_world.specs.Event.{LeadsBy};
ghost use Rattle.group_world.specs.Group.{new_world, world_state};
ghost use Rattle.group_rules.specs.Claims.{HasLearned};
ghost use Rattle.group_world.specs.KeyLog.{key_after, key_events, key_log, typed_letter, letter_value, promised_record, voted_record};
ghost use Rattle.group_world.specs.Member.{Member};
ghost use Rattle.group_world.specs.Processes.{AreEventsOf, IsLog};
ghost use Rattle.group_world.specs.Timed.{AllHearEarlier, IsByTime};
ghost use Rattle.group_rules.specs.SmallPrograms.{echoes};
ghost use Rattle.group_world.specs.WrittenLogs.{IsNoLog, IsSomeLog, five_nodes, nine_nodes, node_in, three_nodes};
ghost use Rattle.group_world.specs.WrongLogs.{IsOnlyOfUp, answers, campaigning, crashes, deliver_event, failed_and_starts_over, heard_at, hears_ask_from, idle_sends, idle_types, nodes_down, only_start, press_event, press_types, presses, releasing, run_sends, runs_no_step, starts_again_over, starts_twice, tick_sends, ticks, two_start};

use group_node::laws::learning_keeps_the_output;
use paxos_msg::grammar::spelling_is_read;
use pcode_machine::laws::output_only_grows;

/// What is no log of any processes of a group of three, five or nine, whatever program they run,
/// and beside it what is one. No node hears a message that is sent only later, or that nobody sent.
/// No start is over an older record than its store has: not after a crash, nor after a save that
/// failed and left the changed record.
///
/// A node that is down does not tick, take a byte, campaign, run, release or crash, and one that is
/// up does not start. A group of three has no node 4, one of nine no node 10, and one of five no
/// node 0. An idle node sends and types nothing, and a run sends nothing; a tick sends its Ask, and
/// sends it once. No byte is 256, and the first key has the serial 1. After a log there are as many
/// nodes as before, and a node that did nothing is as before.
pub fn wrong_logs()
    ensures answer_first { IsNoLog five_nodes (two_start (answers ∷ campaigning ∷ [])) }
    ensures answer_after { IsSomeLog five_nodes (two_start (campaigning ∷ answers ∷ [])) }
    ensures heard_unsent { IsNoLog nine_nodes (hears_ask_from 4) }
    ensures heard_sent { IsSomeLog nine_nodes (hears_ask_from 0) }
    ensures older_record { IsNoLog nine_nodes (starts_again_over 0) }
    ensures own_record { IsSomeLog nine_nodes (starts_again_over 1) }
    ensures record_before_failure { IsNoLog nine_nodes (failed_and_starts_over 0) }
    ensures record_after_failure { IsSomeLog nine_nodes (failed_and_starts_over 1) }
    ensures ticks { IsOnlyOfUp nine_nodes (node_in nine_nodes 7) ticks }
    ensures presses { IsOnlyOfUp nine_nodes (node_in nine_nodes 9) presses }
    ensures campaigns { IsOnlyOfUp five_nodes (node_in five_nodes 2) campaigning }
    ensures runs { IsOnlyOfUp five_nodes (node_in five_nodes 5) runs_no_step }
    ensures releases { IsOnlyOfUp five_nodes (node_in five_nodes 3) releasing }
    ensures crashes { IsOnlyOfUp nine_nodes (node_in nine_nodes 6) crashes }
    ensures starts_twice { IsNoLog nine_nodes starts_twice }
    ensures fourth_of_three { IsNoLog three_nodes (only_start three_nodes 4) }
    ensures tenth_of_nine { IsNoLog nine_nodes (only_start nine_nodes 10) }
    ensures node_zero { IsNoLog five_nodes (only_start five_nodes 0) }
    ensures last_of_three { IsSomeLog three_nodes (only_start three_nodes 3) }
    ensures idle_sends { IsNoLog five_nodes (idle_sends (to_all (Ask 0) ∷ [])) }
    ensures idle_types { IsNoLog five_nodes idle_types }
    ensures idle { IsSomeLog five_nodes (idle_sends []) }
    ensures run_sends { IsNoLog five_nodes (run_sends (to_all (Ask 0) ∷ [])) }
    ensures run { IsSomeLog five_nodes (run_sends []) }
    ensures tick_sends_nothing { IsNoLog nine_nodes (tick_sends []) }
    ensures tick_sends_twice { IsNoLog nine_nodes
        (tick_sends (to_all (Ask 0) ∷ to_all (Ask 0) ∷ [])) }
    ensures byte_256 { IsNoLog nine_nodes (press_types 256 1) }
    ensures second_serial { IsNoLog nine_nodes (press_types 255 2) }
    ensures four_of_five { (p : Parts) → ¬ IsLog (new_world p five_nodes) [] (nodes_down 4 0) }
    ensures six_of_five { (p : Parts) → ¬ IsLog (new_world p five_nodes) [] (nodes_down 6 0) }
    ensures changed_idle { (p : Parts) → ¬ IsLog (new_world p five_nodes) [] (nodes_down 5 1) }
    ensures five_of_five { (p : Parts) → IsLog (new_world p five_nodes) [] (nodes_down 5 0) }
{
    learning_keeps_the_output();
    spelling_is_read();
}

/// By a clock, what is heard was sent earlier, and an entry does not stand after one that began
/// later. Node 2 sends its Prepare in a deed that begins at time 5; node 4 may hear it at any later
/// time, and not at that time or before.
pub fn wrong_clocks()
    ensures later { (time : ℕ) → 5 < time
        → AllHearEarlier five_nodes (heard_at time) (heard_at time) }
    ensures not_later { (time : ℕ) → time ≤ 5
        → ¬ AllHearEarlier five_nodes (heard_at time) (heard_at time) }
    ensures in_order { (time : ℕ) → 5 ≤ time → IsByTime (heard_at time) }
    ensures out_of_order { (time : ℕ) → time < 5 → ¬ IsByTime (heard_at time) }
{
    spelling_is_read();
}

/// Lists that are not the events of an entry, and beside them right ones. Node 9 of nine takes the
/// byte 255: it is one event, at that node, of that byte, and with the save that the entry has. An
/// idle node has no event. Node 4 hears the Prepare of node 2, which is message 0: it is no
/// delivery of another message.
pub fn wrong_events()
    ensures press { AreEventsOf nine_nodes [] (presses ∷ []) (press_event 9 255 Kept) }
    ensures other_node { ¬ AreEventsOf nine_nodes [] (presses ∷ []) (press_event 8 255 Kept) }
    ensures other_byte { ¬ AreEventsOf nine_nodes [] (presses ∷ []) (press_event 9 254 Kept) }
    ensures other_save { ¬ AreEventsOf nine_nodes [] (presses ∷ []) (press_event 9 255 FailedOld) }
    ensures no_event { ¬ AreEventsOf nine_nodes [] (presses ∷ []) [] }
    ensures idle_event { ¬ AreEventsOf five_nodes [] (idle_sends []) (deliver_event 0) }
    ensures deliver { AreEventsOf five_nodes campaigning.sent (answers ∷ []) (deliver_event 0) }
    ensures other_message { ¬ AreEventsOf five_nodes campaigning.sent (answers ∷ [])
        (deliver_event 1) }
{
    spelling_is_read();
}

/// A log of three processes, written down by hand in order of time. All start, node 1 campaigns and
/// leads, a byte is typed at node 2, nodes 2 and 3 accept it, and node 3 learns it, runs and shows
/// it. It is a log of nodes that keep these records and have shown this, its events are those that
/// are written beside it, and they lead to these nodes.
pub fn a_written_log()
    ensures { (now : List Member) × IsLog (new_world echoes three_nodes) key_log now
        × AreEventsOf three_nodes [] key_log key_events
        × LeadsBy (new_world echoes three_nodes) key_events (key_after now)
        × HasLearned (world_state (key_after now)) 3 0 letter_value
        × (map (λ m. m.kept) now ≡ promised_record ∷ voted_record ∷ voted_record ∷ [])
        × (map (λ m. m.console) now ≡ [] ∷ [] ∷ (65 ∷ []) ∷ [])
        × ((world_state (key_after now)).typed ≡ typed_letter ∷ [])
        × (length (key_after now).sent ≡ 8) }
{
    output_only_grows();
    spelling_is_read();
}
