//! Laws that the definition of a step of a group cannot be bent: of steps that are written down by
//! hand, each wrong in one way alone, none is a step by the rules.
ghost use Rattle.std.specs.Prelude.{◌++◌, ◌≢◌, ℕ, List, [], ◌∷◌};
ghost use Rattle.std.specs.FinMap.{empty, insert};
ghost use Rattle.paxos_msg.specs.declared.ballot.Ballot.{Ballot};
ghost use Rattle.paxos_msg.specs.declared.message.Body.TheVariants.{Prepare, Promise, Accept, Accepted, Refused, Submit, Ask, Tell};
ghost use Rattle.paxos_msg.specs.declared.value.Value.{Value};
ghost use Rattle.paxos_msg.specs.declared.value.Value.TheVariants.{Keys};
ghost use Rattle.paxos_msg.specs.Batches.{Record, Vote};
ghost use Rattle.group_node.specs.Deeds as deed;
ghost use Rattle.group_rules.specs.Rules.{Up, WorldStep};
ghost use Rattle.group_rules.specs.WrongSteps.{ask_by, ballot_by, both_keys, batch_40, four_accepted, kept_by, kept_third, kept_voted, named_program, nine, HearingLeaves, nine_fell, nine_keep, nine_sent, nine_show, nine_submit, nine_type, nine_up, key_of_9, seat_down, seat_up, sent_by_ninth, seventh_proposes, sixth_now, sixth_was, two_of_nine, up_as, up_learned, up_reading, up_waiting, up_written};

use pcode_machine::laws::{step_is_transition, step_only_adds};

/// A node that ticks forgets nothing that it has learned, and learns nothing that only four of nine
/// nodes have accepted. Its machine does not write, and the number of its released bytes stays. A
/// key that waits does not leave unread, nor when it is learned above a hole; the second does not
/// leave before the first; and none appears.
pub fn wrong_learning()
    // LearnsOnly.keeps.
    ensures forgets { ¬ WorldStep (nine_up (up_learned (insert empty 700 (batch_40 65))))
        9 deed.Tick (nine_up (up_learned empty)) }
    // LearnsOnly.gains, at a place and size of its own.
    ensures learns_by_four { ¬ WorldStep
        (nine (seat_up kept_third [] (up_learned empty)) (four_accepted (batch_40 65)) [])
        9 deed.Tick
        (nine (seat_up kept_third [] (up_learned (insert empty 700 (batch_40 65))))
        (four_accepted (batch_40 65)) []) }
    // LearnsOnly.configuration.
    ensures writes { ¬ WorldStep (nine_up (up_written [] 0)) 9 deed.Tick
        (nine_up (up_written (65 ∷ []) 0)) }
    // LearnsOnly.released.
    ensures counts_on { ¬ WorldStep (nine_up (up_written (65 ∷ 66 ∷ []) 1)) 9 deed.Tick
        (nine_up (up_written (65 ∷ 66 ∷ []) 2)) }
    // LearnsOnly.released.
    ensures counts_back { ¬ WorldStep (nine_up (up_written (65 ∷ 66 ∷ []) 1)) 9 deed.Tick
        (nine_up (up_written (65 ∷ 66 ∷ []) 0)) }
    // AreParted.below.
    ensures leaves_unread { ¬ WorldStep (nine_up (up_waiting (key_of_9 40 65 ∷ [])))
        9 deed.Tick (nine_up (up_waiting [])) }
    // AreParted.below: the front.
    ensures leaves_above_a_hole { ¬ WorldStep
        (nine_up (up_as (insert empty 700 (batch_40 65)) [] 0 (key_of_9 40 65 ∷ [])))
        9 deed.Tick (nine_up (up_as (insert empty 700 (batch_40 65)) [] 0 [])) }
    // AreParted.parts: the order.
    ensures leaves_the_end { ¬ WorldStep
        (nine_up (up_as (insert empty 0 (Keys 9 3 41 (66 ∷ []))) [] 0
        (key_of_9 40 65 ∷ key_of_9 41 66 ∷ []))) 9 deed.Tick
        (nine_up (up_as (insert empty 0 (Keys 9 3 41 (66 ∷ []))) [] 0 (key_of_9 40 65 ∷ []))) }
    // AreParted.parts.
    ensures appears { ¬ WorldStep (nine_up (up_waiting [])) 9 deed.Tick
        (nine_up (up_waiting (key_of_9 40 65 ∷ []))) }
{}

/// A tick saves nothing, shows nothing, takes no node down, and types no key.
pub fn wrong_ticks()
    // The None of a Tick, and MakesCall.left: the record.
    ensures saves { ¬ WorldStep (nine_keep kept_third) 9 deed.Tick
        (nine_keep (kept_by 3 (ballot_by 9 41))) }
    // MakesCall.left: the console.
    ensures shows_a_byte { ¬ WorldStep (nine_show [] (up_written (65 ∷ []) 0)) 9 deed.Tick
        (nine_show (65 ∷ []) (up_written (65 ∷ []) 0)) }
    // MakesCall.left: that the node is up.
    ensures falls { ¬ WorldStep (nine_keep kept_third) 9 deed.Tick (nine_fell kept_third) }
    // The [] of a Tick, and ChangesOnly.typed.
    ensures types { ¬ WorldStep (nine_type 40 [] []) 9 deed.Tick
        (nine_type 41 (key_of_9 40 65 ∷ []) (key_of_9 40 65 ∷ [])) }
{}

/// A message but a Prepare or an Accept changes nothing in the record, whatever it says. At a
/// Prepare a node does not vote for what an earlier Accept has proposed.
pub fn wrong_causes()
    // MayCause at a Prepare.
    ensures at_prepare { (b : Ballot) (from : ℕ) → ¬ HearingLeaves (Prepare b from)
        (kept_voted (batch_40 65)) }
    // MayCause at a Promise.
    ensures at_promise { (b : Ballot) (first upto : ℕ) (votes : List Vote) (kept : Record)
        → kept ≢ kept_third → ¬ HearingLeaves (Promise b first upto votes) kept }
    // MayCause at an Accepted.
    ensures at_accepted { (b : Ballot) (s : ℕ) (v : Value) (kept : Record)
        → kept ≢ kept_third → ¬ HearingLeaves (Accepted b s v) kept }
    // MayCause at a Refused.
    ensures at_refused { (b promised : Ballot) (kept : Record)
        → kept ≢ kept_third → ¬ HearingLeaves (Refused b promised) kept }
    // MayCause at a Submit.
    ensures at_submit { (v : Value) (kept : Record)
        → kept ≢ kept_third → ¬ HearingLeaves (Submit v) kept }
    // MayCause at an Ask.
    ensures at_ask { (from : ℕ) (kept : Record)
        → kept ≢ kept_third → ¬ HearingLeaves (Ask from) kept }
    // MayCause at a Tell.
    ensures at_tell { (s : ℕ) (v : Value) (kept : Record)
        → kept ≢ kept_third → ¬ HearingLeaves (Tell s v) kept }
{}

/// A node promises at a Prepare no other ballot and none below its promise, and counts no start. At
/// an Accept it votes for no other value, at no other place and under no other ballot, and does not
/// only promise.
pub fn wrong_votes()
    // MayCause at a Prepare: the ballot.
    ensures other_promise { ¬ HearingLeaves (Prepare (ballot_by 5 41) 700)
        (kept_by 3 (ballot_by 5 42)) }
    // MayCause at an Accept: the kind of change.
    ensures promise_at_accept { ¬ HearingLeaves (Accept (ballot_by 5 41) 700 (batch_40 65))
        (kept_by 3 (ballot_by 5 41)) }
    // MayCause at an Accept: the value.
    ensures other_value { ¬ HearingLeaves (Accept (ballot_by 7 41) 700 (batch_40 66))
        (kept_voted (batch_40 65)) }
    // MayCause at an Accept: the place.
    ensures other_place { ¬ HearingLeaves (Accept (ballot_by 7 41) 701 (batch_40 65))
        (kept_voted (batch_40 65)) }
    // MayCause at an Accept: the ballot.
    ensures other_ballot { ¬ HearingLeaves (Accept (ballot_by 7 42) 700 (batch_40 65))
        (kept_voted (batch_40 65)) }
    // MayCause at a Prepare: the kind of change.
    ensures counts_start { ¬ HearingLeaves (Prepare (ballot_by 5 41) 700)
        (kept_by 4 (ballot_by 7 40)) }
    // MakesCall.saves.
    ensures lower_promise { ¬ HearingLeaves (Prepare (ballot_by 5 39) 700)
        (kept_by 3 (ballot_by 5 39)) }
{}

/// Steps that are no campaigns. The promise is of another node's ballot, or of one below the
/// promised one; nothing is saved; a start is counted too; or a vote is forgotten.
pub fn wrong_campaigns()
    // Campaigns.call: the node.
    ensures for_another_node { ¬ WorldStep (nine_keep kept_third) 9 deed.Campaign
        (nine_keep (kept_by 3 (ballot_by 7 41))) }
    // Campaigns.call: that it saves.
    ensures unsaved { ¬ WorldStep (nine_keep kept_third) 9 deed.Campaign (nine_keep kept_third) }
    // MakesCall.saves.
    ensures below { ¬ WorldStep (nine_keep kept_third) 9 deed.Campaign
        (nine_keep (kept_by 3 (ballot_by 9 39))) }
    // MakesCall.left: the record.
    ensures counts_start { ¬ WorldStep (nine_keep kept_third) 9 deed.Campaign
        (nine_keep (kept_by 4 (ballot_by 9 41))) }
    // MakesCall.left: the record.
    ensures forgets_vote { ¬ WorldStep (nine_keep (kept_voted (batch_40 65))) 9 deed.Campaign
        (nine_keep (kept_by 3 (ballot_by 9 42))) }
{}

/// A node falls at a save that fails. Its record is the old one or the changed one, and no third:
/// neither with a promise of another node's ballot nor with two more starts. It sends nothing and
/// keeps its console. It was up before, and at a start down. It was allowed to save what it tried
/// to save. It does not fall if it saves nothing.
pub fn wrong_falls()
    // Falls.kept.
    ensures to_another_promise { ¬ WorldStep (nine_keep kept_third) 9 deed.Campaign
        (nine_fell (kept_by 3 (ballot_by 7 41))) }
    // Falls.kept, at a start.
    ensures to_two_starts { ¬ WorldStep (nine_fell kept_third) 9 (deed.Start kept_third)
        (nine_fell (kept_by 5 (ballot_by 7 40))) }
    // Falls.rest, at a start.
    ensures start_sends { ¬ WorldStep (nine_fell kept_third) 9 (deed.Start kept_third)
        (nine (seat_down (kept_by 4 (ballot_by 7 40)) [])
        (ask_by 9 ∷ []) []) }
    // Falls.rest.
    ensures campaign_sends { ¬ WorldStep (nine_keep kept_third) 9 deed.Campaign
        (nine (seat_down (kept_by 3 (ballot_by 9 41)) [])
        ((record { sender = 9; body = Prepare (ballot_by 9 41) 700 }) ∷ []) []) }
    // Falls.console.
    ensures clears_console { ¬ WorldStep (nine (seat_down kept_third (65 ∷ [])) [] [])
        9 (deed.Start kept_third) (nine_fell kept_third) }
    // Falls.saves.
    ensures below { ¬ WorldStep (nine_keep kept_third) 9 deed.Campaign
        (nine_fell (kept_by 3 (ballot_by 9 39))) }
    // CallOrFall without a change.
    ensures unsaved { ¬ WorldStep (nine_sent (ask_by 7 ∷ [])) 9 (deed.Hear (ask_by 7))
        (nine (seat_down kept_third []) (ask_by 7 ∷ []) []) }
    // CallOrFall: that the node was up.
    ensures while_down { ¬ WorldStep (nine_fell kept_third) 9 deed.Campaign
        (nine_fell (kept_by 3 (ballot_by 9 41))) }
{}

/// A start is counted and saved, and forgets all that is not saved: what was learned, what the
/// machine wrote, what was released and what waits. It forgets no vote and no promise,
/// keeps the console, and comes only to a node that is down, over the record that it has.
pub fn wrong_starts()
    // StartsUp.left: what was learned.
    ensures keeps_learned { ¬ WorldStep (nine_fell kept_third) 9 (deed.Start kept_third)
        (nine (seat_up (kept_by 4 (ballot_by 7 40)) []
        (up_learned (insert empty 700 (batch_40 65)))) [] []) }
    // StartsUp.left: the configuration.
    ensures keeps_output { ¬ WorldStep (nine_fell kept_third) 9 (deed.Start kept_third)
        (nine (seat_up (kept_by 4 (ballot_by 7 40)) [] (up_written (65 ∷ []) 0)) [] []) }
    // StartsUp.left: the released bytes.
    ensures keeps_count { ¬ WorldStep (nine_fell kept_third) 9 (deed.Start kept_third)
        (nine (seat_up (kept_by 4 (ballot_by 7 40)) [] (up_written [] 1)) [] []) }
    // StartsUp.left: the keys that wait.
    ensures keeps_waiting { ¬ WorldStep (nine_fell kept_third) 9 (deed.Start kept_third)
        (nine (seat_up (kept_by 4 (ballot_by 7 40)) [] (up_waiting (key_of_9 40 65 ∷ []))) [] []) }
    // StartsUp.left: the record, and Falls.down.
    ensures unsaved { ¬ WorldStep (nine_fell kept_third) 9 (deed.Start kept_third)
        (nine_keep kept_third) }
    // StartsUp.left: the record.
    ensures forgets_vote { ¬ WorldStep (nine_fell (kept_voted (batch_40 65)))
        9 (deed.Start (kept_voted (batch_40 65))) (nine_keep (kept_by 4 (ballot_by 7 41))) }
    // StartsUp.left: the record.
    ensures forgets_promise { ¬ WorldStep (nine_fell kept_third) 9 (deed.Start kept_third)
        (nine_keep (record (kept_by 4 (ballot_by 7 40)) { promised = None })) }
    // WorldStep at a Start: that the node was down.
    ensures while_up { ¬ WorldStep (nine_keep kept_third) 9 (deed.Start kept_third)
        (nine_keep (kept_by 4 (ballot_by 7 40))) }
    // WorldStep at a Start: the record.
    ensures over_another_record { ¬ WorldStep (nine_fell kept_third)
        9 (deed.Start (kept_by 2 (ballot_by 7 40))) (nine_keep (kept_by 4 (ballot_by 7 40))) }
    // StartsUp.left: the console.
    ensures clears_console { ¬ WorldStep (nine (seat_down kept_third (65 ∷ [])) [] [])
        9 (deed.Start kept_third) (nine_keep (kept_by 4 (ballot_by 7 40))) }
{}

/// Of a machine that has written three bytes, of which the first was released, the second is
/// released next, alone. It is counted, and the console shows it once, after the first. No byte is
/// shown over a gap, and none is counted if none waits.
pub fn wrong_releases()
    // Releases.left: the byte.
    ensures another_byte { ¬ WorldStep (nine_show (65 ∷ []) (up_written (65 ∷ 66 ∷ 67 ∷ []) 1))
        9 deed.Release (nine_show (65 ∷ 67 ∷ []) (up_written (65 ∷ 66 ∷ 67 ∷ []) 2)) }
    // Releases.left: the byte, and its number.
    ensures skips_one { ¬ WorldStep (nine_show (65 ∷ []) (up_written (65 ∷ 66 ∷ 67 ∷ []) 1))
        9 deed.Release (nine_show (65 ∷ 67 ∷ []) (up_written (65 ∷ 66 ∷ 67 ∷ []) 3)) }
    // Releases.left: one byte.
    ensures shows_two { ¬ WorldStep (nine_show (65 ∷ []) (up_written (65 ∷ 66 ∷ 67 ∷ []) 1))
        9 deed.Release (nine_show (65 ∷ 66 ∷ 67 ∷ []) (up_written (65 ∷ 66 ∷ 67 ∷ []) 3)) }
    // after_release: the count.
    ensures not_counted { ¬ WorldStep (nine_show (65 ∷ []) (up_written (65 ∷ 66 ∷ 67 ∷ []) 1))
        9 deed.Release (nine_show (65 ∷ 66 ∷ []) (up_written (65 ∷ 66 ∷ 67 ∷ []) 1)) }
    // after_release: the console.
    ensures not_shown { ¬ WorldStep (nine_show (65 ∷ []) (up_written (65 ∷ 66 ∷ 67 ∷ []) 1))
        9 deed.Release (nine_show (65 ∷ []) (up_written (65 ∷ 66 ∷ 67 ∷ []) 2)) }
    // after_release: the offer of a byte that was shown.
    ensures shown_twice { ¬ WorldStep
        (nine_show (65 ∷ 66 ∷ []) (up_written (65 ∷ 66 ∷ 67 ∷ []) 1)) 9 deed.Release
        (nine_show (65 ∷ 66 ∷ 66 ∷ []) (up_written (65 ∷ 66 ∷ 67 ∷ []) 2)) }
    // after_release: the offer of a byte that comes too early.
    ensures over_gap { ¬ WorldStep (nine_show [] (up_written (65 ∷ 66 ∷ 67 ∷ []) 1))
        9 deed.Release (nine_show (66 ∷ []) (up_written (65 ∷ 66 ∷ 67 ∷ []) 2)) }
    // after_release: that a byte waits.
    ensures past_the_end { ¬ WorldStep (nine_show (65 ∷ []) (up_written (65 ∷ []) 1))
        9 deed.Release (nine_show (65 ∷ []) (up_written (65 ∷ []) 2)) }
{}

/// A crash takes the node down, keeps its record and its console as they are, and sends nothing.
pub fn wrong_crashes()
    // Crashes.left: the console.
    ensures clears_console { ¬ WorldStep (nine_show (65 ∷ []) (up_written (65 ∷ []) 1))
        9 deed.Crash (nine_fell kept_third) }
    // Crashes.left: the console.
    ensures shows_a_byte { ¬ WorldStep (nine_show [] (up_written (65 ∷ []) 0)) 9 deed.Crash
        (nine (seat_down kept_third (65 ∷ [])) [] []) }
    // Crashes.left: the record.
    ensures forgets_vote { ¬ WorldStep (nine_keep (kept_voted (batch_40 65))) 9 deed.Crash
        (nine_fell kept_third) }
    // Crashes.left: that the node is down.
    ensures leaves_it_up { ¬ WorldStep (nine_keep kept_third) 9 deed.Crash
        (nine_keep kept_third) }
    // Crashes.rest.
    ensures sends { ¬ WorldStep (nine_keep kept_third) 9 deed.Crash
        (nine (seat_down kept_third []) (ask_by 9 ∷ []) []) }
{}

/// A run changes neither the record nor the console, nor what was learned, what was released or
/// what waits. It makes no step that does not exist.
pub fn wrong_runs()
    // MakesRun.left: the record.
    ensures changes_record { ¬ WorldStep (nine_keep kept_third) 9 (deed.Run 700)
        (nine_keep (kept_by 3 (ballot_by 9 41))) }
    // MakesRun.left: the console.
    ensures shows_a_byte { ¬ WorldStep (nine_show [] (up_written (65 ∷ []) 0)) 9 (deed.Run 700)
        (nine_show (65 ∷ []) (up_written (65 ∷ []) 0)) }
    // MakesRun.left: what was learned.
    ensures learns { ¬ WorldStep (nine_up (up_learned empty)) 9 (deed.Run 700)
        (nine_up (up_learned (insert empty 700 (batch_40 65)))) }
    // MakesRun.left: the released bytes.
    ensures counts_on { ¬ WorldStep (nine_up (up_written (65 ∷ []) 0)) 9 (deed.Run 700)
        (nine_up (up_written (65 ∷ []) 1)) }
    // MakesRun.left: the keys that wait.
    ensures drops_key { ¬ WorldStep (nine_up (up_waiting (key_of_9 40 65 ∷ []))) 9 (deed.Run 700)
        (nine_up (up_waiting [])) }
    // MakesRun.moves.
    ensures writes { ¬ WorldStep (nine_up (up_written [] 0)) 9 (deed.Run 700)
        (nine_up (up_written (65 ∷ []) 0)) }
{}

/// A machine reads three bytes in three steps, and not in two. It does not read what is learned at
/// place 700, above a hole.
pub fn wrong_reads()
    // The same run with one step more is right.
    ensures reads_three { WorldStep
        (nine_up (up_reading (insert empty 0 (Keys 9 3 40 (65 ∷ 66 ∷ 67 ∷ []))) 0)) 9 (deed.Run 3)
        (nine_up (up_reading (insert empty 0 (Keys 9 3 40 (65 ∷ 66 ∷ 67 ∷ []))) 3)) }
    // MakesRun.few.
    ensures too_far { ¬ WorldStep
        (nine_up (up_reading (insert empty 0 (Keys 9 3 40 (65 ∷ 66 ∷ 67 ∷ []))) 0)) 9 (deed.Run 2)
        (nine_up (up_reading (insert empty 0 (Keys 9 3 40 (65 ∷ 66 ∷ 67 ∷ []))) 3)) }
    // MakesRun.moves: the input.
    ensures past_a_hole { ¬ WorldStep
        (nine_up (up_reading (insert empty 700 (batch_40 65)) 0)) 9 (deed.Run 1)
        (nine_up (up_reading (insert empty 700 (batch_40 65)) 1)) }
{
    step_is_transition();
    step_only_adds();
}

/// No deed of node 9 takes node 6 down with it: no tick, run, release or crash, no start and no
/// start that fails. A tick changes neither the program nor the number of nodes.
pub fn wrong_neighbours()
    // MakesCall.rest.
    ensures tick { ¬ WorldStep (two_of_nine sixth_was (seat_up kept_third [] (up_learned empty)))
        9 deed.Tick (two_of_nine sixth_now (seat_up kept_third [] (up_learned empty))) }
    // MakesRun.rest.
    ensures run { ¬ WorldStep (two_of_nine sixth_was (seat_up kept_third [] (up_learned empty)))
        9 (deed.Run 700) (two_of_nine sixth_now (seat_up kept_third [] (up_learned empty))) }
    // Releases.rest.
    ensures release { ¬ WorldStep (two_of_nine sixth_was (seat_up kept_third [] (up_learned empty)))
        9 deed.Release (two_of_nine sixth_now (seat_up kept_third [] (up_learned empty))) }
    // Crashes.rest.
    ensures crash { ¬ WorldStep (two_of_nine sixth_was (seat_up kept_third [] (up_learned empty)))
        9 deed.Crash (two_of_nine sixth_now (seat_down kept_third [])) }
    // StartsUp.rest.
    ensures start { ¬ WorldStep (two_of_nine sixth_was (seat_down kept_third []))
        9 (deed.Start kept_third)
        (two_of_nine sixth_now (seat_up (kept_by 4 (ballot_by 7 40)) [] (up_learned empty))) }
    // Falls.rest.
    ensures fall { ¬ WorldStep (two_of_nine sixth_was (seat_down kept_third []))
        9 (deed.Start kept_third) (two_of_nine sixth_now (seat_down kept_third [])) }
    // ChangesOnly.program.
    ensures program { ¬ WorldStep (nine_keep kept_third) 9 deed.Tick
        (record (nine_keep kept_third) { program = named_program }) }
    // ChangesOnly.size.
    ensures size { ¬ WorldStep (nine_keep kept_third) 9 deed.Tick
        (record (nine_keep kept_third) { size = 7 }) }
{}

/// No message is forgotten. What a node sends comes after all that was sent, in its own name. A
/// message that nobody has sent is not delivered. A run, a release and a start send nothing.
pub fn wrong_messages()
    // ChangesOnly.sent: the old messages.
    ensures forgotten { ¬ WorldStep (nine_sent (ask_by 7 ∷ [])) 9 deed.Tick
        (nine_sent []) }
    // ChangesOnly.sent: the order.
    ensures before { ¬ WorldStep (nine_sent (ask_by 7 ∷ [])) 9 deed.Tick
        (nine_sent (ask_by 9 ∷ ask_by 7 ∷ [])) }
    // ChangesOnly.sent: the sender.
    ensures of_another_node { ¬ WorldStep (nine_sent (ask_by 7 ∷ [])) 9 deed.Tick
        (nine_sent (ask_by 7 ∷ ask_by 6 ∷ [])) }
    // Delivers.is_sent.
    ensures never_sent { ¬ WorldStep (nine_sent (ask_by 7 ∷ [])) 9 (deed.Hear (ask_by 6))
        (nine_sent (ask_by 7 ∷ [])) }
    // MakesRun.rest.
    ensures by_run { ¬ WorldStep (nine_sent []) 9 (deed.Run 700)
        (nine_sent (ask_by 9 ∷ [])) }
    // Releases.rest.
    ensures by_release { ¬ WorldStep (nine_sent []) 9 deed.Release
        (nine_sent (ask_by 9 ∷ [])) }
    // StartsUp.rest.
    ensures by_start { ¬ WorldStep (nine_fell kept_third) 9 (deed.Start kept_third)
        (nine (seat_up (kept_by 4 (ballot_by 7 40)) [] (up_learned empty)) (ask_by 9 ∷ []) []) }
{}

/// A node that does nothing stays as it is, and so do the messages.
pub fn wrong_idleness()
    // WorldStep at an Idle: the node.
    ensures saves { ¬ WorldStep (nine_keep kept_third) 9 deed.Idle
        (nine_keep (kept_by 3 (ballot_by 9 41))) }
    // WorldStep at an Idle: the messages.
    ensures sends { ¬ WorldStep (nine_sent []) 9 deed.Idle (nine_sent (ask_by 9 ∷ [])) }
{}

/// A node that is down does not tick, run or release.
pub fn wrong_absences()
    // MakesCall.from.
    ensures ticks { ¬ WorldStep (nine_fell kept_third) 9 deed.Tick (nine_fell kept_third) }
    // MakesRun.from.
    ensures runs { ¬ WorldStep (nine_fell kept_third) 9 (deed.Run 700) (nine_fell kept_third) }
    // Releases.from.
    ensures releases { ¬ WorldStep (nine_fell kept_third) 9 deed.Release (nine_fell kept_third) }
{}

/// Node 9, which has promised the ballot of node 7 and round 40, sends nothing that its state does
/// not allow: no value that it has not learned, no key that nobody typed, no Prepare under another
/// node's ballot, no promise and no vote that it has not saved, and no refusal of a greater ballot.
pub fn wrong_sends()
    // MakesCall.sends: what is learned.
    ensures tells_unlearned { ¬ WorldStep (nine_sent []) 9 deed.Tick
        (nine_sent (sent_by_ninth (Tell 700 (batch_40 65)) ∷ [])) }
    // MakesCall.sends: the typed keys.
    ensures submits_untyped { ¬ WorldStep (nine_submit (key_of_9 40 65 ∷ []) [] []) 9 deed.Tick
        (nine_submit (key_of_9 40 65 ∷ []) [] (batch_40 65 ∷ [])) }
    // MakesCall.sends: the node.
    ensures prepares_for_another { ¬ WorldStep (nine_sent []) 9 deed.Tick
        (nine_sent (sent_by_ninth (Prepare (ballot_by 7 40) 700) ∷ [])) }
    // MakesCall.sends: the record.
    ensures promises_unsaved { ¬ WorldStep (nine_sent []) 9 deed.Tick
        (nine_sent (sent_by_ninth (Promise (ballot_by 5 41) 700 701 []) ∷ [])) }
    // MakesCall.sends: the record.
    ensures refuses_greater { ¬ WorldStep (nine_sent []) 9 deed.Tick
        (nine_sent (sent_by_ninth (Refused (ballot_by 7 41) (ballot_by 7 40)) ∷ [])) }
    // MakesCall.sends: the record.
    ensures accepts_unsaved { ¬ WorldStep (nine_sent seventh_proposes) 9 deed.Tick
        (nine_sent (seventh_proposes
        ++ sent_by_ninth (Accepted (ballot_by 7 40) 700 (batch_40 65)) ∷ [])) }
{}

/// Steps that are right, one change away from wrong ones: a tick that changes nothing, one at which
/// a key leaves that is read, and one that submits the first key that waits; a key that is typed; a
/// promise at a Prepare, and a vote at an Accept; a campaign.
pub fn right_calls()
    ensures ticks { (up : Up) → WorldStep (nine_up up) 9 deed.Tick (nine_up up) }
    ensures key_leaves { WorldStep
        (nine_up (up_as (insert empty 0 (batch_40 65)) [] 0
        (key_of_9 40 65 ∷ key_of_9 41 66 ∷ []))) 9 deed.Tick
        (nine_up (up_as (insert empty 0 (batch_40 65)) [] 0 (key_of_9 41 66 ∷ []))) }
    ensures types { WorldStep
        (nine_type 40 (key_of_9 39 64 ∷ []) (key_of_9 39 64 ∷ [])) 9 (deed.Press 65)
        (nine_type 41 (key_of_9 39 64 ∷ key_of_9 40 65 ∷ [])
        (key_of_9 39 64 ∷ key_of_9 40 65 ∷ [])) }
    ensures submits { WorldStep (nine_submit both_keys both_keys []) 9 deed.Tick
        (nine_submit both_keys both_keys (Keys 9 3 40 (65 ∷ []) ∷ [])) }
    ensures promises { HearingLeaves (Prepare (ballot_by 5 41) 700) (kept_by 3 (ballot_by 5 41)) }
    ensures votes { HearingLeaves (Accept (ballot_by 7 41) 700 (batch_40 65))
        (kept_voted (batch_40 65)) }
    ensures campaigns { WorldStep (nine_keep kept_third) 9 deed.Campaign
        (nine_keep (kept_by 3 (ballot_by 9 41))) }
{}

/// More steps that are right: a campaign whose save fails and leaves the old record or the changed
/// one; a start, a release and a crash; and that a node does nothing.
pub fn right_deeds()
    ensures falls_old { WorldStep (nine_keep kept_third) 9 deed.Campaign (nine_fell kept_third) }
    ensures falls_new { WorldStep (nine_keep kept_third) 9 deed.Campaign
        (nine_fell (kept_by 3 (ballot_by 9 41))) }
    ensures starts { WorldStep (nine_fell kept_third) 9 (deed.Start kept_third)
        (nine_keep (kept_by 4 (ballot_by 7 40))) }
    ensures releases { WorldStep (nine_show (65 ∷ []) (up_written (65 ∷ 66 ∷ 67 ∷ []) 1))
        9 deed.Release (nine_show (65 ∷ 66 ∷ []) (up_written (65 ∷ 66 ∷ 67 ∷ []) 2)) }
    ensures crashes { WorldStep (nine_show (65 ∷ []) (up_written (65 ∷ []) 1)) 9 deed.Crash
        (nine (seat_down kept_third (65 ∷ [])) [] []) }
    ensures idles { (up : Up) → WorldStep (nine_up up) 9 deed.Idle (nine_up up) }
{}
