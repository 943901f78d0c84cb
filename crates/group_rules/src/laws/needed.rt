//! Laws that the clauses of the rules are needed: without one of them deeds lead to a group that
//! breaks a claim.
ghost use Rattle.pcode_file.specs.Parts.{Parts};
ghost use Rattle.group_rules.specs.Claims.{ConsolesHoldOutput, ConsolesShowReleased, KeysOnce, LearnedChosen, LearnedStays, SerialsInOrder};
ghost use Rattle.group_rules.specs.Leads.{LeadsUnder};
ghost use Rattle.group_rules.specs.Reachable.{one_new};
ghost use Rattle.group_rules.specs.Rules.{WorldState};
ghost use Rattle.group_rules.specs.WeakerRules.{Cause, Configuration_stays, Fall_keeps, Gains, Moves, Next, Released_stays, Saves, Sends, Serial, Start_counts, Start_of_key, StepWithout, Submits, Waiting};
ghost use Rattle.group_rules.specs.WithoutRules.{counted_deeds, fallen_deeds, learned_again_deeds, left_unread_deeds, run_out_deeds, second_alone_deeds, started_hearing_deeds, ticked_deeds, ticked_out_deeds, told_deeds, twin_batch, typed_deeds, voted_back_deeds, late_batch};
ghost use Rattle.group_rules.specs.Counterexamples.{silent};

use group_node::laws::input_is_chosen;

/// Without a clause on the order of keys, a group of one node comes to choose the second key of its
/// second start, and not the first. The clauses: what is submitted are the first keys that wait; a
/// key leaves only when it is read; the next serial counts what was typed; a typed key has it; and
/// a message causes no start.
pub fn rules_on_order_are_needed()
    ensures submits { (p : Parts) → (w : WorldState)
        × LeadsUnder (StepWithout Submits) (one_new p) second_alone_deeds w × ¬ SerialsInOrder w }
    ensures waiting { (p : Parts) → (w : WorldState)
        × LeadsUnder (StepWithout Waiting) (one_new p) left_unread_deeds w × ¬ SerialsInOrder w }
    ensures next { (p : Parts) → (w : WorldState)
        × LeadsUnder (StepWithout Next) (one_new p) counted_deeds w × ¬ SerialsInOrder w }
    ensures serial { (p : Parts) → (w : WorldState)
        × LeadsUnder (StepWithout Serial) (one_new p) (typed_deeds late_batch) w
        × ¬ SerialsInOrder w }
    ensures cause { (p : Parts) → (w : WorldState)
        × LeadsUnder (StepWithout Cause) (one_new p) started_hearing_deeds w × ¬ SerialsInOrder w }
{}

/// Without a clause on starts, a group of one node comes to choose two keys with one name. The
/// clauses: a typed key is of the present start; a start is counted; and a save that fails leaves
/// the old record or the changed one.
pub fn rules_on_starts_are_needed()
    ensures start_of_key { (p : Parts) → (w : WorldState)
        × LeadsUnder (StepWithout Start_of_key) (one_new p) (typed_deeds twin_batch) w
        × ¬ KeysOnce w }
    ensures start_counts { (p : Parts) → (w : WorldState)
        × LeadsUnder (StepWithout Start_counts) (one_new p) (typed_deeds twin_batch) w
        × ¬ KeysOnce w }
    ensures fall_keeps { (p : Parts) → (w : WorldState)
        × LeadsUnder (StepWithout Fall_keeps) (one_new p) fallen_deeds w × ¬ KeysOnce w }
{}

/// Without a clause on what is sent and learned, a node comes to learn for place 700 what nobody
/// has chosen; without the one on what is saved, two values for place 0, before and after a crash.
pub fn rules_on_learning_are_needed()
    ensures sends { (p : Parts) → (w : WorldState)
        × LeadsUnder (StepWithout Sends) (one_new p) told_deeds w × ¬ LearnedChosen w }
    ensures gains { (p : Parts) → (w : WorldState)
        × LeadsUnder (StepWithout Gains) (one_new p) ticked_deeds w × ¬ LearnedChosen w }
    ensures saves { (p : Parts) → (w v : WorldState)
        × LeadsUnder (StepWithout Saves) (one_new p) voted_back_deeds w
        × LeadsUnder (StepWithout Saves) w learned_again_deeds v × ¬ LearnedStays w v }
{}

/// Without a clause on the machine and what it writes, a node whose program writes nothing comes to
/// show a byte; without the one on what was released, a node has released what its console does not
/// show.
pub fn rules_on_output_are_needed()
    ensures configuration { (w : WorldState)
        × LeadsUnder (StepWithout Configuration_stays) (one_new silent) ticked_out_deeds w
        × ¬ ConsolesHoldOutput w }
    ensures moves { (w : WorldState)
        × LeadsUnder (StepWithout Moves) (one_new silent) run_out_deeds w × ¬ ConsolesHoldOutput w }
    ensures released { (p : Parts) → (w : WorldState)
        × LeadsUnder (StepWithout Released_stays) (one_new p) ticked_deeds w
        × ¬ ConsolesShowReleased w }
{
    input_is_chosen();
}
