//! Laws that the claims of the main theorem can be broken in other ways: groups of nine nodes,
//! written down by hand, break them.
ghost use Rattle.std.specs.Prelude.{◌∷◌, []};
ghost use Rattle.paxos_msg.specs.declared.value.Value.TheVariants.{Noop};
ghost use Rattle.paxos_msg.specs.Chosen.{IsChosen};
ghost use Rattle.group_rules.specs.Claims.{ConsolesAgree, ConsolesGrow, ConsolesHoldOutput, ConsolesShowReleased, HasNoGap, KeysOnce, LearnedAgree, LearnedChosen, LearnedStays, SerialsInOrder};
ghost use Rattle.group_rules.specs.FarCounterexamples.{apart_consoles, chosen_three, forty_and, bare, late_unchosen, late_untyped, late_values, learned_late, letters_shown, ninth_written, seventh_key, third_keys, three_of_nine, three_written};
ghost use Rattle.group_rules.specs.WrongSteps.{no_code};

use group_node::laws::input_is_chosen;
use pcode_machine::laws::output_only_grows;

/// Nodes 6 and 9 of nine agree on place 0 and have learned two values for place 700. Node 9 has
/// learned there what four nodes have accepted under one ballot and a fifth under another, or two
/// keys that are chosen, of which one was not typed. Later another node has learned another value.
pub fn wrong_values()
    ensures two_values { ¬ LearnedAgree late_values }
    ensures not_chosen { ¬ LearnedChosen late_unchosen }
    ensures is_chosen { IsChosen late_untyped.size late_untyped.sent 700 (forty_and 66) }
    ensures not_typed { ¬ LearnedChosen late_untyped }
    ensures learned_another { ¬ LearnedStays
        (three_of_nine no_code bare bare (learned_late (forty_and 66)) [] [])
        (three_of_nine no_code (learned_late (forty_and 67)) bare bare [] []) }
{}

/// A program writes one byte. A console that shows it is right; one that shows a second byte is
/// not. Consoles that differ in their third byte do not agree.
pub fn wrong_consoles()
    ensures one_byte { ConsolesHoldOutput (letters_shown (65 ∷ [])) }
    ensures two_bytes { ¬ ConsolesHoldOutput (letters_shown (65 ∷ 66 ∷ [])) }
    ensures third_differs { ¬ ConsolesAgree apart_consoles }
    ensures last_lost { ¬ ConsolesGrow (letters_shown (65 ∷ 66 ∷ [])) (letters_shown (65 ∷ [])) }
    ensures last_changed { ¬ ConsolesGrow (letters_shown (65 ∷ 66 ∷ []))
        (letters_shown (65 ∷ 67 ∷ 68 ∷ [])) }
{
    input_is_chosen();
    output_only_grows();
}

/// Node 9 has written three bytes. It releases the third next, and its console shows one byte; or
/// the second, and the console shows another one with that number. It has released two bytes, and
/// its console shows one, or another second one; or it has released two bytes of one that it has
/// written.
pub fn wrong_shown()
    ensures early_byte { ¬ HasNoGap (three_written 2 (65 ∷ [])) }
    ensures other_byte { ¬ HasNoGap (three_written 1 (65 ∷ 68 ∷ 67 ∷ [])) }
    ensures too_short { ¬ ConsolesShowReleased (three_written 2 (65 ∷ [])) }
    ensures past_output { ¬ ConsolesShowReleased (ninth_written (65 ∷ []) 2 (65 ∷ [])) }
    ensures another_shown { ¬ ConsolesShowReleased (three_written 2 (65 ∷ 68 ∷ [])) }
{}

/// Keys of the third start of node 9, chosen at three places. One serial has two characters. The
/// keys begin with serial 40. A first key comes after the second, with a key of node 7 in between;
/// or the fourth right after the second, again with that key in between.
pub fn wrong_keys()
    ensures serial_twice { ¬ KeysOnce
        (chosen_three (third_keys 39 (64 ∷ [])) (third_keys 40 (65 ∷ []))
        (third_keys 40 (66 ∷ []))) }
    ensures fortieth_first { ¬ SerialsInOrder
        (chosen_three seventh_key (third_keys 40 (65 ∷ [])) Noop) }
    ensures second_first { ¬ SerialsInOrder
        (chosen_three (third_keys 2 (66 ∷ [])) seventh_key (third_keys 1 (65 ∷ []))) }
    ensures third_missing { ¬ SerialsInOrder
        (chosen_three (third_keys 1 (65 ∷ 66 ∷ [])) seventh_key (third_keys 4 (68 ∷ []))) }
{}
