//! Laws that the claims of the main theorem can be broken: worlds written down by hand break them.
ghost use Rattle.std.specs.Prelude.{◌∷◌, []};
ghost use Rattle.paxos_msg.specs.declared.value.Value.TheVariants.{Keys};
ghost use Rattle.paxos_msg.specs.Chosen.{IsChosen};
ghost use Rattle.paxos_learner.specs.Input.{keys_in_order};
ghost use Rattle.group_rules.specs.Claims.{AreApart, AreInOrder, ConsolesAgree, ConsolesGrow, ConsolesHoldOutput, HasNoGap, KeysOnce, LearnedAgree, LearnedChosen, LearnedStays, SerialsInOrder};
ghost use Rattle.group_rules.specs.Counterexamples.{chosen_two, early_byte, key_batch, not_chosen, not_typed, other_byte, two_consoles, two_values, wrong_console};

use group_node::laws::input_is_chosen;

/// Each promise of the main theorem but one, and of two moments of a group, is broken by some group
/// of five (`wrong_shown` breaks that one, `consoles_show_released`). Nodes 4 and 5 have learned
/// two values for one place. A node has learned what only two nodes have accepted under one ballot,
/// or a key that is chosen and that nobody typed. Node 2 shows a byte that its program never
/// writes; nodes 2 and 5 show different bytes; node 3 releases a byte too early, or another byte
/// than its console has shown with that number. Two keys have one serial; a second key comes before
/// the first; or the third comes right after the first. Later a node has learned another value, or
/// a console shows less.
pub fn wrong_worlds()
    ensures two_values { ¬ LearnedAgree two_values }
    ensures not_chosen { ¬ LearnedChosen not_chosen }
    ensures is_chosen { IsChosen not_typed.size not_typed.sent 0 (key_batch 1 65) }
    ensures not_typed { ¬ LearnedChosen not_typed }
    ensures wrong_console { ¬ ConsolesHoldOutput wrong_console }
    ensures two_consoles { ¬ ConsolesAgree two_consoles }
    ensures early_byte { ¬ HasNoGap early_byte }
    ensures other_byte { ¬ HasNoGap other_byte }
    ensures key_twice { ¬ KeysOnce (chosen_two (key_batch 1 65) (key_batch 1 66)) }
    ensures second_first { ¬ SerialsInOrder (chosen_two (key_batch 2 66) (key_batch 1 65)) }
    ensures second_missing { ¬ SerialsInOrder (chosen_two (key_batch 1 65) (key_batch 3 67)) }
    ensures learned_another { ¬ LearnedStays not_typed two_values }
    ensures console_lost { ¬ ConsolesGrow two_consoles wrong_console }
{
    input_is_chosen();
}

/// Keys are not in order if the second comes before the first, or the third right after the first.
/// They are not apart if one serial has two characters, as after two starts with one number.
pub fn wrong_orders()
    ensures early { ¬ AreInOrder
        (keys_in_order (Keys 2 1 2 (66 ∷ []) ∷ Keys 2 1 1 (65 ∷ []) ∷ [])) }
    ensures gap { ¬ AreInOrder (keys_in_order (Keys 2 1 1 (65 ∷ []) ∷ Keys 2 1 3 (67 ∷ []) ∷ [])) }
    ensures twice { ¬ AreApart (keys_in_order (Keys 2 1 1 (65 ∷ []) ∷ Keys 2 1 1 (66 ∷ []) ∷ [])) }
{}
