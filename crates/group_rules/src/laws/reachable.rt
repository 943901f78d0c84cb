//! Laws that the rules of steps are not too narrow: steps lead from groups that have done nothing
//! to groups in which something was done.
ghost use Rattle.std.specs.Prelude.{◌≡◌, ◌∷◌, ◌++◌, [], ℕ};
ghost use Rattle.pcode_file.specs.Parts.{Parts};
ghost use Rattle.paxos_msg.specs.declared.message.Body.TheVariants.{Accepted};
ghost use Rattle.paxos_msg.specs.Messages.{IsSent};
ghost use Rattle.paxos_msg.specs.Chosen.{IsChosenBy};
ghost use Rattle.paxos_learner.specs.Input.{input_of, keys_in_order};
ghost use Rattle.group_node.specs.declared.console.Offer.TheVariants.{Repeat};
ghost use Rattle.group_node.specs.Console.{offer_answer};
ghost use Rattle.group_node.specs.Deeds as deed;
ghost use Rattle.group_node.specs.Inputs.{AreChosen};
ghost use Rattle.group_rules.specs.Rules.{WorldState, WorldStep};
ghost use Rattle.group_rules.specs.WrongSteps.{ballot_by};
ghost use Rattle.group_rules.specs.Claims.{AreInOrder, HasLearned};
ghost use Rattle.group_rules.specs.Leads.{LeadsByRules};
ghost use Rattle.group_rules.specs.Reachable.{opening_ballot, first_batch, first_two, last_two, one_new, overlapping_deeds, restart_deeds, second_batch, takeover_deeds, three_new, two_learn_deeds, two_show_deeds, two_starts_deeds};
ghost use Rattle.group_rules.specs.SmallPrograms.{echoes, letter_program};

use pcode_machine::laws::step_is_transition;

/// Two nodes of a group of three learn one key for one place, whichever place it is.
pub fn two_learn()
    ensures { (p : Parts) (s : ℕ) → (w : WorldState)
        × LeadsByRules (three_new p) (two_learn_deeds s) w
        × HasLearned w 1 s first_batch × HasLearned w 2 s first_batch }
{}

/// Two nodes of a group of three learn a key for place 0. Their machines read it and echo it, and
/// both consoles show it.
pub fn two_show()
    ensures { (w : WorldState)
        × LeadsByRules (three_new echoes) (two_learn_deeds 0 ++ two_show_deeds) w
        × HasLearned w 1 0 first_batch × HasLearned w 2 0 first_batch
        × ((w.seats 1).console ≡ 65 ∷ []) × ((w.seats 2).console ≡ 65 ∷ []) }
{
    step_is_transition();
}

/// A second ballot takes over a vote of the first. In a group of three node 2 accepts a key for
/// place 700 under a ballot of node 1. Then node 3 proposes the same key under a greater ballot of
/// its own, by which the key is chosen, and learns it.
pub fn takeover()
    ensures { (p : Parts) → (w : WorldState) × LeadsByRules (three_new p) takeover_deeds w
        × IsSent w.sent 2 (Accepted opening_ballot 700 first_batch)
        × IsChosenBy 3 w.sent (ballot_by 3 2) 700 first_batch × HasLearned w 3 700 first_batch }
{}

/// A node that starts again releases a byte again. Node 1 of three writes a byte, releases it and
/// crashes; it starts again and writes the byte again, which its console has shown. It releases
/// that byte, and the console stays as it is.
pub fn releases_again()
    ensures { (w v : WorldState) × LeadsByRules (three_new letter_program) restart_deeds w
        × WorldStep w 1 deed.Release v × (offer_answer (w.seats 1).console 0 ≡ Repeat)
        × ((v.seats 1).console ≡ 65 ∷ []) }
{
    step_is_transition();
}

/// Keys of two starts of one node, whose serials begin again, are learned and chosen at two places,
/// and are in order.
pub fn two_starts()
    ensures { (p : Parts) → (w : WorldState) × LeadsByRules (one_new p) two_starts_deeds w
        × HasLearned w 1 0 first_batch × HasLearned w 1 1 second_batch
        × AreChosen w.size w.sent (first_batch ∷ second_batch ∷ [])
        × AreInOrder (keys_in_order (first_batch ∷ second_batch ∷ [])) }
{}

/// Batches may overlap: one may begin with a key that an earlier one has. In a group of one node
/// the first key, the first two, and the second and third are chosen one after the other, so that
/// two keys are chosen twice. Each is read once, in order.
pub fn batches_may_overlap()
    ensures { (p : Parts) → (w : WorldState) × LeadsByRules (one_new p) overlapping_deeds w
        × AreChosen w.size w.sent (first_batch ∷ first_two ∷ last_two ∷ [])
        × (input_of (first_batch ∷ first_two ∷ last_two ∷ []) ≡ 65 ∷ 66 ∷ 67 ∷ []) }
{}
