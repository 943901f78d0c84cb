//! Laws of every group, whatever happened to it. Each clause is one claim.
ghost use Rattle.std.specs.Prelude.{◌≡◌, ◌∷◌, [], List};
ghost use Rattle.pcode_file.specs.Parts.{Parts};
ghost use Rattle.paxos_msg.specs.declared.message.Group.{Group};
ghost use Rattle.paxos_msg.specs.Fits.{IsGroup};
ghost use Rattle.group_protocol.specs.States.{IsSize};
ghost use Rattle.group_world.specs.declared.event.Event.{Event};
ghost use Rattle.group_world.specs.Event.{LeadsBy};
ghost use Rattle.group_world.specs.Group.{new_world, World, world_state};
ghost use Rattle.group_world.specs.Headline.{Always, AlwaysLater};
ghost use Rattle.group_rules.specs.Claims.{ConsolesAgree, ConsolesGrow, ConsolesHoldOutput, HasLearned, HasNoGap, LearnedAgree, LearnedChosen, LearnedStays};
ghost use Rattle.group_rules.specs.Claims.{KeysOnce, SerialsInOrder};
ghost use Rattle.group_rules.specs.SmallPrograms.{echoes};
ghost use Rattle.group_world.specs.Witness.{letter, letter_batch, one, shown_events};

use crate::laws::sound::{deeds_keep_it_sound, worlds_follow_the_rules};
use group_rules::laws::headline as rules_headline;
use paxos_msg::grammar::spelling_is_read;
use pcode_machine::laws::output_only_grows;

/// The main theorem. It is about every program, every group of 1, 3, 5, 7 or 9 nodes and every list
/// of keystrokes, deliveries, campaigns, ticks, runs, releases, crashes and starts, with saves that
/// fail or not. Of the world to which they lead from the one in which nothing has happened:
///
/// - No two nodes have learned different values for one place.
/// - What is learned is chosen, and was typed or is a no-op.
/// - Each console holds a prefix of the program's output on the chosen input; so of two consoles
/// one is a prefix of the other.
/// - No released byte comes too early for its console. If the console has shown a byte of that
/// number, it is the same byte.
/// - No key is read twice, and the keys of one start of one node are read in the order in which
/// they were typed, with none left out between them.
pub fn headline()
    ensures learned_agree { Always LearnedAgree }
    ensures learned_chosen { Always LearnedChosen }
    ensures consoles_hold_output { Always ConsolesHoldOutput }
    ensures consoles_agree { Always ConsolesAgree }
    ensures no_gap { Always HasNoGap }
    ensures key_once { Always KeysOnce }
    ensures serials_in_order { Always SerialsInOrder }
{
    deeds_keep_it_sound();
    worlds_follow_the_rules();
    rules_headline();
}

/// What was learned and shown stays after more events, for every program and every group of 1, 3,
/// 5, 7 or 9 nodes. `events` lead from the world in which nothing has happened to `w`, and `more`
/// from `w` to `v`. A value that a node has learned in `w`, and one that the same node or another
/// has learned for the same place in `v`, are equal, also if nodes have crashed and started again
/// in between. What a console has shown in `v` begins with what it had shown in `w`.
pub fn later_worlds_agree()
    ensures learned_stays { AlwaysLater LearnedStays }
    ensures consoles_grow { AlwaysLater ConsolesGrow }
{
    deeds_keep_it_sound();
    worlds_follow_the_rules();
    rules_headline();
}

/// The main theorem is not empty. For some program and group, events lead to a world in which the
/// consoles of nodes 1 and 2 show exactly the letter A.
pub fn consoles_may_show()
    ensures { (p : Parts) × (group : Group) × (events : List Event) × (w : World)
        × IsSize group.size × IsGroup group × LeadsBy (new_world p group) events w
        × (((world_state w).seats 1).console ≡ 65 ∷ [])
        × (((world_state w).seats 2).console ≡ 65 ∷ []) }
{
    output_only_grows();
}

/// The claims about keys are not empty. In a group of one node, whose first save fails and which
/// then crashes and starts again, a typed key is learned, and the console shows it.
pub fn keys_may_show()
    ensures { (w : World) × LeadsBy (new_world echoes one) shown_events w
        × HasLearned (world_state w) 1 0 letter_batch × ((world_state w).typed ≡ letter ∷ [])
        × (((world_state w).seats 1).console ≡ 65 ∷ []) }
{
    output_only_grows();
    spelling_is_read();
}
