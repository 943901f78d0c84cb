//! The claims of the main theorem: what holds of each group to which deeds lead by the rules.
ghost use Rattle.std.specs.Prelude.{◌≡◌, ℕ, Contains, List, Some};
ghost use Rattle.pcode_file.specs.Parts.{Parts};
ghost use Rattle.pcode_machine.specs.Runs.{AreComparable};
ghost use Rattle.paxos_msg.specs.Keys.{Key};
ghost use Rattle.paxos_learner.specs.Input.{front_values, keys_in_order};
ghost use Rattle.group_node.specs.Deeds.{Deed};
ghost use Rattle.group_rules.specs.Rules.{Up, WorldState, WorldStep};
ghost use Rattle.group_rules.specs.Claims.{ConsolesAgree, ConsolesGrow, ConsolesHoldOutput, ConsolesShowReleased, HasNoGap, KeysOnce, LearnedAgree, LearnedChosen, LearnedStays, SerialsInOrder};
ghost use Rattle.group_rules.specs.Leads.{AlwaysByRules, AlwaysLaterByRules, initial, LeadsByRules, NodeDeed};
ghost use Rattle.group_rules.specs.Invariants.{HoldsByRules, IsNextKey};

use group_node::laws::input_is_chosen;
use paxos_learner::laws::{
    input_grows, key_tests_are_exact, keys_are_read_once, values_are_learned,
};
use paxos_msg::laws::{
    agreement, calls, growth, restarts, saves_only_raise, sent_only_grows, tests_are_exact,
};
use pcode_machine::laws::{
    output_only_grows, prefixes_are_ordered, run_is_after, same_run_on_longer_input,
    step_is_transition, step_only_adds,
};

/// What always holds of a group (`HoldsByRules`) holds before all deeds, and each step by the rules
/// keeps it.
pub fn steps_keep_it()
    ensures begins { (p : Parts) (size : ℕ) → HoldsByRules (initial p size) }
    ensures goes_on { (w v : WorldState) (i : ℕ) (deed : Deed) → HoldsByRules w
        → WorldStep w i deed v → HoldsByRules v }
{
    agreement();
    calls();
    growth();
    input_grows();
    input_is_chosen();
    key_tests_are_exact();
    keys_are_read_once();
    output_only_grows();
    prefixes_are_ordered();
    restarts();
    run_is_after();
    same_run_on_longer_input();
    saves_only_raise();
    sent_only_grows();
    step_is_transition();
    step_only_adds();
    tests_are_exact();
    values_are_learned();
}

/// A step takes nothing from a console.
pub fn steps_show_more()
    ensures { (w v : WorldState) (i : ℕ) (deed : Deed) → WorldStep w i deed v → ConsolesGrow w v }
{}

/// The claims follow from what always holds. Of a node's console and what its machine has written,
/// one is a prefix of the other. What holds lasts as deeds lead on, and what was learned and shown
/// stays.
pub fn claims_follow()
    ensures learned_agree { (w : WorldState) → HoldsByRules w → LearnedAgree w }
    ensures learned_chosen { (w : WorldState) → HoldsByRules w → LearnedChosen w }
    ensures consoles_hold_output { (w : WorldState) → HoldsByRules w → ConsolesHoldOutput w }
    ensures consoles_agree { (w : WorldState) → HoldsByRules w → ConsolesAgree w }
    ensures no_gap { (w : WorldState) → HoldsByRules w → HasNoGap w }
    ensures consoles_show_released { (w : WorldState) → HoldsByRules w → ConsolesShowReleased w }
    ensures consoles_follow { (w : WorldState) (i : ℕ) (node : Up) → HoldsByRules w
        → (w.seats i).up ≡ Some node
        → AreComparable (w.seats i).console node.configuration.output }
    ensures key_once { (w : WorldState) → HoldsByRules w → KeysOnce w }
    ensures serials_in_order { (w : WorldState) → HoldsByRules w → SerialsInOrder w }
    ensures lasts { (w v : WorldState) (deeds : List NodeDeed) → HoldsByRules w
        → LeadsByRules w deeds v → HoldsByRules v }
    ensures learned_stays { (w v : WorldState) (deeds : List NodeDeed) → HoldsByRules w
        → LeadsByRules w deeds v → LearnedStays w v }
    ensures consoles_grow { (w v : WorldState) (deeds : List NodeDeed) → LeadsByRules w deeds v
        → ConsolesGrow w v }
{
    steps_keep_it();
    steps_show_more();
    agreement();
    input_is_chosen();
    key_tests_are_exact();
    keys_are_read_once();
    output_only_grows();
    prefixes_are_ordered();
    run_is_after();
    sent_only_grows();
    values_are_learned();
}

/// The next key that is typed at a node is a new one: it was never typed before, and the node has
/// not read it.
pub fn next_keys_are_new()
    ensures not_typed { (w : WorldState) (i : ℕ) (node : Up) (key : Key) → HoldsByRules w
        → (w.seats i).up ≡ Some node → IsNextKey i (w.seats i).kept node key
        → ¬ Contains w.typed key }
    ensures not_read { (w : WorldState) (i : ℕ) (node : Up) (key : Key) → HoldsByRules w
        → (w.seats i).up ≡ Some node → IsNextKey i (w.seats i).kept node key
        → ¬ Contains (keys_in_order (front_values node.learned)) key }
{
    claims_follow();
    agreement();
    key_tests_are_exact();
    keys_are_read_once();
    values_are_learned();
}

/// The main theorem, over the rules alone. It is about every program, every number of nodes and
/// every list of deeds of nodes: starts, typed characters, messages that are heard or lost,
/// campaigns, ticks, runs, releases and crashes, with saves that fail or not. Of each group to
/// which they lead from the one in which nothing has happened:
///
/// - No two nodes have learned different values for one place.
/// - What is learned is chosen, and was typed or is a no-op.
/// - Each console holds a prefix of the program's output on the chosen input; so of two consoles
/// one is a prefix of the other. What a node has released is on its console.
/// - No released byte comes too early for its console. If the console has shown a byte of that
/// number, it is the same byte.
/// - No key is read twice, and the keys of one start of one node are read in the order in which
/// they were typed, with none left out between them.
/// - What was learned stays, also at another node and after crashes, and each console only grows.
pub fn headline()
    ensures learned_agree { AlwaysByRules LearnedAgree }
    ensures learned_chosen { AlwaysByRules LearnedChosen }
    ensures consoles_hold_output { AlwaysByRules ConsolesHoldOutput }
    ensures consoles_agree { AlwaysByRules ConsolesAgree }
    ensures no_gap { AlwaysByRules HasNoGap }
    ensures consoles_show_released { AlwaysByRules ConsolesShowReleased }
    ensures key_once { AlwaysByRules KeysOnce }
    ensures serials_in_order { AlwaysByRules SerialsInOrder }
    ensures learned_stays { AlwaysLaterByRules LearnedStays }
    ensures consoles_grow { AlwaysLaterByRules ConsolesGrow }
{
    steps_keep_it();
    claims_follow();
}
