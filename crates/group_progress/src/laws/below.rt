//! What the laws of the crates below say together.
ghost use Rattle.group_progress.specs.Below.{Below};

use group_protocol::laws::{
    calls_keep_what_is_learned, waiting_keys_are_a_row, what_goes_out_fits,
};
use group_rules::laws::{claims_follow, next_keys_are_new};
use group_world::laws::deeds_keep_what_holds;
use paxos_learner::laws::{
    input_grows, key_tests_are_exact, keys_are_read_once, learned_stays, one_front,
    values_are_learned,
};
use paxos_msg::grammar::spelling_is_read;
use paxos_msg::laws::tests_are_exact;
use pcode_machine::laws::{output_only_grows, prefixes_are_ordered};

/// What the proofs of this crate take from the laws of the crates below.
pub(crate) fn what_lies_below()
    ensures { Below }
{
    deeds_keep_what_holds();
    claims_follow();
    next_keys_are_new();
    what_goes_out_fits();
    waiting_keys_are_a_row();
    calls_keep_what_is_learned();
    input_grows();
    key_tests_are_exact();
    keys_are_read_once();
    learned_stays();
    one_front();
    values_are_learned();
    spelling_is_read();
    tests_are_exact();
    output_only_grows();
    prefixes_are_ordered();
}
