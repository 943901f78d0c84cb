//! Laws of every group, over the rules alone. Each is the contract of a function that does nothing.
mod claims;
mod counterexamples;
mod deeds;
mod far_counterexamples;
mod key_steps;
mod needed;
mod reachable;
mod steps;

pub use claims::{claims_follow, headline, next_keys_are_new, steps_keep_it, steps_show_more};
pub use counterexamples::{wrong_orders, wrong_worlds};
pub use deeds::{calls_are_deeds, output_is_a_deed};
pub use far_counterexamples::{wrong_consoles, wrong_keys, wrong_shown, wrong_values};
pub use key_steps::{wrong_batches, wrong_serials, wrong_typing};
pub use needed::{
    rules_on_learning_are_needed, rules_on_order_are_needed, rules_on_output_are_needed,
    rules_on_starts_are_needed,
};
pub use reachable::{
    batches_may_overlap, releases_again, takeover, two_learn, two_show, two_starts,
};
pub use steps::{
    right_calls, right_deeds, wrong_absences, wrong_campaigns, wrong_causes, wrong_crashes,
    wrong_falls, wrong_idleness, wrong_learning, wrong_messages, wrong_neighbours, wrong_reads,
    wrong_releases, wrong_runs, wrong_sends, wrong_starts, wrong_ticks, wrong_votes,
};
