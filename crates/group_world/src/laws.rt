//! The laws of a world, as facts about the definitions alone. Each law is the contract of a
//! function that does nothing.
mod logs;
mod processes;
mod sound;
mod worlds;

pub use logs::{a_written_log, wrong_clocks, wrong_events, wrong_logs};
pub use processes::{
    events_are_processes, events_of_logs_lead, logs_have_one_end, prefixes_of_logs,
    processes_are_events, processes_headline, processes_show, time_orders_logs,
};
pub use sound::{deeds_keep_it_sound, deeds_keep_what_holds, worlds_follow_the_rules};
pub use worlds::{consoles_may_show, headline, keys_may_show, later_worlds_agree};
