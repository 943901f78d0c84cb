//! Laws of a node's part in the protocol, over the definitions alone. Each is the contract of a
//! function that does nothing.
mod fitting;
mod lawful;
mod learning;
mod waiting;
mod witness;

pub use fitting::{packets_are_few, packets_fit, proposals_fit, responses_fit, what_goes_out_fits};
pub use lawful::{
    calls_are_lawful, lawful_calls_go_on, others_keep_it_backed, responses_are_lawful,
};
pub use learning::calls_keep_what_is_learned;
pub use waiting::{only_ticks_submit, serials_are_counted, waiting_keys_are_a_row};
pub use witness::possible;
