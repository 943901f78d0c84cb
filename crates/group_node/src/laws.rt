//! Laws of a node and of its output, over the definitions alone. Each is the contract of a function
//! that does nothing.
mod inputs;
mod output;
mod refusals;

pub use inputs::input_is_chosen;
pub use output::{learning_keeps_the_output, replays_release_what_is_written};
pub use refusals::calls_are_refused_alike;
