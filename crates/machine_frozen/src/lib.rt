//! The work of the command `frozen`: the original's configuration, found by its frozen program.
//!
//! `original_text(alloc, bytes, input, steps)` runs the program of a frozen code file on a whole
//! input to where it waits, and checks that it goes on there as its original does. It returns the
//! text of the original's configuration. The law `waits_are_frozen` says what that shows: where the
//! original comes to that state, it is frozen in the program.
#![tactic(auto)]

mod answer;
mod command;
pub mod laws;
mod originals;
mod places;
mod refusal;
mod trailer;
mod walk;

pub use answer::original_text;
pub use command::{write_frozen, write_original};
pub use refusal::FrozenRefusal;
