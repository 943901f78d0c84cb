//! Frozen programs: code files that go on where another program was.
//!
//! A program that waits for a key can be written as a new code file, which, when it is started,
//! waits in the same state. `are_twins(&program, &other, &pairs)` is true only if two programs do
//! the same at each pair of places in a list, and go on at such pairs. `are_twin_states` is true
//! only if a state of the original is that of a machine over the frozen program but for places. The
//! law `frozen_goes_on` says what follows once both have come to such states: from there on they do
//! the same.
#![tactic(auto)]

mod instructions;
pub mod laws;
mod pairs;
mod states;
mod twins;

pub use pairs::Pair;
pub use states::are_twin_states;
pub use twins::are_twins;
