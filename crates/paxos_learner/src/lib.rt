//! The learner of a node: the chosen value of each place, and the input that the learned keys make.
//!
//! For who writes a node over another network. Make it first: `Learner::new(alloc, size)`
//! for a group of `size` nodes. Then `on_accepted(sender, ballot, place, value)?` hears an
//! Accepted, and `on_tell(place, value)?` a Tell. Each says if the place is now learned. After
//! `known_front()` has risen from `place`, `input_after(place)` gives the bytes that the places
//! from there on have added to the input.
//!
//! `learned`, `has_learned` and `has_read` look up places and keys. The functions of `laws` do
//! nothing: the contract of each is a law.
#![tactic(auto)]

mod heard;
mod input;
mod keys;
pub mod laws;
mod learner;
mod node_set;
mod place_map;
mod tally;

pub use heard::{Heard, LearnerFault};
pub use input::InputAfter;
pub use keys::{KeySet, TypedKey};
pub use learner::{Learner, WINDOW};
