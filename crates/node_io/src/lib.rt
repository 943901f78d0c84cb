//! What a run of a node needs around it, with no socket: a wire at which it can rest, a keyboard,
//! and why it ends early.
//!
//! It is for programs that run nodes over wires and keyboards of their own. Implement first:
//!
//! - `RestingWire` and `CountedWire`, for a `Wire` of `group_wire`;
//! - `Keyboard`, for what people type and ask for at the node.
//!
//! `node_run::run_node` takes any of these, and `group_udp` has those of UDP. A `GroupFault` says
//! why a run ended early. The module `laws` has what a keyboard that remembers has given.
#![tactic(auto)]

mod fault;
mod keyboard;
pub mod laws;
mod resting;

pub use fault::GroupFault;
pub use keyboard::Keyboard;
pub use resting::{CountedWire, RestingWire, Waited};
