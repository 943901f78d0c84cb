//! A node's part in the protocol, for those who replicate a machine of their own.
//!
//! - `Config::new(node, size, session)?` is a node's place in its group. Open an `Acceptor` over
//! its store, and make the room for your machine. `Protocol::start(alloc, &config, acceptor,
//! Waiting::new(alloc)?)` counts the start, saves it, and returns the node.
//! - `typed(byte)?`, `on_message(&view, &mut outbox)?`, `campaign(&mut outbox)?` and
//! `tick(&mut outbox)?` are its events. Each saves first, at most once. Then it puts the packets
//! that are to be sent into the outbox, from which `outbox.pop()` takes them.
//! - `learner()` has the values that are learned, and the input that their keys make.
//!
//! A refusal is a `NodeFault`: after `Memory` nothing has changed, and after `Store` the node is
//! stopped. The module `laws` has what holds of each such call. A `Node` of the crate `group_node`
//! is such a part with the machine of a p-code program.
#![tactic(auto)]

mod acceptor_responses;
mod config;
mod fault;
pub mod laws;
mod learner_responses;
pub mod limits;
mod outbox;
mod packet;
mod proposer_responses;
mod protocol;
mod pump;
mod start;
mod tick;
mod waiting_keys;

pub use config::Config;
pub use fault::{NodeFault, node_fault};
pub use outbox::Outbox;
pub use packet::{Packet, To};
pub use protocol::Protocol;
pub use start::StartRefused;
pub use waiting_keys::Waiting;
