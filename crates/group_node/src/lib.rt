//! One node of a replicated group, and a console, for those who write their own network.
//!
//! - `Node::start(alloc, &program, config, store)` starts a node over the stored record of its
//! acceptor. `Config::new(node, size, session)?` is its place in the group.
//! - `node.typed(byte)?`, `node.on_message(&view, &mut outbox)?`, `node.campaign(&mut outbox)?` and
//! `node.tick(&mut outbox)?` are its calls. One that saves does so first, and once. All but `typed`
//! then put the packets that are to be sent into the outbox, from which `outbox.pop()` takes them.
//! - `node.run(steps)?` runs the program on the learned keys. `node.release()` returns its next
//! output byte with its number, and `console.offer(number, byte)` shows it.
//!
//! Tick each node from time to time, and let one node campaign, which then leads. docs/LIBRARY.md
//! runs a node by hand. A refusal is a `NodeFault`: after `Memory` nothing has
//! changed, and after `Store` the node is stopped. The module `laws` has what holds of each node's
//! output; laws of its part in the protocol, which knows no machine, are in `group_protocol`, and
//! what its calls may do to a group is in `group_rules`.
#![tactic(auto)]

mod console;
pub mod laws;
pub mod limits;
mod node;
mod player;

pub use console::{Console, Offer};
pub use group_protocol::{Config, NodeFault, Outbox, Packet, StartRefused, To};
pub use node::Node;
pub use player::Ran;
