//! The wires of nodes on UDP, and where their typed bytes come from.
//!
//! It is for programs that run a group on real machines by cycles of their own. Call first:
//!
//! - `bind(rt, address)` and `Watch::new(rt)`, for the sockets of a node;
//! - `UdpWire::new(..)`, which makes a wire of a socket: a `Wire` for the turns of a `Host`, a
//!   `RestingWire` for the rests between them, and a `CountedWire` for the log;
//! - `TypedDatagrams::new(..)`, a `Keyboard` for bytes that come as datagrams;
//! - `laws`: whose datagrams a node takes, and how long it rests.
//!
//! The crates `node_run` and `net_run` run whole nodes and groups on them. A `GroupFault` says why
//! a run ended early.
#![tactic(auto)]

mod drained;
mod header;
mod kinds;
pub mod laws;
pub mod limits;
mod own_datagrams;
mod pace;
mod rest;
mod sources;
mod trace;
mod typed;
mod typed_queue;
mod udp;

pub use mio::net::UdpSocket;
pub use sources::address_at;
pub use trace::Trace;
pub use typed::TypedDatagrams;
pub use typed_queue::TypedQueue;
pub use udp::{UdpWire, Watch, bind};
