//! A node of a group on a wire, for programs that run nodes over a network.
//!
//! `Wire` is what carries datagrams; implement it for a socket, or for queues in a test. Then three
//! calls do most of the work:
//!
//! - `Host::start(alloc, program, config, store)` starts a node over its store.
//! - `host.turn(&mut wire, Rested::No)` takes the datagrams that are there, ticks, and runs the
//!   machine. What the node sends goes out in the same call.
//! - `host.release()` gives the next byte of the program's output, with its number.
//!
//! `host.press(&mut bytes)` types bytes at the node, `host.campaign(&mut wire)` has it ask to lead,
//! and `host.hear(&mut wire)` takes one datagram between turns. `host.node()` lends the node, which
//! answers what it knows.
#![tactic(auto)]

mod answers;
mod host;
pub mod laws;
pub mod limits;
mod press;
mod rested;
mod sending;
mod trace_event;
mod turns;
mod wire;

pub use answers::{Received, Tick, Turned};
pub use host::Host;
pub use rested::Rested;
pub use trace_event::TraceEvent;
pub use wire::Wire;
