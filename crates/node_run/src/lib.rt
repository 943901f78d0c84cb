//! A run of one node, over any store or disk, wire and keyboard: what the command `node` does once
//! its files and sockets are open (`node_udp`).
//!
//! Call first:
//!
//! - `run_node`, which runs one node over a store, a wire and a keyboard, as a `RunPlan` says: its
//!   contract says what the node did in each cycle, what passed over the wire, what was typed, what
//!   was written, and what a restart may load after it;
//! - `run_over_disk`, the same over any disk;
//! - `laws::cycles_are_a_run`, a law: that run is a process of a group;
//! - `laws::consoles_go_on`, a law: the output of a node continues over its starts.
//!
//! A node waits for datagrams between its turns. `specs/Cycles.antt` has what `run_node` promises
//! of the node, cycle by cycle. `RunsNode` is the same run as deeds with prompts, and
//! `laws::cycles_are_a_run` derives it.
#![tactic(auto)]

mod answering;
mod cycles;
mod endpoints;
pub mod laws;
mod limits;
mod release;
mod rest;
mod retries;
mod run;
mod text;

pub use cycles::RunPlan;
pub use endpoints::Endpoints;
pub use run::{NodeEnd, run_node, run_over_disk};
pub use text::Text;
