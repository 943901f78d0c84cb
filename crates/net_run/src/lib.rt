//! A group in one process, on loopback UDP, over stores in memory: the work of the command `net`.
//!
//! `net_file` runs it, as a `NetPlan` says.
#![tactic(auto)]

mod net;
mod shown;

pub use net::{NetPlan, net_file};
