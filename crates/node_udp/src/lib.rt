//! One node of a group on UDP, over a record in a file: the work of the command `node`.
//!
//! `node_file` runs it, as a `NodePlan` says: it is `node_run::run_over_disk` over the system's
//! files and sockets.
#![tactic(auto)]

mod node;
mod opening;
mod over_file;

pub use node::{NodePlan, node_file};
