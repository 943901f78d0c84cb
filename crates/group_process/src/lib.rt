//! The processes of a group: what holds of nodes that each run on a wire, over a store.
//!
//! It has no function to call: each of `laws` is a theorem, and its contract is the statement.
//! Begin with `runs_headline`, the main theorem for processes on wires. `specs/Runs.antt` says
//! first what a start, a run and a process are.
#![tactic(auto)]

pub mod laws;
