//! The main theorem from the disks on: starts of processes over disks are runs over stores that
//! keep their records, and the claims hold of each log of such starts.
//!
//! `laws` has empty functions: the contract of each is a law.
#![tactic(auto)]

pub mod laws;
