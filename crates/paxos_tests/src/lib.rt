//! Tests of the crates of Paxos, apart for check time only: a crate with tests is proved twice.
//!
//! They are of messages and their bytes, acceptor, proposer, learner, and a store on a disk in
//! memory that crashes. This crate has nothing else. What a start of the built program shows of a
//! record in a file is in tests/damage and tests/disk: that takes no proof.
#![tactic(auto)]

#[cfg(test)]
mod acceptor;
#[cfg(test)]
mod choosing;
#[cfg(test)]
mod crashes;
#[cfg(test)]
mod datagrams;
#[cfg(test)]
mod files;
#[cfg(test)]
mod learner;
#[cfg(test)]
mod library;
#[cfg(test)]
mod proposer;
#[cfg(test)]
mod records;
#[cfg(test)]
mod voter;
