//! The proposer of a node under one ballot: its proposals, from the promises of the acceptors.
//!
//! For who writes a node over another network. Begin first: `next_ballot(promised, seen,
//! node)?` gives the ballot, and `Proposer::begin(alloc, ballot, from, size)` a proposer for the
//! places from `from` on. Send a Prepare. Then `on_promise(sender, &view)?` hears each part of a
//! promise, and returns the place from which to ask that acceptor for more. `next_accept(offered)?`
//! returns the next proposal, once a majority's promises cover its place. `on_refused(ballot)` says
//! whether a Refused ends the proposer; then `drop_ballot()` drops it.
//!
//! `laws` has empty functions: the contract of each is a law.
#![tactic(auto)]

mod covering;
mod fault;
mod hearing;
mod kept;
pub mod laws;
mod proposer;
mod rounds;

pub use fault::ProposerFault;
pub use proposer::{MOST_PUMPED, Proposer, RESERVED_PROPOSALS};
pub use rounds::next_ballot;
