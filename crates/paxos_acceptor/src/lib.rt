//! The acceptor of a node: its promises and votes, over a store that outlives it.
//!
//! For who writes a node over another network and store. Open first: `Acceptor::open(alloc, store,
//! me)?` loads the record of the store, a `MemoryStore`, the `FileStore` of `paxos_disk` or a
//! `Store` of your own. A refusal gives the store back. `new_start` counts the start, and is called
//! once after each open, before any answer. Then `prepare(ballot, from)?` and
//! `accept(ballot, place, value)?` return the body of the answer. Each saves before it answers.
//! After `AcceptorFault::Store` the acceptor is closed: open another one over the store.
//!
//! `laws` has empty functions: the contract of each is a law.
#![tactic(auto)]

mod acceptor;
mod answers;
mod fault;
mod fits;
pub mod laws;
mod me;
mod memory;
mod saving;
mod store;

pub use acceptor::{Acceptor, OpenRefused};
pub use answers::greater_promise;
pub use fault::AcceptorFault;
pub use fits::record_fits;
pub use me::Me;
pub use memory::MemoryStore;
pub use store::{Store, StoreFault};
