//! What the crates of the p-machine and of the group share: the count of a device's faults, which
//! `count_fault(faults)` raises. In `specs/` and `proofs/` also steps that may fail, and lemmas on
//! them and on lists.
#![tactic(auto)]

mod faults;

pub use faults::count_fault;
