//! Tests of the p-machine's crates, apart for check time only: a crate with tests is proved twice.
//!
//! They are of what the built program cannot show: the parts of a file, a frame with all its
//! fields, single steps, superinstructions, and code that no loadable program holds. tests/cases
//! has all else: opcodes, listings, calls, and how many steps a run makes. This crate has nothing
//! else.
//!
//! Most of its check is the borrow checker's part, some 0.3 seconds for each call, whatever
//! contracts say. So a test is one loop over a table.
#![tactic(auto)]

#[cfg(test)]
mod frames;
#[cfg(test)]
mod opcodes;
#[cfg(test)]
mod programs;
