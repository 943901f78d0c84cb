//! Tests of the command's crates, apart for check time only: a crate with tests is proved twice.
//!
//! Their writers take nothing, or cannot be flushed, which no standard output of the built program
//! does. tests/command has streams that are closed, or fail before or in their midst, and the
//! arguments of the command line. This crate has nothing else.
//!
//! Most of its check is the borrow checker's part, some 0.3 seconds for each call, whatever
//! contracts say. So all commands are rows of one table.
#![tactic(auto)]

#[cfg(test)]
mod writers;
