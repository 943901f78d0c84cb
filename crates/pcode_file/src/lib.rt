//! Reads UCSD Pascal II.0 code files of one linked segment, for interpreters and listings.
//!
//! - `CodeFile::read(alloc, bytes)?` checks a whole file, and keeps a copy of its segment. A
//! refusal is a `FileFault`, the first check that fails. Memory is allocated after all checks.
//! - `file.procedures()` lends the procedures in the order of their numbers.
//! - `file.segment()` lends the segment's bytes, to which a procedure's offsets lead.
//!
//! `file.procedure(i)` returns one procedure, from 1 to `file.count()`; `file.name()` and
//! `file.number()` are the segment's. Files that are not linked or have several segments are
//! refused. The instructions in the bytes are read by the crate pcode_ops. The module `laws` says
//! that the order of the checks does not decide what a code file is.
#![tactic(auto)]

mod checks;
mod fault;
mod file;
pub mod laws;
mod layout;

pub use fault::FileFault;
pub use file::{CodeFile, Proc};
pub use layout::{BLOCK_BYTES, ENTRIES, LAST_LEVEL};
