//! Decodes and loads the instructions of code files, for interpreters and listings.
//!
//! - `Program::check(alloc, file)` follows each reached offset of a `CodeFile`, and returns a
//! program if none is faulty. A refusal names the least faulty offset and gives the file back.
//! - `program.instruction(at)` returns the instruction at a reached offset, and the offset after
//! it. Reading begins at a procedure's `enter`.
//! - `program.jump(procedure, sb, next)` and `program.case(low, high, table, word)` return the
//! targets of jumps.
//!
//! `program.superinstruction(at)` lends several instructions as one,
//! `program.write_listing(writer)` writes the text of all, and `decode(code, at)` decodes one
//! instruction of any bytes. Memory is allocated by `Program::check` alone, before it checks
//! anything. The module `laws` has what holds of decoding and loading for each file.
#![tactic(auto)]

mod cells;
mod decoding;
mod fault;
mod fusing;
mod instr;
mod jumps;
pub mod laws;
mod listing;
mod loading;
mod opcodes;
mod operation;
mod program;
mod superinstruction;
mod text;
mod walk;

pub use decoding::decode;
pub use fault::{LoadFault, LoadRefused, OpFault};
pub use instr::{Instr, StandardProcedure};
pub use operation::Operation;
pub use program::Program;
pub use superinstruction::{MOST_COMPONENTS, Pushed, Sink, Source, Superinstruction};
pub use text::{TextWriter, UpToFault};
