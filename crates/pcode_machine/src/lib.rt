//! Runs programs of the p-machine: one instruction, or one byte of a transfer, for each step.
//!
//! - `Machine::new(alloc, &program)?` makes a machine at the start of a loaded program. It
//! allocates all of its room; no later call allocates.
//! - `machine.run(most)` makes up to `most` steps. It returns how many it made, and a `Pause`: all
//! were made, the machine wants a byte, it wrote one, or the program has ended.
//! - `machine.take(byte)` gives a machine that wants a byte this one, and returns the byte that it
//! writes, if it writes one.
//!
//! `machine.step(offered)` makes one step and returns a `Turn`, whatever the machine wants.
//! `machine.advance(most)` makes only steps that read and write nothing. An `End` is the normal
//! end, or an execution error with its number, procedure and offset. The module `laws` has what
//! holds of each run: longer inputs change no step, and the output only grows.
#![tactic(auto)]

mod arithmetic;
mod blocks;
mod bytes;
mod calls;
mod comparisons;
mod errors;
mod execute;
mod fields;
mod fused;
pub mod instruction_laws;
pub mod laws;
mod loads;
mod machine;
mod operations;
mod parts;
mod pointers;
mod transfers;
mod turn;

pub use machine::Machine;
pub use turn::{Direction, End, MachineFault, Pause, Stop, Transfer, Turn};
