//! The work of the command `state`: a program's configuration, as text.
//!
//! - `run_to_halt(machine, input, steps)` runs a machine on a whole input, to where its program
//! waits for more or has ended.
//! - `state_text(alloc, machine, halt)` returns the text of the configuration there: exactly
//! `configuration_text` of the definitions. `placed_state_text` has other frames and places in it.
//! - `state_of_program(alloc, program, input, steps)` does both, and
//! `write_state(rt, file, steps, reader, writer)` does it for a file, an input and an output, by
//! `write_text`.
#![tactic(auto)]

mod command;
mod halt;
mod text;

pub use command::{Stated, state_of_program, write_state, write_text};
pub use halt::{Halt, run_to_halt};
pub use text::{placed_state_text, state_text};
