//! One machine over files, readers and writers: it checks, lists and runs a code file.
//!
//! It is for programs that run p-code on their own input and output. Call first:
//!
//! - `load`, which makes a program of a code file's bytes, or says why they are none;
//! - `run_program`, which runs a program over a `ByteReader` and a `ByteWriter`, and whose contract
//!   says exactly what was read and written. `Counting` makes these of any `Read` and `Write`.
//!
//! `check_file`, `list_file` and `run_file` do the work of the commands `check`, `list` and `run`.
#![tactic(auto)]

mod built_in;
mod commands;
mod files;
mod loading;
mod refusal;
mod run;
mod streams;

pub use built_in::run_built_in;
pub use commands::{check_file, list_file, load_file, run_file};
pub use files::{FileError, LONGEST_FILE, read_file, read_whole};
pub use loading::load;
pub use refusal::MachineRefusal;
pub use run::{Finish, RunIo, run_program};
pub use streams::{ByteReader, ByteWriter, Counting, ReadFault, WriteFault};
