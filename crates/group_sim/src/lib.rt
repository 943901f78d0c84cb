//! A simulation: a script is performed on a group in memory, and the group is printed.
//!
//! It is for tests and demonstrations of a group without a network. Call first:
//!
//! - `read_script` of `group_world`, which reads a script;
//! - `sim`, which performs it on a group that runs a program, and whose contract says, line by
//!   line, what happened and what was written;
//! - or `sim_file`, which does the work of the command `sim` on a code file and a script's file.
#![tactic(auto)]

pub mod laws;
pub mod limits;
mod refusal;
mod script_file;
mod showing;
mod simulation;
mod text;

pub use refusal::{LineFault, ScriptRefusal};
pub use script_file::sim_file;
pub use simulation::{Stopped, sim};
