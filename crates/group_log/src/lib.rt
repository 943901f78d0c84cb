//! What a node on UDP says of itself, in lines for a person and for `grep`. It stands apart from
//! `group_udp` for check time only.
//!
//! - `Log::new(alloc, clock, errors, node, level)` makes the log of a node; if it is off, its
//!   calls do nothing;
//! - `log.look(node)`, after each call of the node, writes a note for each change of its ballot;
//! - `reason_of(group, datagram)` returns why a node drops a datagram.
//!
//! A `Note` is one thing that a node says, and `line_of` returns its line. A `Traced` is what a
//! line of a trace says, and `traced_line` returns that line. `Recent` has the datagrams that the
//! trace need not write again.
#![tactic(auto)]

mod drops;
mod milestones;
mod node_log;
mod note;
mod recent;
mod role;
mod sends;
mod traced;

pub use drops::{DropReason, Drops, MOST_COUNTED, reason_of};
pub use milestones::{end_to_note, marks_reached};
pub use node_log::{Log, LogLevel, millis_now};
pub use note::{Note, ProcessEnd, line_of};
pub use recent::{MOST_RECENT, Recent};
pub use role::Role;
pub use sends::Sends;
pub use traced::{Call, Traced, traced_line};
