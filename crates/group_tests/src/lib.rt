//! Tests of the crates of the group, apart for check time only: a crate with tests is proved twice.
//!
//! They are of what the built program cannot show: the packets and refusals of a node, wires that
//! fail, saves that fail, and lists of events. `tests/stops` tries the same saves by a script of
//! `sim`, after each event, and `tests/cases` other scripts. This crate has nothing else.
//!
//! More than half of its check is the borrow checker's part, whatever contracts say: some 0.3
//! seconds for each call. A function in which `?` may drop several things takes much more, so a
//! program is made in one function and used in another. A list of acts with references in it takes
//! 0.2 seconds for each line, so lists name datagrams and bytes.
#![tactic(auto)]

#[cfg(test)]
mod node;
#[cfg(test)]
mod program;
#[cfg(test)]
mod stops;
#[cfg(test)]
mod wires;
#[cfg(test)]
mod worlds;
