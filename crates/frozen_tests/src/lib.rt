//! Tests of the checks of frozen programs, apart for check time only: a crate with tests is proved
//! twice.
//!
//! What the checks say is proved where they answer true, and not that they ever do. So files that
//! tools/freeze made are here, and what it saw in its own check of them. This crate has nothing
//! else.
#![tactic(auto)]

#[cfg(test)]
mod checks;
#[cfg(test)]
mod echo;
#[cfg(test)]
mod frames;
