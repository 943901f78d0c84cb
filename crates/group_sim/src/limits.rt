//! The limits of a script, each under its name. Code and clauses cite them.

/// The most deliveries that a settle makes.
pub const DELIVERIES: u32 = 10_000;

/// The most steps that each machine makes at the end of a settle.
pub const SETTLE_STEPS: u32 = 1_000;
