//! The rules of a group of nodes, the claims of the main theorem, and its proof over the rules
//! alone.
//!
//! `specs/Rules.antt` says what one deed of a node may change (`WorldStep`), `specs/Leads.antt`
//! what lists of deeds lead to, and `specs/Claims.antt` what then holds of each group. Whoever
//! trusts these three files, what they import, and the prover has the theorem, `laws::headline`.
//! The crate has no code that runs: each law is the contract of a function that does nothing.
//!
//! The calls of a node keep the rules (`laws::calls_are_deeds`, `laws::output_is_a_deed`), and so
//! do the executable group of `group_world` and the processes of `group_process`, which stand on
//! this crate. To state something new of every group, write it beside the claims, and prove that
//! each step keeps it.
#![tactic(auto)]

pub mod laws;
