//! The analyser as one call: from the arguments of a command line to the output and the status.
//!
//! [`run`] reads the arguments and runs the command, with inputs from a shelf and two sinks for the output. Its clauses
//! define the output and the status.
//!
//! - `laws`: the law `headline`, and other laws that follow from the clauses of `run`.
//! - `verify`: `verify` and `verify-report`, which check claimed violations.
#![tactic(auto)]

mod alone;
mod captures;
mod check;
mod commands;
mod help;
mod joined;
pub mod laws;
mod many;
mod self_tests;
pub mod verify;

pub use check::{CheckCommand, check_many};
pub use commands::run;
pub use help::print_help;
pub use self_tests::self_test;
