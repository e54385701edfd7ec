//! The command `watch`: prints a line for each stretch of frames or fields of each video while captures are read, a line
//! for each other event of a flow, and at the end the report of `check`.
//!
//! Each capture is read once; several are taken as one. After each packet record the lines that it made are printed.
//! Media count from 0, runs and packet records from 1; capture timestamps are nanoseconds.
//!
//! - `laws`: the contents of the inputs define one output.
#![tactic(auto)]

mod begin;
mod command;
mod flow;
pub mod laws;
mod report;
mod watch;

pub use command::WatchCommand;
