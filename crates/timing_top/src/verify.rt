//! `verify` and `verify-report`: whether captures confirm a violation that is claimed of a sender, and whether they
//! confirm each violation in a JSON report.
//!
//! Each claim is checked from the captures alone, by `interval_checker`; no judge runs here.

mod asks;
mod checked;
mod find;
pub mod laws;
mod needs;
mod read;
mod report;
mod verify;
mod words;

pub use checked::{Checked, Finding};
pub use report::verify_all;
pub use verify::VerifyCommand;
