//! The findings on the flows of a session as lines of text and as JSON.
//!
//! Texts are made whole, as values. Times in sentences are microseconds below a millisecond, milliseconds below a
//! second, else seconds. Numbers in JSON are in the units of [`flow_findings::Finding`]. Media, runs, packet records, and
//! frames or fields count from 1 in texts.
//!
//! - `laws`: sentences, lines and JSON that are worked by hand.
#![tactic(auto)]

mod advice;
mod json;
pub mod laws;
mod sentences;
mod setting;
mod text;
mod times;

pub use json::json_of;
pub use text::text_of;
