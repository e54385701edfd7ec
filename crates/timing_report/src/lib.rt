//! The texts and statuses that the analyser prints, made whole as values before they are written.
//!
//! - The crate itself: the report as lines of text, verdicts, exit statuses and their lines on standard error.
//! - `laws`: laws of the definitions, and examples that are worked by hand.
//!
//! Captures, media and runs count from 0 in values, and from 1 in texts. Packet records of a capture count from 1
//! everywhere, and the packets of a judged run from 0.
#![tactic(auto)]

pub mod json_report;
pub mod laws;
mod outcomes;
mod status;
mod text;
mod verdict;
mod words;

pub use outcomes::{any_refused, buffer_peak, first_passing, media_of, status_of, verdict_on};
pub use status::{Input, Status};
pub use text::{add_files, text_of};
pub use verdict::verdict_of;
pub use words::{
    NoteText, PacketFaultText, SsrcText, class_name, declared_name, group_name, kind_name,
    model_name,
};
