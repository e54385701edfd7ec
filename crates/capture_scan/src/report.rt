//! The result of a scan as JSON and as lines of text, and a draft of an SDP from its streams.
//!
//! Texts are made whole, as values. Capture timestamps are nanoseconds since 1970-01-01 00:00:00, lengths are bytes,
//! and ticks are of 90 kHz.

mod draft;
mod json;
pub mod laws;
mod rate;
mod text;

pub use draft::{Draft, DraftVideo, Guesses};
pub use json::json_of;
pub use rate::{FrameRate, Ratio};
pub use text::text_of;
