//! How a session description is read, as lines of text and as JSON.
//!
//! Texts are made whole, as values. Times are nanoseconds, rounded down, and steps of RTP timestamps are ticks of 90
//! kHz. Bytes of the description are printed as they are if they are printable ASCII other than a quote and a
//! backslash, else as `\xNN`.

mod json;
mod shown;
mod text;
mod times;

pub use json::json_of;
pub use text::text_of;
