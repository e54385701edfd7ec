//! The measurements of the flows of a capture as text: as JSON, and as comma-separated rows, one per packet or one per
//! frame or field.
//!
//! The JSON is made whole, as one string. Rows are written one by one, into memory that is reused. Capture timestamps
//! are nanoseconds since 1970-01-01 00:00:00, after the shift to TAI. Ticks are of 90 kHz.

mod flow;
mod json;
pub mod laws;
mod line;
mod pieces;
mod rows;
mod run;

pub use json::json_of;
pub use rows::{GroupRow, PacketRow, RowText};
pub(crate) use rows::{group_header, packet_header};
