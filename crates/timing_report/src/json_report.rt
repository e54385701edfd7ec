//! The report as JSON (RFC 8259): written from the results of flows, and read back for its violations.

pub mod laws;
mod object;
mod reading;
mod written;

pub use object::Object;
pub use reading::{ReportError, ReportProof, read_json};
pub use written::{add_value, comma_if, json_of, put_unjudged};
