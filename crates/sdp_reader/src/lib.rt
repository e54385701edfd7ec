//! A reader of session descriptions (RFC 4566) of uncompressed video (SMPTE ST 2110-20) with the
//! timing parameters of SMPTE ST 2110-21.
#![tactic(auto)]

pub mod bytes;
mod fault;
pub mod laws;
mod line;
mod parameter;
mod part;
mod session;

pub use fault::{SdpCause, SdpError, SdpFault};
pub use line::{Line, Video, read_lines, video_of};
pub use parameter::{is_known, is_the};
pub use part::{is_raw, own_lines};
pub use session::{media_before, read_sdp};
