//! What the findings on a judged run need beside its measurements, collected while the run is judged.
//!
//! A `DetailsMeter` is fed the packets of one run in order. Its size doesn't grow with the count of packets. Of the runs
//! of a flow, the details of the longest are kept. In identifiers a group is a frame, or a field of interlaced video.

mod groups;
mod longest;
mod meter;
mod overfull;
mod packets;

pub use longest::{FoundRun, LongestFound};
pub use meter::DetailsMeter;
