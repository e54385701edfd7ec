//! Requirements of SMPTE ST 2110-21 for a sender of one video, as exact numbers.
//!
//! [`Params`] has the numbers for one video with a given number of packets per frame or field: the limits of both
//! models; the times T_FRAME, T_GROUP, T_DRAIN, TR_OFFSET and T_RS; the drain ticks up to an instant; and the frame or
//! field of a first packet. [`tr_offset`] and [`groups_per_frame`] need no number of packets. In code a `group` is a frame of a progressive picture or a field of an interlaced one, and
//! T_GROUP is its time. Times are in nanoseconds, instants in nanoseconds of TAI, and counts in packets. All numbers
//! are this project's profile of the standard.
#![tactic(auto)]

pub mod laws;
mod params;
mod rules;
mod sizes;
pub mod worked;

pub use params::Params;
pub use rules::{Ratio, groups as groups_per_frame, offset as tr_offset};
pub use sizes::{Sizes, sizes_of};
