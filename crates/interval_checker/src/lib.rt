//! The second opinion on a violation: whether the packets of a capture, or of joined captures, confirm the interval
//! that a report names.
//!
//! A [`Reading`] belongs to one flow, and is made with what the claims on the flow ask for ([`Asked`]).
//! [`read_sources`] reads the captures once for all readings, and each reading then returns the answers on its claims.
//! It counts packet numbers and finds the frames or fields of the flow by itself, and keeps five capture timestamps for
//! each claim. It shares with the judge the readers and the limits and times of a sender, and nothing else: it has no
//! bucket, no buffer, no search and no list of timestamps.
#![tactic(auto)]

mod asked;
mod before;
mod checker;
mod claim;
mod ending;
mod fault;
mod interval;
pub mod laws;
mod marks;
mod numbers;
mod reading;
mod reads;
mod records;
mod sample;
mod walk;

pub use asked::Asked;
pub use checker::read_sources;
pub use fault::CheckFault;
pub use reading::Reading;
