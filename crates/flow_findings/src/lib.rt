//! What is wrong with the flow of a media: a list of findings, from numbers that other crates measure.
//!
//! [`explain`] looks at what is known of a flow and of the captures, and returns each [`Finding`] that holds, in a
//! fixed order. The first is the headline. A finding on limits is for one sender type: the declared one; if none is
//! declared, the first of N, NL and W that passes, and W if none does.
//!
//! - `laws`: laws of the definitions, and examples that are worked by hand.
//!
//! Media, runs, frames or fields, and packet records count from 1 in texts. In values media and packets count from 0.
//! In identifiers a group is a frame, or a field of interlaced video. Capture timestamps are nanoseconds of TAI.
#![tactic(auto)]

mod explained;
mod finding;
mod findings;
mod gaps;
mod inputs;
pub mod laws;
mod numbers;
mod status;

pub use explained::{Explained, ExplainedRun, RunCounts, explain};
pub use finding::{BrokenBuffer, DescribedRate, Finding, Offsets, Refusal, Steps};
pub use findings::findings_of;
pub use gaps::Gap;
pub use inputs::{KnownCaptures, KnownFlow, Overfull, RunDetails, ShownRun};
pub use numbers::{LimitNumbers, ShownNumbers, kind_of, numbers_of};
pub use status::status_of;
