//! The text that is printed on standard error after the line of a status: what is wrong with the
//! arguments or with an input, and what is valid there.
//!
//! `timing_report` defines the line of a status. The text of this crate follows it and is meant for
//! people. The options, flags and tests of values are those of `timing_words`, so that a hint and
//! the parser agree.
#![tactic(auto)]

mod description;
mod ending;
mod escape;
mod fault;
mod joined;
mod nearest;
mod options;
mod parts;
mod sdp;
mod usage;
mod values;

pub use ending::{Ending, hint, input_name};
pub use escape::shown;
pub use joined::{JoinedFlows, Refusal};
pub use nearest::{nearest_command, nearest_first, nearest_option};
