//! The judge of one flow, in one pass, and a bank of judges: one for each media of a session.
//!
//! A [`FlowJudge`] gets the packets of a flow, one by one and in order, and returns the flow's result: why the flow
//! isn't judged, or for each run between gaps the peaks of both models and the verdict on each sender type, with the
//! interval of packets that breaks a limit first. Times are in nanoseconds of TAI; judged packets count from 0.
//!
//! A [`Bank`] takes the packet records of one file or of joined files. It parses the Ethernet frame of a record once.
//! If the frame's target is that of a media, the packet goes to the judge of that media. Most frames carry the packet
//! that is expected next in the flow with the next turn; such a frame is only compared with that packet and not parsed.
//! Files and media count from 0, packet records from 1. Capture timestamps are in nanoseconds since 1970-01-01
//! 00:00:00.
#![tactic(auto)]

mod bank;
mod counting;
mod current;
mod first;
mod flow;
mod judge;
mod kind;
pub mod laws;
mod lull;
mod metered;
mod meters;
mod run;
mod shift;

pub use bank::Bank;
pub use current::RunSoFar;
pub use judge::FlowJudge;
pub use metered::Metered;
