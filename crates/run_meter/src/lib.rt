//! Meters that follow a judged run packet by packet while it is judged.
//!
//! A [`RunMeter`] gets each packet of a run after the run's first marker, with its [`Level`]: the occupancy of the
//! bucket and of the receiver buffer just after the packet. At the end of each frame or field it gets a commit: the
//! packets so far are judged, whatever follows. A meter writes its results to an output that the meters of all runs of
//! a flow share.
#![tactic(auto)]

pub mod laws;
mod level;
mod meter;
mod pair;
mod run;

pub use level::Level;
pub use meter::RunMeter;
pub use pair::Pair;
pub use run::{RunHead, RunPacket};
