//! The flows of the media of a session, which are judged and measured while the captures are read.

mod flow;
mod judged;
mod output;
mod source;
mod take;

pub use flow::{FlowEnd, FlowMeter};
pub use judged::judged_media;
pub use output::FlowOutput;
pub use take::{TakenFlows, take_flows};
