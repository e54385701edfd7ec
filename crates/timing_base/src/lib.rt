//! The types that the analyser's crates share: media and sessions, packet records of captures,
//! packets and their faults, what is judged of a flow, its result in the report, and the jobs that
//! a command line requests. The crate also defines the faults, gaps and judged packets of a flow;
//! the crates above compute them.
//!
//! The types of media, sessions, jobs, shifts, file names, judged runs and lists of runs guarantee the
//! limits of their quantities. All other types hold any values.
//!
//! Files, media, frames and judged packets count from 0 here. In printed text files, media and runs
//! count from 1. The packet records of a capture count from 1 everywhere.
#![tactic(auto)]

mod address;
mod capture;
mod fail;
mod job;
mod key;
pub mod laws;
mod list;
mod media;
mod name;
mod packet;
mod row;
mod shift;
mod target;
pub mod worked;

pub use address::Address;
pub use capture::{FileNote, PcapFault};
pub use fail::{Broken, FailProof};
pub use job::{
    CaptureJob, CheckJob, ExplainJob, FlowJob, ReportJob, ScanForm, ScanJob, SdpJob, SelfTestJob,
    SeriesJob, ShapeJob, SkewJob, VerifyJob, WatchJob,
};
pub use key::{FlowKey, route};
pub use list::Items;
pub use media::{Kind, Media, Session};
pub use name::FileName;
pub use packet::{FlowPacket, PacketFault, Rtp};
pub use row::{Judged, KindVerdict, Row, Run, RunVerdict, Runs, Unjudged, Verdict};
pub use shift::{FlowOptions, Shift};
pub use target::Target;
