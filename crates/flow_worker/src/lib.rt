//! The threads of a run: the intake of a file, a worker, both as a state machine, and all files of a run in parallel.
//!
//! An intake reads one file and sends the packets of the session's media over lanes, by [`intake`]; there is a lane for
//! each worker. A worker takes messages from its lane, by [`work`], and posts the result of each flow that is dealt to
//! it. `specs/Opening.antt` defines what a file has to send, and `specs/World.antt` has both as a state machine, with
//! what is proved of it. Files, media, lanes and workers count from 0, packet records from 1.
//!
//! - `crew`: all files of a run, read and judged by an intake for each file and a worker for each share of the flows.
//! - `laws`: theorems about the state machine, and runs worked by hand.
#![tactic(auto)]

mod apart_files;
pub mod crew;
mod intakes;
mod joined_files;
mod judges;
mod judging;
pub mod laws;
mod open_batch;
mod outboxes;
mod routing;
mod setting;
mod upcoming;
mod workers;

pub use intakes::{IntakeDone, intake};
pub use setting::RunSetting;
pub use workers::{WorkDone, work};
