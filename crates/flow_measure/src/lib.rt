//! Measurements of one flow, per packet and per frame or field, the columns of its pictures, and the reports of them.
//!
//! A [`NumbersMeter`] collects all measurements of a judged run while the run is judged. It is made of a
//! [`SummaryMeter`], [`Bins`] and [`Classes`], which are fed whole numbers in order, and of [`BrokenGroups`], which is
//! fed whether each packet is broken. A [`Curve`] and an [`Eye`] hold the columns of a picture. No meter keeps a
//! history: its size doesn't grow with the count of numbers fed. Capture timestamps are nanoseconds of TAI. Numbers,
//! packets and groups are counted from 0. In identifiers, a group is a frame, or a field of interlaced video.
//!
//! - `laws`: theorems about the definitions, and numbers worked by hand.
//! - `report`: the measurements of all flows of a capture as JSON, and the line of a packet or a frame.
//! - `rows`: these lines of a judged run, written while the run is judged.
#![tactic(auto)]

mod bins;
mod broken;
mod buffer;
mod classes;
mod columns;
mod first;
mod frames;
mod gaps;
mod group_meter;
mod group_walk;
mod groups;
mod kind;
pub mod laws;
mod margin;
mod meters;
mod models;
mod numbers;
mod numbers_meter;
mod offset;
pub mod report;
pub mod rows;
mod steps;
mod summary;
mod target;
mod windows;

pub use bins::Bins;
pub use broken::BrokenGroups;
pub use classes::Classes;
pub use columns::{Curve, Extremes, Eye, Integer, Slope, width_of};
pub use frames::{latency_of, offset_of, since_start, step_of};
pub use group_walk::GroupWalk;
pub use margin::Margins;
pub use numbers::{Buffer, Gaps, KindNumbers, MeasuredFlow, MeasuredRun, Place, RunNumbers};
pub use numbers_meter::{MeasuredRuns, NumbersMeter};
pub use offset::micros_of;
pub use summary::{Summary, SummaryMeter};
