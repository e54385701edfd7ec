//! All files of a run, read and judged in parallel.

mod close;
mod columns;
mod ends;
mod gather;
mod jobs;
mod judge;
mod reading;
mod reads;
mod threads;

pub use judge::{FoundWhole, Judged, judge_files};
