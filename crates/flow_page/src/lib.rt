//! The report of a capture as one HTML page with pictures. The page has no script and loads no other file.
//!
//! The text of the page is made whole, as one string, from measurements. Tables show the verdicts and the measurements,
//! and pictures show the measurements. Names in the text are escaped.
//!
//! - `chart`: pictures of numbers, as SVG.
//! - `drawing`: the data for the pictures of the judged runs of a flow, collected while the runs are judged.
//! - `laws`: texts and numbers worked by hand.
#![tactic(auto)]

mod around;
pub mod chart;
pub mod drawing;
mod drift;
mod head;
pub mod laws;
mod levels;
mod media;
mod numbers;
mod often;
mod page;
mod peaks;
mod shown;
mod times;
mod timings;
mod words;

pub use page::page_text;
pub use shown::{Curves, FlowPage, Region, ShownRun};
