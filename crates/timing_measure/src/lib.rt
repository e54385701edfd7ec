//! The commands that print numbers and pictures of the judged runs of captures: `measure` the numbers of every judged
//! run of every media as JSON, `series` the numbers of one flow as rows, and `page` the report as HTML.
//!
//! Each capture is read once; several are taken as one. While a flow is judged, meters are fed the packets of its runs.
//!
//! - `both`: two takers that are given the same packet records.
//! - `flows`: the flows of the media of a session, judged and measured.
//! - `laws`: contents have one answer; judged runs that are worked by hand.
//! - `page`, `series`: the commands.
//!
//! Captures and media count from 0, runs and packet records from 1; capture timestamps are nanoseconds.
#![tactic(auto)]

mod answer;
pub mod both;
pub mod flows;
pub mod laws;
mod measure;
mod measured;
pub mod page;
pub mod series;

pub use measure::MeasureCommand;
pub use page::PageCommand;
pub use series::SeriesCommand;
