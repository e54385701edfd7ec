//! `page`: prints the report of captures as one page with pictures.
//!
//! While the flows are judged, all their judged runs are measured and drawn. Of each flow only the drawing of the
//! longest run is kept. The same packet records are scanned for the streams of the captures. Captures, media, packets
//! and frames or fields count from 0, runs and packet records from 1; capture timestamps are nanoseconds.

mod answer;
mod captures;
pub mod laws;
mod page;
mod shown;

pub use page::PageCommand;
