//! The common parts of the rows: files in memory, the steps that make them, and calls of the program that are compared
//! with the expected result.

mod answer;
mod bytes;
mod lines;
mod row;
mod step;
mod untold;

pub use answer::{Outcome, SINKS, Sinks, answered};
pub use lines::{CHECK_TWO, HEADER, JOINED, NARROW};
pub use row::{FEW_WAYS, ONE_WAY, PASS, Reads, Row, WHOLE, hold, shelve};
pub use step::{PLAIN, Step};
pub use untold::{UntoldSource, Watch};
