//! The book in which threads post the results of flows for a report.
//!
//! A [`Book`] is shared by reference. A thread that posts a [`timing_base::Row`] gets a [`Receipt`], with which any
//! thread can read that result at any later time. A posted result stays unchanged until the book is dropped.
#![tactic(auto)]

mod book;

pub use book::{Book, Receipt};
