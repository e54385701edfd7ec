//! Lanes from the readers of captures to a judging worker. All messages of a sender come in order, each once.
//!
//! A [`Lane`] is shared by reference. It is made with a [`SendPass`] for each sender and one [`TakePass`]. In contracts
//! a pass has the list of what was sent or taken with it. [`Lane::close`] takes all passes back and compares them.
//! Files, media and senders count from 0, packet records from 1. Capture timestamps are in nanoseconds since 1970-01-01
//! 00:00:00.
//!
//! The length of a lane isn't guaranteed, nor which thread waits for which.
#![tactic(auto)]

mod halt;
mod lane;
pub mod laws;
mod message;
mod packet;
mod passes;
mod rule;
mod turn;

pub use halt::{Halt, Raised};
pub use lane::{Closed, Lane, Working};
pub use message::{Batch, FileEnd, Message};
pub use packet::Packet;
pub use passes::{SendPass, TakePass};
pub use rule::{Entry, NoLesson, View};
pub use turn::{Reading, Turn};
