//! The common steps of all commands: opening the inputs, reading the SDP, printing the answer, and printing on standard
//! error why there is none.
//!
//! The result that the contents of a command's inputs define is an [`Answer`]; the reason why a run has none is a
//! [`Failure`]. A [`Command`] states what it asks of its inputs, and makes the answer from an SDP and captures.
//! [`run_command`] does the rest, in one order for all commands: the SDP is opened, then it may be refused, then the
//! captures are opened and read, and last the answer is printed.
#![tactic(auto)]

mod answer;
mod capture;
mod captures;
mod command;
mod failure;
mod fetch;
mod flow;
pub mod laws;
mod print;
mod printer;
mod stream;
mod take;
mod text;

pub use answer::Answer;
pub use capture::take_capture;
pub use captures::{TakenCaptures, take_captures, take_sources};
pub use command::{Command, begin, run_command};
pub use failure::Failure;
pub use fetch::{fetch_captures, fetch_classic, fetch_session, give_back, give_back_all};
pub use flow::{chosen_media, early_of_choice, early_of_media, first_chosen, media_of, not_judged};
pub use print::conclude;
pub use printer::Printer;
pub use stream::print_captures;
pub use take::take_source;
pub use text::fetch_front;
