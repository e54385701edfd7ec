//! The command line, read as a request.
//!
//! The first argument is the command. [`read_words`] passes the others to one `clap` parser, which
//! separates options, flags and positional arguments. This crate tests which of them may be
//! missing, which exclude each other, how many positional arguments there may be, and all ranges.
//! The tests of values, the parsers and the commands are public, so that messages about an invalid
//! command line can use them.
#![tactic(auto)]

mod command;
mod help;
mod jobs;
pub mod laws;
mod line;
mod read;
mod request;
mod values;

pub use command::Command;
pub use help::{help_text, may_be_missing, usage_of};
pub use line::WordFault;
pub use read::read_words;
pub use request::Request;
pub use values::{
    check_workers, count, delay, every, file_name, kind_named, media, model_named, number, tai,
};
