//! How a session description is read: its videos, and what the reader passes over in it.
//!
//! [`describe`] reads a session description as `sdp_reader` does, and adds notes: on sections that aren't raw video,
//! on attributes of another format, on unknown parameters, on names that are nearly those of known parameters, and on
//! commas that stand where a semicolon is expected. A description that is refused has notes too, so a note often shows
//! why.
//!
//! - `laws`: laws of the definitions, and examples that are worked by hand.
//! - `report`: the result as lines of text and as JSON.
//!
//! Lines and media count from 1.
#![tactic(auto)]

mod described;
pub mod laws;
mod list;
mod near;
mod note;
mod pieces;
pub mod report;
mod section;

pub use described::{Described, describe};
pub use near::meant;
pub use note::{Attribute, Note};
