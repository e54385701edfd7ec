//! Captures and session descriptions for the tests of several crates. Only these functions allocate
//! memory.

mod by_hand;
mod description;
mod path;
mod pcapng;
mod shelf;
mod spread;
mod usual;

pub use by_hand::{FRAME, HEAD, source_of};
pub use description::{MEDIA, described, three_media, two_paths};
pub use path::second_path;
pub use pcapng::{MICROS, NANOS, SECTION, as_pcapng, push_number, push_packet, without_interface};
pub use shelf::put;
pub use spread::{NARROW, Spread};
pub use usual::usual_equipment;
