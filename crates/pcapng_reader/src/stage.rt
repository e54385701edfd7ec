//! How far a converter has come.

ghost use Rattle.std.specs.Prelude.{◌≡◌, ◌≤◌, length, Some};
ghost use Rattle.pcapng_reader.specs.Converting.{found_with, found_interface};

use crate::block::{Interface, Order};

/// The code of the option with the unit of timestamps (if_tsresol).
const RESOLUTION: u16 = 9;

/// The code of the option with the offset of timestamps (if_tsoffset).
const OFFSET: u16 = 14;

/// The unit of timestamps if there is no such option: microseconds.
const MICROSECONDS: u8 = 6;

/// The block that the converter is in.
#[derive(Clone, Copy, Debug)]
pub struct Body {
    /// The byte order of the section.
    pub order: Order,
    /// The total length of the block, in bytes, as at its start.
    pub total: u32,
    /// The number of bytes left before the second total length.
    pub left: u32,
}

/// The contents of an interface description so far. Of several options of one kind the first
/// counts.
#[derive(Clone, Copy, Debug)]
pub struct Found {
    /// The offset of timestamps, in seconds, if an option has set it.
    pub offset: Option<u64>,
    /// The link type.
    pub link: u16,
    /// The unit of timestamps, if an option has set it.
    pub resolution: Option<u8>,
}

/// The result of a block, which applies once its end was read.
#[derive(Clone, Copy, Debug)]
pub enum Content {
    /// The block is malformed.
    Broken,
    /// A classic capture can't represent the timestamp.
    Late,
    /// The block begins a section.
    Section,
    /// The block describes an interface.
    Interface(Interface),
    /// The packet record that the window keeps.
    Record,
    /// The block is ignored.
    Nothing,
}

/// The place of a converter in a file.
#[derive(Clone, Copy, Debug)]
pub enum Stage {
    /// At the start; the first four bytes aren't known yet.
    Start,
    /// In a file that isn't pcapng, which is passed through unchanged.
    Through,
    /// At the start of a block.
    Block,
    /// At an option of an interface description.
    Options(Body, Found),
    /// In a block of which only the end is still to be checked.
    Passing(Body, Content),
    /// After the last block that is read.
    Over,
}

impl Found {
    /// Returns these contents with an option added, or `None` if the length of its value is wrong.
    pub fn with(self, order: Order, code: u16, value: &[u8]) -> Option<Found>
        ensures { result ≡ found_with order (record { code = code; value = value.now }) self }
    {
        match code {
            RESOLUTION => {
                if value.len() != 1 {
                    return None;
                }
                Some(Found {
                    offset: self.offset,
                    link: self.link,
                    resolution: Some(self.resolution.unwrap_or(value[0])),
                })
            }
            OFFSET => {
                if value.len() != 8 {
                    return None;
                }
                Some(Found {
                    offset: Some(self.offset.unwrap_or(order.read_u64(value, 0))),
                    link: self.link,
                    resolution: self.resolution,
                })
            }
            _ => Some(self),
        }
    }

    /// Returns the interface, after the last option.
    pub fn interface(self) -> Interface
        ensures { result ≡ found_interface self }
    {
        Interface {
            offset: self.offset.unwrap_or(0),
            link: self.link,
            resolution: self.resolution.unwrap_or(MICROSECONDS),
        }
    }
}
