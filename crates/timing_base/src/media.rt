//! Sender types, video streams and sessions.

ghost use Rattle.std.specs.Prelude.{◌≡◌};

use crate::address::Address;
use crate::list::Items;
use crate::target::Target;
use std::marker::Model;

/// A sender type of SMPTE ST 2110-21.
#[derive(Clone, Copy, Debug, PartialEq, Eq)]
pub enum Kind {
    /// Narrow.
    N,
    /// Narrow linear.
    NL,
    /// Wide.
    W,
}

/// One video stream of a session description: its addresses and what its timing depends on.
#[derive(Clone, Copy, Debug, PartialEq, Eq)]
pub struct Media {
    /// The line of the session description on which the media section begins, counted from 1.
    pub line: u32,
    /// The destination IPv4 address.
    pub address: Address,
    /// The destination UDP port, at least 1.
    pub port: u16,
    /// The RTP payload type, at most 127.
    pub pt: u8,
    /// The width of the picture in pixels, 1 to 32,767.
    pub width: u32,
    /// The height of the whole picture in lines, 1 to 32,767.
    pub height: u32,
    /// Whether a picture is sent as two fields.
    pub interlaced: bool,
    /// The numerator of the frame rate: `p / q` frames per second, exactly, and at most 240.
    pub p: u32,
    /// The denominator of the frame rate, 1 to 1,001.
    pub q: u32,
    /// The sender type that the session description declares (`TP`).
    pub declared: Option<Kind>,
    /// The offset of the first read that the session description gives (`TROFF`), in microseconds,
    /// at most 1,000,000.
    pub troff: Option<u32>,
    /// The limit of the bucket that the session description gives for the declared type (`CMAX`),
    /// in packets, 1 to 65,535.
    pub cmax: Option<u32>,
}

impl Model for Media {
    ghost use Rattle.timing_base.specs.Media.{Media as Seen, IsMedia};

    ghost Value = { Seen };

    ghost view = { λ m. record {
      line = m.line;
      address = m.address;
      port = m.port;
      pt = m.pt;
      width = m.width;
      height = m.height;
      interlaced = m.interlaced;
      p = m.p;
      q = m.q;
      declared = m.declared;
      troff = m.troff;
      cmax = m.cmax;
    } };

    ghost invariant = { λ m. IsMedia (view m) };

    ghost inverse = { λ m. record {
      line = m.line;
      address = m.address;
      port = m.port;
      pt = m.pt;
      width = m.width;
      height = m.height;
      interlaced = m.interlaced;
      p = m.p;
      q = m.q;
      declared = m.declared;
      troff = m.troff;
      cmax = m.cmax;
    } };
}

impl Media {
    ghost use Rattle.timing_base.specs.Targets.{target_of};

    /// Returns the address and port that the packets are sent to.
    pub fn target(&self) -> Target
        ensures { result ≡ target_of self.now }
    {
        Target {
            address: self.address,
            port: self.port,
        }
    }
}

/// The 1 to 64 video streams of a session description, in its order. Contracts see their list.
#[derive(Debug, Drop)]
pub struct Session {
    /// The media, counted from 0.
    pub media: Items<Media>,
}

impl Model for Session {
    ghost use Rattle.std.specs.Prelude.{List};
    ghost use Rattle.timing_base.specs.Media.{Media as Seen, IsSession};

    ghost Value = { List Seen };

    ghost view = { λ session. session.media };

    ghost invariant = { λ session. IsSession session.media };
}
