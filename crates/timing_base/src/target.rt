//! Destinations of packets.

use crate::address::Address;
use std::fmt;

/// The destination of a media: an IPv4 address and a UDP port, printed as `239.0.0.1:50000`.
#[derive(Clone, Copy, Debug, PartialEq, Eq, PartialOrd, Ord, Hash)]
pub struct Target {
    /// The IPv4 address.
    pub address: Address,
    /// The UDP port.
    pub port: u16,
}

impl fmt::Display for Target {
    ghost use Rattle.std.specs.Prelude.{Some};
    ghost use Rattle.timing_base.specs.Targets.{target_text};

    ghost output = { λ target. Some (target_text target) };

    fn fmt<W: fmt::Write>(&self, f: &mut fmt::Formatter<W>) -> fmt::Result {
        write!(f, "{}:{}", self.address, self.port)
    }
}
