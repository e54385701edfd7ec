//! IPv4 addresses.

ghost use Rattle.std.specs.Prelude.{◌≡◌};
ghost use Rattle.timing_base.specs.Addresses.{ipv4, octets_of};

use std::fmt;

/// An IPv4 address, printed as `239.0.0.1`. Addresses are ordered by their octets, the first one
/// first.
#[derive(Clone, Copy, Debug, PartialEq, Eq, PartialOrd, Ord, Hash)]
pub struct Address {
    /// The four octets as one number, the first octet in the most significant byte.
    pub bits: u32,
}

impl Address {
    /// Returns the address `a.b.c.d`.
    pub fn new(a: u8, b: u8, c: u8, d: u8) -> Address
        ensures { result ≡ ipv4 a b c d }
    {
        Address {
            bits: a as u32 * 0x100_0000 + b as u32 * 0x1_0000 + c as u32 * 0x100 + d as u32,
        }
    }

    /// Returns the four octets, the first one first.
    pub fn octets(self) -> [u8; 4]
        ensures { result ≡ octets_of self }
    {
        self.bits.to_be_bytes()
    }
}

impl fmt::Display for Address {
    ghost use Rattle.std.specs.Prelude.{Some};
    ghost use Rattle.timing_base.specs.Addresses.{address_text};

    ghost output = { λ address. Some (address_text address) };

    fn fmt<W: fmt::Write>(&self, f: &mut fmt::Formatter<W>) -> fmt::Result {
        let [a, b, c, d] = self.bits.to_be_bytes();
        write!(f, "{a}.{b}.{c}.{d}")
    }
}
